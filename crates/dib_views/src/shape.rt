//! What a bitmap's header says about its rows and pixels.

ghost use Rattle.std.specs.Prelude.{◌≡◌, ◌<◌, ◌≤◌};
ghost use Rattle.dib_views.specs.Pixels.{pixel_bits, row_size, rows_size, stored_row};
ghost use Rattle.dib_views.specs.Headers.{bit_count, full_table, is_table_size, row_order, table_entries};

/// Which row is stored first.
#[derive(Clone, Copy, Debug, PartialEq, Eq)]
pub enum RowOrder {
    /// The bottom row of the picture.
    BottomUp,
    /// The top row of the picture.
    TopDown,
}

/// The bits of a pixel ([MS-WMF] 2.1.1.3).
#[derive(Clone, Copy, Debug, PartialEq, Eq)]
pub enum BitCount {
    /// 1 bit, the index of one of 2 colours.
    One,
    /// 4 bits, the index of one of 16 colours.
    Four,
    /// 8 bits, the index of one of 256 colours.
    Eight,
    /// 16 bits: 5 bits each of red, green and blue.
    Sixteen,
    /// 24 bits: blue, green and red.
    TwentyFour,
    /// 32 bits: blue, green, red and 8 bits that are ignored.
    ThirtyTwo,
}

impl RowOrder {
    /// The order for the height in a header: the bottom row is stored first, or, if the height is negative, the top
    /// row.
    pub(crate) fn of_height(height: i32) -> RowOrder
        ensures { result ≡ row_order height }
    {
        if height < 0 {
            RowOrder::TopDown
        } else {
            RowOrder::BottomUp
        }
    }
}

impl BitCount {
    /// The bit count for the number in a header. `None` if the number isn't supported.
    pub(crate) fn from_number(number: u16) -> Option<BitCount>
        ensures { result ≡ bit_count number }
    {
        match number {
            1 => Some(BitCount::One),
            4 => Some(BitCount::Four),
            8 => Some(BitCount::Eight),
            16 => Some(BitCount::Sixteen),
            24 => Some(BitCount::TwentyFour),
            32 => Some(BitCount::ThirtyTwo),
            _ => None,
        }
    }

    /// The number of bits.
    pub(crate) fn number(self) -> u32
        ensures bits { result ≡ pixel_bits self }
        ensures few { result ≤ 32 }
    {
        match self {
            BitCount::One => 1,
            BitCount::Four => 4,
            BitCount::Eight => 8,
            BitCount::Sixteen => 16,
            BitCount::TwentyFour => 24,
            BitCount::ThirtyTwo => 32,
        }
    }

    /// How many entries of a colour table a pixel can refer to: 0 if a pixel contains its colour.
    pub(crate) fn full_table(self) -> u32
        ensures { result ≡ full_table self }
    {
        match self {
            BitCount::One => 2,
            BitCount::Four => 16,
            BitCount::Eight => 256,
            BitCount::Sixteen | BitCount::TwentyFour | BitCount::ThirtyTwo => 0,
        }
    }

    /// Whether a colour table may have this many entries: if pixels refer to them, at most as many as they can refer
    /// to.
    pub(crate) fn is_table_size(self, used: u32) -> bool
        ensures { result ≡ is_table_size self used }
    {
        self.full_table() == 0 || used <= self.full_table()
    }

    /// The number of entries in the colour table by ClrUsed, where 0 means all that pixels can refer to.
    pub(crate) fn table_entries(self, used: u32) -> u32
        ensures { result ≡ table_entries self used }
    {
        if used == 0 { self.full_table() } else { used }
    }
}

/// A bitmap's size, the bits of a pixel, and the order of its rows.
#[derive(Clone, Copy, Debug, PartialEq, Eq)]
pub struct DibShape {
    /// The width in pixels.
    pub width: u16,
    /// The height in pixels.
    pub height: u16,
    /// The bits of a pixel.
    pub bits: BitCount,
    /// Which row is stored first.
    pub order: RowOrder,
}

impl DibShape {
    /// The number of bytes in a row: as few as contain its pixels, in a multiple of four.
    pub(crate) fn row_size(self) -> usize
        ensures size { result ≡ row_size self.bits self.width }
        ensures bound { result ≤ 262144 }
    {
        let bits = u32::from(self.width) * self.bits.number();
        (bits + 31) as usize / 32 * 4
    }

    /// The number of bytes in all rows.
    pub(crate) fn rows_size(self) -> usize
        ensures { result ≡ rows_size self }
    {
        usize::from(self.height) * self.row_size()
    }

    /// The index of the stored row that is the picture's row `y`, counted from the top.
    pub(crate) fn stored_row(self, y: u32) -> usize
        requires { y < self.height }
        ensures row { result ≡ stored_row self.order self.height y }
        ensures within { result < self.height }
    {
        match self.order {
            RowOrder::BottomUp => (u32::from(self.height) - 1 - y) as usize,
            RowOrder::TopDown => y as usize,
        }
    }
}
