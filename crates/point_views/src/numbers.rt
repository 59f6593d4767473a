//! Numbers in a file: the one place where bytes become numbers.

ghost use Rattle.std.specs.Prelude.{◌≡◌, ◌+◌, ◌/◌, ◌≤◌, length, drop};
ghost use Rattle.point_views.specs.Numbers.{i8_at, i16_at, i32_at, number_at, number_size, signed_number, unsigned_number};

use byteorder::{ByteOrder, LittleEndian};

/// The unsigned number of one byte at an offset.
pub fn u8_at(bytes: &[u8], place: usize) -> u8
    requires { place + 1 ≤ length bytes.now }
    ensures { result ≡ number_at bytes.now place 1 }
{
    bytes[place]
}

/// The unsigned number of two bytes at an offset.
pub fn u16_at(bytes: &[u8], place: usize) -> u16
    requires { place + 2 ≤ length bytes.now }
    ensures { result ≡ number_at bytes.now place 2 }
{
    LittleEndian::read_u16(&bytes[place..])
}

/// The unsigned number of four bytes at an offset.
pub fn u32_at(bytes: &[u8], place: usize) -> u32
    requires { place + 4 ≤ length bytes.now }
    ensures { result ≡ number_at bytes.now place 4 }
{
    LittleEndian::read_u32(&bytes[place..])
}

/// The signed number of one byte at an offset.
pub fn i8_at(bytes: &[u8], place: usize) -> i8
    requires { place + 1 ≤ length bytes.now }
    ensures { result ≡ i8_at bytes.now place }
{
    u8_at(bytes, place).cast_signed()
}

/// The signed number of two bytes at an offset.
pub fn i16_at(bytes: &[u8], place: usize) -> i16
    requires { place + 2 ≤ length bytes.now }
    ensures { result ≡ i16_at bytes.now place }
{
    LittleEndian::read_i16(&bytes[place..])
}

/// The signed number of four bytes at an offset.
pub fn i32_at(bytes: &[u8], place: usize) -> i32
    requires { place + 4 ≤ length bytes.now }
    ensures { result ≡ i32_at bytes.now place }
{
    LittleEndian::read_i32(&bytes[place..])
}

/// The width of the numbers in a list. All are little-endian.
#[derive(Clone, Copy, Debug, PartialEq, Eq)]
pub enum NumberWidth {
    /// 16 bits, 2 bytes.
    Short,
    /// 32 bits, 4 bytes.
    Long,
}

impl NumberWidth {
    /// The number of bytes of a number.
    pub(crate) fn size(self) -> usize
        ensures { result ≡ number_size self }
    {
        match self {
            NumberWidth::Short => 2,
            NumberWidth::Long => 4,
        }
    }

    /// How many numbers this many bytes contain.
    pub(crate) fn held_in(self, bytes: usize) -> usize
        ensures { result ≡ bytes / number_size self }
    {
        match self {
            NumberWidth::Short => bytes / 2,
            NumberWidth::Long => bytes / 4,
        }
    }
}

/// The signed number at an offset.
pub(crate) fn signed_at(bytes: &[u8], place: usize, width: NumberWidth) -> i32
    requires { place + number_size width ≤ length bytes.now }
    ensures { result ≡ signed_number width (drop place bytes.now) }
{
    match width {
        NumberWidth::Short => i32::from(i16_at(bytes, place)),
        NumberWidth::Long => i32_at(bytes, place),
    }
}

/// The unsigned number at an offset.
pub(crate) fn unsigned_at(bytes: &[u8], place: usize, width: NumberWidth) -> u32
    requires { place + number_size width ≤ length bytes.now }
    ensures { result ≡ unsigned_number width (drop place bytes.now) }
{
    match width {
        NumberWidth::Short => u32::from(u16_at(bytes, place)),
        NumberWidth::Long => u32_at(bytes, place),
    }
}
