//! Settings for later drawing.

ghost use Rattle.std.specs.Prelude.{◌≡◌};
ghost use Rattle.draw_ops.specs.Settings.{background_mode_code, background_mode_of, fill_mode_code, fill_mode_of};

/// How the gaps of a hatched brush are painted ([MS-WMF] 2.1.1.20).
#[derive(Clone, Copy, Debug, PartialEq, Eq)]
pub enum BackgroundMode {
    /// They are left unchanged.
    Transparent,
    /// They get the background colour.
    Opaque,
}

impl BackgroundMode {
    /// The mode with this code. `None` exactly if the standard has none.
    pub fn from_code(code: u32) -> Option<BackgroundMode>
        ensures { result ≡ background_mode_of code }
    {
        match code {
            1 => Some(BackgroundMode::Transparent),
            2 => Some(BackgroundMode::Opaque),
            _ => None,
        }
    }

    /// The mode's code, 1 or 2.
    pub fn code(self) -> u8
        ensures { result ≡ background_mode_code self }
    {
        match self {
            BackgroundMode::Transparent => 1,
            BackgroundMode::Opaque => 2,
        }
    }
}

/// Which parts of a plane that is divided by the edges of polygons are filled ([MS-WMF] 2.1.1.25).
#[derive(Clone, Copy, Debug, PartialEq, Eq)]
pub enum FillMode {
    /// Those with an odd number of edges to one side.
    Alternate,
    /// Those that the polygons go around, counted with direction.
    Winding,
}

impl FillMode {
    /// The mode with this code. `None` exactly if the standard has none.
    pub fn from_code(code: u32) -> Option<FillMode>
        ensures { result ≡ fill_mode_of code }
    {
        match code {
            1 => Some(FillMode::Alternate),
            2 => Some(FillMode::Winding),
            _ => None,
        }
    }

    /// The mode's code, 1 or 2.
    pub fn code(self) -> u8
        ensures { result ≡ fill_mode_code self }
    {
        match self {
            FillMode::Alternate => 1,
            FillMode::Winding => 2,
        }
    }
}
