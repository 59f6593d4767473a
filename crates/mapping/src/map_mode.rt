//! How the page is mapped.

ghost use Rattle.std.specs.Prelude.{◌≡◌};
ghost use Rattle.mapping.specs.MapMode.{map_mode_code, map_mode_of};

/// How page coordinates are mapped ([MS-WMF] 2.1.1.16). The metric modes, 2 to 6, aren't supported.
#[derive(Clone, Copy, Debug, PartialEq, Eq)]
pub enum MapMode {
    /// A unit is a pixel of the device.
    Text,
    /// The standard scales both axes by the same factor. It is played like `Anisotropic`, with a note.
    Isotropic,
    /// The window is scaled to the viewport, separately on each axis.
    Anisotropic,
}

impl MapMode {
    /// The mode with this number. `None` exactly if no supported mode has it.
    pub fn from_code(code: u32) -> Option<MapMode>
        ensures { result ≡ map_mode_of code }
    {
        match code {
            1 => Some(MapMode::Text),
            7 => Some(MapMode::Isotropic),
            8 => Some(MapMode::Anisotropic),
            _ => None,
        }
    }

    /// The mode's number: 1, 7 or 8.
    pub fn code(self) -> u8
        ensures { result ≡ map_mode_code self }
    {
        match self {
            MapMode::Text => 1,
            MapMode::Isotropic => 7,
            MapMode::Anisotropic => 8,
        }
    }
}
