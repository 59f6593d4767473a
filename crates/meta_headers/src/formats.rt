//! The formats of metafiles: how files begin, and the formats' names.

ghost use Rattle.std.specs.Prelude.{◌≡◌};
ghost use Rattle.meta_headers.specs.Formats.{format_name, format_of};

use crate::emf_header::is_emf;
use crate::opened::FileFormat;
use crate::placeable_header::is_placeable;
use crate::plain_header::is_plain;

impl FileFormat {
    /// The format of a file by its first bytes, whatever its headers say. `None` if no metafile begins so.
    pub fn of(file: &[u8]) -> Option<FileFormat>
        ensures { result ≡ format_of file.now }
    {
        if is_placeable(file) {
            return Some(FileFormat::Placeable);
        }
        if is_emf(file) {
            return Some(FileFormat::Emf);
        }
        if is_plain(file) {
            Some(FileFormat::Plain)
        } else {
            None
        }
    }

    /// The format's name in reports: `placeable`, `wmf` or `emf`.
    pub fn name(self) -> &'static str
        ensures { result.now ≡ format_name self }
    {
        match self {
            FileFormat::Placeable => "placeable",
            FileFormat::Plain => "wmf",
            FileFormat::Emf => "emf",
        }
    }
}
