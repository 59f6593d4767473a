//! Laws of opened files.

ghost use Rattle.meta_headers.specs.File.{FileIsOne};
ghost use Rattle.meta_headers.specs.OpeningLaws.{OpeningLaws};

use draw_ops::content_law;
use mapping::part_law;

/// A file opens in only one way, and its records have only one content.
pub fn file_law()
    ensures { FileIsOne }
{
    content_law();
}

/// A file that opens has a frame with a width and height from 1 to 2^28, under any rules, and a handle count of 16 bits,
/// if it has one. A unit has one part, or the longer side has at most 2^20. Under the core rules a file opens as
/// `open_file` opens it.
pub fn opening_law()
    ensures { OpeningLaws }
{
    part_law();
}
