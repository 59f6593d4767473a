//! What is known of a file without a certificate.

use crate::paper::Sizes;
use crate::playing::Playing;
use crate::totals::Totals;
use draw_ops::Rules;
use meta_headers::FileFormat;

/// What is known of a file without a certificate.
#[derive(Drop)]
pub struct FileInfo {
    /// The rules under which the file was examined.
    pub rules: Rules,
    /// The format by the file's first bytes, if a metafile begins so.
    pub format: Option<FileFormat>,
    /// The sizes that the headers give. `None` if they have a fault.
    pub sizes: Option<Sizes>,
    /// The text in the header of an EMF file that names the program and the picture.
    pub description: Option<String>,
    pub totals: Totals,
    pub playing: Playing,
}
