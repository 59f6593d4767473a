//! What certificates are asked for, and where that of a file goes.

use draw_ops::Rules;

/// What certificates are asked for.
#[derive(Clone, Copy)]
pub(crate) struct Certifying<'a> {
    pub(crate) rules: Rules,
    pub(crate) width: u32,
    pub(crate) height: u32,
    pub(crate) folder: &'a str,
    /// Whether a plain file that has a certificate's name is replaced.
    pub(crate) replace: bool,
}

/// A file that was read, and where its certificate goes.
#[derive(Clone, Copy)]
pub(crate) struct Place<'a> {
    /// The file's name.
    pub(crate) name: &'a str,
    /// The path of its certificate.
    pub(crate) path: &'a str,
    /// The file's bytes.
    pub(crate) file: &'a [u8],
    /// The file's SHA-256 in hexadecimal digits.
    pub(crate) file_digest: &'a str,
}
