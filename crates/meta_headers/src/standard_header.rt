//! META_HEADER ([MS-WMF] 2.3.2.2): Type, HeaderSize, Version, Size, and three fields that are ignored.

ghost use Rattle.std.specs.Prelude.{◌≡◌, ◌+◌, ◌≤◌, ◌^◌, ◌<◌, length};
ghost use Rattle.meta_headers.specs.Headers.{begins_header, reports_other_size, has_version, is_header};

use point_views::{u16_at, u32_at};

/// The number of bytes in META_HEADER.
pub(crate) const HEADER_LENGTH: usize = 18;

/// The size of META_HEADER, in words of two bytes.
const HEADER_WORDS: u16 = 9;

/// Whether a header begins at an offset: its type is one of two, and its size in words is 9.
pub(crate) fn begins_header(file: &[u8], place: usize) -> bool
    requires { place + 4 ≤ length file.now }
    ensures { result ≡ begins_header file.now place }
{
    let header_type = u16_at(file, place);
    (header_type == 1 || header_type == 2) && u16_at(file, place + 2) == HEADER_WORDS
}

/// Whether the header at an offset has one of the two versions.
pub(crate) fn has_version(file: &[u8], place: usize) -> bool
    requires { place + 6 ≤ length file.now }
    ensures { result ≡ has_version file.now place }
{
    let version = u16_at(file, place + 4);
    version == 0x0100 || version == 0x0300
}

/// Whether there is a header at an offset.
pub(crate) fn is_header(file: &[u8], place: usize) -> bool
    requires { place + 6 ≤ length file.now }
    ensures { result ≡ is_header file.now place }
{
    begins_header(file, place) && has_version(file, place)
}

/// Whether the size in words in the header at an offset differs from that of the bytes from there on.
pub(crate) fn has_other_size(file: &[u8], place: usize) -> bool
    requires { place + 10 ≤ length file.now }
    ensures { result ≡ reports_other_size file.now place }
{
    let bytes = 2 * u32_at(file, place + 6) as usize;
    bytes != file.len() - place
}
