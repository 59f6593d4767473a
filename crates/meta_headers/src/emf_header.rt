//! EMR_HEADER ([MS-EMF] 2.3.4.2): Type, Size, Bounds, Frame, RecordSignature, Version, Bytes, Records, Handles, and
//! fields that are ignored. Frame, Version and Records are ignored too.

ghost use Rattle.std.specs.Prelude.{◌≡◌, ◌≤◌, ◌^◌, ◌&&◌, is_some, IfOk, IfErr, IfSome, length};
ghost use Rattle.draw_ops.specs.Fault.{IsInRecord};
ghost use Rattle.draw_ops.specs.Results.{result_map};
ghost use Rattle.mapping.specs.Limits.{is_frame_side};
ghost use Rattle.meta_headers.specs.EmfHeader.{bounds_height, bounds_side, bounds_width, emf_file, has_other_bytes, is_emf, is_emf_header_size};
ghost use Rattle.meta_headers.specs.OpenedOf.{opened_of};

use crate::notes_where::noted_where;
use crate::opened::{FileFormat, Opened};
use draw_ops::{Fault, Note, NoteSet, Rules, xy_at};
use mapping::{Frame, PageMap};
use point_views::{i32_at, u16_at, u32_at};

/// The type of EMR_HEADER.
const EMR_HEADER: u32 = 1;

/// The bytes ` EMF`, as a number.
const SIGNATURE: u32 = 0x464d4520;

/// The number of bytes in the fields that every header has.
const LEAST_HEADER: usize = 88;

/// Whether the file begins with the type of EMR_HEADER and has its signature.
pub(crate) fn is_emf(file: &[u8]) -> bool
    ensures { result ≡ is_emf file.now }
{
    file.len() >= 44 && u32_at(file, 0) == EMR_HEADER && u32_at(file, 40) == SIGNATURE
}

/// Opens an EMF file, or returns the first fault of its header.
pub(crate) fn open_emf(file: &[u8]) -> Result<Opened<'_>, Fault>
    ensures opened { emf_file file.entry.now ≡ result_map opened_of result }
    ensures format { IfOk result (λ o. o.format ≡ FileFormat.Emf) }
    ensures records { IfOk result (λ o. o.records.now ≡ file.entry.now) }
    ensures in_no_record { IfErr result (λ fault. IsInRecord fault → ⊥) }
    ensures no_memory { IfErr result (λ fault. fault ≡ Fault.OutOfMemory → ⊥) }
{
    if file.len() < LEAST_HEADER {
        return Err(Fault::ShortHeader);
    }
    let size = u32_at(file, 4) as usize;
    if !is_header_size(size) {
        return Err(Fault::BadHeader);
    }
    if file.len() < size {
        return Err(Fault::ShortHeader);
    }
    let Some(frame) = frame_of(file) else {
        return Err(Fault::NoFrame);
    };
    Ok(Opened {
        format: FileFormat::Emf,
        rules: Rules::CORE,
        frame,
        fine_frame: frame,
        start_map: PageMap::unscaled(xy_at(file, 8)),
        handles: Some(u16_at(file, 56)),
        notes: noted_where(has_other_bytes(file), NoteSet::none(), Note::SizeField),
        records: file,
    })
}

/// Whether a header may have this size.
fn is_header_size(size: usize) -> bool
    ensures { result ≡ is_emf_header_size size }
{
    LEAST_HEADER <= size && size % 4 == 0
}

/// The frame of the bounds. `None` if its width or height is too large.
fn frame_of(file: &[u8]) -> Option<Frame>
    requires { 88 ≤ length file.now }
    ensures some { is_some result ≡ (is_frame_side (bounds_width file.now) && is_frame_side (bounds_height file.now)) }
    ensures width { IfSome result (λ frame. frame.width ≡ bounds_width file.now) }
    ensures height { IfSome result (λ frame. frame.height ≡ bounds_height file.now) }
{
    let width = bounds_side(i32_at(file, 8), i32_at(file, 16));
    let height = bounds_side(i32_at(file, 12), i32_at(file, 20));
    framed(width, height)
}

/// The frame with this width and height. `None` if one of them is too large.
fn framed(width: u64, height: u64) -> Option<Frame>
    ensures some { is_some result ≡ (is_frame_side width && is_frame_side height) }
    ensures width { IfSome result (λ frame. frame.width ≡ width) }
    ensures height { IfSome result (λ frame. frame.height ≡ height) }
{
    let Ok(width) = u32::try_from(width) else {
        return None;
    };
    let Ok(height) = u32::try_from(height) else {
        return None;
    };
    Frame::new(width, height)
}

/// The width or height of the frame between two edges of the bounds, both inclusive.
fn bounds_side(first: i32, last: i32) -> u64
    ensures { result ≡ bounds_side first last }
{
    let side = i64::from(last) - i64::from(first) + 1;
    if side < 1 { 1 } else { side as u64 }
}

/// Whether the size in bytes in the header differs from the file's.
fn has_other_bytes(file: &[u8]) -> bool
    requires { 88 ≤ length file.now }
    ensures { result ≡ has_other_bytes file.now }
{
    u32_at(file, 48) as usize != file.len()
}
