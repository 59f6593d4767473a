//! Opening a plain WMF file, whose size is given by its records.

ghost use Rattle.std.specs.Prelude.{◌≡◌, ◌≢◌, ◌≤◌, pos, unsigned_abs, IfOk, IfErr, IfSome, length, drop};
ghost use Rattle.draw_ops.specs.Fault.{IsInRecord};
ghost use Rattle.draw_ops.specs.Results.{result_map};
ghost use Rattle.meta_headers.specs.OpenedOf.{opened_of};
ghost use Rattle.meta_headers.specs.PlainHeader.{is_plain, plain_file};

use crate::notes_where::noted_where;
use crate::opened::{FileFormat, Opened};
use crate::standard_header::{HEADER_LENGTH, begins_header, has_other_size, has_version};
use draw_ops::{Fault, Note, NoteSet, Rules};
use mapping::{Frame, PageMap, Point};
use wmf_records::first_extent;

/// Whether the file begins with the type and the size of META_HEADER.
pub(crate) fn is_plain(file: &[u8]) -> bool
    ensures { result ≡ is_plain file.now }
{
    file.len() >= 4 && begins_header(file, 0)
}

/// Opens a plain WMF file, or returns the first fault of its header.
pub(crate) fn open_plain(file: &[u8]) -> Result<Opened<'_>, Fault>
    ensures opened { plain_file file.entry.now ≡ result_map opened_of result }
    ensures format { IfOk result (λ o. o.format ≡ FileFormat.Plain) }
    ensures records { IfOk result (λ o. o.records.now ≡ drop 18 file.entry.now) }
    ensures in_no_record { IfErr result (λ fault. IsInRecord fault → ⊥) }
    ensures no_memory { IfErr result (λ fault. fault ≡ Fault.OutOfMemory → ⊥) }
{
    if file.len() < HEADER_LENGTH {
        return Err(Fault::ShortHeader);
    }
    if !has_version(file, 0) {
        return Err(Fault::BadHeader);
    }
    let (_, records) = file.split_at(HEADER_LENGTH);
    let Some((x, y)) = first_extent(records) else {
        return Err(Fault::NoFrame);
    };
    let dimensions = Point {
        x: i32::from(x),
        y: i32::from(y),
    };
    let Some(frame) = Frame::new(dimensions.x.unsigned_abs(), dimensions.y.unsigned_abs()) else {
        return Err(Fault::NoFrame);
    };
    Ok(Opened {
        format: FileFormat::Plain,
        rules: Rules::CORE,
        frame,
        fine_frame: frame,
        start_map: PageMap::plain(dimensions),
        handles: None,
        notes: noted_where(has_other_size(file, 0), NoteSet::none(), Note::SizeField),
        records,
    })
}
