//! META_PLACEABLE ([MS-WMF] 2.3.2.3): Key, HWmf, BoundingBox, Inch, Reserved, Checksum. META_HEADER follows it.

ghost use Rattle.std.specs.Prelude.{◌≡◌, ◌-ℤ◌, ◌+◌, ◌≤◌, ◌==◌, ◌||◌, unsigned_abs, is_none, IfSome, IfOk, IfErr, length, drop};
ghost use Rattle.draw_ops.specs.Fault.{IsInRecord};
ghost use Rattle.draw_ops.specs.NoteSet.{notes_in};
ghost use Rattle.draw_ops.specs.Results.{result_map};
ghost use Rattle.point_views.specs.Numbers.{i16_at};
ghost use Rattle.meta_headers.specs.OpenedOf.{opened_of};
ghost use Rattle.meta_headers.specs.PlaceableHeader.{boxed_file, has_other_checksum, has_other_fields, is_placeable, placeable_file, placeable_notes, xor_of_words};

use crate::notes_where::noted_where;
use crate::opened::{FileFormat, Opened};
use crate::standard_header::{has_other_size, is_header};
use draw_ops::{Fault, Note, NoteSet, Rules};
use mapping::{Frame, PageMap, Point};
use point_views::{i16_at, u16_at, u32_at};

/// The key, the first four bytes, as a number.
const PLACEABLE_KEY: u32 = 0x9ac6cdd7;

/// The offset of META_HEADER.
const HEADER_PLACE: usize = 22;

/// The number of bytes in both headers.
const HEADERS: usize = 40;

/// Whether the file begins with the key.
pub(crate) fn is_placeable(file: &[u8]) -> bool
    ensures { result ≡ is_placeable file.now }
{
    file.len() >= 4 && u32_at(file, 0) == PLACEABLE_KEY
}

/// Opens a placeable file, or returns the first fault of its headers.
pub(crate) fn open_placeable(file: &[u8]) -> Result<Opened<'_>, Fault>
    ensures opened { placeable_file file.entry.now ≡ result_map opened_of result }
    ensures format { IfOk result (λ o. o.format ≡ FileFormat.Placeable) }
    ensures records { IfOk result (λ o. o.records.now ≡ drop 40 file.entry.now) }
    ensures in_no_record { IfErr result (λ fault. IsInRecord fault → ⊥) }
    ensures no_memory { IfErr result (λ fault. fault ≡ Fault.OutOfMemory → ⊥) }
{
    if file.len() < HEADERS {
        return Err(Fault::ShortHeader);
    }
    if !is_header(file, HEADER_PLACE) {
        return Err(Fault::BadHeader);
    }
    open_boxed(file)
}

/// Opens a placeable file whose headers are complete and valid. Fails if the width or height of its box is 0.
fn open_boxed(file: &[u8]) -> Result<Opened<'_>, Fault>
    requires { 40 ≤ length file.now }
    ensures opened { boxed_file file.entry.now ≡ result_map opened_of result }
    ensures format { IfOk result (λ o. o.format ≡ FileFormat.Placeable) }
    ensures records { IfOk result (λ o. o.records.now ≡ drop 40 file.entry.now) }
    ensures in_no_record { IfErr result (λ fault. IsInRecord fault → ⊥) }
    ensures no_memory { IfErr result (λ fault. fault ≡ Fault.OutOfMemory → ⊥) }
{
    let corner = Point {
        x: coordinate(file, 6),
        y: coordinate(file, 8),
    };
    let dimensions = Point {
        x: side(file, 6, 10),
        y: side(file, 8, 12),
    };
    let Some(frame) = frame_of(dimensions) else {
        return Err(Fault::NoFrame);
    };
    let (_, records) = file.split_at(HEADERS);
    Ok(Opened {
        format: FileFormat::Placeable,
        rules: Rules::CORE,
        frame,
        fine_frame: frame,
        start_map: PageMap::placeable(corner, dimensions),
        handles: None,
        notes: notes(file),
        records,
    })
}

/// A coordinate of the box.
fn coordinate(file: &[u8], place: usize) -> i32
    requires { place + 2 ≤ length file.now }
    ensures { result ≡ i16_at file.now place }
{
    i32::from(i16_at(file, place))
}

/// The width or height of the box, from one coordinate to another.
fn side(file: &[u8], from: usize, to: usize) -> i32
    requires from { from + 2 ≤ length file.now }
    requires to { to + 2 ≤ length file.now }
    ensures value { result ≡ i16_at file.now to -ℤ i16_at file.now from }
    ensures bound { unsigned_abs result ≤ 65535 }
{
    i32::from(i16_at(file, to)) - i32::from(i16_at(file, from))
}

/// The frame of a box of this size. `None` if the width or height is 0.
fn frame_of(dimensions: Point) -> Option<Frame>
    requires wide { unsigned_abs dimensions.x ≤ 65535 }
    requires high { unsigned_abs dimensions.y ≤ 65535 }
    ensures none { is_none result ≡ (unsigned_abs dimensions.x == 0 || unsigned_abs dimensions.y == 0) }
    ensures width { IfSome result (λ frame. frame.width ≡ unsigned_abs dimensions.x) }
    ensures height { IfSome result (λ frame. frame.height ≡ unsigned_abs dimensions.y) }
{
    Frame::new(dimensions.x.unsigned_abs(), dimensions.y.unsigned_abs())
}

/// The notes of both headers.
fn notes(file: &[u8]) -> NoteSet
    requires { 40 ≤ length file.now }
    ensures { notes_in result ≡ placeable_notes file.now }
{
    let notes = noted_where(
        has_other_checksum(file),
        NoteSet::none(),
        Note::PlaceableChecksum,
    );
    let notes = noted_where(has_other_fields(file), notes, Note::PlaceableFields);
    noted_where(has_other_size(file, HEADER_PLACE), notes, Note::SizeField)
}

/// Whether the checksum isn't that of the ten words before it.
fn has_other_checksum(file: &[u8]) -> bool
    requires { 40 ≤ length file.now }
    ensures { result ≡ has_other_checksum file.now }
{
    u16_at(file, 20) != xor_of_words(file, 10)
}

/// The exclusive or of the first words.
fn xor_of_words(file: &[u8], words: usize) -> u16
    requires { words + words ≤ length file.now }
    ensures { result ≡ xor_of_words file.now words }
{
    let mut sum = 0;
    for i in 0..words {
        sum ^= u16_at(file, 2 * i);
    }
    sum
}

/// Whether the handle or the reserved field isn't 0.
fn has_other_fields(file: &[u8]) -> bool
    requires { 40 ≤ length file.now }
    ensures { result ≡ has_other_fields file.now }
{
    u16_at(file, 4) != 0 || u32_at(file, 16) != 0
}
