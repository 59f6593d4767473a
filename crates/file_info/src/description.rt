//! Reads the text in a file's header that names the program and the picture.

ghost use Rattle.std.specs.Prelude.{◌≡◌, ◌↔◌, ◌≤◌, ◌-◌, ◌*◌, IfOk, Some, length, option_map, slice_get, string_bytes, true};
ghost use Rattle.point_views.specs.Counts.{counts_in};
ghost use Rattle.file_info.specs.Description.{description_in, emf_description, has_description, text_of_units, without_last_zeros};

use meta_headers::FileFormat;
use point_views::{NumberWidth, u16_at, u32_at};
use std::alloc::{AllocError, Global};

/// The number of bytes in the fields of EMR_HEADER.
const EMR_HEADER: usize = 88;

/// The text in the header of a file of this format, without the zeros at its end ([MS-EMF] 2.2.9). `None` if there is
/// none, or if it isn't UTF-16.
pub(crate) fn description(
    alloc: Global,
    format: Option<FileFormat>,
    file: &[u8],
) -> Result<Option<String>, AllocError>
    ensures { IfOk result (λ text. option_map string_bytes text ≡ description_in format file.now) }
{
    match format {
        Some(FileFormat::Emf) => emf_description(alloc, file),
        Some(FileFormat::Placeable) | Some(FileFormat::Plain) | None => Ok(None),
    }
}

/// The text in the header of an EMF file.
fn emf_description(alloc: Global, file: &[u8]) -> Result<Option<String>, AllocError>
    ensures { IfOk result (λ text. option_map string_bytes text ≡ emf_description file.now) }
{
    if !has_description(file) {
        return Ok(None);
    }
    let count = u32_at(file, 60) as usize;
    let place = u32_at(file, 64) as usize;
    let mut units = units_in(alloc, &file[place..], count)?;
    drop_last_zeros(&mut units);
    text_of(alloc, units.as_slice())
}

/// Whether the header is complete, and the text lies behind its fields.
fn has_description(file: &[u8]) -> bool
    ensures { result ≡ has_description file.now }
{
    if file.len() < EMR_HEADER {
        return false;
    }
    let (size, count, place) = (u32_at(file, 4), u32_at(file, 60), u32_at(file, 64));
    let end = u64::from(place) + 2 * u64::from(count);
    size as usize <= file.len() && 88 <= place && end <= u64::from(size)
}

/// The first `count` code units in the bytes.
fn units_in(alloc: Global, bytes: &[u8], count: usize) -> Result<Vec<u16>, AllocError>
    requires { 2 * count ≤ length bytes.now }
    ensures { IfOk result (λ units. units.items ≡ counts_in NumberWidth.Short count bytes.now) }
{
    let mut units = Vec::with_capacity(alloc, count)?;
    for place in 0..count {
        units.push(u16_at(bytes, 2 * place))?;
    }
    Ok(units)
}

/// Removes the zeros at the end.
fn drop_last_zeros(units: &mut Vec<u16>)
    ensures { units.new.items ≡ without_last_zeros units.old.items }
{
    while ends_with_zero(units) {
        units.pop();
    }
}

/// Whether the last code unit is a zero.
fn ends_with_zero(units: &[u16]) -> bool
    ensures { result ≡ true ↔ slice_get units.now (length units.now - 1) ≡ Some 0 }
{
    match units.last() {
        Some(unit) => *unit == 0,
        None => false,
    }
}

/// The text of these code units, if there are any, and no surrogate is unpaired.
fn text_of(alloc: Global, units: &[u16]) -> Result<Option<String>, AllocError>
    ensures { IfOk result (λ text. option_map string_bytes text ≡ text_of_units units.now) }
{
    if units.is_empty() {
        return Ok(None);
    }
    match String::from_utf16(alloc, units)? {
        Ok(text) => Ok(Some(text)),
        Err(_) => Ok(None),
    }
}
