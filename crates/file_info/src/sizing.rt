//! Reads the sizes that a file's headers give.

ghost use Rattle.std.specs.Prelude.{◌≡◌, ◌≤◌, ◌<◌, ◌^◌, ◌*◌, ◌+◌, length};
ghost use Rattle.meta_headers.specs.OpenedOf.{opened_of};
ghost use Rattle.point_views.specs.Numbers.{number_at};
ghost use Rattle.file_info.specs.Info.{sizes_of};
ghost use Rattle.file_info.specs.Paper.{dots_in, dots_per_inch, emf_frame, emf_frame_in, has_device, has_inch, has_no_zero, is_given};
ghost use Rattle.file_info.specs.Paper.{is_short, length_of_pixels, length_of_units, paper_in, short_axes};

use crate::paper::{Axes, Sizes};
use mapping::Rect;
use meta_headers::{FileFormat, Opened};
use point_views::{i32_at, u16_at, u32_at};
use proportions::nearest;

/// Hundredths of a millimetre in an inch.
const INCH: u128 = 2540;

/// The number of bytes in the fields of EMR_HEADER.
const EMR_HEADER: usize = 88;

/// The sizes that the headers of an opened file give.
pub(crate) fn sizes(file: &[u8], opened: &Opened<'_>) -> Sizes
    ensures { result ≡ sizes_of file.now (opened_of opened.now) }
{
    let (width, height) = (opened.frame.width, opened.frame.height);
    Sizes {
        frame_width: width,
        frame_height: height,
        dots: dots_in(opened.format, file),
        paper: paper_in(opened.format, file, width, height),
        emf_frame: emf_frame_in(opened.format, file),
    }
}

/// The dots per inch that the headers give.
fn dots_in(format: FileFormat, file: &[u8]) -> Option<Axes>
    ensures { result ≡ dots_in format file.now }
{
    match format {
        FileFormat::Placeable => dots_of_placeable(file),
        FileFormat::Plain => None,
        FileFormat::Emf => dots_of_emf(file),
    }
}

/// The dots per inch of a placeable file, by Inch.
fn dots_of_placeable(file: &[u8]) -> Option<Axes>
    ensures { result ≡ dots_in FileFormat.Placeable file.now }
{
    if !has_inch(file) {
        return None;
    }
    let units = u128::from(u16_at(file, 14));
    short_axes(units, units)
}

/// The dots per inch of an EMF file, by Device and Millimeters.
fn dots_of_emf(file: &[u8]) -> Option<Axes>
    ensures { result ≡ dots_in FileFormat.Emf file.now }
{
    if !has_device(file) {
        return None;
    }
    let (pixels_x, pixels_y) = (u32_at(file, 72), u32_at(file, 76));
    let (millimetres_x, millimetres_y) = (u32_at(file, 80), u32_at(file, 84));
    short_axes(
        dots_per_inch(pixels_x, millimetres_x),
        dots_per_inch(pixels_y, millimetres_y),
    )
}

/// The size on paper of a frame with this width and height, if the headers give it.
fn paper_in(format: FileFormat, file: &[u8], width: u32, height: u32) -> Option<Axes>
    ensures { result ≡ paper_in format file.now width height }
{
    match format {
        FileFormat::Placeable => paper_of_placeable(file, width, height),
        FileFormat::Plain => None,
        FileFormat::Emf => paper_of_emf(file, width, height),
    }
}

/// The size on paper of a placeable file's frame, by Inch.
fn paper_of_placeable(file: &[u8], width: u32, height: u32) -> Option<Axes>
    ensures { result ≡ paper_in FileFormat.Placeable file.now width height }
{
    if !has_inch(file) {
        return None;
    }
    let units = u32::from(u16_at(file, 14));
    short_axes(
        length_of_units(width, units),
        length_of_units(height, units),
    )
}

/// Whether Inch is there, and isn't 0.
fn has_inch(file: &[u8]) -> bool
    ensures { result ≡ has_inch file.now }
{
    file.len() >= 16 && u16_at(file, 14) != 0
}

/// The size on paper of an EMF file's frame, by Device and Millimeters.
fn paper_of_emf(file: &[u8], width: u32, height: u32) -> Option<Axes>
    ensures { result ≡ paper_in FileFormat.Emf file.now width height }
{
    if !has_device(file) {
        return None;
    }
    let (pixels_x, pixels_y) = (u32_at(file, 72), u32_at(file, 76));
    let (millimetres_x, millimetres_y) = (u32_at(file, 80), u32_at(file, 84));
    short_axes(
        length_of_pixels(width, pixels_x, millimetres_x),
        length_of_pixels(height, pixels_y, millimetres_y),
    )
}

/// Whether Device and Millimeters are there, and have no 0.
fn has_device(file: &[u8]) -> bool
    ensures { result ≡ has_device file.now }
{
    if file.len() < EMR_HEADER {
        return false;
    }
    has_no_zero(file)
}

/// Whether Device and Millimeters have no 0.
fn has_no_zero(file: &[u8]) -> bool
    requires { 88 ≤ length file.now }
    ensures { result ≡ has_no_zero file.now }
{
    let has_pixels = is_given(file, 72) && is_given(file, 76);
    let has_millimetres = is_given(file, 80) && is_given(file, 84);
    has_pixels && has_millimetres
}

/// Whether the number of four bytes at an offset isn't 0.
fn is_given(file: &[u8], place: usize) -> bool
    requires { place + 4 ≤ length file.now }
    ensures { result ≡ is_given file.now place }
{
    u32_at(file, place) != 0
}

/// Frame, if the file is EMF.
fn emf_frame_in(format: FileFormat, file: &[u8]) -> Option<Rect>
    ensures { result ≡ emf_frame_in format file.now }
{
    match format {
        FileFormat::Placeable => None,
        FileFormat::Plain => None,
        FileFormat::Emf => frame_of_emf(file),
    }
}

/// Frame of an EMF file, if its header is complete.
fn frame_of_emf(file: &[u8]) -> Option<Rect>
    ensures { result ≡ emf_frame_in FileFormat.Emf file.now }
{
    if file.len() < EMR_HEADER {
        return None;
    }
    Some(emf_frame(file))
}

/// Frame of an EMF file.
fn emf_frame(file: &[u8]) -> Rect
    requires { 88 ≤ length file.now }
    ensures { result ≡ emf_frame file.now }
{
    Rect {
        l: i32_at(file, 24),
        t: i32_at(file, 28),
        r: i32_at(file, 32),
        b: i32_at(file, 36),
    }
}

/// A length in hundredths of a millimetre, by the units per inch.
fn length_of_units(units: u32, per_inch: u32) -> u128
    requires { 1 ≤ per_inch }
    ensures { result ≡ length_of_units units per_inch }
{
    nearest(u128::from(units) * INCH, u128::from(per_inch))
}

/// Dots per inch of a device with this many pixels on this many millimetres.
fn dots_per_inch(pixels: u32, millimetres: u32) -> u128
    requires { 1 ≤ millimetres }
    ensures { result ≡ dots_per_inch pixels millimetres }
{
    nearest(u128::from(pixels) * INCH, 100 * u128::from(millimetres))
}

/// A length in hundredths of a millimetre, by its pixels, and by the pixels and the millimetres of a device.
fn length_of_pixels(length: u32, pixels: u32, millimetres: u32) -> u128
    requires { 1 ≤ pixels }
    ensures { result ≡ length_of_pixels length pixels millimetres }
{
    nearest(product(length, millimetres), u128::from(pixels))
}

/// A length times a hundred times a number of millimetres.
fn product(length: u32, millimetres: u32) -> u128
    ensures value { result ≡ length * (100 * millimetres) }
    ensures short { result < 2 ^ 100 }
{
    u128::from(length) * (100 * u128::from(millimetres))
}

/// A number of each axis, if both have at most 32 bits.
fn short_axes(x: u128, y: u128) -> Option<Axes>
    ensures { result ≡ short_axes x y }
{
    if !(is_short(x) && is_short(y)) {
        return None;
    }
    Some(Axes {
        x: x as u32,
        y: y as u32,
    })
}

/// Whether a number has at most 32 bits.
fn is_short(number: u128) -> bool
    ensures { result ≡ is_short number }
{
    number <= u128::from(u32::MAX)
}
