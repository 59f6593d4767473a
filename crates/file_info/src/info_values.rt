//! Values in the report about a file: its format and its sizes.

ghost use Rattle.std.specs.Prelude.{◌≡◌, IfOk, option_map, string_bytes};
ghost use Rattle.serde_json.specs.View.{view};
ghost use Rattle.file_info.specs.InfoReport.{axes_data, box_data, dots_if, edges_data, emf_frame_if, format_data, frame_data, paper_if, records_data};

use crate::info::FileInfo;
use crate::paper::{Axes, Sizes};
use mapping::Rect;
use meta_headers::FileFormat;
use report_parts::pair_value;
use serde_json::{Value, json};
use std::alloc::{AllocError, Global};

/// The name of a format, or null if there is none.
pub(crate) fn format_value(alloc: Global, format: Option<FileFormat>) -> Result<Value, AllocError>
    ensures { IfOk result (λ value. view value ≡ format_data format) }
{
    match format {
        Some(format) => Value::try_from_str(alloc, format.name()),
        None => Ok(Value::Null),
    }
}

/// The text in the header, if there is one.
pub(crate) fn description_of(info: &FileInfo) -> Option<&str>
    ensures { option_map (λ text. text.now) result ≡ option_map string_bytes info.now.description }
{
    match &info.description {
        Some(text) => Some(text.as_str()),
        None => None,
    }
}

/// The number of records, or null if the file has no format.
pub(crate) fn records_value(format: Option<FileFormat>, records: u32) -> Value
    ensures { view result ≡ records_data format records }
{
    match format {
        Some(_) => Value::from(records),
        None => Value::Null,
    }
}

/// Dots per inch, if they are known.
pub(crate) fn dots_of(sizes: Option<Sizes>) -> Option<Axes>
    ensures { result ≡ dots_if sizes }
{
    match sizes {
        Some(sizes) => sizes.dots,
        None => None,
    }
}

/// The size on paper, if it is known.
pub(crate) fn paper_of(sizes: Option<Sizes>) -> Option<Axes>
    ensures { result ≡ paper_if sizes }
{
    match sizes {
        Some(sizes) => sizes.paper,
        None => None,
    }
}

/// The frame's width and height, or null if they aren't known.
pub(crate) fn frame_value(alloc: Global, sizes: Option<Sizes>) -> Result<Value, AllocError>
    ensures { IfOk result (λ value. view value ≡ frame_data sizes) }
{
    match sizes {
        Some(sizes) => pair_value(alloc, sizes.frame_width, sizes.frame_height),
        None => Ok(Value::Null),
    }
}

/// The numbers of both axes, or null if they aren't known.
pub(crate) fn axes_value(alloc: Global, axes: Option<Axes>) -> Result<Value, AllocError>
    ensures { IfOk result (λ value. view value ≡ axes_data axes) }
{
    match axes {
        Some(axes) => pair_value(alloc, axes.x, axes.y),
        None => Ok(Value::Null),
    }
}

/// Frame of an EMF file, or null if there is none.
pub(crate) fn box_value(alloc: Global, sizes: Option<Sizes>) -> Result<Value, AllocError>
    ensures { IfOk result (λ value. view value ≡ box_data (emf_frame_if sizes)) }
{
    match emf_frame_of(sizes) {
        Some(edges) => edges_value(alloc, edges),
        None => Ok(Value::Null),
    }
}

/// Frame of an EMF file, if there is one.
fn emf_frame_of(sizes: Option<Sizes>) -> Option<Rect>
    ensures { result ≡ emf_frame_if sizes }
{
    match sizes {
        Some(sizes) => sizes.emf_frame,
        None => None,
    }
}

/// Left, top, right and bottom of a box.
fn edges_value(alloc: Global, edges: Rect) -> Result<Value, AllocError>
    ensures { IfOk result (λ value. view value ≡ edges_data edges) }
{
    json!(in alloc; [edges.l, edges.t, edges.r, edges.b])
}
