//! How each record is treated, by its function.

ghost use Rattle.std.specs.Prelude.{◌≡◌, length, true};
ghost use Rattle.draw_ops.specs.KindTable.{is_each_once};
ghost use Rattle.wmf_records.specs.Kinds.{wmf_functions, wmf_entry_of};

use crate::functions::*;

/// A supported record, by its name in the standard, or how other records are treated.
#[derive(Clone, Copy, Debug, PartialEq, Eq)]
pub(crate) enum WmfEntry {
    DibBitBlt,
    DibStretchBlt,
    StretchDib,
    Eof,
    LineTo,
    PatBlt,
    Polyline,
    Polygon,
    PolyPolygon,
    Rectangle,
    SetPixel,
    CreateBrushIndirect,
    CreateFontIndirect,
    CreatePalette,
    CreatePenIndirect,
    DeleteObject,
    DibCreatePatternBrush,
    SelectObject,
    SelectPalette,
    ExcludeClipRect,
    IntersectClipRect,
    MoveTo,
    OffsetViewportOrg,
    OffsetWindowOrg,
    RestoreDc,
    SaveDc,
    SetBkColor,
    SetBkMode,
    SetLayout,
    SetMapMode,
    SetPolyFillMode,
    SetRop2,
    SetViewportExt,
    SetViewportOrg,
    SetWindowExt,
    SetWindowOrg,
    /// It has no effect, and adds a note.
    Skipped,
    /// It isn't supported.
    Rejected,
}

/// How a record with this function is treated. `None` exactly if the standard has no such function.
pub(crate) fn entry_of(function: u32) -> Option<WmfEntry>
    ensures { result ≡ wmf_entry_of function }
{
    match function {
        META_DIBBITBLT => Some(WmfEntry::DibBitBlt),
        META_DIBSTRETCHBLT => Some(WmfEntry::DibStretchBlt),
        META_STRETCHDIB => Some(WmfEntry::StretchDib),
        META_EOF => Some(WmfEntry::Eof),
        META_LINETO => Some(WmfEntry::LineTo),
        META_PATBLT => Some(WmfEntry::PatBlt),
        META_POLYLINE => Some(WmfEntry::Polyline),
        META_POLYGON => Some(WmfEntry::Polygon),
        META_POLYPOLYGON => Some(WmfEntry::PolyPolygon),
        META_RECTANGLE => Some(WmfEntry::Rectangle),
        META_SETPIXEL => Some(WmfEntry::SetPixel),
        META_CREATEBRUSHINDIRECT => Some(WmfEntry::CreateBrushIndirect),
        META_CREATEFONTINDIRECT => Some(WmfEntry::CreateFontIndirect),
        META_CREATEPALETTE => Some(WmfEntry::CreatePalette),
        META_CREATEPENINDIRECT => Some(WmfEntry::CreatePenIndirect),
        META_DELETEOBJECT => Some(WmfEntry::DeleteObject),
        META_DIBCREATEPATTERNBRUSH => Some(WmfEntry::DibCreatePatternBrush),
        META_SELECTOBJECT => Some(WmfEntry::SelectObject),
        META_SELECTPALETTE => Some(WmfEntry::SelectPalette),
        META_EXCLUDECLIPRECT => Some(WmfEntry::ExcludeClipRect),
        META_INTERSECTCLIPRECT => Some(WmfEntry::IntersectClipRect),
        META_MOVETO => Some(WmfEntry::MoveTo),
        META_OFFSETVIEWPORTORG => Some(WmfEntry::OffsetViewportOrg),
        META_OFFSETWINDOWORG => Some(WmfEntry::OffsetWindowOrg),
        META_RESTOREDC => Some(WmfEntry::RestoreDc),
        META_SAVEDC => Some(WmfEntry::SaveDc),
        META_SETBKCOLOR => Some(WmfEntry::SetBkColor),
        META_SETBKMODE => Some(WmfEntry::SetBkMode),
        META_SETLAYOUT => Some(WmfEntry::SetLayout),
        META_SETMAPMODE => Some(WmfEntry::SetMapMode),
        META_SETPOLYFILLMODE => Some(WmfEntry::SetPolyFillMode),
        META_SETROP2 => Some(WmfEntry::SetRop2),
        META_SETVIEWPORTEXT => Some(WmfEntry::SetViewportExt),
        META_SETVIEWPORTORG => Some(WmfEntry::SetViewportOrg),
        META_SETWINDOWEXT => Some(WmfEntry::SetWindowExt),
        META_SETWINDOWORG => Some(WmfEntry::SetWindowOrg),
        META_REALIZEPALETTE => Some(WmfEntry::Skipped),
        META_SETPALENTRIES => Some(WmfEntry::Skipped),
        META_SETRELABS => Some(WmfEntry::Skipped),
        META_SETSTRETCHBLTMODE => Some(WmfEntry::Skipped),
        META_SETTEXTCHAREXTRA => Some(WmfEntry::Skipped),
        META_RESIZEPALETTE => Some(WmfEntry::Skipped),
        META_SETTEXTCOLOR => Some(WmfEntry::Skipped),
        META_SETTEXTJUSTIFICATION => Some(WmfEntry::Skipped),
        META_SETTEXTALIGN => Some(WmfEntry::Skipped),
        META_SETMAPPERFLAGS => Some(WmfEntry::Skipped),
        META_ANIMATEPALETTE => Some(WmfEntry::Skipped),
        META_ESCAPE => Some(WmfEntry::Skipped),
        META_OFFSETCLIPRGN => Some(WmfEntry::Rejected),
        META_FILLREGION => Some(WmfEntry::Rejected),
        META_SCALEWINDOWEXT => Some(WmfEntry::Rejected),
        META_SCALEVIEWPORTEXT => Some(WmfEntry::Rejected),
        META_ELLIPSE => Some(WmfEntry::Rejected),
        META_FLOODFILL => Some(WmfEntry::Rejected),
        META_FRAMEREGION => Some(WmfEntry::Rejected),
        META_TEXTOUT => Some(WmfEntry::Rejected),
        META_EXTFLOODFILL => Some(WmfEntry::Rejected),
        META_ROUNDRECT => Some(WmfEntry::Rejected),
        META_ARC => Some(WmfEntry::Rejected),
        META_PIE => Some(WmfEntry::Rejected),
        META_CHORD => Some(WmfEntry::Rejected),
        META_BITBLT => Some(WmfEntry::Rejected),
        META_EXTTEXTOUT => Some(WmfEntry::Rejected),
        META_STRETCHBLT => Some(WmfEntry::Rejected),
        META_SETDIBTODEV => Some(WmfEntry::Rejected),
        META_INVERTREGION => Some(WmfEntry::Rejected),
        META_PAINTREGION => Some(WmfEntry::Rejected),
        META_SELECTCLIPREGION => Some(WmfEntry::Rejected),
        META_CREATEPATTERNBRUSH => Some(WmfEntry::Rejected),
        META_CREATEREGION => Some(WmfEntry::Rejected),
        _ => None,
    }
}

/// A law: no function occurs twice in the table of kinds, which has 70 of them.
pub fn kinds_law()
    ensures each_once { is_each_once wmf_functions ≡ true }
    ensures whole { length wmf_functions ≡ 70 }
{}
