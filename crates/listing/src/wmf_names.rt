//! The names of WMF functions in the standard.

ghost use Rattle.std.specs.Prelude.{◌≡◌, ◌≤◌, IfSome, length};
ghost use Rattle.std.specs.Option.{option_map};
ghost use Rattle.listing.specs.WmfNames.{EachFunctionHasAName, wmf_name_of};

/// The name of a function ([MS-WMF] 2.1.1.1). `None` exactly if the standard has no such function.
pub fn function_name(function: u32) -> Option<&'static str>
    ensures name { option_map (λ name. name.now) result ≡ wmf_name_of function }
    ensures short { IfSome result (λ name. length name.now ≤ 27) }
{
    match function {
        0x0940 => Some("META_DIBBITBLT"),
        0x0b41 => Some("META_DIBSTRETCHBLT"),
        0x0f43 => Some("META_STRETCHDIB"),
        0x0000 => Some("META_EOF"),
        0x0213 => Some("META_LINETO"),
        0x061d => Some("META_PATBLT"),
        0x0325 => Some("META_POLYLINE"),
        0x0324 => Some("META_POLYGON"),
        0x0538 => Some("META_POLYPOLYGON"),
        0x041b => Some("META_RECTANGLE"),
        0x041f => Some("META_SETPIXEL"),
        0x02fc => Some("META_CREATEBRUSHINDIRECT"),
        0x02fb => Some("META_CREATEFONTINDIRECT"),
        0x00f7 => Some("META_CREATEPALETTE"),
        0x02fa => Some("META_CREATEPENINDIRECT"),
        0x01f0 => Some("META_DELETEOBJECT"),
        0x0142 => Some("META_DIBCREATEPATTERNBRUSH"),
        0x012d => Some("META_SELECTOBJECT"),
        0x0234 => Some("META_SELECTPALETTE"),
        0x0415 => Some("META_EXCLUDECLIPRECT"),
        0x0416 => Some("META_INTERSECTCLIPRECT"),
        0x0214 => Some("META_MOVETO"),
        0x0211 => Some("META_OFFSETVIEWPORTORG"),
        0x020f => Some("META_OFFSETWINDOWORG"),
        0x0127 => Some("META_RESTOREDC"),
        0x001e => Some("META_SAVEDC"),
        0x0201 => Some("META_SETBKCOLOR"),
        0x0102 => Some("META_SETBKMODE"),
        0x0103 => Some("META_SETMAPMODE"),
        0x0106 => Some("META_SETPOLYFILLMODE"),
        0x0104 => Some("META_SETROP2"),
        0x020e => Some("META_SETVIEWPORTEXT"),
        0x020d => Some("META_SETVIEWPORTORG"),
        0x020c => Some("META_SETWINDOWEXT"),
        0x020b => Some("META_SETWINDOWORG"),
        0x0149 => Some("META_SETLAYOUT"),
        0x0035 => Some("META_REALIZEPALETTE"),
        0x0037 => Some("META_SETPALENTRIES"),
        0x0105 => Some("META_SETRELABS"),
        0x0107 => Some("META_SETSTRETCHBLTMODE"),
        0x0108 => Some("META_SETTEXTCHAREXTRA"),
        0x0139 => Some("META_RESIZEPALETTE"),
        0x0209 => Some("META_SETTEXTCOLOR"),
        0x020a => Some("META_SETTEXTJUSTIFICATION"),
        0x012e => Some("META_SETTEXTALIGN"),
        0x0231 => Some("META_SETMAPPERFLAGS"),
        0x0436 => Some("META_ANIMATEPALETTE"),
        0x0626 => Some("META_ESCAPE"),
        0x0220 => Some("META_OFFSETCLIPRGN"),
        0x0228 => Some("META_FILLREGION"),
        0x0410 => Some("META_SCALEWINDOWEXT"),
        0x0412 => Some("META_SCALEVIEWPORTEXT"),
        0x0418 => Some("META_ELLIPSE"),
        0x0419 => Some("META_FLOODFILL"),
        0x0429 => Some("META_FRAMEREGION"),
        0x0521 => Some("META_TEXTOUT"),
        0x0548 => Some("META_EXTFLOODFILL"),
        0x061c => Some("META_ROUNDRECT"),
        0x0817 => Some("META_ARC"),
        0x081a => Some("META_PIE"),
        0x0830 => Some("META_CHORD"),
        0x0922 => Some("META_BITBLT"),
        0x0a32 => Some("META_EXTTEXTOUT"),
        0x0b23 => Some("META_STRETCHBLT"),
        0x0d33 => Some("META_SETDIBTODEV"),
        0x012a => Some("META_INVERTREGION"),
        0x012b => Some("META_PAINTREGION"),
        0x012c => Some("META_SELECTCLIPREGION"),
        0x01f9 => Some("META_CREATEPATTERNBRUSH"),
        0x06ff => Some("META_CREATEREGION"),
        _ => None,
    }
}

/// A law: the functions in the table of kinds have names, and no others have.
pub fn wmf_names_law()
    ensures { EachFunctionHasAName }
{}
