//! The functions of WMF records, by their names in [MS-WMF] 2.1.1.1.

// Bitmap records, 2.3.1.
pub(crate) const META_DIBBITBLT: u32 = 0x0940;

pub(crate) const META_DIBSTRETCHBLT: u32 = 0x0b41;

pub(crate) const META_STRETCHDIB: u32 = 0x0f43;

// Control records, 2.3.2.
pub(crate) const META_EOF: u32 = 0x0000;

// Drawing records, 2.3.3.
pub(crate) const META_LINETO: u32 = 0x0213;

pub(crate) const META_PATBLT: u32 = 0x061d;

pub(crate) const META_POLYLINE: u32 = 0x0325;

pub(crate) const META_POLYGON: u32 = 0x0324;

pub(crate) const META_POLYPOLYGON: u32 = 0x0538;

pub(crate) const META_RECTANGLE: u32 = 0x041b;

pub(crate) const META_SETPIXEL: u32 = 0x041f;

// Object records, 2.3.4.
pub(crate) const META_CREATEBRUSHINDIRECT: u32 = 0x02fc;

pub(crate) const META_CREATEFONTINDIRECT: u32 = 0x02fb;

pub(crate) const META_CREATEPALETTE: u32 = 0x00f7;

pub(crate) const META_CREATEPENINDIRECT: u32 = 0x02fa;

pub(crate) const META_DELETEOBJECT: u32 = 0x01f0;

pub(crate) const META_DIBCREATEPATTERNBRUSH: u32 = 0x0142;

pub(crate) const META_SELECTOBJECT: u32 = 0x012d;

pub(crate) const META_SELECTPALETTE: u32 = 0x0234;

// State records, 2.3.5.
pub(crate) const META_EXCLUDECLIPRECT: u32 = 0x0415;

pub(crate) const META_INTERSECTCLIPRECT: u32 = 0x0416;

pub(crate) const META_MOVETO: u32 = 0x0214;

pub(crate) const META_OFFSETVIEWPORTORG: u32 = 0x0211;

pub(crate) const META_OFFSETWINDOWORG: u32 = 0x020f;

pub(crate) const META_RESTOREDC: u32 = 0x0127;

pub(crate) const META_SAVEDC: u32 = 0x001e;

pub(crate) const META_SETBKCOLOR: u32 = 0x0201;

pub(crate) const META_SETBKMODE: u32 = 0x0102;

pub(crate) const META_SETLAYOUT: u32 = 0x0149;

pub(crate) const META_SETMAPMODE: u32 = 0x0103;

pub(crate) const META_SETPOLYFILLMODE: u32 = 0x0106;

pub(crate) const META_SETROP2: u32 = 0x0104;

pub(crate) const META_SETVIEWPORTEXT: u32 = 0x020e;

pub(crate) const META_SETVIEWPORTORG: u32 = 0x020d;

pub(crate) const META_SETWINDOWEXT: u32 = 0x020c;

pub(crate) const META_SETWINDOWORG: u32 = 0x020b;

// Records that are skipped: state records and META_ESCAPE, 2.3.6.
pub(crate) const META_REALIZEPALETTE: u32 = 0x0035;

pub(crate) const META_SETPALENTRIES: u32 = 0x0037;

pub(crate) const META_SETRELABS: u32 = 0x0105;

pub(crate) const META_SETSTRETCHBLTMODE: u32 = 0x0107;

pub(crate) const META_SETTEXTCHAREXTRA: u32 = 0x0108;

pub(crate) const META_RESIZEPALETTE: u32 = 0x0139;

pub(crate) const META_SETTEXTCOLOR: u32 = 0x0209;

pub(crate) const META_SETTEXTJUSTIFICATION: u32 = 0x020a;

pub(crate) const META_SETTEXTALIGN: u32 = 0x012e;

pub(crate) const META_SETMAPPERFLAGS: u32 = 0x0231;

pub(crate) const META_ANIMATEPALETTE: u32 = 0x0436;

pub(crate) const META_ESCAPE: u32 = 0x0626;

// Records that aren't supported.
pub(crate) const META_OFFSETCLIPRGN: u32 = 0x0220;

pub(crate) const META_FILLREGION: u32 = 0x0228;

pub(crate) const META_SCALEWINDOWEXT: u32 = 0x0410;

pub(crate) const META_SCALEVIEWPORTEXT: u32 = 0x0412;

pub(crate) const META_ELLIPSE: u32 = 0x0418;

pub(crate) const META_FLOODFILL: u32 = 0x0419;

pub(crate) const META_FRAMEREGION: u32 = 0x0429;

pub(crate) const META_TEXTOUT: u32 = 0x0521;

pub(crate) const META_EXTFLOODFILL: u32 = 0x0548;

pub(crate) const META_ROUNDRECT: u32 = 0x061c;

pub(crate) const META_ARC: u32 = 0x0817;

pub(crate) const META_PIE: u32 = 0x081a;

pub(crate) const META_CHORD: u32 = 0x0830;

pub(crate) const META_BITBLT: u32 = 0x0922;

pub(crate) const META_EXTTEXTOUT: u32 = 0x0a32;

pub(crate) const META_STRETCHBLT: u32 = 0x0b23;

pub(crate) const META_SETDIBTODEV: u32 = 0x0d33;

pub(crate) const META_INVERTREGION: u32 = 0x012a;

pub(crate) const META_PAINTREGION: u32 = 0x012b;

pub(crate) const META_SELECTCLIPREGION: u32 = 0x012c;

pub(crate) const META_CREATEPATTERNBRUSH: u32 = 0x01f9;

pub(crate) const META_CREATEREGION: u32 = 0x06ff;
