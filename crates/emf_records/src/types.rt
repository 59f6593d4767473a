//! The types of EMF records, by their names in [MS-EMF] 2.1.1.

// Bitmap records, 2.3.1.
pub(crate) const EMR_BITBLT: u32 = 76;

pub(crate) const EMR_STRETCHBLT: u32 = 77;

pub(crate) const EMR_STRETCHDIBITS: u32 = 81;

// Clipping records, 2.3.2.
pub(crate) const EMR_EXCLUDECLIPRECT: u32 = 29;

pub(crate) const EMR_INTERSECTCLIPRECT: u32 = 30;

pub(crate) const EMR_EXTSELECTCLIPRGN: u32 = 75;

// Comment records, 2.3.3.
pub(crate) const EMR_COMMENT: u32 = 70;

// Control records, 2.3.4.
pub(crate) const EMR_HEADER: u32 = 1;

pub(crate) const EMR_EOF: u32 = 14;

// Drawing records, 2.3.5.
pub(crate) const EMR_POLYGON: u32 = 3;

pub(crate) const EMR_POLYLINE: u32 = 4;

pub(crate) const EMR_POLYLINETO: u32 = 6;

pub(crate) const EMR_POLYPOLYLINE: u32 = 7;

pub(crate) const EMR_POLYPOLYGON: u32 = 8;

pub(crate) const EMR_SETPIXELV: u32 = 15;

pub(crate) const EMR_RECTANGLE: u32 = 43;

pub(crate) const EMR_LINETO: u32 = 54;

pub(crate) const EMR_FILLPATH: u32 = 62;

pub(crate) const EMR_STROKEANDFILLPATH: u32 = 63;

pub(crate) const EMR_STROKEPATH: u32 = 64;

pub(crate) const EMR_POLYGON16: u32 = 86;

pub(crate) const EMR_POLYLINE16: u32 = 87;

pub(crate) const EMR_POLYLINETO16: u32 = 89;

pub(crate) const EMR_POLYPOLYLINE16: u32 = 90;

pub(crate) const EMR_POLYPOLYGON16: u32 = 91;

// Object creation and manipulation records, 2.3.7 and 2.3.8.
pub(crate) const EMR_SELECTOBJECT: u32 = 37;

pub(crate) const EMR_CREATEPEN: u32 = 38;

pub(crate) const EMR_CREATEBRUSHINDIRECT: u32 = 39;

pub(crate) const EMR_DELETEOBJECT: u32 = 40;

pub(crate) const EMR_SELECTPALETTE: u32 = 48;

pub(crate) const EMR_CREATEDIBPATTERNBRUSHPT: u32 = 94;

pub(crate) const EMR_CREATEPALETTE: u32 = 49;

pub(crate) const EMR_EXTCREATEFONTINDIRECTW: u32 = 82;

pub(crate) const EMR_EXTCREATEPEN: u32 = 95;

// Path bracket records, 2.3.10.
pub(crate) const EMR_BEGINPATH: u32 = 59;

pub(crate) const EMR_ENDPATH: u32 = 60;

pub(crate) const EMR_CLOSEFIGURE: u32 = 61;

pub(crate) const EMR_ABORTPATH: u32 = 68;

// State records, 2.3.11.
pub(crate) const EMR_SETWINDOWEXTEX: u32 = 9;

pub(crate) const EMR_SETWINDOWORGEX: u32 = 10;

pub(crate) const EMR_SETVIEWPORTEXTEX: u32 = 11;

pub(crate) const EMR_SETVIEWPORTORGEX: u32 = 12;

pub(crate) const EMR_SETMAPMODE: u32 = 17;

pub(crate) const EMR_SETBKMODE: u32 = 18;

pub(crate) const EMR_SETPOLYFILLMODE: u32 = 19;

pub(crate) const EMR_SETROP2: u32 = 20;

pub(crate) const EMR_SETBKCOLOR: u32 = 25;

pub(crate) const EMR_MOVETOEX: u32 = 27;

pub(crate) const EMR_SAVEDC: u32 = 33;

pub(crate) const EMR_RESTOREDC: u32 = 34;

pub(crate) const EMR_SETLAYOUT: u32 = 115;

// Transform records, 2.3.12.
pub(crate) const EMR_SETWORLDTRANSFORM: u32 = 35;

pub(crate) const EMR_MODIFYWORLDTRANSFORM: u32 = 36;

// Records that are skipped.
pub(crate) const EMR_SETBRUSHORGEX: u32 = 13;

pub(crate) const EMR_SETMAPPERFLAGS: u32 = 16;

pub(crate) const EMR_SETSTRETCHBLTMODE: u32 = 21;

pub(crate) const EMR_SETTEXTALIGN: u32 = 22;

pub(crate) const EMR_SETCOLORADJUSTMENT: u32 = 23;

pub(crate) const EMR_SETTEXTCOLOR: u32 = 24;

pub(crate) const EMR_SETPALETTEENTRIES: u32 = 50;

pub(crate) const EMR_RESIZEPALETTE: u32 = 51;

pub(crate) const EMR_REALIZEPALETTE: u32 = 52;

pub(crate) const EMR_SETARCDIRECTION: u32 = 57;

pub(crate) const EMR_SETMITERLIMIT: u32 = 58;

pub(crate) const EMR_SETICMMODE: u32 = 98;

pub(crate) const EMR_DRAWESCAPE: u32 = 105;

pub(crate) const EMR_EXTESCAPE: u32 = 106;

pub(crate) const EMR_FORCEUFIMAPPING: u32 = 109;

pub(crate) const EMR_NAMEDESCAPE: u32 = 110;

pub(crate) const EMR_SETLINKEDUFIS: u32 = 119;

pub(crate) const EMR_SETTEXTJUSTIFICATION: u32 = 120;

// Records that aren't supported.
pub(crate) const EMR_POLYBEZIER: u32 = 2;

pub(crate) const EMR_POLYBEZIERTO: u32 = 5;

pub(crate) const EMR_OFFSETCLIPRGN: u32 = 26;

pub(crate) const EMR_SETMETARGN: u32 = 28;

pub(crate) const EMR_SCALEVIEWPORTEXTEX: u32 = 31;

pub(crate) const EMR_SCALEWINDOWEXTEX: u32 = 32;

pub(crate) const EMR_ANGLEARC: u32 = 41;

pub(crate) const EMR_ELLIPSE: u32 = 42;

pub(crate) const EMR_ROUNDRECT: u32 = 44;

pub(crate) const EMR_ARC: u32 = 45;

pub(crate) const EMR_CHORD: u32 = 46;

pub(crate) const EMR_PIE: u32 = 47;

pub(crate) const EMR_EXTFLOODFILL: u32 = 53;

pub(crate) const EMR_ARCTO: u32 = 55;

pub(crate) const EMR_POLYDRAW: u32 = 56;

pub(crate) const EMR_FLATTENPATH: u32 = 65;

pub(crate) const EMR_WIDENPATH: u32 = 66;

pub(crate) const EMR_SELECTCLIPPATH: u32 = 67;

pub(crate) const EMR_FILLRGN: u32 = 71;

pub(crate) const EMR_FRAMERGN: u32 = 72;

pub(crate) const EMR_INVERTRGN: u32 = 73;

pub(crate) const EMR_PAINTRGN: u32 = 74;

pub(crate) const EMR_MASKBLT: u32 = 78;

pub(crate) const EMR_PLGBLT: u32 = 79;

pub(crate) const EMR_SETDIBITSTODEVICE: u32 = 80;

pub(crate) const EMR_EXTTEXTOUTA: u32 = 83;

pub(crate) const EMR_EXTTEXTOUTW: u32 = 84;

pub(crate) const EMR_POLYBEZIER16: u32 = 85;

pub(crate) const EMR_POLYBEZIERTO16: u32 = 88;

pub(crate) const EMR_POLYDRAW16: u32 = 92;

pub(crate) const EMR_CREATEMONOBRUSH: u32 = 93;

pub(crate) const EMR_POLYTEXTOUTA: u32 = 96;

pub(crate) const EMR_POLYTEXTOUTW: u32 = 97;

pub(crate) const EMR_CREATECOLORSPACE: u32 = 99;

pub(crate) const EMR_SETCOLORSPACE: u32 = 100;

pub(crate) const EMR_DELETECOLORSPACE: u32 = 101;

pub(crate) const EMR_GLSRECORD: u32 = 102;

pub(crate) const EMR_GLSBOUNDEDRECORD: u32 = 103;

pub(crate) const EMR_PIXELFORMAT: u32 = 104;

pub(crate) const EMR_SMALLTEXTOUT: u32 = 108;

pub(crate) const EMR_COLORCORRECTPALETTE: u32 = 111;

pub(crate) const EMR_SETICMPROFILEA: u32 = 112;

pub(crate) const EMR_SETICMPROFILEW: u32 = 113;

pub(crate) const EMR_ALPHABLEND: u32 = 114;

pub(crate) const EMR_TRANSPARENTBLT: u32 = 116;

pub(crate) const EMR_GRADIENTFILL: u32 = 118;

pub(crate) const EMR_COLORMATCHTOTARGETW: u32 = 121;

pub(crate) const EMR_CREATECOLORSPACEW: u32 = 122;
