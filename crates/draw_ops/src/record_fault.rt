//! Why a record is rejected.

/// A fault that lies in a record of the file, so that a rejection can say in which one. It is shown like its fault
/// `Fault::Record`.
#[derive(Clone, Copy, Debug, PartialEq, Eq)]
pub enum RecordFault {
    // Its framing.
    /// The bytes end where a record should begin, without an end record.
    NoEnd,
    /// The record gives a size below that of its head, or in EMF one that isn't a multiple of 4.
    ShortRecord,
    /// The record gives a size that extends beyond the end of the file.
    PastEnd,
    /// There are more than 1,048,576 records.
    TooManyRecords,
    // Its kind, its parameters and its values.
    /// The standard has no record with this function or type.
    UnknownRecord(u32),
    /// The record, or a value in it, isn't supported.
    Unsupported(u32),
    /// Parameters are missing, counts do not add up, or an offset leads outside the record.
    BadParams,
    /// A parameter has a value that the standard does not allow.
    BadValue,
    /// A colour is given as an index into a palette.
    PaletteColour,
    /// The map mode is one of the metric modes, 2 to 6.
    MetricMode,
    // A bitmap in it.
    /// The header of a bitmap has a value that is not allowed.
    BadDib,
    /// The bitmap is compressed.
    CompressedDib,
    /// The bitmap ends before its header, colours or rows do.
    ShortDib,
    // An object, a saved state or a clip.
    /// The table of objects has no free slot.
    TableFull,
    /// The index of a new object is in use.
    HandleTaken,
    /// No object has this index.
    NoSuchHandle,
    /// The object is of a kind that can't be selected in this way.
    WrongKind,
    /// The record deletes an object that is selected, now or in a saved state.
    HeldObject,
    /// There is no such saved state to restore.
    NoSavedState,
    /// There are more than 256 saved states at a time.
    DepthLimit,
    /// There are more than 16 exclusions in the clip at a time.
    TooManyCuts,
    // A drawing, or the page map that it is drawn with.
    /// A window or viewport extent is set to 0.
    ZeroExtent,
    /// A coordinate leaves the plane, or the range of placed coordinates.
    OffPlane,
    /// The nib of a stroke has more than 4,096 columns or rows.
    NibTooWide,
    /// The raster operation needs a source bitmap, but there is none.
    SourceMissing,
    /// The source rectangle is empty, or not inside the bitmap.
    SourceOutside,
    /// A path record comes without a path, or with a path in another state.
    PathState,
    /// One drawing has more than 1,048,576 points.
    TooManyEdges,
    /// A path has more than 65,536 pieces.
    TooManyPieces,
    // What a certificate states about its drawing.
    /// The certificate has another drawing here, or none, or one too many.
    WrongEntry,
    /// The box of the entry doesn't contain a point of the drawing.
    BoxTooSmall,
    /// The nib of the entry is smaller than the drawing's at the bound.
    NibTooSmall,
    // The last record.
    /// The file contains EMF+, and its own records draw nothing. The print profile rejects that unless it is allowed.
    EmfPlusAlone,
}
