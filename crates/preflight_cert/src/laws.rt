//! Laws of runs, of what drawings paint, of sizes and needs, and of certificates.

ghost use Rattle.preflight_cert.specs.Answer.{AnswerLaws};
ghost use Rattle.preflight_cert.specs.ClearedFacts.{ClearedIsSound};
ghost use Rattle.preflight_cert.specs.CoreLaws.{CoreLaws};
ghost use Rattle.preflight_cert.specs.DrawingBoxLaws.{DrawingBoxLaws};
ghost use Rattle.preflight_cert.specs.MissedRowsLaws.{MissedRowsLaws};
ghost use Rattle.preflight_cert.specs.NeedLaws.{NeedLaws};
ghost use Rattle.preflight_cert.specs.ObjectOrder.{ObjectsAreInOrder};
ghost use Rattle.preflight_cert.specs.PreparationLaws.{PreparationLaws};
ghost use Rattle.preflight_cert.specs.PreparedLaws.{PreparedLaws};
ghost use Rattle.preflight_cert.specs.RowsLaws.{RowsLaws};
ghost use Rattle.preflight_cert.specs.Run.{RejectedOverAnyImage, RunEndsInOneWay, WritesAreOne};
ghost use Rattle.preflight_cert.specs.SizeLaws.{SizeLaws};
ghost use Rattle.preflight_cert.specs.TextLaws.{TextLaws};

use dc_stack::fault_law;
use draw_ops::{content_law, numbers_law};
use mapping::{box_law, cell_law, nib_law, placing_law, wide_cell_law};
use meta_headers::{file_law, opening_law};
use object_tables::{created_index_law, order_law};
use span_fill::{line_box_law, wide_stroke_law};

/// A run ends in only one way. Whether it is rejected, and with which fault, doesn't depend on the image that it starts
/// from. Without a fault it writes one number of pixels. At any point of it the objects are sorted by index, and each
/// index occurs once.
pub fn run_law()
    ensures end { RunEndsInOneWay }
    ensures refusal { RejectedOverAnyImage }
    ensures writes { WritesAreOne }
    ensures objects { ObjectsAreInOrder }
{
    file_law();
    order_law();
}

/// Under the core profile a run stops only in a step, or where the records break, and uses nothing that can be allowed.
/// A unit has one part throughout. The text of a certificate is that of its version.
pub fn core_law()
    ensures { CoreLaws }
{
    text_law();
}

/// The law of drawings' boxes. Take a box of the plane that contains the points of a shape. Unless the shape is the
/// inside of open figures, all its pixels lie in that box, placed on the surface and widened by the shape's nib. A
/// drawing writes at most the budget of its layers, by such a box and a nib at least as large as its own. This holds on
/// this surface and on each that is no larger.
pub fn drawing_box_law()
    ensures { DrawingBoxLaws }
{
    cell_law();
    wide_cell_law();
    nib_law();
    line_box_law();
    wide_stroke_law();
    placing_law();
}

/// The law of rows: drawing on two consecutive parts of some rows separately gives the same image as drawing on all of
/// these rows at once, for layers and for drawings, and the writes on the parts add up.
pub fn rows_law()
    ensures { RowsLaws }
{}

/// The law of missed rows. Take a box of the plane that contains a drawing's points. If that box, placed on the surface
/// and widened by the drawing's nib, lies outside some rows, the drawing leaves these rows unchanged and writes none of
/// their pixels.
pub fn missed_rows_law()
    ensures { MissedRowsLaws }
{
    cell_law();
    wide_cell_law();
    line_box_law();
    wide_stroke_law();
    placing_law();
}

/// The law of sizes: records without a fault on a surface have none on one that is no larger, and drawings that entries
/// cover write no more pixels there than the entries' budget on the larger one.
pub fn size_law()
    ensures { SizeLaws }
{
    drawing_box_law();
    fault_law();
}

/// There is exactly one answer to a file and a certificate. It is `accepted` exactly if the certificate fits the file's
/// records, and then the file is sound within the certificate's bound and writes.
pub fn answer_law()
    ensures { AnswerLaws }
{
    content_law();
    file_law();
    opening_law();
    size_law();
}

/// For every cleared file, the file that was opened is sound within the certificate's bound and writes.
pub fn cleared_law()
    ensures { ClearedIsSound }
{
    content_law();
    file_law();
    opening_law();
    size_law();
}

/// The law of needs. An operation within the capacity for its needs allocates no memory, and full capacity is enough
/// for any operation. An operation needs as many points as its drawing has. Earlier needs are within the needs of all
/// steps, and the needs of records without a fault are within those that any file can have.
pub fn need_law()
    ensures { NeedLaws }
{
    created_index_law();
}

/// The law of preparation: the certificate that is prepared for records that don't stop at its bound fits them; there
/// is only one, and each other one that fits them at that bound asks for no less.
pub fn preparation_law()
    ensures { PreparationLaws }
{
    cell_law();
    wide_cell_law();
    opening_law();
}

/// What is written as a certificate's text is read back unchanged. Bytes that are read are the text of the certificate
/// that they describe, and its numbers are within their limits.
pub fn text_law()
    ensures { TextLaws }
{}

/// The law of prepared certificates: a file that plays at a bound has a certificate for it, and what is prepared for a
/// file has all numbers within their limits and is accepted.
pub fn prepared_law()
    ensures { PreparedLaws }
{
    answer_law();
    box_law();
    need_law();
    numbers_law();
    opening_law();
    preparation_law();
    text_law();
}
