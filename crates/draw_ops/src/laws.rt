//! Laws of how bytes form records, and of the tables of faults and notes.

ghost use Rattle.draw_ops.specs.Framed.{FramedByFunction};
ghost use Rattle.draw_ops.specs.NumberLaws.{StepsAreNumbered};
ghost use Rattle.draw_ops.specs.PrefixLaws.{PrefixesAreCutShort};
ghost use Rattle.draw_ops.specs.RecordContent.{ContentIsOne};
ghost use Rattle.draw_ops.specs.Records.{FramedInOneWay};
ghost use Rattle.draw_ops.specs.TableLaws.{FaultTableLaws, NoteTableLaws};

use point_views::number_law;

/// Bytes form records in only one way, whatever the framing. They either spell one list of records, or break after one
/// list with one fault, and never both.
pub fn records_law()
    ensures one_way { FramedInOneWay }
    ensures by_function { FramedByFunction }
{}

/// Bytes have only one content, whatever the framing and the meaning of their records.
pub fn content_law()
    ensures { ContentIsOne }
{}

/// The step of record i has number i, whatever the framing and the meaning. The first record of a file is record 0.
pub fn numbers_law()
    ensures { StepsAreNumbered }
{}

/// If bytes spell records, a prefix that ends before the last record breaks after some of these records: the end is
/// missing (`NoEnd`) or a record is incomplete (`PastEnd`). The head of a record must contain its size and its kind;
/// otherwise a prefix could spell other records.
pub fn prefix_law()
    ensures { PrefixesAreCutShort }
{
    number_law();
}

/// Each code and name in the table of faults is unique, and so is each index and name in the table of notes. The codes
/// are 1 to 48; those of faults in a record are 10 to 39 and 46 to 48. The indexes are 0 to 8.
pub fn table_law()
    ensures faults { FaultTableLaws }
    ensures notes { NoteTableLaws }
{}
