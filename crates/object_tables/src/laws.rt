//! Laws of the indexes of new objects, and of the order of objects.

ghost use Rattle.object_tables.specs.OrderLaws.{OrderLaws};
ghost use Rattle.object_tables.specs.Table.{CreatedIndexIsBelowBound, LowestFreeIsLeast};

/// The law that says what the lowest free index is: it is free, and each one below it is in use.
pub fn lowest_free_law()
    ensures { LowestFreeIsLeast }
{}

/// The law that bounds the index of a new object: capacity up to the table's bound is enough for all.
pub fn created_index_law()
    ensures { CreatedIndexIsBelowBound }
{}

/// The law of the objects' order: they are sorted by index, each occurs once, and this stays so when one is added or
/// removed.
pub fn order_law()
    ensures { OrderLaws }
{}
