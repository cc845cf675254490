//! The meaning of the definition of the feed, row by row. Each function does nothing; its contract is the law.
ghost use Rattle.feed_reader.specs.Rows.{RefusedByFirstRow, TakenWithoutRow, RefusedByFirstFault, GivesEachOp};

/// A line is refused by the first row that holds, and gives an operation if and only if no row holds.
pub fn rows_law()
    ensures refused { RefusedByFirstRow }
    ensures taken { TakenWithoutRow }
{}

/// A feed is refused by its first faulty line, and gives the operations of its lines if and only if no line is
/// faulty.
pub fn first_fault_law()
    ensures refused { RefusedByFirstFault }
    ensures taken { GivesEachOp }
{}
