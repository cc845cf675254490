//! Laws of classes and arrays. Each function does nothing; its contract is the law.
ghost use Rattle.array_store.specs.Arrays.{ArrayReads, ArrayIsMade, ListIsArray, ArrayIsList};
ghost use Rattle.array_store.specs.Arrays.{ClassHolds, ClassIsLeast, ClassIsWidth, ClassIsNoNode, RecordHasClass};

/// A class is the least record width that holds a number of words.
pub fn class_law()
    ensures holds { ClassHolds }
    ensures least { ClassIsLeast }
    ensures width { ClassIsWidth }
    ensures no_node { ClassIsNoNode }
    ensures record { RecordHasClass }
{}

/// An array reads back as the items of which it was made. An array with items is a stored list.
pub fn array_law()
    ensures made { ArrayIsMade }
    ensures reads { ArrayReads }
    ensures array { ListIsArray }
    ensures list { ArrayIsList }
{}
