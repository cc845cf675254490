//! Laws of posting lists, for the crates above.

ghost use Rattle.posting_store.specs.Laws.{NothingIsList, ListStays, ListHasDocuments, ListIsThere};

/// 0 is the empty list, and every other list has a document. The records of a list exist, and it stays the same while
/// they stay the same. The function does nothing; its contract is the law.
pub fn list_law()
    ensures nothing { NothingIsList }
    ensures stays { ListStays }
    ensures filled { ListHasDocuments }
    ensures there { ListIsThere }
{}
