//! Laws of dictionaries. Each function does nothing; its contract is the law.
ghost use Rattle.enum_dictionary.specs.Laws.{NothingIsDictionary, DictionaryStays, SetIsFound, RemovedIsGone};

/// Root 0 is the empty dictionary. A dictionary stays the same while the records of its nodes and keys stay the same.
pub fn dictionary_law()
    ensures nothing { NothingIsDictionary }
    ensures stays { DictionaryStays }
{}

/// After a set, the value is found with its key and word. After a remove, the value is not found. Every other value
/// is unchanged.
pub fn found_law()
    ensures set { SetIsFound }
    ensures removed { RemovedIsGone }
{}
