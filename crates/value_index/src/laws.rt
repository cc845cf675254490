//! Laws of indexes. Each function does nothing; its contract is the law.
ghost use Rattle.value_index.specs.Laws.{NothingIsIndex, IndexStays, IndexIsLawful, NothingIsOfForm, FormStays};
ghost use Rattle.value_index.specs.Laws.{KeyIsRead, FoundIsKey, ValueHasKey};

/// Root 0 is the index without values. An index stays the same while its records stay the same, and is a lawful index
/// of an image.
pub fn index_law()
    ensures nothing { NothingIsIndex }
    ensures stays { IndexStays }
    ensures lawful { IndexIsLawful }
    ensures plain { NothingIsOfForm }
    ensures form { FormStays }
{}

/// The record of a key reads as its value, and the index owns it. Each value that has documents has a key.
pub fn key_law()
    ensures read { KeyIsRead }
    ensures found { FoundIsKey }
    ensures there { ValueHasKey }
{}
