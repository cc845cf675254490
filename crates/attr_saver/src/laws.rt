//! Laws of saves. Each function does nothing; its contract is the law.
ghost use Rattle.attr_saver.specs.Images.{ImagesMayBeSaved};
ghost use Rattle.attr_saver.specs.Laws.{FirstColumnIsLawful, ReadAgain, ReadsSaves, SavesDiffer};

/// What was saved can be read again. What is read is lawful, and its bytes are all of the input. Two saves with the
/// same bytes are equal.
pub fn saved_law()
    ensures again { ReadAgain }
    ensures read { ReadsSaves }
    ensures differ { SavesDiffer }
{}

/// The first attribute of a lawful table whose values have the types of its attributes may be saved.
pub fn column_law()
    ensures { FirstColumnIsLawful }
{}

/// The save of a lawful image is lawful, so it can be read again.
pub fn image_save_law()
    ensures { ImagesMayBeSaved }
{}
