//! Laws of the documents of an attribute, for the crates above.

ghost use Rattle.attr_field.specs.DocumentsLaws.{NothingIsDocuments, DocumentsStay, DocumentsAreLawful, DocumentsReach};
ghost use Rattle.attr_field.specs.DocumentsLaws.{DocumentsHaveValues};

/// Root 0 has no documents. Documents stay the same while their records and those of their values stay the same. They
/// meet the conditions of a lawful image, and refer to the records of exactly their values. The function does
/// nothing; its contract is the law.
pub fn documents_law()
    ensures nothing { NothingIsDocuments }
    ensures stays { DocumentsStay }
    ensures lawful { DocumentsAreLawful }
    ensures reaches { DocumentsReach }
    ensures values { DocumentsHaveValues }
{}
