//! Laws of images. Each function does nothing; its contract is the law.
ghost use Rattle.image_format.specs.Examples.{OneTextIsLawful, OneTextReads, TwoFieldsAreLawful, TwoFieldsRead};
ghost use Rattle.image_format.specs.Examples.{MissingRecord, WrongCount, UnlawfulTable, MissingValue, WrongWeight, OtherDocument};
ghost use Rattle.image_format.specs.Laws.{ShapeTells, WordTellsForm, ListsAreFilled, BlockHasBits, BlockAscends};
ghost use Rattle.image_format.specs.Laws.{FormsAreThere, DictionaryIsIndex, ValuesAscend, AttributeIsLawful};
ghost use Rattle.image_format.specs.Laws.{TableHasColumns, ColumnsMakeTable, ColumnsHaveSameDocuments};
ghost use Rattle.image_format.specs.Laws.{ImageIsThere, AttributesAreLawful, ImageIsLawful, RootMakesImage, EmptyTable};
ghost use Rattle.image_format.specs.Laws.{TableIsLawful, TableHasType, OperationsFit, FieldsAreThere, RootHasWords, RootsAreThere};
ghost use Rattle.image_format.specs.Laws.{DictionaryNodesAreDistinct, LongReads, TextReads};

/// The shape determines the kinds and value types.
pub fn shape_law()
    ensures { ShapeTells }
{}

/// The value in a dictionary determines the form of its list. A block of a bit vector has the documents of its bits.
pub fn list_law()
    ensures form { WordTellsForm }
    ensures filled { ListsAreFilled }
    ensures bits { BlockHasBits }
    ensures ascends { BlockAscends }
{}

/// An attribute is lawful if its records are well formed and its dictionary is the index of its column.
pub fn attribute_law()
    ensures index { DictionaryIsIndex }
    ensures values { ValuesAscend }
    ensures lawful { AttributeIsLawful }
    ensures roots { RootsAreThere }
    ensures distinct { DictionaryNodesAreDistinct }
{}

/// Columns with the same documents, and their table.
pub fn table_law()
    ensures columns { TableHasColumns }
    ensures made { ColumnsMakeTable }
    ensures same { ColumnsHaveSameDocuments }
{}

/// A lawful image represents a lawful table with the image's types, has the column and the index of each field, and
/// its number of operations fits in 32 bits.
pub fn image_law()
    ensures table { TableIsLawful }
    ensures values { TableHasType }
    ensures fields { FieldsAreThere }
    ensures operations { OperationsFit }
    ensures empty { EmptyTable }
{}

/// An image is lawful if its root record names lawful attributes with the same documents.
pub fn root_law()
    ensures attributes { AttributesAreLawful }
    ensures lawful { ImageIsLawful }
    ensures made { RootMakesImage }
    ensures words { RootHasWords }
{}

/// Well-formed records exist, and so do all records that a lawful image reaches.
pub fn there_law()
    ensures forms { FormsAreThere }
    ensures image { ImageIsThere }
{}

/// The stored words of a value read as that value.
pub fn value_law()
    ensures long { LongReads }
    ensures text { TextReads }
{}

/// An image of one document, made by hand, is lawful and reads as that document.
pub fn one_text_law()
    ensures lawful { OneTextIsLawful }
    ensures reads { OneTextReads }
{}

/// An image of two attributes, made by hand, is lawful.
pub fn two_fields_law()
    ensures lawful { TwoFieldsAreLawful }
    ensures reads { TwoFieldsRead }
{}

/// An image with one broken record is not lawful: one example for each condition.
pub fn broken_law()
    ensures missing { MissingRecord }
    ensures count { WrongCount }
    ensures table { UnlawfulTable }
    ensures value { MissingValue }
    ensures weight { WrongWeight }
    ensures document { OtherDocument }
{}
