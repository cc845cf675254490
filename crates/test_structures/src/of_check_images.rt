//! Rows of the checker of images, each with one word wrong.

ghost use Rattle.std.specs.Prelude.{◌≤◌, length, IfOk};

use crate::made::{Row, Words, one_field, records_of, two_fields};
use attr_types::{FieldItems, Fields, Item, Items, Kind, Value, ValueType};
use check_images::{CheckFault, check_image};
use image_format::shape_of;
use std::alloc::{AllocError, Global};

/// The attributes of an image: one, or those of `two_fields`.
#[derive(Clone, Copy)]
enum Attributes {
    One(Kind, ValueType),
    Two,
}

fn fields_of(alloc: Global, attributes: Attributes) -> Result<Fields, AllocError>
    ensures { IfOk result (λ fields. length fields ≤ 2) }
{
    match attributes {
        Attributes::One(kind, value) => {
            let fields = one_field(alloc, kind, value)?;
            Ok(fields)
        }
        Attributes::Two => {
            let fields = two_fields(alloc)?;
            Ok(fields)
        }
    }
}

/// What an image must be read as.
#[derive(Clone, Copy)]
enum Read<'a> {
    /// This many documents from one on, each with items of this number, or of these texts, and this weight.
    Documents(u64, usize, i64, &'a [&'a str], i32),
    /// This many documents of this many attributes.
    Sizes(usize, usize),
    /// The image is refused.
    Broken,
}

/// An image: its records, those that replace them, its root, its attributes with their shape, and what it must be read
/// as.
type Image<'a> = (
    &'a [Row<'a>],
    &'a [Row<'a>],
    u64,
    (Attributes, u32),
    Read<'a>,
);

/// Returns whether an item is this number or this text, with this weight.
fn is_item(item: &Item, number: i64, text: &str, weight: i32) -> bool {
    let same = match &item.value {
        Value::Long(found) => *found == number,
        Value::Text(found) => found.as_str() == text,
    };
    same && item.weight == weight
}

/// Returns whether items are of this number, or of these texts, and this weight.
fn are_items(items: &Items, number: i64, texts: &[&str], weight: i32) -> bool {
    let mut is_right = items.len() == texts.len();
    for (item, text) in items.as_slice().iter().zip(texts) {
        is_right &= is_item(item, number, text, weight);
    }
    is_right
}

/// Returns whether a document has exactly these items of one attribute.
fn has_items(fields: &FieldItems, number: i64, texts: &[&str], weight: i32) -> bool {
    let mut is_right = fields.len() == 1;
    for items in fields.as_slice() {
        is_right &= are_items(items, number, texts, weight);
    }
    is_right
}

/// Returns whether a table has this many documents from one on, each with exactly these items.
fn has_documents(
    table: &[(u64, FieldItems)],
    (first, count): (u64, usize),
    number: i64,
    texts: &[&str],
    weight: i32,
) -> bool {
    let mut is_right = table.len() == count;
    let mut document = first;
    for row in table {
        is_right &= row.0 == document;
        is_right &= has_items(&row.1, number, texts, weight);
        document = document.saturating_add(1);
    }
    is_right
}

/// Returns whether a table has this many documents, the first of this many attributes.
fn has_sizes(table: &[(u64, FieldItems)], documents: usize, attributes: usize) -> bool {
    match table.first() {
        Some(row) => table.len() == documents && row.1.len() == attributes,
        None => false,
    }
}

/// Returns whether a table has what its row says.
fn is_read(table: &[(u64, FieldItems)], read: Read) -> bool {
    match read {
        Read::Documents(first, count, number, texts, weight) => {
            has_documents(table, (first, count), number, texts, weight)
        }
        Read::Sizes(documents, attributes) => has_sizes(table, documents, attributes),
        Read::Broken => false,
    }
}

fn is_refused(fault: CheckFault, read: Read) -> bool {
    match read {
        Read::Documents(..) => false,
        Read::Sizes(..) => false,
        Read::Broken => fault == CheckFault::Broken,
    }
}

/// Returns whether an image is read as it must be, and its attributes have their shape.
fn reads(alloc: Global, image: &Image) -> Result<bool, AllocError> {
    let fields = fields_of(alloc, image.3.0)?;
    let records = records_of(alloc, image.0, image.1)?;
    let is_right = match check_image(alloc, &fields, &records, image.2) {
        Ok(table) => is_read(table.as_slice(), image.4),
        Err(fault) => is_refused(fault, image.4),
    };
    Ok(is_right & (shape_of(&fields) == image.3.1))
}

/// Returns the number of the first image that is read otherwise, or how many there are.
fn right_images(alloc: Global, images: &[Image]) -> Result<usize, AllocError> {
    for (i, image) in images.iter().enumerate() {
        if !reads(alloc, image)? {
            return Ok(i);
        }
    }
    Ok(images.len())
}

/// An image in which document 7 has the text `te` with weight -3.
const ONE_TEXT: [Row<'static>; 6] = [
    (1027, Words::Are(&[1, 1026, 2050, 0])),
    (1026, Words::Run(7, 1, 3072)),
    (3072, Words::Are(&[1, 4402341478397])),
    (1024, Words::Are(&[2, 0x7465000000000000])),
    (2050, Words::Run(1024, 1, 4096)),
    (2048, Words::Are(&[1, 34359738365])),
];

// attributes and their shape: shapes count kinds, and then types
const SINGLE_LONG: (Attributes, u32) = (Attributes::One(Kind::Single, ValueType::Long), 1);

const SINGLE_TEXT: (Attributes, u32) = (Attributes::One(Kind::Single, ValueType::Text), 2);

const ARRAY_LONG: (Attributes, u32) = (Attributes::One(Kind::Array, ValueType::Long), 3);

const ARRAY_TEXT: (Attributes, u32) = (Attributes::One(Kind::Array, ValueType::Text), 4);

const SET_LONG: (Attributes, u32) = (Attributes::One(Kind::WeightedSet, ValueType::Long), 5);

const SET_TEXT: (Attributes, u32) = (Attributes::One(Kind::WeightedSet, ValueType::Text), 6);

const TWO: (Attributes, u32) = (Attributes::Two, 14);

/// The value 5 in place of `te`, and a list of document 7 alone with weight 1.
const FIVE: Row<'static> = (1024, Words::Are(&[8, 5]));

const ONCE: Row<'static> = (2048, Words::Are(&[1, 30064771073]));

/// An image with a second attribute of longs beside that of texts: document 7 has 5, as the word of the posting says
/// too.
const NUMBER_TOO: [Row<'static>; 12] = [
    (1027, Words::Are(&[1, 1026, 2050, 0])),
    (1026, Words::Run(7, 1, 3072)),
    (3072, Words::Are(&[1, 4402341478397])),
    (1024, Words::Are(&[2, 0x7465000000000000])),
    (2050, Words::Run(1024, 1, 4096)),
    (2048, Words::Are(&[1, 34359738365])),
    (1028, Words::Are(&[1, 1026, 2050, 3074, 4098, 0, 0, 0])),
    (3074, Words::Run(7, 1, 4096)),
    (4096, Words::Are(&[8, 5])),
    (4098, Words::Run(4096, 1, 10240)),
    (5120, Words::Are(&[1, 30064771073])),
    (1027, Words::Are(&[])),
];

/// An image of nine documents from 7 on with the value 5, whose posting list is a bit vector.
const NINE: [Row<'static>; 6] = [
    (1027, Words::Are(&[9, 1026, 2050, 0])),
    (1026, Words::Run(7, 9, 1024)),
    (1024, Words::Are(&[8, 5])),
    (2050, Words::Run(1024, 1, 8589941762)),
    (7170, Words::Run(0, 1, 1029)),
    (1029, Words::Block(0xFF80, 0, 0xFF80)),
];

const IMAGES: [Image<'static>; 35] = [
    (
        &ONE_TEXT,
        &[(1026, Words::Run(7, 1, 1024)), FIVE, ONCE],
        1027,
        SINGLE_LONG,
        Read::Documents(7, 1, 5, &[""], 1),
    ),
    (
        &ONE_TEXT,
        &[(1026, Words::Run(7, 1, 1024)), ONCE],
        1027,
        SINGLE_TEXT,
        Read::Documents(7, 1, 0, &["te"], 1),
    ),
    // a document without a value
    (
        &ONE_TEXT,
        &[
            (1026, Words::Run(7, 1, 0)),
            (1027, Words::Are(&[1, 1026, 0, 0])),
        ],
        1027,
        SINGLE_TEXT,
        Read::Documents(7, 1, 0, &[], 1),
    ),
    (
        &ONE_TEXT,
        &[(3072, Words::Are(&[2, 1024, 1024, 0])), FIVE, ONCE],
        1027,
        ARRAY_LONG,
        Read::Documents(7, 1, 5, &["", ""], 1),
    ),
    (
        &ONE_TEXT,
        &[
            (3072, Words::Are(&[3, 1024, 2048, 1024])),
            (1024, Words::Are(&[2, 0xC3A9000000000000])),
            (2048, Words::Are(&[2, 0x7465000000000000])),
            (2050, Words::Node(2, 2, &[2048, 1024], &[8192, 8192])),
            (4096, Words::Are(&[1, 30064771073])),
        ],
        1027,
        ARRAY_TEXT,
        Read::Documents(7, 1, 0, &["é", "te", "é"], 1),
    ),
    (
        &ONE_TEXT,
        &[FIVE],
        1027,
        SET_LONG,
        Read::Documents(7, 1, 5, &[""], -3),
    ),
    (
        &ONE_TEXT,
        &[],
        1027,
        SET_TEXT,
        Read::Documents(7, 1, 0, &["te"], -3),
    ),
    // 16 documents of one value in one leaf
    (
        &ONE_TEXT,
        &[
            (1027, Words::Are(&[16, 1026, 2050, 0])),
            (1026, Words::Run(1, 16, 1024)),
            (1024, Words::Are(&[8, 12])),
            (2050, Words::Run(1024, 1, 10245)),
            (5122, Words::Run(1, 16, 1)),
        ],
        1027,
        SINGLE_LONG,
        Read::Documents(1, 16, 12, &[""], 1),
    ),
    // 17 documents in two leaves below a root
    (
        &ONE_TEXT,
        &[
            (1027, Words::Are(&[17, 3074, 2050, 0])),
            (3074, Words::Root(1026, 4098)),
            (1026, Words::Run(1, 9, 1024)),
            (4098, Words::Run(10, 8, 1024)),
            (1024, Words::Are(&[8, 12])),
            (2050, Words::Run(1024, 1, 10245)),
            (5122, Words::Root(6146, 7170)),
            (6146, Words::Run(1, 9, 1)),
            (7170, Words::Run(10, 8, 1)),
        ],
        1027,
        SINGLE_LONG,
        Read::Documents(1, 17, 12, &[""], 1),
    ),
    // the record that is replaced in the image of `te`, and its words
    (
        &ONE_TEXT,
        &[(1024, Words::Are(&[]))],
        1027,
        SET_TEXT,
        Read::Broken,
    ),
    (
        &ONE_TEXT,
        &[(1024, Words::Are(&[2, 0xFF00000000000000]))],
        1027,
        SET_TEXT,
        Read::Broken,
    ),
    (
        &ONE_TEXT,
        &[(3072, Words::Are(&[2, 4402341478397]))],
        1027,
        SET_TEXT,
        Read::Broken,
    ),
    (
        &ONE_TEXT,
        &[(3072, Words::Are(&[0, 0]))],
        1027,
        SET_TEXT,
        Read::Broken,
    ),
    (
        &ONE_TEXT,
        &[(1027, Words::Are(&[1, 1026, 2050, 1]))],
        1027,
        SET_TEXT,
        Read::Broken,
    ),
    (
        &ONE_TEXT,
        &[(1027, Words::Are(&[4294967296, 1026, 2050, 0]))],
        1027,
        SET_TEXT,
        Read::Broken,
    ),
    (
        &ONE_TEXT,
        &[(1027, Words::Are(&[1, 1025, 2050, 0]))],
        1027,
        SET_TEXT,
        Read::Broken,
    ),
    (
        &ONE_TEXT,
        &[(1026, Words::Node(1, 2, &[7], &[3072]))],
        1027,
        SET_TEXT,
        Read::Broken,
    ),
    (
        &ONE_TEXT,
        &[(1026, Words::Root(1026, 1026))],
        1027,
        SET_TEXT,
        Read::Broken,
    ),
    (
        &ONE_TEXT,
        &[(1026, Words::Run(0, 1, 3072))],
        1027,
        SET_TEXT,
        Read::Broken,
    ),
    (
        &ONE_TEXT,
        &[(1027, Words::Are(&[1, 1026, 0, 0]))],
        1027,
        SET_TEXT,
        Read::Broken,
    ),
    (
        &ONE_TEXT,
        &[(2050, Words::Are(&[1, 1]))],
        1027,
        SET_TEXT,
        Read::Broken,
    ),
    (
        &ONE_TEXT,
        &[(2050, Words::Run(1028, 1, 4096))],
        1027,
        SET_TEXT,
        Read::Broken,
    ),
    (
        &ONE_TEXT,
        &[(2050, Words::Run(1024, 1, 4097))],
        1027,
        SET_TEXT,
        Read::Broken,
    ),
    (
        &ONE_TEXT,
        &[(2048, Words::Are(&[0, 0]))],
        1027,
        SET_TEXT,
        Read::Broken,
    ),
    (
        &ONE_TEXT,
        &[(2048, Words::Are(&[1, 34359738366]))],
        1027,
        SET_TEXT,
        Read::Broken,
    ),
    // a second attribute has the same documents as the first
    (&NUMBER_TOO, &[], 1028, TWO, Read::Sizes(1, 2)),
    (
        &NUMBER_TOO,
        &[
            (3074, Words::Run(8, 1, 4096)),
            (5120, Words::Are(&[1, 34359738369])),
        ],
        1028,
        TWO,
        Read::Broken,
    ),
    (
        &NUMBER_TOO,
        &[(1028, Words::Are(&[1, 1026, 2050, 3074, 4098, 0, 0, 1]))],
        1028,
        TWO,
        Read::Broken,
    ),
    (
        &NUMBER_TOO,
        &[(1028, Words::Are(&[1, 1026, 2050, 0, 0, 0, 0, 0]))],
        1028,
        TWO,
        Read::Broken,
    ),
    // a bit vector: nine documents; no block, half a word, one more document, another block number, and eight documents
    (&NINE, &[], 1027, SINGLE_LONG, Read::Sizes(9, 1)),
    (
        &NINE,
        &[(1029, Words::Block(0, 0, 0))],
        1027,
        SINGLE_LONG,
        Read::Broken,
    ),
    (
        &NINE,
        &[(1029, Words::Are(&[0xFF80, 0xFF80]))],
        1027,
        SINGLE_LONG,
        Read::Broken,
    ),
    (
        &NINE,
        &[(1029, Words::Block(0xFF80, 63, 1))],
        1027,
        SINGLE_LONG,
        Read::Broken,
    ),
    (
        &NINE,
        &[(7170, Words::Run(1, 1, 1029))],
        1027,
        SINGLE_LONG,
        Read::Broken,
    ),
    (
        &NINE,
        &[
            (1026, Words::Run(7, 8, 1024)),
            (1029, Words::Block(0x7F80, 0, 0x7F80)),
        ],
        1027,
        SINGLE_LONG,
        Read::Broken,
    ),
];

#[test]
fn images_read_as_their_tables(rt: HostRuntime) -> Result<(), AllocError> {
    let right = right_images(rt.alloc(), &IMAGES)?;
    assert!(rt; right == IMAGES.len(), "image {right}");
    Ok(())
}
