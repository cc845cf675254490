//! Images of attributes: which records a root reaches, what they represent, and when they are lawful.
#![tactic(auto)]

mod forms;
mod laws;
mod layout;
mod shape;

pub use forms::least_dense;
pub use laws::{
    attribute_law, broken_law, image_law, list_law, one_text_law, root_law, shape_law, table_law,
    there_law, two_fields_law, value_law,
};
pub use layout::AttrLayout;
pub use shape::shape_of;

/// The factor for what stands before the weight in a word: the document in an item of a short list, the value's
/// reference in an item of a weighted set. The low part of the word is the weight.
pub const WEIGHT_BASE: u64 = 4_294_967_296;

/// The greatest number of documents of a short posting list. A longer list is a tree or a bit vector.
pub const MOST_SHORT: usize = 8;

/// The first dictionary value that refers to a bit vector; the reference of its root is counted from here.
pub const FIRST_VECTOR: u64 = 8_589_934_592;

/// The least number of documents of a list that becomes a bit vector.
pub const LEAST_DENSE: u32 = 128;

/// The greatest number of all documents for each document of a list that becomes a bit vector.
pub const MOST_SPREAD: u32 = 32;

/// The number of words of a bit vector's block.
pub const BLOCK_WORDS: usize = 64;

/// The number of documents that have a bit in a block.
pub const BLOCK_DOCUMENTS: u64 = 4096;
