//! A slow checker of whole images, whose contract cites the definitions of image_format; and a slow checker of trees,
//! whose contract cites those of tree_read.
#![tactic(auto)]

mod attribute;
mod blocks;
mod coverage;
mod dictionary;
mod documents;
mod fault;
mod image;
mod items;
mod keys;
mod node;
mod pairs;
mod postings;
mod read;
mod tables;
mod tree;
mod values;
mod words;

pub use fault::CheckFault;
pub use image::check_image;
pub use keys::{Keys, stored_long, stored_text};
pub use node::is_node_form;
pub use read::rest_of;
pub use tree::check_tree;
