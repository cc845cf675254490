//! What a service asks of an image besides hits, from its records: documents in the order of their values, totals, the
//! best of some scores, and values in bulk.
#![tactic(auto)]

mod attribute;
mod bulk;
mod dictionary;
mod dictionary_groups;
mod dictionary_order;
mod document_list;
mod facets;
mod group_keys;
mod hit_set;
mod items;
mod leaf_terms;
mod lists;
mod longs;
mod numbers;
mod orders;
mod ranks;
mod runs;
mod score_keys;
mod walks;

pub use bulk::values;
pub use document_list::documents_from;
pub use facets::{groups, largest_groups};
pub use leaf_terms::terms;
pub use longs::write_longs;
pub use numbers::totals;
pub use ranks::sorted;
pub use score_keys::best;
