//! Reading a B+tree of 64-bit keys and values whose nodes are records: nodes, key orders, search and cursors.
//!
//! Key orders say how a stored key is read, in which order keys are, and which key is sought.
//!
//! Nodes are read word by word or as slots, and searched for a key.
//!
//! A tree is read by finding a key, counting its pairs, walking them in order, or passing on all keys. No call here
//! allocates memory.
#![tactic(auto)]

mod cursor;
mod finding;
mod images_laws;
mod key;
mod keys;
mod node_format;
mod node_search;
mod number;
mod order_laws;
mod path;
mod read;
mod search_laws;
mod slots;

pub use cursor::Cursor;
pub use finding::{find, total};
pub use images_laws::{example_law, frame_law, node_law, tree_law};
pub use key::KeyOrder;
pub use keys::{TakesKeys, take_keys};
pub use node_format::{FIRST_KEY, FIRST_VALUE, LEAST_SLOTS, LEVEL_BASE, MOST_SLOTS, NODE_WORDS};
pub use node_search::{Spot, child_at, first_slot, place_of, visit};
pub use number::NumberKey;
pub use order_laws::{key_law, keyed_law, pair_law, put_law, take_out_law};
pub use read::{Head, read_head, read_node, read_words, slots_of, used_in};
pub use search_laws::{place_law, search_law};
pub use slots::{Slots, append};
