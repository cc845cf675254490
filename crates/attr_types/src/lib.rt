//! Documents, values, operations and queries, and the plain table over which every answer is defined.
//!
//! An update consists of one change of the items in each attribute.
//!
//! Names identify attributes, kinds and value types.
//!
//! An ask is either a query, answered by the matching documents, or a dot product of weights, answered by documents
//! with their scores.
#![tactic(auto)]

mod act;
mod applied;
mod ask;
mod change;
mod changes_change;
mod doc;
mod document;
mod error;
mod field;
mod fitting;
mod items;
mod kind;
mod laws;
mod list;
mod names_field;
mod op;
mod order;
mod part;
mod query;
mod rounds;
mod score;
mod scores_laws;
mod set;
mod text;
mod types;
mod value;

pub use applied::Applied;
pub use ask::{Ask, Asks};
pub use change::{Act, Change, FieldChanges, WeightAct};
pub use changes_change::changed_items;
pub use doc::{Doc, DocList};
pub use document::updated_document;
pub use error::QueryError;
pub use field::{Field, Fields, MOST_FIELDS, Name};
pub use fitting::fits;
pub use items::{FieldItems, Item, Items, MOST_ITEMS};
pub use kind::{Kind, ValueType};
pub use laws::{document_law, hits_law, skip_law, step_law};
pub use list::ListOf;
pub use names_field::{begins_name, continues_name, field_named, is_name};
pub use op::{Op, Ops};
pub use order::{compare, order_law};
pub use part::{Part, Parts};
pub use query::{Leaf, Queries, Query};
pub use rounds::{RoundCounts, RoundList};
pub use score::{Score, ScoreList, scores_of};
pub use scores_laws::scores_law;
pub use text::Text;
pub use types::{kind_named, value_named};
pub use value::{Value, Values};
