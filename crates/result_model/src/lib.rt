//! What a service asks of a table besides hits: documents in the order of their values, groups, totals, best scores,
//! values in bulk, and the terms of an attribute, as definitions over the plain table.
#![tactic(auto)]

mod direction;
mod group;
mod laws;
mod totals;

pub use direction::Direction;
pub use group::{Group, Groups};
pub use laws::{groups_law, orders_law, totals_law};
pub use totals::Totals;
