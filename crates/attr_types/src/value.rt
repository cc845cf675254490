//! A value: a long or a text.

use crate::list::ListOf;
use crate::text::Text;

/// A value of a document.
#[derive(Clone, Debug, Drop)]
pub enum Value {
    Long(i64),
    Text(Text),
}

/// Values in order.
pub type Values = ListOf<Value>;
