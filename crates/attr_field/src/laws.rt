//! Laws of an attribute's roots, for the crates above.

ghost use Rattle.attr_field.specs.Laws.{NothingIsField, FieldStays, FieldIsLawful};
ghost use Rattle.attr_field.specs.Laws.{FieldOwnsKeys, FieldReaches, FieldReachesOwn};
ghost use Rattle.value_index.specs.Laws.{FormStays, NothingIsOfForm};

use crate::documents_law;
use value_index::{index_law, key_law};

/// Roots 0 are an attribute without documents. An attribute stays the same while its records stay the same, and is
/// lawful as a part of an image. It owns what an image reaches of it, except old copies. The function does nothing;
/// its contract is the law. An index stays of its form.
#[tactic(none)]
pub fn field_law()
    ensures nothing { NothingIsField }
    ensures stays { FieldStays }
    ensures lawful { FieldIsLawful }
    ensures keys { FieldOwnsKeys }
    ensures reaches { FieldReaches }
    ensures own { FieldReachesOwn }
    ensures plain { NothingIsOfForm }
    ensures form { FormStays }
{
    documents_law();
    index_law();
    key_law();
}
