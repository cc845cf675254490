//! The weights of a document's values before and after a change.
ghost use Rattle.std.specs.Prelude.{◌≡◌, IfOk, IsTrue};
ghost use Rattle.attr_field.specs.Steps.{GivesWeights};
ghost use Rattle.attr_types.specs.declared.kind.Kind.TheVariants.{Single};

use attr_types::{Item, Kind, Value};
use index_model::weights_of;
use std::alloc::{AllocError, Global};
use std::collections::BTreeMap;

/// The weights of a document's values before and after a change.
#[derive(Drop)]
pub struct Weights {
    pub before: BTreeMap<Value, i32>,
    pub after: BTreeMap<Value, i32>,
}

/// Returns whether an attribute has at most one item for each document.
fn is_single(kind: Kind) -> bool
    ensures { IsTrue result → kind ≡ Single }
{
    match kind {
        Kind::Single => true,
        Kind::Array => false,
        Kind::WeightedSet => false,
    }
}

/// Returns the weights of the values of these items. A document of a single has at most one item: no map is made.
pub fn change_weights(
    alloc: Global,
    kind: Kind,
    old: &[Item],
    new: &[Item],
) -> Result<Option<Weights>, AllocError>
    ensures weights { IfOk result (GivesWeights kind old.now new.now) }
{
    if is_single(kind) {
        return Ok(None);
    }
    let before = weights_of(alloc, old)?;
    let after = weights_of(alloc, new)?;
    Ok(Some(Weights { before, after }))
}
