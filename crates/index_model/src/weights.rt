//! The values of items, each with its weight.

ghost use Rattle.std.specs.Prelude.{◌≡◌, [], IfOk};
ghost use Rattle.index_model.specs.Changes.{first_weights};

use attr_types::{Item, Value};
use std::alloc::{AllocError, Global};
use std::collections::BTreeMap;

/// Returns the values of items, each with the weight of the first item that has it.
pub fn weights_of(alloc: Global, items: &[Item]) -> Result<BTreeMap<Value, i32>, AllocError>
    ensures weights { IfOk result (λ map. map.entries ≡ first_weights [] items.now) }
{
    let mut weights = BTreeMap::new(alloc);
    for item in items {
        if !weights.contains_key(&item.value) {
            weights.insert(item.value.clone()?, item.weight)?;
        }
    }
    Ok(weights)
}
