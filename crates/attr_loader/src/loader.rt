//! Loads operations in batches, with a commit and a step of compaction after each.

ghost use Rattle.std.specs.Prelude.{IfOk, IfErr};
ghost use Rattle.attr_loader.specs.Loading.{CanLoad, IsSpent, Loads};

use crate::batch::{Batch, load_batch};
use crate::error::LoadError;
use crate::loaded::{Loaded, NoRoom};
use attr_io::Gate;
use attr_types::Op;
use attribute_kinds::Attribute;
use image_format::{AttrLayout, image_law};
use std::alloc::Global;
use store_api::Store;

/// Loads operations in batches of this size, with a commit and a pass of the gate after each batch; the last batch
/// may be smaller. Stops when space runs out, or no commit is left; the last commit remains.
pub fn load<const OFFSET_BITS: u32, S: Store<OFFSET_BITS, Layout = AttrLayout>, G: Gate>(
    alloc: Global,
    attribute: &mut Attribute<OFFSET_BITS, S>,
    ops: &[Op],
    batch: u32,
    gate: &G,
) -> Result<Loaded, LoadError>
    requires { CanLoad S.ledger batch ops.now attribute.old }
    ensures loads { IfOk result (Loads S.ledger batch ops.now attribute.old attribute.new) }
    ensures spent { IfErr result (IsSpent S.ledger ops.now attribute.old) }
{
    image_law();
    let mut rest = ops;
    let mut operations: u32 = 0;
    let mut skipped: u32 = 0;
    while !rest.is_empty() {
        let (part, next) = rest.split_at(rest.len().min(batch as usize));
        match load_batch(alloc, attribute, part, gate)? {
            Batch::Done { skipped: more } => {
                operations += part.len() as u32;
                skipped += more;
                rest = next;
            }
            Batch::Full {
                refused,
                active,
                held,
            } => {
                let full = Some(NoRoom {
                    operation: operations + refused,
                    active,
                    held,
                });
                return Ok(Loaded {
                    operations,
                    skipped,
                    full,
                });
            }
        }
    }
    Ok(Loaded {
        operations,
        skipped,
        full: None,
    })
}
