//! A loading as a task, which hands the attributes back.

ghost use Rattle.std.specs.Prelude.{IfOk, IfErr};
ghost use Rattle.attr_loader.specs.Loading.{CanLoad, IsSpent, Loads};

use crate::error::LoadError;
use crate::loaded::Loaded;
use crate::loader::load;
use attr_io::{Gate, Task};
use attr_types::Op;
use attribute_kinds::Attribute;
use image_format::AttrLayout;
use std::alloc::Global;
use store_api::Store;

/// A loading as a task, which returns the attributes.
#[derive(Drop)]
pub struct Loading<'a, const OFFSET_BITS: u32, S: Store<OFFSET_BITS, Layout = AttrLayout>, G> {
    pub alloc: Global,
    pub attribute: Attribute<OFFSET_BITS, S>,
    pub ops: &'a [Op],
    pub batch: u32,
    pub gate: &'a G,
}

impl<'a, const OFFSET_BITS: u32, S: Store<OFFSET_BITS, Layout = AttrLayout> + Drop, G: Gate> Task
    for Loading<'a, OFFSET_BITS, S, G> {
    type Output = Result<(Attribute<OFFSET_BITS, S>, Loaded), LoadError>;

    ghost can_run = { λ loading. CanLoad S.ledger loading.batch loading.ops.now loading.attribute };

    ghost run_gives = { λ loading result. IfOk result (λ r. Loads S.ledger loading.batch loading.ops.now loading.attribute r.0 r.1)
        × IfErr result (IsSpent S.ledger loading.ops.now loading.attribute) };

    fn run(self) -> Result<(Attribute<OFFSET_BITS, S>, Loaded), LoadError> {
        let Loading {
            alloc,
            mut attribute,
            ops,
            batch,
            gate,
        } = self;
        let loaded = load(alloc, &mut attribute, ops, batch, gate)?;
        Ok((attribute, loaded))
    }
}
