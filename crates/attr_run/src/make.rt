//! Operations made from a number.

ghost use Rattle.std.specs.Prelude.{◌≡◌, ◌<◌, ◌++◌, [], IfOk, length, map};
ghost use Rattle.std.specs.List.{AllByRecursion};
ghost use Rattle.attr_types.specs.Lawful.{OpFits};
ghost use Rattle.attr_types.specs.declared.change.Change.TheVariants.{Keep};
ghost use Rattle.attr_run.specs.Made.{put_items, update_changes, op_by, made};

use crate::draw::next_draw;
use crate::made_laws::made_law;
use crate::value::{change_by, items_by};
use attr_types::{Change, Doc, Field, FieldChanges, FieldItems, Fields, Items, Op, Ops};
use std::alloc::{AllocError, Global};

fn with_empty(alloc: Global, items: FieldItems, others: &[Field]) -> Result<FieldItems, AllocError>
    ensures { IfOk result (λ all. all ≡ items ++ map (λ _. []) others.now) }
{
    let mut all = items;
    for _ in others {
        all.push(Items::new(alloc))?;
    }
    Ok(all)
}

fn with_keeps(changes: FieldChanges, others: &[Field]) -> Result<FieldChanges, AllocError>
    ensures { IfOk result (λ all. all ≡ changes ++ map (λ _. Keep) others.now) }
{
    let mut all = changes;
    for _ in others {
        all.push(Change::Keep)?;
    }
    Ok(all)
}

fn put_items(alloc: Global, fields: &[Field], a: u32, b: u32) -> Result<FieldItems, AllocError>
    requires { a < 65536 }
    ensures { IfOk result (λ items. items ≡ put_items fields.now a b) }
{
    match fields {
        [] => Ok(FieldItems::new(alloc)),
        [first, others @ ..] => {
            let items = items_by(alloc, first, a, b)?;
            with_empty(alloc, FieldItems::of_one(alloc, items)?, others)
        }
    }
}

fn update_changes(
    alloc: Global,
    fields: &[Field],
    a: u32,
    b: u32,
) -> Result<FieldChanges, AllocError>
    requires { a < 65536 }
    ensures { IfOk result (λ changes. changes ≡ update_changes fields.now a b) }
{
    match fields {
        [] => Ok(FieldChanges::new(alloc)),
        [first, others @ ..] => {
            let items = items_by(alloc, first, a, b)?;
            let change = change_by(first.kind, items);
            with_keeps(FieldChanges::of_one(alloc, change)?, others)
        }
    }
}

fn op_by(alloc: Global, fields: &[Field], a: u32, b: u32, c: u32) -> Result<Op, AllocError>
    requires { a < 65536 }
    ensures { IfOk result (λ op. op ≡ op_by fields.now a b c) }
{
    let doc = Doc::new(a / 16 + 1);
    if c / 8_192 == 0 {
        return Ok(Op::Remove { doc });
    }
    if c / 8_192 == 1 {
        let change = update_changes(alloc, fields, a, b)?;
        return Ok(Op::Update {
            doc,
            create: false,
            change,
        });
    }
    let items = put_items(alloc, fields, a, b)?;
    Ok(Op::Put { doc, items })
}

/// Returns `count` operations made from a seed, on documents from 1 to 4,096: one in eight is a remove, one in eight
/// an update, and the others are puts. Only the first attribute gets items.
pub fn make_ops(alloc: Global, count: u32, seed: u32, fields: &Fields) -> Result<Ops, AllocError>
    ensures made { IfOk result (λ ops. ops ≡ made count seed fields.now) }
    ensures count { IfOk result (λ ops. length ops ≡ count) }
    ensures fit { IfOk result (λ ops. AllByRecursion (OpFits fields.now) ops) }
{
    made_law();
    let attributes = fields.as_slice();
    let mut ops = Ops::new(alloc);
    let mut draw = seed;
    for _ in 0..count {
        let a = next_draw(draw);
        let b = next_draw(a);
        let c = next_draw(b);
        let op = op_by(alloc, attributes, a, b, c)?;
        ops.push(op)?;
        draw = c;
    }
    Ok(ops)
}
