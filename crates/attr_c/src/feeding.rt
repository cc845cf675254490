//! Lines of a feed, applied one by one.
ghost use Rattle.std.specs.Prelude.{◌≡◌, ◌+◌, ◌<◌, ◌^◌, ◌∷◌, [], drop, length, Ok, OnOk, OnErr, IfErr, IfOk, IfSome};
ghost use Rattle.attr_types.specs.Lawful.{OpFits};
ghost use Rattle.attr_types.specs.Table.{after_op};
ghost use Rattle.feed_reader.specs.Lines.{lines_of};
ghost use Rattle.attribute_kinds.specs.Calls.{applied_to, KeepsStore};
ghost use Rattle.feed_reader.specs.Feed.{feed_of};
ghost use Rattle.attr_c.specs.Feeding.{skips_of, AreOpsOf, FedLine, FedTo, Feeds, IsOfNoLine, IsOpOf, Stays};
ghost use Rattle.attr_c.specs.Feeding.{IfLine, IsFirstOp, IsLineBetween, IsSaidBefore, RefusesLine};
ghost use Rattle.attr_c.specs.Applying.{Applies};
ghost use Rattle.attr_c.specs.Stops.{LineOr, StopsOperation};
ghost use Rattle.attr_c.specs.Telling.{with_line};

use crate::line::operation_in;
use crate::split::split_line;
use crate::state::Open;
use crate::stop::Stop;
use crate::told::Told;
use attr_types::{Applied, Op};
use image_format::AttrLayout;
use std::alloc::Global;
use store_api::Store;

/// Applies an operation.
pub fn apply<const OFFSET_BITS: u32, S: Store<OFFSET_BITS, Layout = AttrLayout>>(
    alloc: Global,
    inner: &mut Open<OFFSET_BITS, S>,
    op: &Op,
) -> Result<Applied, Stop>
    requires { OpFits inner.old.fields op.now }
    ensures table { OnOk result (inner.new.attribute.table ≡ after_op inner.old.fields inner.old.attribute.table op.now) }
    ensures operations { OnOk result (inner.new.attribute.operations ≡ inner.old.attribute.operations + 1) }
    ensures left { OnErr result ((inner.new.attribute.table ≡ inner.old.attribute.table)
        × (inner.new.attribute.operations ≡ inner.old.attribute.operations)) }
    ensures applied { IfOk result (λ applied. applied ≡ applied_to inner.old.fields inner.old.attribute.table op.now) }
    ensures few { OnOk result (inner.new.attribute.operations < 2 ^ 32) }
    ensures kind { IfErr result IsOfNoLine }
    ensures why { IfErr result (StopsOperation S.ledger S.records (λ ops. ops ≡ []) (λ next. next ≡ op.now)
        inner.old.attribute inner.new.attribute) }
    ensures done { OnOk result (Applies S.ledger (λ ops. ops ≡ op.now ∷ []) inner.old.attribute inner.new.attribute) }
    ensures pool { inner.new.pool ≡ inner.old.pool }
    ensures counts { inner.new.counts ≡ inner.old.counts }
    ensures commit { Stays inner.old.attribute.committed inner.new.attribute.committed
        inner.old.attribute.committed_operations inner.new.attribute.committed_operations }
    ensures fields { inner.new.fields ≡ inner.old.fields }
    ensures keeps { KeepsStore (S.ledger inner.old.attribute.store) (S.ledger inner.new.attribute.store) }
    ensures dense { inner.new.attribute.dense ≡ inner.old.attribute.dense }
    ensures plan { inner.new.attribute.plan ≡ inner.old.attribute.plan }
{
    if inner.attribute.operations() == u32::MAX {
        return Err(Stop::Spent);
    }
    match inner.attribute.apply(alloc, op) {
        Ok(applied) => Ok(applied),
        Err(error) => Err(Stop::Store(error)),
    }
}

/// Applies the operation of a line, if it has one.
fn feed_line<const OFFSET_BITS: u32, S: Store<OFFSET_BITS, Layout = AttrLayout>>(
    alloc: Global,
    inner: &mut Open<OFFSET_BITS, S>,
    line: &[u8],
) -> Result<Option<Applied>, Stop>
    requires { 0 < length line.now → lines_of line.now ≡ line.now ∷ [] }
    ensures fed { FedLine inner.old.fields line.now inner.old.attribute.table inner.new.attribute.table
        inner.old.attribute.operations inner.new.attribute.operations result }
    ensures few { IfOk result (λ applied. IfSome applied (λ _. inner.new.attribute.operations < 2 ^ 32)) }
    ensures why { IfErr result (LineOr (Applies S.ledger (λ ops. ops ≡ []) inner.old.attribute inner.new.attribute)
        (StopsOperation S.ledger S.records (λ ops. ops ≡ []) (IsOpOf inner.old.fields line.now) inner.old.attribute inner.new.attribute)) }
    ensures done { OnOk result (Applies S.ledger (AreOpsOf inner.old.fields line.now) inner.old.attribute inner.new.attribute) }
    ensures pool { inner.new.pool ≡ inner.old.pool }
    ensures counts { inner.new.counts ≡ inner.old.counts }
    ensures commit { Stays inner.old.attribute.committed inner.new.attribute.committed
        inner.old.attribute.committed_operations inner.new.attribute.committed_operations }
    ensures fields { inner.new.fields ≡ inner.old.fields }
    ensures keeps { KeepsStore (S.ledger inner.old.attribute.store) (S.ledger inner.new.attribute.store) }
    ensures dense { inner.new.attribute.dense ≡ inner.old.attribute.dense }
    ensures plan { inner.new.attribute.plan ≡ inner.old.attribute.plan }
{
    match operation_in(alloc, &inner.fields, line) {
        Ok(Some(op)) => match apply(alloc, inner, &op) {
            Ok(applied) => Ok(Some(applied)),
            Err(stop) => Err(stop),
        },
        Ok(None) => Ok(None),
        Err(error) => Err(Stop::Line(error)),
    }
}

/// Returns how many operations of a line changed nothing.
fn skips_of(applied: Option<Applied>) -> u32
    ensures { result ≡ skips_of applied }
{
    match applied {
        Some(Applied::Skipped) => 1,
        Some(Applied::Changed) => 0,
        None => 0,
    }
}

/// Applies the operations of lines, one after another, up to a line that is refused, which is reported. Counts those
/// that changed nothing.
pub fn feed<const OFFSET_BITS: u32, S: Store<OFFSET_BITS, Layout = AttrLayout>>(
    alloc: Global,
    inner: &mut Open<OFFSET_BITS, S>,
    bytes: &[u8],
    told: &mut Told,
) -> Result<(), Stop>
    ensures whole { OnOk result (Feeds inner.old.fields bytes.now inner.old.attribute.table inner.new.attribute.table
        inner.old.attribute.operations inner.new.attribute.operations told.new.skipped) }
    ensures front { OnErr result (FedTo inner.old.fields bytes.now told.new.line (drop told.new.place bytes.now)
        inner.old.attribute.table inner.new.attribute.table inner.old.attribute.operations inner.new.attribute.operations
        told.new.skipped) }
    ensures tells { OnOk result (told.new ≡ record told.old { skipped = told.new.skipped }) }
    ensures tells_line { OnErr result (told.new ≡ with_line told.new (record told.old { skipped = told.new.skipped })) }
    ensures next { OnErr result (IsLineBetween bytes.now told.new.place told.new.next) }
    ensures refused { IfErr result (IfLine (RefusesLine inner.old.fields bytes.now told.new.line (drop told.new.place bytes.now))) }
    ensures why { IfErr result (LineOr
        (Applies S.ledger (IsSaidBefore inner.old.fields bytes.now (drop told.new.place bytes.now)) inner.old.attribute inner.new.attribute)
        (StopsOperation S.ledger S.records (IsSaidBefore inner.old.fields bytes.now (drop told.new.place bytes.now))
        (IsFirstOp inner.old.fields (drop told.new.place bytes.now)) inner.old.attribute inner.new.attribute)) }
    ensures done { OnOk result (Applies S.ledger (λ ops. feed_of inner.old.fields bytes.now ≡ Ok ops)
        inner.old.attribute inner.new.attribute) }
    ensures pool { inner.new.pool ≡ inner.old.pool }
    ensures counts { inner.new.counts ≡ inner.old.counts }
    ensures commit { Stays inner.old.attribute.committed inner.new.attribute.committed
        inner.old.attribute.committed_operations inner.new.attribute.committed_operations }
    ensures fields { inner.new.fields ≡ inner.old.fields }
    ensures dense { inner.new.attribute.dense ≡ inner.old.attribute.dense }
    ensures plan { inner.new.attribute.plan ≡ inner.old.attribute.plan }
    ensures keeps { KeepsStore (S.ledger inner.old.attribute.store) (S.ledger inner.new.attribute.store) }
{
    let mut rest = bytes;
    let mut passed: u64 = 0;
    told.skipped = 0;
    while !rest.is_empty() {
        let (line, after) = split_line(rest);
        match feed_line(alloc, inner, line) {
            Ok(applied) => told.skipped += skips_of(applied),
            Err(stop) => {
                told.line = passed + 1;
                told.place = (bytes.len() - rest.len()) as u64;
                told.next = (bytes.len() - after.len()) as u64;
                return Err(stop);
            }
        }
        rest = after;
        passed += 1;
    }
    Ok(())
}
