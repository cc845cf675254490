//! One commit of a node in a buffer of its own.
ghost use Rattle.std.specs.Prelude.{◌≡◌, ◌<◌, ◌+◌, length, IfSome, IfNone};
ghost use Rattle.entry_ref.specs.References.{buffer_of};
ghost use Rattle.arena_api.specs.Calls.{IsLowestFree, handed_out};
ghost use Rattle.arena_api.specs.Generations.{MayRetire};
ghost use Rattle.test_kit.specs.Turns.{IsActive};

use crate::node::{NODE, OneNode, words_of};
use arena_api::{Advance, Oldest, Work};
use entry_ref::EntryRef;

/// The result of a commit.
#[derive(Clone, Copy, Drop)]
pub struct Committed {
    pub number: u32,
    pub advance: Advance,
    pub oldest: Oldest,
}

/// Stores a node of a commit's words in the free buffer with the lowest number, if a buffer is free.
pub fn put_node<W: Work<22>>(work: &mut W, number: u32) -> Option<EntryRef<22>>
    ensures some { IfSome result (λ r. 0 < r) }
    ensures free { IfSome result (λ r. IsLowestFree (W.knows work.old).buffer (W.knows work.old).sizes.buffers (buffer_of 22 r)) }
    ensures knows { IfSome result (λ r. W.knows work.new
        ≡ record (handed_out (W.knows work.old) (buffer_of 22 r) 34) { stored = (W.knows work.new).stored }) }
    ensures refused { IfNone result (W.knows work.new ≡ W.knows work.old) }
    ensures record { IfSome result (λ r. length (W.records work.new r) ≡ 34) }
{
    let buffer = work.hand_out(NODE)?;
    let entry = EntryRef::<22>::new(1, buffer);
    let words = words_of(number);
    work.put(entry, NODE, &words);
    Some(entry)
}

/// A buffer that was handed out, and the commit after it.
#[derive(Clone, Copy, Drop)]
pub struct Placed {
    pub buffer: u32,
    pub number: u32,
}

/// Publishes a node for the commit with this number, and puts the buffer of the previous node on hold. Returns `None`
/// if no buffer is free, or no commit is left.
pub fn turn<W: Work<22, Layout = OneNode>>(
    work: &mut W,
    before: Option<u32>,
    number: u32,
) -> Option<Placed>
    requires { IfSome before (IsActive (W.knows work.old)) }
    ensures now { IfSome result (λ p. IsActive (W.knows work.new) p.buffer) }
    ensures refused { IfNone result (W.knows work.new ≡ W.knows work.old) }
{
    if work.commits_left() == 0 {
        return None;
    }
    let entry = put_node(work, number)?;
    let number = work.publish(entry);
    if let Some(old) = before {
        work.retire_buffer(old);
    }
    let buffer = entry.buffer();
    Some(Placed { buffer, number })
}

/// Begins the next generation, and reclaims.
pub fn pass<W: Work<22>>(work: &mut W, before: Option<u32>) -> (Advance, Oldest)
    requires { IfSome before (IsActive (W.knows work.old)) }
    ensures active { IfSome before (IsActive (W.knows work.new)) }
    ensures home { (W.knows work.new).home ≡ (W.knows work.old).home }
{
    let advance = work.advance();
    let oldest = work.reclaim();
    (advance, oldest)
}

/// Makes an empty commit. Returns `None` if no commit is left.
pub fn commit<W: Work<22, Layout = OneNode>>(work: &mut W) -> Option<Committed>
    ensures { (W.knows work.new).home ≡ (W.knows work.old).home }
{
    if work.commits_left() == 0 {
        return None;
    }
    let number = work.publish(EntryRef::from_raw(0));
    let (advance, oldest) = pass(work, None);
    Some(Committed {
        number,
        advance,
        oldest,
    })
}

/// Hands out a buffer and makes an empty commit, so that the buffer may be put on hold. Returns `None` if no buffer
/// is free, or no commit is left.
pub fn claim<W: Work<22, Layout = OneNode>>(work: &mut W, width: u32) -> Option<Placed>
    requires { 0 < width }
    ensures { IfSome result (λ p. MayRetire 22 (W.knows work.new) p.buffer) }
{
    if work.commits_left() == 0 {
        return None;
    }
    let buffer = work.hand_out(width)?;
    let number = work.publish(EntryRef::from_raw(0));
    Some(Placed { buffer, number })
}
