//! The hold list: pushes, tags, and removals below a generation.
use entry_ref::EntryRef;
use hold_lists::HoldList;
use std::alloc::{AllocError, Global};
use std::test::Fail;

#[derive(Clone, Copy)]
enum Step {
    Push(u32),
    Tag(u64, u32),
    /// The oldest generation, and the entry that is removed.
    Pop(u64, Option<u32>),
}

/// Returns whether a step removes the expected entry, if it removes one.
fn takes<const OFFSET_BITS: u32>(
    list: &mut HoldList<OFFSET_BITS>,
    step: &Step,
) -> Result<bool, AllocError> {
    match step {
        Step::Push(entry) => {
            list.reserve(1)?;
            list.push(EntryRef::from_raw(*entry));
            Ok(true)
        }
        Step::Tag(generation, commit) => {
            list.tag(*generation, *commit);
            Ok(true)
        }
        Step::Pop(oldest, wanted) => {
            let taken = list.pop_below(*oldest);
            Ok(taken.map(|entry| entry.raw()) == *wanted)
        }
    }
}

fn takes_all<const OFFSET_BITS: u32>(alloc: Global, steps: &[Step]) -> Result<bool, AllocError> {
    let mut list = HoldList::<OFFSET_BITS>::create(alloc)?;
    let mut is_right = true;
    for step in steps {
        is_right &= takes(&mut list, step)?;
    }
    Ok(is_right)
}

/// What is tagged below a generation is taken in order.
const LISTS: [&[Step]; 5] = [
    // nothing is there, or nothing is tagged
    &[
        Step::Pop(9, None),
        Step::Tag(1, 1),
        Step::Push(1024),
        Step::Pop(u64::MAX, None),
    ],
    // strictly below, in the order of the pushes
    &[
        Step::Push(1024),
        Step::Push(2048),
        Step::Tag(3, 5),
        Step::Push(3072),
        Step::Pop(3, None),
        Step::Pop(4, Some(1024)),
        Step::Pop(4, Some(2048)),
        Step::Pop(4, None),
        Step::Tag(4, 6),
        Step::Pop(4, None),
        Step::Pop(5, Some(3072)),
        Step::Pop(5, None),
    ],
    // two commits of one generation, and a tag without an entry between them
    &[
        Step::Push(1),
        Step::Tag(7, 1),
        Step::Tag(7, 2),
        Step::Push(2),
        Step::Tag(7, 3),
        Step::Pop(7, None),
        Step::Pop(8, Some(1)),
        Step::Push(3),
        Step::Pop(8, Some(2)),
        Step::Pop(8, None),
    ],
    // a generation that falls: the first below is not the first of the list
    &[
        Step::Push(1),
        Step::Push(2),
        Step::Tag(5, 1),
        Step::Push(3),
        Step::Push(4),
        Step::Tag(2, 2),
        Step::Pop(2, None),
        Step::Pop(4, Some(3)),
        Step::Pop(6, Some(1)),
        Step::Pop(3, Some(4)),
        Step::Pop(5, None),
        Step::Pop(6, Some(2)),
        Step::Pop(6, None),
    ],
    // the greatest numbers
    &[
        Step::Push(u32::MAX),
        Step::Tag(u64::MAX - 1, u32::MAX),
        Step::Pop(u64::MAX - 1, None),
        Step::Pop(u64::MAX, Some(u32::MAX)),
    ],
];

/// Returns the number of the first list that takes another entry, or how many lists there are.
fn right_lists(alloc: Global) -> Result<usize, AllocError> {
    for (i, steps) in LISTS.iter().enumerate() {
        if !(takes_all::<22>(alloc, steps)? & takes_all::<19>(alloc, steps)?) {
            return Ok(i);
        }
    }
    Ok(LISTS.len())
}

/// Returns the entry that is removed first, of two that were pushed into reserved space for two.
fn first_of_two(alloc: Global) -> Result<Option<EntryRef<22>>, AllocError> {
    let mut list = HoldList::<22>::create(alloc)?;
    list.reserve(2)?;
    list.push(EntryRef::new(1, 0));
    list.push(EntryRef::new(2, 0));
    list.tag(1, 1);
    Ok(list.pop_below(2))
}

#[test]
fn what_is_tagged_below_is_taken_in_order(rt: HostRuntime) -> Result<(), Fail> {
    let right = right_lists(rt.alloc())?;
    let first = first_of_two(rt.alloc())?;
    assert!(rt;
        right == LISTS.len() && first == Some(EntryRef::new(1, 0)),
        "list {right}"
    );
    Ok(())
}
