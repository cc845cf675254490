//! Rows of the memory without readers.

use arena_api::Work;
use entry_ref::EntryRef;
use mem_work::{MemWork, OneRecord};
use std::alloc::{AllocError, Global};
use std::test::Fail;

/// Returns whether nothing was stored.
fn has_no_record(alloc: Global, work: &MemWork<22, OneRecord>) -> Result<bool, AllocError> {
    Ok(work.records(alloc)?.is_empty())
}

/// Returns whether exactly three buffers are handed out, from the lowest on.
fn hands_out_three<const OFFSET_BITS: u32, W: Work<OFFSET_BITS>>(work: &mut W) -> bool {
    let mut is_right = (work.buffers(), work.words()) == (3, 8192);
    // the result, and how many buffers are then free
    for (buffer, free) in [(Some(0), 2), (Some(1), 1), (Some(2), 0), (None, 0)] {
        is_right &= work.hand_out(34) == buffer;
        is_right &= work.free_buffers() == free;
    }
    is_right
}

/// Returns whether exactly 1,024 buffers are handed out.
fn hands_out_all<const OFFSET_BITS: u32, W: Work<OFFSET_BITS>>(work: &mut W) -> bool {
    let mut is_right = (work.buffers(), work.words()) == (1024, 8192);
    for buffer in 0..1024 {
        is_right &= work.hand_out(2) == Some(buffer);
    }
    is_right & ((work.hand_out(2), work.free_buffers()) == (None, 0))
}

fn is_right_of_22(alloc: Global) -> Result<bool, AllocError> {
    let mut work = MemWork::<22, OneRecord>::create(alloc, 3, 8192, 1)?;
    Ok(hands_out_three::<22, _>(&mut work) & has_no_record(alloc, &work)?)
}

/// References of 19 bits name 1,024 buffers.
fn is_right_of_19(alloc: Global) -> Result<bool, AllocError> {
    let mut work = MemWork::<19, OneRecord>::create(alloc, 1024, 8192, 1)?;
    Ok(hands_out_all::<19, _>(&mut work))
}

/// Returns whether a commit is counted, and stores nothing by itself.
fn is_counted(alloc: Global) -> Result<bool, AllocError> {
    let mut work = MemWork::<22, OneRecord>::create(alloc, 8, 8192, 1)?;
    let before = work.commits_left();
    let commit = work.publish(EntryRef::from_raw(0));
    let counts = (before, commit, work.commits_left());
    Ok((counts == (u32::MAX, 1, 4_294_967_294)) & has_no_record(alloc, &work)?)
}

#[test]
fn buffers_are_handed_out_from_the_lowest_on_and_commits_counted(
    rt: HostRuntime,
) -> Result<(), Fail> {
    let alloc = rt.alloc();
    let rights = [
        is_right_of_22(alloc)?,
        is_right_of_19(alloc)?,
        is_counted(alloc)?,
    ];
    assert!(rt; rights == [true, true, true]);
    Ok(())
}
