//! Rows of buffer states and victims.

use buffer_states::{BufferState, Buffers};
use std::alloc::{AllocError, Global};
use std::test::Fail;

/// Returns whether a buffer goes from free to active to on hold, and is free again.
fn goes_round(alloc: Global) -> Result<bool, AllocError> {
    let mut buffers = Buffers::create(alloc, 3)?;
    let other = buffers.state(2);
    buffers.activate(1, 34);
    let begun = buffers.state(1);
    let new = (
        buffers.width(1),
        buffers.used(1),
        buffers.dead(1),
        buffers.held(1),
    );
    buffers.set_counts(1, 340, 68, 34);
    let counted = (
        buffers.width(1),
        buffers.used(1),
        buffers.dead(1),
        buffers.held(1),
    );
    // from now on the next buffer of the width is the one being filled
    buffers.activate(0, 34);
    buffers.seal(1);
    buffers.put_on_hold(1, 7);
    let held = buffers.state(1);
    buffers.free_below(7);
    let still = buffers.state(1);
    buffers.free_below(8);
    let states = [
        other,
        begun,
        held,
        still,
        buffers.state(1),
        buffers.state(0),
    ];
    Ok(is_round(states) && [new, counted] == [(34, 34, 0, 0), (34, 340, 68, 34)])
}

fn is_round(states: [BufferState; 6]) -> bool {
    let (free, active, held) = (BufferState::Free, BufferState::Active, BufferState::OnHold);
    states == [free, active, held, held, free, active]
}

/// Used and dead words.
type Counts = (u32, u32);

/// Returns the choice among two buffers, with their used and dead words, beside one that is being filled.
fn victim_of_two(alloc: Global, first: Counts, second: Counts) -> Result<Option<u32>, AllocError> {
    let mut buffers = Buffers::create(alloc, 3)?;
    buffers.activate(0, 2);
    buffers.activate(1, 2);
    buffers.activate(2, 2);
    buffers.set_counts(0, first.0, first.1, 0);
    buffers.set_counts(1, second.0, second.1, 0);
    buffers.set_counts(2, 400, 398, 0);
    Ok(buffers.choose_victim())
}

/// The used and dead words of two buffers, and the victim: the one with the most dead words.
const VICTIMS: [(Counts, Counts, Option<u32>); 4] = [
    // one in twenty is dead, but not more
    ((40, 2), (400, 20), None),
    ((40, 2), (400, 22), Some(1)),
    // more dead words, though a smaller part of those used
    ((40, 4), (60, 6), Some(1)),
    // the first of equals
    ((40, 6), (60, 6), Some(0)),
];

fn are_victims(alloc: Global) -> Result<bool, AllocError> {
    let mut is_right = true;
    for (first, second, victim) in VICTIMS {
        is_right &= victim_of_two(alloc, first, second)? == victim;
    }
    Ok(is_right)
}

/// Returns whether a sealed buffer and one on hold are no victims.
fn are_passed_over(alloc: Global) -> Result<bool, AllocError> {
    let mut buffers = Buffers::create(alloc, 3)?;
    buffers.activate(0, 2);
    buffers.activate(1, 2);
    buffers.activate(2, 2);
    buffers.set_counts(0, 40, 20, 0);
    buffers.set_counts(1, 40, 10, 0);
    buffers.set_counts(2, 40, 30, 0);
    let first = buffers.choose_victim();
    buffers.seal(0);
    let second = buffers.choose_victim();
    buffers.put_on_hold(1, 0);
    Ok([first, second, buffers.choose_victim()] == [Some(0), Some(1), None])
}

#[test]
fn a_buffer_goes_round_and_a_victim_has_the_most_dead_words(rt: HostRuntime) -> Result<(), Fail> {
    let alloc = rt.alloc();
    let rights = [
        goes_round(alloc)?,
        are_victims(alloc)?,
        are_passed_over(alloc)?,
    ];
    assert!(rt; rights == [true, true, true]);
    Ok(())
}
