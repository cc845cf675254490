//! The texts of numbers, pairs and refusals.
use arena_api::Oldest;
use std::alloc::AllocError;
use store_api::StoreError;

/// The oldest open hold of a store without commits, which is the first and the newest.
pub const FIRST: Oldest = Oldest {
    generation: 0,
    hold: 0,
    found: 0,
    newest: true,
};

/// Returns the number that a word is, or 0 for any other word.
pub fn number_in(word: &str) -> u64 {
    word.parse::<u64>().unwrap_or(0)
}

/// Returns the number at an index among words, or 0 if there is none.
pub fn number_at(words: &str, place: usize) -> u64 {
    match words.split(' ').skip(place).next() {
        Some(word) => number_in(word),
        None => 0,
    }
}

/// Writes a number after a space.
pub fn push_number(line: &mut String, number: u64) -> Result<(), AllocError> {
    write!(line, " {number}")
}

/// Writes numbers, each after a space.
pub fn push_numbers(line: &mut String, numbers: &[u64]) -> Result<(), AllocError> {
    for number in numbers {
        push_number(line, *number)?;
    }
    Ok(())
}

pub fn push_value(line: &mut String, value: Option<u64>) -> Result<(), AllocError> {
    match value {
        Some(value) => push_number(line, value),
        None => line.push_str(" none"),
    }
}

pub fn push_pair(line: &mut String, pair: Option<(u64, u64)>) -> Result<(), AllocError> {
    match pair {
        Some((key, value)) => push_numbers(line, &[key, value]),
        None => line.push_str(" none"),
    }
}

/// Writes a cross for true, and a dot for false.
pub fn push_mark(line: &mut String, is_so: bool) -> Result<(), AllocError> {
    line.push_str(if is_so { "x" } else { "." })
}

/// Writes why a change was refused: for a full store without commits, the width, the active buffers and those on
/// hold.
fn push_refusal(line: &mut String, error: StoreError) -> Result<(), AllocError> {
    let StoreError::Full {
        width,
        active,
        held,
        oldest,
    } = error
    else {
        return Err(AllocError);
    };
    line.push_str(if oldest == FIRST {
        " full"
    } else {
        " full later"
    })?;
    push_numbers(
        line,
        &[u64::from(width), u64::from(active), u64::from(held)],
    )
}

/// Writes the result of a change: that it is done, or why not.
pub fn push_said(line: &mut String, said: Result<(), StoreError>) -> Result<(), AllocError> {
    match said {
        Ok(()) => line.push_str(" done"),
        Err(error) => push_refusal(line, error),
    }
}
