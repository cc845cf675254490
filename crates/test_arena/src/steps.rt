//! The steps of a row, as its lines say them.
use std::alloc::{AllocError, Global};

#[derive(Clone, Copy, Drop)]
pub enum Task {
    /// A node in a buffer of its own, its commit, the next generation, and a reclaim.
    Node,
    /// The same without a node.
    Commit,
    /// A node of a store, without a commit.
    Put,
    /// Entries of this width, at most this many, in a unit that is undone.
    Fill(u32, u32),
    /// Seals the victim.
    Seal,
    /// Finishes the sealed buffer.
    Finish,
    /// A buffer for entries of this width, and an empty commit.
    Claim(u32),
    HandOut(u32),
    /// Puts the claimed buffer on hold.
    Retire,
    Advance,
    Reclaim,
    Free,
    Left,
    /// A reader that is dropped at once.
    Seat,
    /// A reader that is joined at once.
    TakeIn,
    Aim,
    Raise,
    /// An aim and a raise in one call.
    Try,
    /// A guard, after as many tries as it takes.
    Guard,
    Read,
    /// Loads the last commit again, under the same hold.
    Again,
    Release,
    /// Drops a guard without a release.
    Forget,
    Unknown,
}

/// A task of one party, and the expected answer. The writer is party 0.
#[derive(Drop)]
pub struct Step {
    pub party: u32,
    pub task: Task,
    pub asked: String,
    pub wanted: String,
}

fn number_in(word: &str) -> u32 {
    word.parse::<u32>().unwrap_or(0)
}

fn task_in(words: &str) -> Task {
    let (name, rest) = words.split_once(' ').unwrap_or((words, ""));
    match name {
        "node" => Task::Node,
        "commit" => Task::Commit,
        "put" => Task::Put,
        "fill" => {
            let (width, most) = rest.split_once(' ').unwrap_or((rest, ""));
            Task::Fill(number_in(width), number_in(most))
        }
        "seal" => Task::Seal,
        "finish" => Task::Finish,
        "claim" => Task::Claim(number_in(rest)),
        "hand-out" => Task::HandOut(number_in(rest)),
        "retire" => Task::Retire,
        "advance" => Task::Advance,
        "reclaim" => Task::Reclaim,
        "free" => Task::Free,
        "left" => Task::Left,
        "seat" => Task::Seat,
        "take-in" => Task::TakeIn,
        "aim" => Task::Aim,
        "raise" => Task::Raise,
        "try" => Task::Try,
        "guard" => Task::Guard,
        "read" => Task::Read,
        "again" => Task::Again,
        "release" => Task::Release,
        "forget" => Task::Forget,
        _ => Task::Unknown,
    }
}

/// Returns the step of a line `PARTY TASK = ANSWER`, if the line is one.
pub fn step_in(alloc: Global, line: &str) -> Result<Option<Step>, AllocError> {
    let Some((asked, wanted)) = line.split_once(" = ") else {
        return Ok(None);
    };
    let (party, words) = asked.split_once(' ').unwrap_or((asked, ""));
    Ok(Some(Step {
        party: number_in(party),
        task: task_in(words),
        asked: String::from_str(alloc, asked)?,
        wanted: String::from_str(alloc, wanted)?,
    }))
}

/// The setting of a row: whether the writer is in a store, the number of readers, the limits, and the number of
/// buffers.
#[derive(Clone, Copy, Default, Drop)]
pub struct Setting {
    pub store: bool,
    pub readers: u32,
    pub commits: u32,
    pub generations: u64,
    pub buffers: u32,
}

/// Returns the next number of a line, and what follows a space after it.
fn next_number(words: &str) -> (u64, &str) {
    let (number, rest) = words.split_once(' ').unwrap_or((words, ""));
    (number.parse::<u64>().unwrap_or(0), rest)
}

/// Returns the setting of `READERS COMMITS GENERATIONS BUFFERS`.
fn setting_of(words: &str, store: bool) -> Setting {
    let (readers, rest) = next_number(words);
    let (commits, rest) = next_number(rest);
    let (generations, rest) = next_number(rest);
    let (buffers, _) = next_number(rest);
    Setting {
        store,
        readers: u32::try_from(readers).unwrap_or(0),
        commits: u32::try_from(commits).unwrap_or(0),
        generations,
        buffers: u32::try_from(buffers).unwrap_or(0),
    }
}

/// Returns the setting of a line `row ..` or `store ..`, if the line is one.
pub fn setting_in(line: &str) -> Option<Setting> {
    if let Some(words) = line.strip_prefix("row ") {
        return Some(setting_of(words, false));
    }
    let words = line.strip_prefix("store ")?;
    Some(setting_of(words, true))
}
