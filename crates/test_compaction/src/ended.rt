//! What a compaction that ended has moved, by the images before and after it.
use crate::census::ROLES;
use crate::watch::{Seen, Watch};

/// A compaction that ended: its buffer, the commit before its first step and the one after its last, and whether no
/// operation came between them.
#[derive(Clone, Copy)]
pub struct Ended {
    pub buffer: u32,
    pub begun: usize,
    pub closed: usize,
    pub quiet: bool,
}

/// What all compactions moved of each role of records, and how many of their buffers had these widths.
#[derive(Clone, Copy)]
pub struct Copied {
    pub differs: bool,
    /// Something seen could not be kept.
    pub lost: bool,
    pub counts: [u32; ROLES],
    pub twos: u32,
    pub fours: u32,
    pub sixteens: u32,
    pub nodes: u32,
    pub blocks: u32,
}

/// Returns the commit with this number, counted from 1.
fn commit_at(seen: &[Seen], number: usize) -> Option<&Seen> {
    if number == 0 {
        return None;
    }
    seen.get(number - 1)
}

fn count_of(seen: &[Seen], number: usize, role: usize, buffer: u32) -> u32 {
    match commit_at(seen, number) {
        Some(one) => match &one.census {
            Some(census) => census.of(role, buffer),
            None => 0,
        },
        None => 0,
    }
}

fn add_width(copied: &mut Copied, width: u32) {
    match width {
        2 => copied.twos = copied.twos.saturating_add(1),
        4 => copied.fours = copied.fours.saturating_add(1),
        16 => copied.sixteens = copied.sixteens.saturating_add(1),
        34 => copied.nodes = copied.nodes.saturating_add(1),
        64 => copied.blocks = copied.blocks.saturating_add(1),
        _ => {}
    }
}

/// Adds one compaction: how many records of each role its buffer had before; afterwards it has none.
fn add_one(copied: &mut Copied, watch: &Watch, seen: &[Seen], ended: Ended) {
    add_width(copied, watch.width_of(ended.buffer, ended.begun));
    for role in 0..ROLES {
        if ended.quiet {
            let before = count_of(seen, ended.begun, role, ended.buffer);
            copied.counts[role] = copied.counts[role].saturating_add(before);
        }
        if count_of(seen, ended.closed, role, ended.buffer) > 0 {
            copied.differs = true;
        }
    }
}

/// Adds all compactions of a run, and whether each of its commits agreed with the plain table.
pub fn look_back(watch: &Watch, all: &[Ended], commits: usize) -> Copied {
    let mut copied = Copied {
        differs: false,
        lost: false,
        counts: [0; ROLES],
        twos: 0,
        fours: 0,
        sixteens: 0,
        nodes: 0,
        blocks: 0,
    };
    match watch.seen() {
        Some(seen) => {
            copied.lost = seen.len() != commits;
            for commit in seen {
                if !commit.same {
                    copied.differs = true;
                }
            }
            for ended in all {
                add_one(&mut copied, watch, seen, *ended);
            }
        }
        None => copied.lost = true,
    }
    copied
}
