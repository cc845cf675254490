//! Tests of the running memory: rows of steps from standard input, and a run of many readers beside a writer that
//! reuses its buffers all the time.
#![tactic(auto)]

mod answers;
mod keeping;
mod marks;
mod parties;
mod playing;
mod reading;
mod rows;
mod steps;
mod torture;
mod writing;

use crate::rows::compare;
use crate::torture::{READERS, Tally, torture};
use std::io;
use std::process::ExitCode;
use std::thread::Threads;

/// What the words after the program's name request: the number of commits, and, if there is a second word, that the
/// result of the run is printed.
#[derive(Clone, Copy)]
struct Asked {
    commits: u32,
    told: bool,
}

fn asked_in(rt: &HostRuntime) -> Option<Asked> {
    let mut words = std::env::args(rt).ok()?.skip(1);
    let commits = words.next()?.parse::<u32>().ok()?;
    let told = words.next().is_some();
    Some(Asked { commits, told })
}

/// Returns what is wrong with a run of this many commits, if anything.
fn fault_of(tally: &Tally, commits: u32) -> Option<&'static str> {
    if tally.turns.commits != commits || tally.sights.last != commits {
        return Some("the last commit was not reached");
    }
    if tally.sights.wrong > 0 {
        return Some("a word of another commit was read");
    }
    if tally.sights.falls > 0 {
        return Some("a reader's commit fell");
    }
    if tally.sights.bounces == 0 {
        return Some("no hold was found closed");
    }
    if tally.turns.again == 0 {
        return Some("no buffer was handed out twice");
    }
    None
}

/// Makes a run of commits, and prints what is wrong with it. Returns whether nothing is.
fn run<R: Threads + Sync>(rt: &HostRuntime, threads: &R, asked: Asked) -> io::Result<bool> {
    let commits = asked.commits;
    let tally = torture(threads, rt.alloc(), commits)?;
    if asked.told {
        println!(rt; "{tally:?}")?;
    }
    let Some(fault) = fault_of(&tally, commits) else {
        println!(rt;
            "{READERS} readers beside {commits} commits: each word of its commit, no commit below one seen before"
        )?;
        return Ok(true);
    };
    println!(rt; "{fault}: {tally:?}")?;
    Ok(false)
}

/// Plays the rows, and then makes a run of commits. Returns whether everything is right.
fn play<R: Threads + Sync>(rt: &HostRuntime, threads: &R, asked: Asked) -> io::Result<bool> {
    let (steps, right) = compare(rt, threads)?;
    println!(rt; "{steps} steps, {right} as wanted")?;
    Ok(run(rt, threads, asked)? && steps == right)
}

fn main(rt: HostRuntime) -> ExitCode {
    let Some(asked) = asked_in(&rt) else {
        return ExitCode::from(2);
    };
    match play(&rt, &rt, asked) {
        Ok(true) => ExitCode::from(0),
        Ok(false) => ExitCode::from(1),
        Err(_) => ExitCode::from(7),
    }
}
