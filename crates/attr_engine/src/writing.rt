//! What is written about a run, by its progress: the report, or the summary of made operations.
ghost use Rattle.std.specs.Prelude.{◌≡◌, ◌++◌, ◌<◌, ◌^◌, length, map, OnOk, IfOk, string_bytes};
ghost use Rattle.attr_report.specs.Report.{reader_line, full_line};
ghost use Rattle.attr_engine.specs.Run.{full_of};
ghost use Rattle.attr_engine.specs.Writing.{round_text, rounds_text, readers_text, end_text, report_text, summary_text, text_of};
ghost use Rattle.attr_engine.specs.Writing.{operations_of_rounds};
ghost use Rattle.attr_engine.specs.Writing.{IsWrittenOf};

use crate::run_result::RunResult;
use crate::written::Written;
use attr_loader::{Loaded, NoRoom};
use attr_report::{Make, push_documents_line, push_done_line, push_final_line, push_made_line};
use attr_rounds::{Round, Told};
use attr_types::{RoundCounts, RoundList};
use std::alloc::{AllocError, Global};

#[tactic(auto, unfolding(attr_report::specs::Report::reader_line))]
fn push_reader_line(
    text: &mut String,
    reader: u64,
    number: u64,
    operations: u32,
) -> Result<(), AllocError>
    ensures { OnOk result (string_bytes text.new ≡ string_bytes text.old ++ reader_line reader number operations) }
{
    writeln!(text, "reader {reader} round {number} at {operations}")
}

fn push_round(
    text: &mut String,
    reader: u64,
    number: u64,
    round: &Round<Told>,
) -> Result<(), AllocError>
    ensures { OnOk result (string_bytes text.new ≡ string_bytes text.old ++ round_text reader number round.now) }
{
    push_reader_line(text, reader, number, round.operations)?;
    text.push_str(round.answer.lines.as_str())
}

/// Writes the rounds of a reader, each with its lines.
fn push_rounds(text: &mut String, reader: u64, rounds: &[Round<Told>]) -> Result<(), AllocError>
    requires { length rounds.now < 2 ^ 63 }
    ensures { OnOk result (string_bytes text.new ≡ string_bytes text.old ++ rounds_text reader 1 rounds.now) }
{
    let mut number: u64 = 1;
    for round in rounds {
        push_round(text, reader, number, round)?;
        number += 1;
    }
    Ok(())
}

/// Writes the rounds of all readers.
fn push_readers(text: &mut String, rounds: &[Vec<Round<Told>>]) -> Result<(), AllocError>
    requires { length rounds.now < 2 ^ 63 }
    ensures { OnOk result (string_bytes text.new ≡ string_bytes text.old ++ readers_text 1 rounds.now) }
{
    let mut reader: u64 = 1;
    for made in rounds {
        push_rounds(text, reader, made.as_slice())?;
        reader += 1;
    }
    Ok(())
}

#[tactic(auto, unfolding(attr_report::specs::Report::full_line))]
fn push_full_line(text: &mut String, full: Option<NoRoom>) -> Result<(), AllocError>
    ensures { OnOk result (string_bytes text.new ≡ string_bytes text.old ++ full_line (full_of full)) }
{
    match full {
        Some(room) => {
            let operation = room.operation;
            writeln!(text, "full at operation {operation}")
        }
        None => Ok(()),
    }
}

/// Writes which operation ran out of space, if any, and how many were loaded and skipped.
fn push_end(text: &mut String, loaded: Loaded) -> Result<(), AllocError>
    ensures { OnOk result (string_bytes text.new ≡ string_bytes text.old ++ end_text loaded) }
{
    push_full_line(text, loaded.full)?;
    push_done_line(text, loaded.operations, loaded.skipped)
}

/// Returns the report: the rounds of the readers, the last answers, and the progress.
fn report_text(alloc: Global, run_result: &RunResult) -> Result<String, AllocError>
    ensures { IfOk result (λ text. string_bytes text ≡ report_text run_result.now) }
{
    let mut text = String::new(alloc);
    push_readers(&mut text, run_result.rounds.as_slice())?;
    push_final_line(&mut text, run_result.loaded.operations)?;
    text.push_str(run_result.last.lines.as_str())?;
    push_end(&mut text, run_result.loaded)?;
    Ok(text)
}

/// Returns the summary of a run whose operations were made.
fn summary_text(alloc: Global, make: Make, run_result: &RunResult) -> Result<String, AllocError>
    ensures { IfOk result (λ text. string_bytes text ≡ summary_text make run_result.now) }
{
    let documents = run_result.last.documents as usize;
    let mut text = String::new(alloc);
    push_made_line(&mut text, make)?;
    push_documents_line(&mut text, run_result.loaded.operations, documents)?;
    text.push_str(run_result.last.lines.as_str())?;
    push_end(&mut text, run_result.loaded)?;
    Ok(text)
}

fn text_of(alloc: Global, make: Option<Make>, run_result: &RunResult) -> Result<String, AllocError>
    ensures { IfOk result (λ text. string_bytes text ≡ text_of make run_result.now) }
{
    match make {
        Some(make) => summary_text(alloc, make, run_result),
        None => report_text(alloc, run_result),
    }
}

/// Returns how many operations each round of a reader saw.
fn counts_of(alloc: Global, rounds: &[Round<Told>]) -> Result<RoundCounts, AllocError>
    ensures { IfOk result (λ counts. counts ≡ operations_of_rounds rounds.now) }
{
    let mut counts = RoundCounts::new(alloc);
    for round in rounds {
        counts.push(round.operations)?;
    }
    Ok(counts)
}

/// Returns how many operations each round of each reader saw.
pub fn all_counts(alloc: Global, rounds: &[Vec<Round<Told>>]) -> Result<RoundList, AllocError>
    ensures { IfOk result (λ list. list ≡ map (λ r. operations_of_rounds r.items) rounds.now) }
{
    let mut list = RoundList::new(alloc);
    for made in rounds {
        list.push(counts_of(alloc, made.as_slice())?)?;
    }
    Ok(list)
}

/// Returns what is written about a run that does not save its table.
pub fn written_of(
    alloc: Global,
    make: Option<Make>,
    run_result: RunResult,
) -> Result<Written, AllocError>
    ensures { IfOk result (IsWrittenOf make run_result) }
{
    let text = text_of(alloc, make, &run_result)?;
    let rounds = all_counts(alloc, run_result.rounds.as_slice())?;
    Ok(Written {
        loaded: run_result.loaded.operations,
        full: run_result.loaded.full,
        rounds,
        saved: None,
        text: text.into_bytes(),
        writer: run_result.writer,
    })
}
