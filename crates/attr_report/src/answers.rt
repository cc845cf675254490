//! Answers, as lines of a report and as counts.
ghost use Rattle.std.specs.Prelude.{◌≡◌, ◌++◌, OnOk, string_bytes};
ghost use Rattle.attr_types.specs.Scores.{documents, scored};
ghost use Rattle.attr_report.specs.Report.{answer_line, count_line, score_text};

use attr_types::{Doc, Score};
use itoa::Buffer;
use std::alloc::AllocError;

/// Writes the line of documents.
#[tactic(auto, unfolding(crate::specs::Report::answer_line))]
pub fn push_documents(text: &mut String, number: u64, docs: &[Doc]) -> Result<(), AllocError>
    ensures { OnOk result (string_bytes text.new ≡ string_bytes text.old
        ++ answer_line number (documents docs.now)) }
{
    write!(text, "{number}:")?;
    let mut digits = Buffer::new();
    for doc in docs {
        text.push(' ')?;
        text.push_str(digits.format(doc.number()))?;
    }
    writeln!(text)
}

/// Writes the line of documents with their scores.
#[tactic(auto, unfolding(crate::specs::Report::answer_line))]
pub fn push_scores(text: &mut String, number: u64, scores: &[Score]) -> Result<(), AllocError>
    ensures { OnOk result (string_bytes text.new ≡ string_bytes text.old
        ++ answer_line number (scored scores.now)) }
{
    write!(text, "{number}:")?;
    for score in scores {
        push_score(text, score)?;
    }
    writeln!(text)
}

#[tactic(auto, unfolding(crate::specs::Report::score_text))]
fn push_score(text: &mut String, score: &Score) -> Result<(), AllocError>
    ensures { OnOk result (string_bytes text.new ≡ string_bytes text.old ++ score_text score.now) }
{
    let doc = score.doc.number();
    let score = score.score;
    write!(text, " {doc}={score}")
}

/// Writes the line with the number of documents of an answer.
#[tactic(auto, unfolding(crate::specs::Report::count_line))]
pub fn push_count(text: &mut String, number: u64, count: usize) -> Result<(), AllocError>
    ensures { OnOk result (string_bytes text.new ≡ string_bytes text.old ++ count_line number count) }
{
    writeln!(text, "{number}: {count}")
}
