//! The answer that a reader keeps until it is asked again.
ghost use Rattle.std.specs.Prelude.{◌≡◌, [], map};
ghost use Rattle.attr_types.specs.Change.{if_signed};
ghost use Rattle.attr_c.specs.Copies.{documents_of, nearest_end, score_told, scores_told, Copies};

use crate::told::Scored;
use attr_types::{Doc, DocList, Score, ScoreList};
use std::alloc::Global;

/// Documents, ascending; with a dot product each has its score.
#[derive(Drop)]
pub enum Answer {
    Hits(DocList),
    Scores(ScoreList),
}

impl Answer {
    ghost use Rattle.attr_types.specs.Scores.{documents_in};
    ghost use Rattle.attr_c.specs.Said.{said};

    /// Returns the answer without a document.
    pub fn new(alloc: Global) -> Answer
        ensures { result ≡ Answer.Hits [] }
    {
        Answer::Hits(DocList::new(alloc))
    }

    pub fn len(&self) -> usize
        ensures { result ≡ documents_in (said self.now) }
    {
        match self {
            Answer::Hits(docs) => docs.len(),
            Answer::Scores(scores) => scores.len(),
        }
    }
}

pub fn copy_docs(docs: &[Doc], into: &mut [u32]) -> usize
    ensures { Copies docs.now 0 into.old into.new result }
{
    let count = into.len().min(docs.len());
    for i in 0..count {
        into[i] = docs[i].number();
    }
    count
}

fn copy_scored_docs(scores: &[Score], into: &mut [u32]) -> usize
    ensures { Copies (map (λ s. s.doc) scores.now) 0 into.old into.new result }
{
    let count = into.len().min(scores.len());
    for i in 0..count {
        into[i] = scores[i].doc.number();
    }
    count
}

/// Copies the numbers of documents from the one at this place on, and says how many.
pub fn copy_hits(answer: &Answer, first: usize, into: &mut [u32]) -> usize
    ensures { Copies (documents_of answer.now) first into.old into.new result }
{
    match answer {
        Answer::Hits(docs) => {
            let docs = docs.as_slice();
            copy_docs(&docs[first.min(docs.len())..], into)
        }
        Answer::Scores(scores) => {
            let scores = scores.as_slice();
            copy_scored_docs(&scores[first.min(scores.len())..], into)
        }
    }
}

fn long_of(score: i128) -> Option<i64>
    ensures { result ≡ if_signed 63 score }
{
    i64::try_from(score).ok()
}

/// Returns the end of the 64-bit numbers that is nearest to a score outside them.
fn nearest_end(score: i128) -> i64
    ensures { result ≡ nearest_end score }
{
    if score < 0 { i64::MIN } else { i64::MAX }
}

fn told_score(score: &Score) -> Scored
    ensures { result ≡ score_told score.now }
{
    let doc = score.doc.number();
    match long_of(score.score) {
        Some(number) => Scored {
            score: number,
            doc,
            exact: 1,
        },
        None => Scored {
            score: nearest_end(score.score),
            doc,
            exact: 0,
        },
    }
}

pub fn copy_scored(scores: &[Score], into: &mut [Scored]) -> usize
    ensures { Copies (map score_told scores.now) 0 into.old into.new result }
{
    let count = into.len().min(scores.len());
    for i in 0..count {
        into[i] = told_score(&scores[i]);
    }
    count
}

/// Copies documents with their scores from the one at this place on, and says how many.
pub fn copy_scores(answer: &Answer, first: usize, into: &mut [Scored]) -> usize
    ensures { Copies (scores_told answer.now) first into.old into.new result }
{
    match answer {
        Answer::Hits(_) => 0,
        Answer::Scores(scores) => {
            let scores = scores.as_slice();
            copy_scored(&scores[first.min(scores.len())..], into)
        }
    }
}
