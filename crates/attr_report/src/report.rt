//! The other lines of what a run writes.
ghost use Rattle.std.specs.Prelude.{◌≡◌, ◌++◌, OnOk, string_bytes};
ghost use Rattle.attr_report.specs.Report.{final_line, done_line, made_line, documents_line};

use crate::request::Make;
use std::alloc::AllocError;

/// Writes at how many operations the last answers are.
#[tactic(auto, unfolding(crate::specs::Report::final_line))]
pub fn push_final_line(text: &mut String, loaded: u32) -> Result<(), AllocError>
    ensures { OnOk result (string_bytes text.new ≡ string_bytes text.old ++ final_line loaded) }
{
    writeln!(text, "final at {loaded}")
}

/// Writes how many operations were loaded and skipped.
#[tactic(auto, unfolding(crate::specs::Report::done_line))]
pub fn push_done_line(text: &mut String, loaded: u32, skipped: u32) -> Result<(), AllocError>
    ensures { OnOk result (string_bytes text.new ≡ string_bytes text.old
        ++ done_line loaded skipped) }
{
    writeln!(text, "done {loaded} operations {skipped} skipped")
}

/// Writes how the operations were made.
#[tactic(auto, unfolding(crate::specs::Report::made_line))]
pub fn push_made_line(text: &mut String, make: Make) -> Result<(), AllocError>
    ensures { OnOk result (string_bytes text.new ≡ string_bytes text.old ++ made_line make) }
{
    let Make { count, seed } = make;
    writeln!(text, "made {count} seed {seed}")
}

/// Writes the number of documents after everything is loaded.
#[tactic(auto, unfolding(crate::specs::Report::documents_line))]
pub fn push_documents_line(
    text: &mut String,
    loaded: u32,
    documents: usize,
) -> Result<(), AllocError>
    ensures { OnOk result (string_bytes text.new ≡ string_bytes text.old
        ++ documents_line loaded documents) }
{
    writeln!(text, "final at {loaded} documents {documents}")
}
