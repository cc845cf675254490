//! The law of the one run that the callers of several seats cite.
ghost use Rattle.word_arena.specs.Runs.{SeatsAgree};

use entry_ref::Layout;

/// In every state that the rule of the table allows, a number names one image, whatever parts of the run two seats have
/// seen: what a guard reads under a number is what the writer committed under it.
pub fn one_run_law<L: Layout>()
    ensures { SeatsAgree L.reaches L.lawful }
{}
