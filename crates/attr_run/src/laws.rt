//! The law of the settings of a run. The function does nothing; its contract is the law.
ghost use Rattle.attr_run.specs.Settings.{RunsAreAsked, QueriesAreRefused};

use command_line::settings_law as words_law;
use query_text::grammar_law;

/// A run that words request is lawful: its numbers are in the ranges of their options, and its asks are the answers
/// of the grammar of query words to its texts. Words are refused because of a query if and only if the grammar
/// refuses this query and none before it.
pub fn settings_law()
    ensures asked { RunsAreAsked }
    ensures refused { QueriesAreRefused }
{
    words_law();
    grammar_law();
}
