//! The texts of refusals, and the help.

ghost use Rattle.std.specs.Prelude.{◌≡◌, ◌++◌, ◌≤◌, OnOk, IfOk, string_bytes};
ghost use Rattle.attr_run.specs.Texts.{help_text, query_refusal, query_line, line_refusal};
ghost use Rattle.attr_run.specs.Texts.{feed_line, answer_text};
ghost use Rattle.attr_run.specs.declared.outcome.Status.TheVariants.{Usage, BadFeed};

use crate::outcome::{FeedFault, Status, UsageCause};
use attr_types::QueryError;
use std::alloc::{AllocError, Global};

#[tactic(auto, unfolding(crate::specs::Texts::help_text))]
fn help_in(alloc: Global) -> Result<String, AllocError>
    ensures { IfOk result (λ text. string_bytes text ≡ help_text) }
{
    String::from_str(
        alloc,
        "attr --kind single|array|weightedset --value long|string [--field F] [--batch B] \
         [--readers R]\n     [--rounds N] [--buffers U] [--words W] [--after] \
         [--make N] [--seed S] [--wide] [--dense] [--also A] [--save] [QUERY..]\n",
    )
}

#[tactic(auto, unfolding(crate::specs::Texts::query_refusal))]
fn push_refusal(text: &mut String, error: &QueryError) -> Result<(), AllocError>
    ensures { OnOk result (string_bytes text.new ≡ string_bytes text.old
        ++ query_refusal error.now) }
{
    match error {
        QueryError::Syntax { place } => write!(text, "Syntax at {place}"),
        QueryError::NoField { .. } => text.push_str("NoField"),
        QueryError::WrongType => text.push_str("WrongType"),
        QueryError::OutOfRange => text.push_str("OutOfRange"),
        QueryError::TooDeep => text.push_str("TooDeep"),
        QueryError::Memory => text.push_str("Memory"),
    }
}

#[tactic(auto, unfolding(crate::specs::Texts::query_line))]
fn query_text(alloc: Global, number: u64, error: &QueryError) -> Result<String, AllocError>
    ensures { IfOk result (λ text. string_bytes text ≡ query_line number error.now) }
{
    let mut text = String::from_str(alloc, "attr: usage: query ")?;
    write!(text, "{number}: ")?;
    push_refusal(&mut text, error)?;
    text.push_str("\n")?;
    Ok(text)
}

#[tactic(auto, unfolding(crate::specs::Texts::answer_text))]
fn usage_text(alloc: Global, cause: &UsageCause) -> Result<String, AllocError>
    ensures { IfOk result (λ text. string_bytes text ≡ answer_text (Usage cause.now)) }
{
    match cause {
        UsageCause::Words => String::from_str(alloc, "attr: usage: words\n"),
        UsageCause::KindName => String::from_str(alloc, "attr: usage: kind\n"),
        UsageCause::ValueName => String::from_str(alloc, "attr: usage: value\n"),
        UsageCause::Size { .. } => String::from_str(alloc, "attr: usage: size\n"),
        UsageCause::Also { .. } => String::from_str(alloc, "attr: usage: also\n"),
        UsageCause::Query { number, error } => query_text(alloc, *number, error),
    }
}

#[tactic(auto, unfolding(crate::specs::Texts::line_refusal))]
fn refusal_name(number: u32) -> &'static str
    ensures { result.now ≡ line_refusal number }
{
    match number {
        1 => "NotJson",
        2 => "NoOperation",
        3 => "BadId",
        4 => "BadValue",
        5 => "Unsupported",
        _ => "TooManyItems",
    }
}

#[tactic(auto, unfolding(crate::specs::Texts::feed_line))]
fn line_text(alloc: Global, line: u32, number: u32) -> Result<String, AllocError>
    ensures { IfOk result (λ text. string_bytes text ≡ feed_line line number) }
{
    let name = refusal_name(number);
    let mut text = String::from_str(alloc, "attr: feed line ")?;
    write!(text, "{line}: ")?;
    writeln!(text, "{name}")?;
    Ok(text)
}

#[tactic(auto, unfolding(crate::specs::Texts::answer_text))]
fn feed_text(alloc: Global, fault: &FeedFault) -> Result<String, AllocError>
    ensures { IfOk result (λ text. string_bytes text ≡ answer_text (BadFeed fault.now)) }
{
    match fault {
        FeedFault::Line { line, number } => line_text(alloc, *line, *number),
        FeedFault::TooLong => String::from_str(alloc, "attr: feed: FeedTooLong\n"),
    }
}

/// Returns the text of an answer that has a text of its own.
#[tactic(auto, unfolding(crate::specs::Texts::answer_text))]
pub fn text_in(alloc: Global, status: &Status) -> Result<String, AllocError>
    ensures { IfOk result (λ text. string_bytes text ≡ answer_text status.now) }
{
    match status {
        Status::Help => help_in(alloc),
        Status::Usage(cause) => usage_text(alloc, cause),
        Status::BadFeed(fault) => feed_text(alloc, fault),
        Status::ReadFault => String::from_str(alloc, "attr: read fault\n"),
        Status::Done | Status::WriteFault | Status::Full { .. } | Status::Memory => {
            Ok(String::new(alloc))
        }
    }
}
