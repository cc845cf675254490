//! The meaning of a code, in words.
ghost use Rattle.std.specs.Prelude.{◌≡◌};
ghost use Rattle.attr_c.specs.Copies.{Copies};
ghost use Rattle.attr_c.specs.Messages.{call_message, line_message, message_of, query_message};

use crate::codes::{
    ATTRIBUTES, BAD_ID, BAD_SAVE, BAD_VALUE, BOUNDS, COMMITS_SPENT, FULL, LINE_TOO_LONG, LOST,
    MEMORY, NO_DOCUMENT, NO_FIELD, NO_OPERATION, NO_READER, NO_TEXT, NOT_JSON, OK,
    OPERATIONS_SPENT, OTHER_SAVE, OUT_OF_RANGE, SYNTAX, TOO_DEEP, TOO_MANY_ITEMS, UNSUPPORTED,
    WRONG_TYPE,
};
use crate::copying::copy_bytes;

#[tactic(auto, unfolding(crate::specs::Messages::call_message))]
fn call_message(code: i32) -> &'static str
    ensures { result.now ≡ call_message code }
{
    match code {
        OK => "no error",
        MEMORY => "out of memory",
        BOUNDS => "a size is out of bounds",
        ATTRIBUTES => "no attribute of the form name:kind:value",
        NO_TEXT => "the text is not UTF-8",
        NO_READER => "all readers are given away",
        LOST => "no such reader",
        NO_DOCUMENT => "the document is not there",
        FULL => "the store is full",
        COMMITS_SPENT => "no commit is left",
        OPERATIONS_SPENT => "no operation is left",
        _ => "unknown code",
    }
}

#[tactic(auto, unfolding(crate::specs::Messages::query_message))]
fn query_message(code: i32) -> &'static str
    ensures { result.now ≡ query_message code }
{
    match code {
        SYNTAX => "the text asks for nothing",
        NO_FIELD => "a name is none of the attributes",
        WRONG_TYPE => "a value is of another type than its attribute",
        OUT_OF_RANGE => "a number is outside 64 signed bits, or a text is longer than 1,024 bytes",
        TOO_DEEP => "the query has more than 32 levels",
        _ => "unknown code",
    }
}

#[tactic(auto, unfolding(crate::specs::Messages::line_message))]
fn line_message(code: i32) -> &'static str
    ensures { result.now ≡ line_message code }
{
    match code {
        NOT_JSON => "the line is no JSON value",
        NO_OPERATION => "the line has not exactly one of put, update and remove",
        BAD_ID => "the id does not end with the number of a document",
        BAD_VALUE => "a field has not the form of its attribute",
        UNSUPPORTED => "the line asks for what its attribute has not",
        TOO_MANY_ITEMS => "a document would have more than 1,023 items",
        LINE_TOO_LONG => "the line has more than 16,777,216 bytes",
        BAD_SAVE => "the bytes are no save",
        OTHER_SAVE => "the save is of another kind or value type, or there are several attributes",
        _ => "unknown code",
    }
}

/// Returns the meaning of a code.
#[tactic(auto, unfolding(crate::specs::Messages::message_of))]
pub fn message_of(code: i32) -> &'static str
    ensures { result.now ≡ message_of code }
{
    if code < SYNTAX {
        call_message(code)
    } else if code < NOT_JSON {
        query_message(code)
    } else {
        line_message(code)
    }
}

/// Copies the meaning of a code, and returns the number of bytes.
#[unsafe(no_mangle)]
pub extern "C" fn attr_message(code: i32, into: &mut [u8]) -> usize
    ensures { Copies (message_of code) 0 into.old into.new result }
{
    copy_bytes(message_of(code).as_bytes(), into)
}

/// Returns 1,000,000 times the version, plus 1,000 times its second part, plus its last part.
#[unsafe(no_mangle)]
pub extern "C" fn attr_version() -> u32
    ensures { result ≡ 2000 }
{
    2_000
}
