//! Reads the operations of a feed, line by line.

ghost use Rattle.std.specs.Prelude.{◌≡◌, ◌≢◌, ◌-◌, ◌^◌, ◌<◌, ◌≤◌, length, IfOk, IfSome, Err};
ghost use Rattle.std.specs.List.{AllByRecursion};
ghost use Rattle.attr_types.specs.Lawful.{OpFits};
ghost use Rattle.attr_io.specs.Bytes.{HasMoreThan, ReadsPieces, piece_bytes};
ghost use Rattle.attr_io.specs.Faults.{Rose};
ghost use Rattle.feed_reader.specs.Feed.{feed_of, most_bytes, numbered_error, line_error, LinesSay, FeedSays, OnLines, ReadsAll};

use crate::error::{FeedError, LinesError};
use crate::line::read_line;
use crate::refusal::{LineError, Refusal};
use crate::split::{is_blank_line, split_line};
use attr_io::{ReadError, Source, read_all};
use attr_types::{Field, Fields, Ops};
use std::alloc::Global;

/// The greatest number of bytes of a feed.
const MOST_BYTES: usize = 16_777_216;

fn at_line(line: u32, refusal: Refusal) -> FeedError
    ensures { result ≡ line_error line refusal }
{
    match refusal {
        Refusal::NotJson => FeedError::NotJson { line },
        Refusal::NoOperation => FeedError::NoOperation { line },
        Refusal::BadId => FeedError::BadId { line },
        Refusal::BadValue => FeedError::BadValue { line },
        Refusal::Unsupported => FeedError::Unsupported { line },
        Refusal::TooManyItems => FeedError::TooManyItems { line },
    }
}

fn numbered(line: u32, e: LineError) -> LinesError
    ensures { result ≡ numbered_error line e }
{
    match e {
        LineError::Refused(refusal) => LinesError::Line { line, refusal },
        LineError::Memory => LinesError::Memory,
    }
}

/// Returns the operations in a feed's bytes.
fn read_lines(alloc: Global, fields: &[Field], bytes: &[u8]) -> Result<Ops, LinesError>
    requires { length bytes.now < 2 ^ 32 - 1 }
    ensures feed { LinesSay result (feed_of fields.now bytes.now) }
    ensures fits { IfOk result (λ ops. AllByRecursion (OpFits fields.now) ops) }
    ensures few { IfOk result (λ ops. length ops ≤ length bytes.now) }
{
    let mut ops = Ops::new(alloc);
    let mut rest = bytes;
    let mut number: u32 = 1;
    while !rest.is_empty() {
        let (line, after) = split_line(rest);
        if !is_blank_line(line) {
            match read_line(alloc, fields, line) {
                Ok(op) => ops.push(op)?,
                Err(e) => return Err(numbered(number, e)),
            }
        }
        rest = after;
        number += 1;
    }
    Ok(ops)
}

/// Returns the operations in the bytes of a feed for some attributes: the fields with their names in each document.
pub fn parse_feed(alloc: Global, bytes: &[u8], fields: &Fields) -> Result<Ops, FeedError>
    ensures feed { FeedSays result (feed_of fields.now bytes.now) }
    ensures fits { IfOk result (λ ops. AllByRecursion (OpFits fields.now) ops) }
    ensures within { OnLines result (length bytes.now ≤ most_bytes) }
    ensures few { IfOk result (λ ops. length ops ≤ most_bytes) }
    ensures too_long { result ≡ Err FeedError.FeedTooLong → most_bytes < length bytes.now }
    ensures no_fault { result ≢ Err FeedError.ReadFault }
{
    if bytes.len() > MOST_BYTES {
        return Err(FeedError::FeedTooLong);
    }
    match read_lines(alloc, fields.as_slice(), bytes) {
        Ok(ops) => Ok(ops),
        Err(LinesError::Line { line, refusal }) => Err(at_line(line, refusal)),
        Err(LinesError::Memory) => Err(FeedError::Memory),
    }
}

/// Reads the operations of a feed for some attributes: the fields with their names in each document.
///
/// The source is read to its end, to a fault, or until more than 16,777,216 bytes were read. Lines are interpreted
/// only after that.
pub fn read_feed<S: Source>(
    alloc: Global,
    source: &mut S,
    fields: &Fields,
) -> Result<Ops, FeedError>
    ensures feed { IfSome (S.left source.old)
        (λ bytes. FeedSays result (feed_of fields.now bytes)) }
    ensures fits { IfOk result (λ ops. AllByRecursion (OpFits fields.now) ops) }
    ensures all { OnLines result (ReadsAll (S.left source.old) (S.left source.new)) }
    ensures few { IfOk result (λ ops. length ops ≤ most_bytes) }
    ensures too_long { result ≡ Err FeedError.FeedTooLong
        → HasMoreThan most_bytes (S.left source.old) }
    ensures fault { result ≡ Err FeedError.ReadFault
        → Rose (S.faults source.old) (S.faults source.new) }
    ensures later { S.faults source.old ≤ S.faults source.new }
    // With every result: each read is made only if at most `most_bytes` bytes were read before it, and each read but
    // the last took at least one byte.
    ensures pieces { ReadsPieces most_bytes piece_bytes
        (S.left source.old) (S.left source.new) (S.reads source.old) (S.reads source.new) }
{
    match read_all(alloc, source, MOST_BYTES) {
        Ok(bytes) => parse_feed(alloc, &bytes, fields),
        Err(ReadError::TooLong) => Err(FeedError::FeedTooLong),
        Err(ReadError::Fault) => Err(FeedError::ReadFault),
        Err(ReadError::Memory) => Err(FeedError::Memory),
    }
}
