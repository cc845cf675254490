//! The operations of a run.
ghost use Rattle.std.specs.Prelude.{◌≡◌, ◌<◌, ◌≤◌, ◌⊎◌, ◌^◌, None, Some, Ok, length, IfOk, IfErr, IsErrOf};
ghost use Rattle.std.specs.List.{AllByRecursion};
ghost use Rattle.std.specs.Io.KnownBytes.{IsAtEnd};
ghost use Rattle.attr_io.specs.Bytes.{OfBytes, ReadsPieces};
ghost use Rattle.attr_types.specs.Lawful.{OpFits};
ghost use Rattle.feed_reader.specs.Feed.{most_bytes};
ghost use Rattle.attr_run.specs.Made.{made};
ghost use Rattle.attr_report.specs.Run.{run_in};
ghost use Rattle.attr_run.specs.Run.{fed, ops_in as ops_of};
ghost use Rattle.attr_run.specs.Answers.{ReadsAsAsked};
ghost use Rattle.attr_run.specs.Steps.{IsFeedStop, IsUnfed, IsProperStop};
ghost use Rattle.attr_run.specs.declared.outcome.Status.TheVariants.{ReadFault};
ghost use Rattle.attr_run.specs.declared.stop.Stop.TheVariants as stops;

use crate::make_ops;
use crate::outcome::{FeedFault, Status};
use crate::stop::Stop;
use attr_io::{ReadError, Source, read_all};
use attr_report::Request;
use attr_types::{Fields, Ops};
use feed_reader::parse_feed;
use std::alloc::Global;

/// The most bytes that a feed may have.
const MOST_BYTES: usize = 16_777_216;

/// Returns the operations in the bytes of a feed.
fn lines_in(alloc: Global, bytes: &[u8], fields: &Fields) -> Result<Ops, Stop>
    requires { length bytes.now ≤ most_bytes }
    ensures fed { IfOk result (λ ops. ops_of fields.now bytes.now ≡ Ok ops) }
    ensures few { IfOk result (λ ops. length ops < 2 ^ 32) }
    ensures fit { IfOk result (λ ops. AllByRecursion (OpFits fields.now) ops) }
    ensures unfed { IfErr result (IsFeedStop fields.now (Some bytes.now) 0 0) }
    ensures proper { IfErr result IsProperStop }
{
    let ops = parse_feed(alloc, bytes, fields)?;
    Ok(ops)
}

/// Returns the operations of a feed, which is read to its end before any of its lines is interpreted.
fn read_in<S: Source>(alloc: Global, source: &mut S, fields: &Fields) -> Result<Ops, Stop>
    ensures fed { IfOk result (λ ops. OfBytes (S.left source.old) (λ bytes. ops_of fields.now bytes ≡ Ok ops)) }
    ensures few { IfOk result (λ ops. length ops < 2 ^ 32) }
    ensures fit { IfOk result (λ ops. AllByRecursion (OpFits fields.now) ops) }
    ensures reads_all { IfOk result (λ _. IsAtEnd (S.left source.new)) }
    ensures unfed { IfErr result (IsFeedStop fields.now (S.left source.old)
        (S.faults source.old) (S.faults source.new)) }
    ensures proper { IfErr result IsProperStop }
    ensures answered { (S.faults source.new ≡ S.faults source.old) ⊎ IsErrOf result (stops.Answer ReadFault) }
    ensures reads { ReadsPieces most_bytes 65536
        (S.left source.old) (S.left source.new) (S.reads source.old) (S.reads source.new) }
{
    match read_all(alloc, source, MOST_BYTES) {
        Ok(bytes) => lines_in(alloc, &bytes, fields),
        Err(ReadError::TooLong) => Err(Stop::Answer(Status::BadFeed(FeedFault::TooLong))),
        Err(ReadError::Fault) => Err(Stop::Answer(Status::ReadFault)),
        Err(ReadError::Memory) => Err(Stop::Memory),
    }
}

fn made_in(alloc: Global, count: u32, seed: u32, fields: &Fields) -> Result<Ops, Stop>
    ensures made { IfOk result (λ ops. ops ≡ made count seed fields.now) }
    ensures few { IfOk result (λ ops. length ops < 2 ^ 32) }
    ensures fit { IfOk result (λ ops. AllByRecursion (OpFits fields.now) ops) }
    ensures memory { IfErr result (λ stop. stop ≡ stops.Memory) }
{
    let ops = make_ops(alloc, count, seed, fields)?;
    Ok(ops)
}

/// Returns the operations of a run: made ones if it requests them, otherwise those of its source.
pub fn ops_in<S: Source>(alloc: Global, source: &mut S, request: &Request) -> Result<Ops, Stop>
    ensures fed { IfOk result (λ ops. OfBytes (S.left source.old) (λ bytes. fed (run_in request.now) bytes ≡ Ok ops)) }
    ensures few { IfOk result (λ ops. length ops < 2 ^ 32) }
    ensures fit { IfOk result (λ ops. AllByRecursion (OpFits request.now.fields) ops) }
    ensures reads_all { IfOk result (λ _. ReadsAsAsked (run_in request.now) (S.left source.old) (S.left source.new)) }
    ensures unfed { IfErr result (IsUnfed (run_in request.now) (S.left source.old)
        (S.faults source.old) (S.faults source.new)) }
    ensures proper { IfErr result IsProperStop }
    ensures answered { (S.faults source.new ≡ S.faults source.old) ⊎ IsErrOf result (stops.Answer ReadFault) }
    ensures unread { ¬ (request.now.make ≡ None) → source.new ≡ source.old }
    ensures reads { ReadsPieces most_bytes 65536
        (S.left source.old) (S.left source.new) (S.reads source.old) (S.reads source.new) }
{
    match request.make {
        Some(make) => made_in(alloc, make.count, make.seed, &request.fields),
        None => read_in(alloc, source, &request.fields),
    }
}
