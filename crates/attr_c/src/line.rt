//! The operation of one line.
ghost use Rattle.std.specs.Prelude.{◌≡◌, ◌<◌, ◌∷◌, [], length};
ghost use Rattle.feed_reader.specs.Lines.{lines_of};
ghost use Rattle.attr_c.specs.Feeding.{SaysLine};

use crate::split::is_blank_line;
use attr_types::{Fields, Op};
use feed_reader::{FeedError, parse_feed};
use std::alloc::Global;

/// Returns the operation of a line, if it has one.
pub fn operation_in(alloc: Global, fields: &Fields, line: &[u8]) -> Result<Option<Op>, FeedError>
    requires { 0 < length line.now → lines_of line.now ≡ line.now ∷ [] }
    ensures { SaysLine fields.now line.now result }
{
    if is_blank_line(line) {
        return Ok(None);
    }
    match parse_feed(alloc, line, fields) {
        Ok(ops) => Ok(ops.into_vec().pop()),
        Err(error) => Err(error),
    }
}
