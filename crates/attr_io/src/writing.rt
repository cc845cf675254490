//! Writes all of a text to a sink.

ghost use Rattle.std.specs.Prelude.{OnOk, OnErr};
ghost use Rattle.std.specs.Io.KnownBytes.{Appends};
ghost use Rattle.attr_io.specs.Bytes.{AppendsFront};
ghost use Rattle.attr_io.specs.Faults.{CountsFaults};

use crate::traffic::{Failed, Sink};

/// Writes all of a text, or the front of it up to a write that fails.
pub fn write_all<K: Sink>(sink: &mut K, text: &[u8]) -> Result<(), Failed>
    ensures whole { OnOk result (Appends (K.taken sink.old) (K.taken sink.new) text.now) }
    ensures front { OnErr result (AppendsFront (K.taken sink.old) (K.taken sink.new) text.now) }
    ensures cause { CountsFaults (K.faults sink.old) (K.faults sink.new) result }
{
    let mut at = 0;
    while at < text.len() {
        let count = sink.write(&text[at..])?;
        at += count;
    }
    Ok(())
}
