//! Reads a save back.

ghost use Rattle.std.specs.Prelude.{◌≡◌, ◌≤◌, IfOk, IfSome, IsErrOf};
ghost use Rattle.std.specs.Io.KnownBytes.{Consumes, IsAtEnd};
ghost use Rattle.attr_io.specs.Faults.{Rose};
ghost use Rattle.attr_saver.specs.Answers.{ReadsAs};
ghost use Rattle.attr_saver.specs.Bytes.{saved_bytes};
ghost use Rattle.attr_saver.specs.Fields.{read_of};
ghost use Rattle.attr_saver.specs.Lawful.{IsLawfulSaved};

use crate::document::saved_in_bytes;
use crate::error::{Broken, LoadError};
use crate::saved::Saved;
use attr_io::{Source, read_all};
use std::alloc::Global;

/// Reads all of the bytes as a save, or returns the place of the first bad field.
fn saved_or_refused(alloc: Global, bytes: &[u8]) -> Result<Saved, LoadError>
    ensures form { ReadsAs result (read_of bytes.now) }
    ensures lawful { IfOk result IsLawfulSaved }
    ensures bytes { IfOk result (λ saved. bytes.now ≡ saved_bytes saved) }
    ensures fault { ¬ (IsErrOf result LoadError.ReadFault) }
{
    match saved_in_bytes(alloc, bytes) {
        Ok(saved) => Ok(saved),
        Err(Broken::Field { left }) => Err(LoadError::BadForm {
            place: bytes.len().saturating_sub(left) as u64,
        }),
        Err(Broken::Memory) => Err(LoadError::Memory),
    }
}

/// Reads a source to its end, and interprets its bytes as a save.
pub fn read_saved<S: Source>(alloc: Global, source: &mut S) -> Result<Saved, LoadError>
    // The save, or the first bad field, is what the grammar says of all the bytes of the source.
    ensures form { IfSome (S.left source.old) (λ bytes. ReadsAs result (read_of bytes)) }
    // What is read is lawful, and the source had exactly its bytes.
    ensures lawful { IfOk result IsLawfulSaved }
    ensures bytes { IfOk result (λ saved.
        Consumes (S.left source.old) (S.left source.new) (saved_bytes saved)) }
    ensures end { IfOk result (λ _. IsAtEnd (S.left source.new)) }
    ensures fault { IsErrOf result LoadError.ReadFault → Rose (S.faults source.old) (S.faults source.new) }
    ensures later { S.faults source.old ≤ S.faults source.new }
{
    let bytes = read_all(alloc, source, usize::MAX)?;
    saved_or_refused(alloc, &bytes)
}
