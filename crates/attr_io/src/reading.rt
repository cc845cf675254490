//! Reads a source to its end, in pieces, up to a limit.

ghost use Rattle.std.specs.Prelude.{◌≡◌, ◌<◌, ◌≤◌, ◌⊎◌, length, vec_len, IfOk, IsErrOf};
ghost use Rattle.std.specs.Io.KnownBytes.{Consumes, IsAtEnd};
ghost use Rattle.attr_io.specs.Bytes.{HasMoreThan, ReadsPieces, piece_bytes};
ghost use Rattle.attr_io.specs.Faults.{Rose};
ghost use Rattle.attr_io.specs.declared.reading.ReadError.TheVariants as errors;

use crate::traffic::{Failed, Source};
use std::alloc::{AllocError, Global};
use thiserror::Error;

/// Why a source was not read to its end.
#[derive(Clone, Copy, Debug, PartialEq, Eq, Error)]
pub enum ReadError {
    #[error("the source has too many bytes")]
    TooLong,
    #[error("a read failed")]
    Fault,
    #[error("out of memory")]
    Memory,
}

impl From<Failed> for ReadError {
    ghost from_gives = { λ _ e. e ≡ errors.Fault };

    fn from(_failed: Failed) -> ReadError {
        ReadError::Fault
    }
}

impl From<AllocError> for ReadError {
    ghost from_gives = { λ _ e. e ≡ errors.Memory };

    fn from(_e: AllocError) -> ReadError {
        ReadError::Memory
    }
}

/// The number of bytes that one read asks for.
const PIECE: usize = 65536;

/// Reads a source to its end, unless it fails or has more than `limit` bytes.
///
/// Each read is made only if at most `limit` bytes were read before it. So with every result the source loses at most
/// one piece of 65,536 bytes beyond the limit, and each read but the last took at least one byte. If a read fails, no
/// further read is made, and the failure is returned.
pub fn read_all<S: Source>(
    alloc: Global,
    source: &mut S,
    limit: usize,
) -> Result<Vec<u8>, ReadError>
    ensures bytes { IfOk result (λ v. Consumes (S.left source.old) (S.left source.new) v.items) }
    ensures end { IfOk result (λ v. IsAtEnd (S.left source.new)) }
    ensures within { IfOk result (λ v. vec_len v ≤ limit) }
    ensures too_long { IsErrOf result ReadError.TooLong → HasMoreThan limit (S.left source.old) }
    ensures fault { IsErrOf result ReadError.Fault → Rose (S.faults source.old) (S.faults source.new) }
    ensures later { S.faults source.old ≤ S.faults source.new }
    ensures answered { (S.faults source.new ≡ S.faults source.old) ⊎ IsErrOf result ReadError.Fault }
    ensures pieces { ReadsPieces limit piece_bytes
        (S.left source.old) (S.left source.new) (S.reads source.old) (S.reads source.new) }
{
    let mut piece = vec![in alloc; 0u8; PIECE]?;
    read_pieces(alloc, source, limit, &mut piece)
}

/// The loop of `read_all`, for pieces of any size.
fn read_pieces<S: Source>(
    alloc: Global,
    source: &mut S,
    limit: usize,
    piece: &mut [u8],
) -> Result<Vec<u8>, ReadError>
    requires { 0 < length piece.old }
    ensures bytes { IfOk result (λ v. Consumes (S.left source.old) (S.left source.new) v.items) }
    ensures end { IfOk result (λ v. IsAtEnd (S.left source.new)) }
    ensures within { IfOk result (λ v. vec_len v ≤ limit) }
    ensures too_long { IsErrOf result ReadError.TooLong → HasMoreThan limit (S.left source.old) }
    ensures fault { IsErrOf result ReadError.Fault → Rose (S.faults source.old) (S.faults source.new) }
    ensures later { S.faults source.old ≤ S.faults source.new }
    ensures answered { (S.faults source.new ≡ S.faults source.old) ⊎ IsErrOf result ReadError.Fault }
    ensures pieces { ReadsPieces limit (length piece.old)
        (S.left source.old) (S.left source.new) (S.reads source.old) (S.reads source.new) }
{
    let mut bytes = Vec::new(alloc);
    while bytes.len() <= limit {
        let count = source.read(piece)?;
        if count == 0 {
            return Ok(bytes);
        }
        bytes.extend_from_slice(&piece[..count])?;
    }
    Err(ReadError::TooLong)
}
