//! Bytes that are read from the front, field by field.

ghost use Rattle.std.specs.Prelude.{◌≡◌, length};
ghost use Rattle.std.specs.Int.{w8, w16, w32, w64};
ghost use Rattle.attr_saver.specs.Answers.{Gives};
ghost use Rattle.attr_saver.specs.Fields.{read_number, read_bytes, read_magic};

use crate::error::Broken;
use std::marker::Model;

/// The first bytes of a save.
pub(crate) const MAGIC: &[u8; 4] = b"ATS1";

/// Bytes that are read from the front. Contracts see those that are left.
#[derive(Drop)]
pub(crate) struct Reader<'a> {
    rest: &'a [u8],
}

impl<'a> Model for Reader<'a> {
    ghost use Rattle.std.specs.Prelude.{ℕ, List};

    ghost Value = { List ℕ };

    ghost view = { λ r. r.rest.now };
}

impl<'a> Reader<'a> {
    pub(crate) fn new(bytes: &'a [u8]) -> Reader<'a>
        ensures { result ≡ bytes.entry.now }
    {
        Reader { rest: bytes }
    }

    /// Returns the number of bytes left.
    pub(crate) fn left(&self) -> usize
        ensures { result ≡ length self.now }
    {
        self.rest.len()
    }

    pub(crate) fn bytes(&mut self, len: usize) -> Result<&'a [u8], Broken>
        ensures { Gives (λ x. (x.now, self.new)) result (read_bytes len self.old) }
    {
        if self.rest.len() < len {
            return Err(Broken::Field {
                left: self.rest.len(),
            });
        }
        let (front, rest) = self.rest.split_at(len);
        self.rest = rest;
        Ok(front)
    }

    pub(crate) fn u8(&mut self) -> Result<u8, Broken>
        ensures { Gives (λ x. (x, self.new)) result (read_number w8 self.old) }
    {
        let front = self.bytes(1)?;
        Ok(front[0])
    }

    pub(crate) fn u16(&mut self) -> Result<u16, Broken>
        ensures { Gives (λ x. (x, self.new)) result (read_number w16 self.old) }
    {
        let front = self.bytes(2)?;
        Ok(u16::from_be_bytes([front[0], front[1]]))
    }

    pub(crate) fn u32(&mut self) -> Result<u32, Broken>
        ensures { Gives (λ x. (x, self.new)) result (read_number w32 self.old) }
    {
        let front = self.bytes(4)?;
        Ok(u32::from_be_bytes([front[0], front[1], front[2], front[3]]))
    }

    pub(crate) fn u64(&mut self) -> Result<u64, Broken>
        ensures { Gives (λ x. (x, self.new)) result (read_number w64 self.old) }
    {
        let front = self.bytes(8)?;
        Ok(u64::from_be_bytes([
            front[0], front[1], front[2], front[3], front[4], front[5], front[6], front[7],
        ]))
    }

    /// Skips the first bytes of a save.
    pub(crate) fn magic(&mut self) -> Result<(), Broken>
        ensures { Gives (λ _. self.new) result (read_magic self.old) }
    {
        if !self.rest.starts_with(MAGIC) {
            return Err(Broken::Field {
                left: self.rest.len(),
            });
        }
        self.rest = &self.rest[MAGIC.len()..];
        Ok(())
    }
}
