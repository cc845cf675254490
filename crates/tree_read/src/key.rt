//! A key to search for, and how it is compared with a stored one.

ghost use Rattle.std.specs.Prelude.{◌≡◌, ℕ, List};
ghost use Rattle.std.specs.declared.cmp.Ordering.{Ordering};
ghost use Rattle.std.specs.Cmp.{IsTotalOrder};
ghost use Rattle.entry_ref.specs.Records.{Records, SameAt};

use arena_api::Frozen;
use std::cmp::Ordering;

/// A key to search for in a tree. Over records, stored keys read as values of `Read`.
pub trait KeyOrder<const OFFSET_BITS: u32> {
    type Read;

    ghost can_read: { Records → ℕ → Type 0 };

    ghost read: { Records → ℕ → Self.Read };

    /// The records from which a stored key is read.
    ghost reads_from: { Records → ℕ → List ℕ };

    ghost order: { Self.Read → Self.Read → Ordering };

    ghost sought: { Self → Self.Read };

    /// Compares a stored key with the sought key.
    fn compare<F: Frozen<OFFSET_BITS>>(&self, frozen: &mut F, stored: u64) -> Ordering
        requires { can_read (F.records frozen.old) stored }
        ensures answer { result ≡ order (read (F.records frozen.old) stored) (sought self.now) }
        ensures same { frozen.new ≡ frozen.old };

    ghost total: { IsTotalOrder order };

    // a key can be read, with the same result, in all records that agree on those from which it is read
    ghost stays: { (m n : Records) (key : ℕ) → can_read m key → SameAt (reads_from m key) m n
        → can_read n key × (read n key ≡ read m key) };

    // in such records the key is read from the same references
    ghost steady: { (m n : Records) (key : ℕ) → can_read m key → SameAt (reads_from m key) m n
        → reads_from n key ≡ reads_from m key };
}
