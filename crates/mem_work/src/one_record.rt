//! The layout whose root is one record.

ghost use Rattle.std.specs.Prelude.{◌≡◌, IfOk};
ghost use Rattle.entry_ref.specs.Maps.{seen};
ghost use Rattle.mem_work.specs.OneRecord.{one_reaches};

use crate::reach::Reach;
use entry_ref::{EntryRef, Layout};
use std::alloc::{AllocError, Global};
use std::collections::BTreeMap;

/// The layout whose root is one record, for tests and benchmarks.
pub struct OneRecord;

impl Layout for OneRecord {
    ghost use Rattle.std.specs.Prelude.{refl};
    ghost use Rattle.mem_work.specs.OneRecord.{one_reaches, IsOneRecord};
    ghost use Rattle.mem_work.specs.ProofsForOneRecord.{one_present, one_stays};

    ghost reaches = { one_reaches };

    ghost lawful = { IsOneRecord };

    ghost empty_reaches = { λ shape m. refl };

    ghost empty_lawful = { λ shape m. tt };

    ghost present = { one_present };

    ghost stays = { one_stays };
}

impl<const OFFSET_BITS: u32> Reach<OFFSET_BITS> for OneRecord {
    fn reached(
        alloc: Global,
        shape: u32,
        records: &BTreeMap<u32, Vec<u64>>,
        root: EntryRef<OFFSET_BITS>,
    ) -> Result<Vec<u32>, AllocError>
        ensures { IfOk result (λ references. references.items ≡ one_reaches shape (seen records.now) root.entry) }
    {
        let mut references = Vec::new(alloc);
        if root.valid() {
            references.push(root.raw())?;
        }
        Ok(references)
    }
}
