//! A guard of the last commit.
ghost use Rattle.std.specs.Prelude.{◌≡◌};
ghost use Rattle.word_arena.specs.Ruled.{reader_of, IsLater};

use entry_ref::Layout;
use word_arena::{Again, Guarded, Reader};

/// Returns a guard, after as many tries as it takes.
pub fn guarded<const OFFSET_BITS: u32, L: Layout>(
    reader: Reader<OFFSET_BITS, L>,
) -> Guarded<OFFSET_BITS, L>
    ensures later { IsLater L.reaches L.lawful (reader_of reader.place.me.0) (reader_of result.place.me.0) }
    ensures table { result.place.table_id ≡ reader.place.table_id }
{
    let mut reader = reader;
    loop {
        match reader.try_guard() {
            Ok(guard) => return guard,
            Err(again) => {
                let Again {
                    reader: next,
                    found: _,
                } = again;
                reader = next;
            }
        }
    }
}
