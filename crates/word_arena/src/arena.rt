//! The table, and the writer's seat before there is a writer.
ghost use Rattle.std.specs.Prelude.{◌≡◌, ◌^◌, ◌<◌, ◌≤◌, ◌+◌, ◌*◌, IfOk, length};
ghost use Rattle.entry_ref.specs.References.{buffer_limit, offset_limit};
ghost use Rattle.gen_core.specs.Events.{opening_view, opening_words};
ghost use Rattle.word_arena.specs.Ruled.{bare, writer_of};
ghost use Rattle.word_arena.specs.Knows.{IsToken, core_sizes};

use crate::config::Config;
use crate::rule::{ArenaSeat, WordTable};
use crate::words::{CLOSED, FIRST_COUNT, FIRST_STATE};
use atomic_table::Table;
use entry_ref::Layout;
use gen_core::{Buffer, Sizes};
use std::alloc::{AllocError, Global};

/// The words that the writer and its readers share, and their sizes. The layout says what a root reaches and which images
/// are lawful.
///
/// `create` makes it with the token of its one writer; `writer` turns both into the writer, which makes the readers. All
/// of them own the arena together, and the last one frees it.
#[derive(Drop)]
pub struct Arena<const OFFSET_BITS: u32, L: Layout> {
    pub(crate) table: WordTable<L>,
    pub(crate) sizes: Sizes,
}

/// The writer's seat in a new arena, and its copy of the buffers. There is one for each arena, so an arena has one writer.
/// Its one use is `Arena::writer` of the same arena.
#[derive(Drop)]
pub struct Token<const OFFSET_BITS: u32> {
    pub(crate) sizes: Sizes,
    pub(crate) buffers: Vec<Buffer>,
    pub(crate) place: ArenaSeat,
    ghost stands: { IsToken OFFSET_BITS sizes buffers.items place.table_id (bare place.me) },
}

/// Returns the words of a new arena. Every word is 0, except the counts of holds 1 to 15, which are closed.
fn opening_words(alloc: Global, sizes: &Sizes) -> Result<Vec<u64>, AllocError>
    requires some { 0 < sizes.now.words }
    requires product { sizes.now.buffers * sizes.now.words ≤ 67108864 }
    ensures { IfOk result (λ v. v.items ≡ opening_words sizes.now) }
{
    let count = sizes.buffers as usize + sizes.buffers as usize * sizes.words as usize;
    let mut words = Vec::new(alloc);
    words.reserve(FIRST_STATE + count)?;
    words.resize(FIRST_COUNT + 1, 0)?;
    words.resize(FIRST_STATE, CLOSED)?;
    words.resize(FIRST_STATE + count, 0)?;
    Ok(words)
}

fn sizes_of<const OFFSET_BITS: u32>(config: &Config) -> Sizes
    ensures { result ≡ core_sizes OFFSET_BITS config.now }
{
    Sizes {
        offset_bits: u64::from(OFFSET_BITS),
        buffers: u64::from(config.buffers),
        words: u64::from(config.words),
        shape: u64::from(config.shape),
        commit_limit: u64::from(config.limits.commits),
        generation_limit: config.limits.generations,
    }
}

impl<const OFFSET_BITS: u32, L: Layout> Arena<OFFSET_BITS, L> {
    /// Creates an arena at commit 0, which has no record, and at generation 0 on hold 0. All buffers are free.
    pub fn create(
        alloc: Global,
        config: Config,
    ) -> Result<(Arena<OFFSET_BITS, L>, Token<OFFSET_BITS>), AllocError>
        requires some_buffers { 1 ≤ config.buffers }
        requires few_buffers { config.buffers < buffer_limit OFFSET_BITS }
        requires some_words { 8192 ≤ config.words }
        requires few_words { config.words ≤ 65536 }
        requires offsets { config.words ≤ offset_limit OFFSET_BITS }
        requires product { config.buffers * config.words ≤ 67108864 }
        requires generations { config.limits.generations < 2 ^ 48 }
        ensures own { IfOk result (λ r. (r.1.place.table_id ≡ r.0.table.shared.table_id) × (r.1.sizes ≡ r.0.sizes)) }
        ensures sizes { IfOk result (λ r. r.1.sizes ≡ core_sizes OFFSET_BITS config) }
        ensures view { IfOk result (λ r. writer_of r.1.place.me.0 ≡ opening_view (core_sizes OFFSET_BITS config)) }
    {
        let sizes = sizes_of::<OFFSET_BITS>(&config);
        let buffers = vec![in alloc; Buffer::Free(None); config.buffers as usize]?;
        let words = opening_words(alloc, &sizes)?;
        let (table, place) = Table::of_words(alloc, words.as_slice(), &sizes)?;
        Ok((
            Arena { table, sizes },
            Token {
                sizes,
                buffers,
                place,
            },
        ))
    }
}
