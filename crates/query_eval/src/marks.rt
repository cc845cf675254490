//! The documents of a posting tree in a bit vector up to the last of them.
ghost use Rattle.std.specs.Prelude.{◌≡◌, ◌∷◌, ℕ, [], true, IfOk, IfSome, OnOk};
ghost use Rattle.std.specs.Map.{keys_of};
ghost use Rattle.attr_types.specs.Lawful.{IsDocNumber};
ghost use Rattle.image_format.specs.Postings.{postings_at, tree, IsPostingList};
ghost use Rattle.index_model.specs.Postings.{HaveDocNumbers};
ghost use Rattle.index_model.specs.Sets.{has, in_words};
ghost use Rattle.query_eval.specs.Takers.{Adds};

use crate::kept::{MOST_SPARSE, mark};
use arena_api::Frozen;
use attr_types::Doc;
use entry_ref::EntryRef;
use frozen_btree::total;
use std::alloc::{AllocError, Global};
use tree_read::{FIRST_KEY, TakesKeys, read_head, take_keys};

/// A bit vector that receives the documents of a tree, and whether each of them had a bit.
#[derive(Drop)]
struct Marked {
    words: Vec<u64>,
    fits: bool,
}

impl TakesKeys for Marked {
    ghost use Rattle.query_eval.specs.ProofsForTakers.{marks_none, marks_joined};

    ghost can_take = { IsDocNumber };

    ghost takes = { λ old keys new. new.fits ≡ true
        → (old.fits ≡ true) × Adds (in_words old.words.items) keys (in_words new.words.items) };

    fn take(&mut self, key: u64) -> Result<(), AllocError>
        requires { IsDocNumber key }
        ensures { OnOk result (self.new.fits ≡ true
            → (self.old.fits ≡ true) × Adds (in_words self.old.words.items) (key ∷ []) (in_words self.new.words.items)) }
    {
        if !mark(&mut self.words, Doc::new(key as u32)) {
            self.fits = false;
        }
        Ok(())
    }

    ghost none = { λ taker. marks_none (in_words taker.words.items) taker.fits };

    ghost joins = { λ a b c xs ys first second. marks_joined (in_words a.words.items) (in_words b.words.items)
        (in_words c.words.items) a.fits b.fits c.fits xs ys first second };
}

/// Returns the last key in the root of a tree, which is the last key of the tree.
fn last_key<const OFFSET_BITS: u32, F: Frozen<OFFSET_BITS>>(
    frozen: &mut F,
    root: EntryRef<OFFSET_BITS>,
) -> u64
    requires form { IsPostingList (F.records frozen.old) (tree root) }
    ensures same { frozen.new ≡ frozen.old }
{
    let used = read_head(frozen, root).used;
    frozen.word(root, FIRST_KEY as u32 - 1 + used)
}

/// Returns a bit vector of the documents of a tree up to the last. Returns `None` if it would be much longer than
/// they are.
pub fn marks_of_tree<const OFFSET_BITS: u32, F: Frozen<OFFSET_BITS>>(
    alloc: Global,
    frozen: &mut F,
    root: EntryRef<OFFSET_BITS>,
) -> Result<Option<Vec<u64>>, AllocError>
    requires form { IsPostingList (F.records frozen.old) (tree root) }
    requires documents { HaveDocNumbers (postings_at (F.records frozen.old) (tree root)) }
    ensures marks { IfOk result (λ marks. IfSome marks (λ words. (doc : ℕ) → in_words words.items doc
        ≡ has (keys_of (postings_at (F.records frozen.old) (tree root.entry))) doc)) }
    ensures same { frozen.new ≡ frozen.old }
{
    let size = (last_key(frozen, root) / 64) as usize + 1;
    if size / MOST_SPARSE > total(frozen, root) as usize {
        return Ok(None);
    }
    let mut marked = Marked {
        words: vec![in alloc; 0; size]?,
        fits: true,
    };
    take_keys(frozen, root, &mut marked)?;
    if marked.fits {
        Ok(Some(marked.words))
    } else {
        Ok(None)
    }
}
