//! Laws of ordered pairs, for the crates above.

ghost use Rattle.std.specs.Prelude.{◌≡◌, ◌≤◌, ◌+◌, ℕ, List, None, Some, IsSome, length};
ghost use Rattle.std.specs.declared.cmp.Ordering.{Ordering};
ghost use Rattle.std.specs.declared.cmp.Ordering.TheVariants.{Equal};
ghost use Rattle.std.specs.List.{flat_map};
ghost use Rattle.std.specs.Option.{option_map};
ghost use Rattle.entry_ref.specs.Records.{Records, SameAt};
ghost use Rattle.tree_read.specs.Trees.{tree_nodes, tree_pairs};
ghost use Rattle.tree_read.specs.Keys.{Ascends, KeepsOthers, AllReadable, NoneReadsNodes, IsKeyedTree, IsKeyWord, seen_by};
ghost use Rattle.tree_read.specs.Pairs.{lookup, lookup_pair, put, take_out};

use crate::key::KeyOrder;

/// The value for a key is that of its pair.
pub fn pair_law()
    ensures { (c : ℕ → Ordering) (ps : List (ℕ × ℕ)) → lookup c ps ≡ option_map (λ p. p.1) (lookup_pair c ps) }
{}

/// After a put, the pair is found, there is one more pair or as many as before, and keys still ascend.
pub fn put_law<const OFFSET_BITS: u32, K: KeyOrder<OFFSET_BITS>>()
    ensures found { (c : ℕ → Ordering) (pair : ℕ × ℕ) (ps : List (ℕ × ℕ)) → c pair.0 ≡ Equal
        → lookup c (put c pair ps) ≡ Some pair.1 }
    ensures count { (c : ℕ → Ordering) (pair : ℕ × ℕ) (ps : List (ℕ × ℕ)) → length (put c pair ps) ≤ length ps + 1 }
    ensures ascends { (m : Records) (s : K.Read) (pair : ℕ × ℕ) (ps : List (ℕ × ℕ))
        → seen_by K.read K.order s m pair.0 ≡ Equal → Ascends K.order K.read m ps
        → Ascends K.order K.read m (put (seen_by K.read K.order s m) pair ps) }
{}

/// A removal takes one pair out if the key exists, and none otherwise. Keys still ascend.
pub fn take_out_law<const OFFSET_BITS: u32, K: KeyOrder<OFFSET_BITS>>()
    ensures count { (c : ℕ → Ordering) (ps : List (ℕ × ℕ)) → IsSome (lookup c ps)
        → length (take_out c ps) + 1 ≡ length ps }
    ensures none { (c : ℕ → Ordering) (ps : List (ℕ × ℕ)) → lookup c ps ≡ None → take_out c ps ≡ ps }
    ensures ascends { (m : Records) (c : ℕ → Ordering) (ps : List (ℕ × ℕ)) → Ascends K.order K.read m ps
        → Ascends K.order K.read m (take_out c ps) }
{}

/// Keys that are not read from nodes stay the same while all records that are not nodes stay the same.
pub fn key_law<const OFFSET_BITS: u32, K: KeyOrder<OFFSET_BITS>>()
    ensures readable { (m n : Records) (ps : List (ℕ × ℕ)) → KeepsOthers m n → AllReadable K.can_read m ps
        → NoneReadsNodes K.reads_from m ps → AllReadable K.can_read n ps }
    ensures apart { (m n : Records) (ps : List (ℕ × ℕ)) → KeepsOthers m n → AllReadable K.can_read m ps
        → NoneReadsNodes K.reads_from m ps → NoneReadsNodes K.reads_from n ps }
    ensures ascends { (m n : Records) (ps : List (ℕ × ℕ)) → KeepsOthers m n → AllReadable K.can_read m ps
        → NoneReadsNodes K.reads_from m ps → Ascends K.order K.read m ps → Ascends K.order K.read n ps }
{}

/// A tree stays the same while its nodes and the records of its keys stay the same. A word stays a key while all
/// records that are not nodes stay the same.
pub fn keyed_law<const OFFSET_BITS: u32, K: KeyOrder<OFFSET_BITS>>()
    ensures tree { (m n : Records) (root : ℕ) → SameAt (tree_nodes m root) m n
        → SameAt (flat_map (λ p. K.reads_from m p.0) (tree_pairs m root)) m n
        → IsKeyedTree K.order K.read K.can_read K.reads_from m root → IsKeyedTree K.order K.read K.can_read K.reads_from n root }
    ensures word { (m n : Records) (s : K.Read) (word : ℕ) → KeepsOthers m n
        → IsKeyWord K.order K.read K.can_read K.reads_from s m word → IsKeyWord K.order K.read K.can_read K.reads_from s n word }
{}
