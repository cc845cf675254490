//! Laws of searches and cursors, for the crates above.

ghost use Rattle.std.specs.Prelude.{◌≡◌, ℕ, List, filter, find, not};
ghost use Rattle.std.specs.Option.{option_map};
ghost use Rattle.std.specs.Ordering.{is_lt, is_eq, is_gt};
ghost use Rattle.entry_ref.specs.Records.{Records, SameAt};
ghost use Rattle.tree_read.specs.Trees.{tree_nodes};
ghost use Rattle.tree_read.specs.Keys.{Ascends, seen_by};
ghost use Rattle.tree_read.specs.Pairs.{lookup, seek};
ghost use Rattle.tree_read.specs.SearchPlaces.{CursorPlace, IsAt, pairs_from};

use crate::KeyOrder;

/// A cursor's position, and the pairs from it on, stay the same while the records of the tree's nodes stay the same.
pub fn place_law()
    ensures at { (m n : Records) (at : CursorPlace) → SameAt (tree_nodes m at.root) m n → IsAt m at → IsAt n at }
    ensures pairs { (m n : Records) (at : CursorPlace) → SameAt (tree_nodes m at.root) m n → IsAt m at
        → pairs_from n at ≡ pairs_from m at }
{}

/// In a list with ascending keys, a lookup considers all pairs, and a seek finds the pairs whose key is not below the
/// sought key.
pub fn search_law<const OFFSET_BITS: u32, K: KeyOrder<OFFSET_BITS>>()
    ensures lookup { (m : Records) (s : K.Read) (ps : List (ℕ × ℕ)) → Ascends K.order K.read m ps
        → lookup (seen_by K.read K.order s m) ps
        ≡ option_map (λ p. p.1) (find (λ p. is_eq (seen_by K.read K.order s m p.0)) ps) }
    ensures seek { (m : Records) (s : K.Read) (ps : List (ℕ × ℕ)) → Ascends K.order K.read m ps
        → seek (seen_by K.read K.order s m) ps ≡ filter (λ p. not (is_lt (seen_by K.read K.order s m p.0))) ps }
{}
