//! The layout whose root is the root of a tree by number.

use entry_ref::Layout;

/// The layout whose root is the root of a tree by number.
pub struct TreeLayout;

impl Layout for TreeLayout {
    ghost use Rattle.number_tree.specs.Layouts.{tree_reaches, tree_lawful};
    ghost use Rattle.number_tree.specs.ProofsForLayouts.{tree_empty_reaches, tree_empty_lawful, tree_present, tree_stays};

    ghost reaches = { tree_reaches };

    ghost lawful = { tree_lawful };

    ghost empty_reaches = { tree_empty_reaches };

    ghost empty_lawful = { tree_empty_lawful };

    ghost present = { tree_present };

    ghost stays = { tree_stays };
}
