//! Receivers of the keys of a posting tree, which are its documents.
ghost use Rattle.std.specs.Prelude.{◌∷◌, [], OnOk};
ghost use Rattle.attr_types.specs.Lawful.{IsDocNumber};
ghost use Rattle.index_model.specs.Sets.{has, in_words};
ghost use Rattle.query_eval.specs.Takers.{Adds};

use attr_types::Doc;
use index_model::DocSet;
use std::alloc::AllocError;
use tree_read::TakesKeys;

/// A list that receives the documents of a tree.
#[derive(Drop)]
pub struct Pushed {
    pub docs: Vec<Doc>,
}

impl TakesKeys for Pushed {
    ghost use Rattle.query_eval.specs.ProofsForTakers.{adds_none, adds_joined};

    ghost can_take = { IsDocNumber };

    ghost takes = { λ old keys new. Adds (has old.docs.items) keys (has new.docs.items) };

    fn take(&mut self, key: u64) -> Result<(), AllocError>
        requires { IsDocNumber key }
        ensures { OnOk result (Adds (has self.old.docs.items) (key ∷ []) (has self.new.docs.items)) }
    {
        self.docs.push(Doc::new(key as u32))?;
        Ok(())
    }

    ghost none = { λ taker. adds_none (has taker.docs.items) };

    ghost joins = { λ a b c xs ys first second.
        adds_joined (has a.docs.items) (has b.docs.items) (has c.docs.items) xs ys first second };
}

/// A bit vector that receives the documents of a tree.
#[derive(Drop)]
pub struct Inserted {
    pub set: DocSet,
}

impl TakesKeys for Inserted {
    ghost use Rattle.query_eval.specs.ProofsForTakers.{adds_none, adds_joined};

    ghost can_take = { IsDocNumber };

    ghost takes = { λ old keys new. Adds (in_words old.set) keys (in_words new.set) };

    fn take(&mut self, key: u64) -> Result<(), AllocError>
        requires { IsDocNumber key }
        ensures { OnOk result (Adds (in_words self.old.set) (key ∷ []) (in_words self.new.set)) }
    {
        self.set.insert(Doc::new(key as u32))
    }

    ghost none = { λ taker. adds_none (in_words taker.set) };

    ghost joins = { λ a b c xs ys first second.
        adds_joined (in_words a.set) (in_words b.set) (in_words c.set) xs ys first second };
}
