//! The rule of the table: its words and the views of all seats are those of the single run of the core.
ghost use Rattle.std.specs.Prelude.{[]};
ghost use Rattle.gen_core.specs.declared.views.View.TheVariants.{Writer};
ghost use Rattle.gen_core.specs.Events.{opening_view};
ghost use Rattle.word_arena.specs.Watched.{OneRun};

use atomic_table::{Seat, Table, TableRule};
use entry_ref::Layout;
use gen_core::{Event, Sizes, View};
use std::alloc::Global;
use std::collections::LinkedList;
use std::marker::PhantomData;

/// What a seat knows: its view, all events of the run up to its last step, and its own steps among them. No value of
/// this type is made.
pub struct Watched {
    pub view: View,
    pub seen: LinkedList<Event>,
    pub mine: LinkedList<Event>,
}

/// The rule that the table keeps at each step: its words and all views come from one run of the core (`OneRun`).
pub struct OneRunRule<L> {
    layout: PhantomData<L>,
}

impl<L: Layout> TableRule<(), Watched, Sizes> for OneRunRule<L> {
    ghost holds = { OneRun L.reaches L.lawful };

    ghost first = { λ sizes. record { view = Writer (opening_view sizes); seen = []; mine = [] } };
}

/// The words of an arena, under this rule.
pub type WordTable<L> = Table<(), Watched, Sizes, OneRunRule<L>, Global>;

/// A seat at an arena's words. It takes no bytes but its place in the proof: what it knows is a `Watched`.
pub type ArenaSeat = Seat<(), Watched>;
