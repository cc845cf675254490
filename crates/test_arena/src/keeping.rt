//! The seat of a store's keeper, whose work is the writer's, and its tasks.
ghost use Rattle.std.specs.Prelude.{◌≡◌, [], ◌∷◌, true, false, None, Some, IfSome, IfNone, IfOk, OnErr};
ghost use Rattle.entry_ref.specs.References.{buffer_of};
ghost use Rattle.store_api.specs.Ledgers.{is_width, is_this, IsNew};
ghost use Rattle.store_api.specs.Units.{MayDo};
ghost use Rattle.store_api.specs.Parts.{Owns, Turns, entries};
ghost use Rattle.test_arena.specs.Keepings.{IsKeeping, root_refs};

use crate::answers::Answer;
use crate::marks::Marks;
use crate::playing::Seat;
use crate::steps::Task;
use entry_ref::EntryRef;
use store_api::{Store, StoreError, drop_one, make_entry};
use test_kit::{Committed, NODE, OneNode, words_of};

/// The last commit, the root (0 if there is none), and the buffers sealed and finished since then.
#[derive(Clone, Copy, Drop)]
pub struct Keeping {
    pub last: u32,
    pub root: u32,
    pub sealed: Option<u32>,
    pub finished: Option<u32>,
}

fn drop_root<S: Store<22>>(store: &mut S, root: u32)
    requires unit { (S.ledger store.old).unit ≡ true }
    requires owns { Owns (S.ledger store.old) (S.records store.old) (entries (root_refs root) ∷ []) }
    ensures turns { Turns (S.ledger store.old) (S.ledger store.new) (S.records store.old) (S.records store.new)
        (entries (root_refs root) ∷ []) [] }
    ensures may { MayDo (S.ledger store.old) (S.ledger store.new) }
{
    if root > 0 {
        drop_one(store, EntryRef::from_raw(root));
    }
}

/// Makes a node of the next commit's words in place of the root, in a unit that is accepted, or undone after an
/// error.
fn put_node<S: Store<22>>(store: &mut S, keeping: Keeping) -> Result<Keeping, StoreError>
    requires { IsKeeping (S.ledger store.old) (S.records store.old) keeping }
    ensures ok { IfOk result (IsKeeping (S.ledger store.new) (S.records store.new)) }
    ensures err { OnErr result (IsKeeping (S.ledger store.new) (S.records store.new) keeping) }
{
    store.begin();
    match make_entry(store, NODE, &words_of(keeping.last.saturating_add(1))) {
        Ok(node) => {
            drop_root(store, keeping.root);
            store.accept();
            Ok(Keeping {
                last: keeping.last,
                root: node.raw(),
                sealed: keeping.sealed,
                finished: keeping.finished,
            })
        }
        Err(error) => {
            store.undo();
            Err(error)
        }
    }
}

/// Commits the root. Returns `None` if no commit is left.
fn commit_root<S: Store<22, Layout = OneNode>>(
    store: &mut S,
    keeping: Keeping,
) -> Option<(Keeping, Committed)>
    requires { IsKeeping (S.ledger store.old) (S.records store.old) keeping }
    ensures some { IfSome result (λ p. IsKeeping (S.ledger store.new) (S.records store.new) p.0) }
    ensures none { IfNone result (IsKeeping (S.ledger store.new) (S.records store.new) keeping) }
{
    if store.commits_left() == 0 {
        return None;
    }
    let stored = store.commit(EntryRef::from_raw(keeping.root));
    let keeping = Keeping {
        last: stored.commit,
        root: keeping.root,
        sealed: None,
        finished: None,
    };
    let committed = Committed {
        number: stored.commit,
        advance: stored.advance,
        oldest: stored.oldest,
    };
    Some((keeping, committed))
}

fn put<S: Store<22>>(store: &mut S, keeping: Keeping, marks: &mut Marks) -> (Keeping, Answer)
    requires { IsKeeping (S.ledger store.old) (S.records store.old) keeping }
    ensures { IsKeeping (S.ledger store.new) (S.records store.new) result.0 }
{
    match put_node(store, keeping) {
        Ok(next) => (next, Answer::Entry(marks.note(NODE, next.root))),
        Err(error) => (keeping, Answer::Refused(error)),
    }
}

fn commit<S: Store<22, Layout = OneNode>>(store: &mut S, keeping: Keeping) -> (Keeping, Answer)
    requires { IsKeeping (S.ledger store.old) (S.records store.old) keeping }
    ensures { IsKeeping (S.ledger store.new) (S.records store.new) result.0 }
{
    match commit_root(store, keeping) {
        Some((next, committed)) => (next, Answer::Committed(committed)),
        None => (keeping, Answer::NoCommit),
    }
}

/// Makes a node, and commits it.
fn turn<S: Store<22, Layout = OneNode>>(
    store: &mut S,
    keeping: Keeping,
    marks: &mut Marks,
) -> (Keeping, Answer)
    requires { IsKeeping (S.ledger store.old) (S.records store.old) keeping }
    ensures { IsKeeping (S.ledger store.new) (S.records store.new) result.0 }
{
    match put_node(store, keeping) {
        Ok(next) => {
            let made = marks.note(NODE, next.root);
            match commit_root(store, next) {
                Some((last, committed)) => (last, Answer::Turned(made, committed)),
                None => (next, Answer::NoCommit),
            }
        }
        Err(error) => (keeping, Answer::Refused(error)),
    }
}

/// Returns the width of entries that a row names, of the few that occur in rows.
fn width_of(number: u32) -> u32
    ensures { is_width result ≡ true }
{
    match number {
        2 => 2,
        1024 => 1024,
        _ => NODE,
    }
}

/// Makes entries until the given number is reached or one is refused. Returns how many, how many of them are new, and
/// why no more were made.
fn fill<S: Store<22>>(
    store: &mut S,
    marks: &mut Marks,
    width: u32,
    most: u32,
) -> (u32, u32, Option<StoreError>)
    requires unit { (S.ledger store.old).unit ≡ true }
    requires width { is_width width ≡ true }
    ensures may { MayDo (S.ledger store.old) (S.ledger store.new) }
{
    let mut fresh = 0u32;
    for count in 0..most {
        match store.make(width, &[]) {
            Ok(entry) => fresh = fresh.saturating_add(u32::from(marks.is_new(width, entry.raw()))),
            Err(error) => return (count, fresh, Some(error)),
        }
    }
    (most, fresh, None)
}

/// The same in a unit that is undone.
fn fill_undone<S: Store<22>>(
    store: &mut S,
    keeping: Keeping,
    marks: &mut Marks,
    width: u32,
    most: u32,
) -> (Keeping, Answer)
    requires { IsKeeping (S.ledger store.old) (S.records store.old) keeping }
    ensures { IsKeeping (S.ledger store.new) (S.records store.new) result.0 }
{
    store.begin();
    let (made, fresh, error) = fill(store, marks, width_of(width), most);
    store.undo();
    (keeping, Answer::Made(made, fresh, error))
}

fn seal<S: Store<22>>(store: &mut S, keeping: Keeping) -> (Keeping, Answer)
    requires { IsKeeping (S.ledger store.old) (S.records store.old) keeping }
    ensures { IsKeeping (S.ledger store.new) (S.records store.new) result.0 }
{
    match store.choose_victim() {
        Some(buffer) => {
            store.seal(buffer);
            let keeping = Keeping {
                last: keeping.last,
                root: keeping.root,
                sealed: Some(buffer),
                finished: keeping.finished,
            };
            (keeping, Answer::Buffer(buffer))
        }
        None => (keeping, Answer::NoBuffer),
    }
}

/// Returns the sealed buffer, if none is finished and the root lies in another.
fn emptied(keeping: &Keeping) -> Option<u32>
    ensures sealed { IfSome result (λ b. keeping.now.sealed ≡ Some b) }
    ensures none { IfSome result (λ b. keeping.now.finished ≡ None) }
    ensures apart { IfSome result (λ b. is_this (Some b) (buffer_of 22 keeping.now.root) ≡ false) }
{
    if keeping.finished.is_some() {
        return None;
    }
    let buffer = keeping.sealed?;
    if EntryRef::<22>::from_raw(keeping.root).buffer() == buffer {
        return None;
    }
    Some(buffer)
}

fn finish<S: Store<22>>(store: &mut S, keeping: Keeping) -> (Keeping, Answer)
    requires { IsKeeping (S.ledger store.old) (S.records store.old) keeping }
    ensures { IsKeeping (S.ledger store.new) (S.records store.new) result.0 }
{
    match emptied(&keeping) {
        Some(buffer) => {
            store.finish(buffer);
            let keeping = Keeping {
                last: keeping.last,
                root: keeping.root,
                sealed: keeping.sealed,
                finished: Some(buffer),
            };
            (keeping, Answer::Done)
        }
        None => (keeping, Answer::Unfit),
    }
}

fn work_on<S: Store<22, Layout = OneNode>>(
    store: &mut S,
    keeping: Keeping,
    marks: &mut Marks,
    task: Task,
) -> (Keeping, Answer)
    requires { IsKeeping (S.ledger store.old) (S.records store.old) keeping }
    ensures { IsKeeping (S.ledger store.new) (S.records store.new) result.0 }
{
    match task {
        Task::Node => turn(store, keeping, marks),
        Task::Put => put(store, keeping, marks),
        Task::Commit => commit(store, keeping),
        Task::Fill(width, most) => fill_undone(store, keeping, marks, width, most),
        Task::Seal => seal(store, keeping),
        Task::Finish => finish(store, keeping),
        Task::Left => (keeping, Answer::Count(store.commits_left())),
        _ => (keeping, Answer::Unfit),
    }
}

/// A store, and what its keeper knows of it.
#[derive(Drop)]
pub struct Keeper<S: Store<22>> {
    store: S,
    keeping: Keeping,
    marks: Marks,
    ghost keeps: { IsKeeping (S.ledger store) (S.records store) keeping },
}

/// Returns the keeper of a new store.
pub fn keeper_of<S: Store<22>>(store: S) -> Keeper<S>
    requires { IsNew (S.ledger store) }
{
    let keeping = Keeping {
        last: 0,
        root: 0,
        sealed: None,
        finished: None,
    };
    Keeper {
        store,
        keeping,
        marks: Marks::default(),
    }
}

impl<S: Store<22, Layout = OneNode>> Seat for Keeper<S> {
    fn take(&mut self, task: Task) -> Answer {
        let (keeping, answer) = work_on(&mut self.store, self.keeping, &mut self.marks, task);
        self.keeping = keeping;
        answer
    }
}
