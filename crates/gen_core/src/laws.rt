//! The laws of the core. The contract of each function is the law, for every layout.

ghost use Rattle.gen_core.specs.Laws.{KeepsGood, HandsOutUnguarded, HoldsBack, EventKeepsGood, LoadsImageWord, LoadsWidth, KeepsGuarded};
ghost use Rattle.gen_core.specs.Laws.{StoreLeavesKept, WidthLeavesKept, PublishedStands, PublishesWhole, RecordsAreFound, FoundAreRecords};
ghost use Rattle.gen_core.specs.Laws.{RecordsStand, LoadsLaterCommit, KeepsCommits, ViewIsGood, OddIsPassed, AimIsNotBelow, CloseFindsUse};
ghost use Rattle.gen_core.specs.Laws.{ProbeFindsUse, CountsAreSmall, NoneIsBelowZero, FloorStays};
ghost use Rattle.gen_core.specs.Reads.{SeesItsReads};
ghost use Rattle.gen_core.specs.Runs.{CommitsAgree};
ghost use Rattle.gen_core.specs.Steps.{EventIsOneStep};
ghost use Rattle.gen_core.specs.ViewLaws.{LastIsKept, LastAreRecords, RecordsLieActive, KeptArePlaced, UnkeptAvoids, StoresOneWord};
ghost use Rattle.gen_core.specs.ViewLaws.{StoreLeavesOthers, HandsOutNothing, PublishesRecords};
ghost use Rattle.gen_core.specs.Needed.{NeedsActive, NeedsApart, NeedsActiveWidth, NeedsNoWidth, NeedsFree, NeedsLawful, NeedsRecords};
ghost use Rattle.gen_core.specs.Needed.{NeedsNumber, NeedsSeat, RootBeforeRaise, OpensByZero, LastBeforeOpen, ForgetsTheBounce};
ghost use Rattle.gen_core.specs.Needed.{MorphBesideNext, CloseMovesNoFloor, FreesAtTheOldest, TagsTooEarly};
ghost use Rattle.gen_core.specs.Examples.{Ends, hold_sizes, buffer_sizes, missed_events, missed_end, renewed_events, renewed_end};
ghost use Rattle.gen_core.specs.Examples.{closed_events, closed_end, kept_events, kept_end, reopened_events, reopened_end, again_events};
ghost use Rattle.gen_core.specs.Examples.{again_end};
ghost use Rattle.gen_core.specs.Examples.{stored_events, stored_end};

use entry_ref::Layout;

/// Every list of events from the opening keeps the invariant. When a buffer is handed out, no view stands on a hold
/// whose generation is at most the buffer's last tag.
pub fn core_law<L: Layout>()
    ensures good { KeepsGood L.reaches L.lawful }
    ensures hand_out { HandsOutUnguarded L.reaches L.lawful }
{}

/// A buffer that is put on hold while a view stands on a hold is not handed out before that view is released,
/// whatever happens in between.
pub fn held_law<L: Layout>()
    ensures { HoldsBack L.reaches L.lawful }
{}

/// Each event keeps the invariant, from every state in which the invariant holds.
pub fn event_law<L: Layout>()
    ensures { EventKeepsGood L.reaches L.lawful }
{}

/// A guarded reader loads the words of its commit's image and the widths of their buffers. The commit is kept, is
/// lawful, and is in the table.
pub fn guard_law<L: Layout>()
    ensures word { LoadsImageWord L.reaches L.lawful }
    ensures width { LoadsWidth L.reaches L.lawful }
    ensures kept { KeepsGuarded L.reaches L.lawful }
{}

/// A store changes no kept commit.
pub fn store_law<L: Layout>()
    ensures word { StoreLeavesKept L.reaches L.lawful }
    ensures width { WidthLeavesKept L.reaches L.lawful }
{}

/// A published image is in the table. Each of its records belongs to the last commit or was stored whole since then.
pub fn publish_law<L: Layout>()
    ensures stands { PublishedStands L.reaches L.lawful }
    ensures whole { PublishesWhole L.reaches L.lawful }
{}

/// The writer's records are those of the last commit and those stored whole since then. They are in the table.
pub fn records_law<L: Layout>()
    ensures found { RecordsAreFound L.reaches L.lawful }
    ensures records { FoundAreRecords L.reaches L.lawful }
    ensures stand { RecordsStand L.reaches L.lawful }
{}

/// The commit that a reader loads is lawful, and not older than any that the reader saw before.
pub fn root_law<L: Layout>()
    ensures { LoadsLaterCommit L.reaches L.lawful }
{}

/// What a reader saw are its own reads of the root, in order: at each, the last commit of that moment. It is told from
/// other readers by its number. The same holds of a reader that was joined.
pub fn reads_law<L: Layout>()
    ensures { SeesItsReads L.reaches L.lawful }
{}

/// A number names one image in a run, however far the run has gone: the events of a run determine its states, and a commit
/// is never changed.
pub fn run_law<L: Layout>()
    ensures { CommitsAgree L.reaches L.lawful }
{}

/// The commits that joined readers saw are commits of the writer.
pub fn commits_law<L: Layout>()
    ensures { KeepsCommits L.reaches L.lawful }
{}

/// What holds of the writer's view in a good state follows from the view alone, so the writer's seat needs nothing
/// else.
pub fn view_law<L: Layout>()
    ensures { ViewIsGood L.reaches L.lawful }
{}

/// What the writer's seat knows from its view: the last commit, its records, and where it may write.
pub fn seat_law()
    ensures last { LastIsKept }
    ensures records { LastAreRecords }
    ensures active { RecordsLieActive }
    ensures placed { KeptArePlaced }
    ensures unkept { UnkeptAvoids }
{}

/// How a store, a hand-out and a publish change the writer's records.
pub fn work_law()
    ensures stored { StoresOneWord }
    ensures others { StoreLeavesOthers }
    ensures handed_out { HandsOutNothing }
    ensures published { PublishesRecords }
{}

/// Each event is one operation of one seat on one word, and changes only that seat's view. A split and a join change
/// two views.
pub fn step_law<L: Layout>()
    ensures { EventIsOneStep L.reaches L.lawful }
{}

/// A reader that finds its hold closed has missed a generation, and aims at a later one next. So it tries at most
/// once for each generation between the one that it first aims at and the last.
pub fn miss_law<L: Layout>()
    ensures passed { OddIsPassed L.reaches L.lawful }
    ensures not_below { AimIsNotBelow L.reaches L.lawful }
{}

/// A close and a probe fail only if the hold is in use.
pub fn use_law<L: Layout>()
    ensures close { CloseFindsUse L.reaches L.lawful }
    ensures probe { ProbeFindsUse L.reaches L.lawful }
{}

/// No count exceeds 129, and no count is decremented below 0.
pub fn count_law<L: Layout>()
    ensures most { CountsAreSmall L.reaches L.lawful }
    ensures least { NoneIsBelowZero L.reaches L.lawful }
{}

/// The first kept commit never falls.
pub fn floor_law<L: Layout>()
    ensures { FloorStays L.reaches L.lawful }
{}

/// Each step without its condition breaks the invariant.
pub fn conditions_law<L: Layout>()
    ensures active { NeedsActive L.reaches L.lawful }
    ensures apart { NeedsApart L.reaches L.lawful }
    ensures active_width { NeedsActiveWidth L.reaches L.lawful }
    ensures no_width { NeedsNoWidth L.reaches L.lawful }
    ensures free { NeedsFree L.reaches L.lawful }
    ensures lawful { NeedsLawful L.reaches L.lawful }
    ensures records { NeedsRecords L.reaches L.lawful }
    ensures number { NeedsNumber L.reaches L.lawful }
    ensures seat { NeedsSeat L.reaches L.lawful }
{}

/// Each of the wrong steps that the protocol excludes breaks the invariant.
pub fn wrong_steps_law<L: Layout>()
    ensures root_before_raise { RootBeforeRaise L.reaches L.lawful }
    ensures opens_a_hold_by_zero { OpensByZero L.reaches L.lawful }
    ensures last_before_the_hold_is_open { LastBeforeOpen L.reaches L.lawful }
    ensures forgets_the_bounce { ForgetsTheBounce L.reaches L.lawful }
    ensures morph_beside_a_reopened_hold { MorphBesideNext L.reaches L.lawful }
    ensures close_moves_no_floor { CloseMovesNoFloor L.reaches L.lawful }
    ensures frees_at_the_oldest { FreesAtTheOldest L.reaches L.lawful }
    ensures tags_too_early { TagsTooEarly L.reaches L.lawful }
{}

/// Example lists of events, with the state in which each ends.
pub fn examples_law()
    ensures missed { Ends hold_sizes missed_events missed_end }
    ensures renewed { Ends hold_sizes renewed_events renewed_end }
    ensures closed { Ends hold_sizes closed_events closed_end }
    ensures kept { Ends hold_sizes kept_events kept_end }
    ensures reopened { Ends hold_sizes reopened_events reopened_end }
    ensures again { Ends (buffer_sizes 22) again_events again_end }
    ensures stored { Ends (buffer_sizes 22) (stored_events 22) (stored_end 22) }
    ensures stored_narrow { Ends (buffer_sizes 19) (stored_events 19) (stored_end 19) }
{}
