//! Access through the pointers of the handles.
ghost use Rattle.std.specs.Prelude.{◌≡◌, Some};
ghost use Rattle.std.specs.Borrow.{sem};
ghost use Rattle.attr_c.specs.HeldEngine.{held_engine_follows};
ghost use Rattle.attr_c.specs.HeldSeat.{held_seat_follows};

use crate::handles::{HeldEngine, HeldSeat, OpenedEngine, OpenedSeat};
use crate::loose::Loose;
use crate::seat::Seat;
use crate::state::Engine;
use std::alloc::Global;

impl HeldEngine {
    fn into_loose(self, alloc: Global) -> Loose<Engine, Global>
        ensures { result.value ≡ self.value }
    {
        let HeldEngine { at } = self;
        Loose {
            at: at.cast::<Engine>(),
            alloc,
        }
    }

    pub fn into_box(self, alloc: Global) -> Box<Engine>
        ensures { result.value ≡ self.value }
    {
        self.into_loose(alloc).into_box()
    }

    pub fn get_mut(&mut self) -> &mut Engine
        ensures* writes_back { sem 𝓛 (held_engine_follows self.entry result) }
        ensures value { result.now ≡ self.old.value }
    {
        unsafe { &mut *self.at.cast::<Engine>() }
    }
}

impl HeldSeat {
    fn into_loose(self, alloc: Global) -> Loose<Seat, Global>
        ensures { result.value ≡ self.value }
    {
        let HeldSeat { at } = self;
        Loose {
            at: at.cast::<Seat>(),
            alloc,
        }
    }

    pub fn into_box(self, alloc: Global) -> Box<Seat>
        ensures { result.value ≡ self.value }
    {
        self.into_loose(alloc).into_box()
    }

    pub fn get_mut(&mut self) -> &mut Seat
        ensures* writes_back { sem 𝓛 (held_seat_follows self.entry result) }
        ensures value { result.now ≡ self.old.value }
    {
        unsafe { &mut *self.at.cast::<Seat>() }
    }
}

impl OpenedEngine {
    fn of_loose(loose: Loose<Engine, Global>) -> OpenedEngine
        ensures { result.value ≡ Some loose.value }
    {
        let Loose { at, alloc: _ } = loose;
        OpenedEngine {
            at: at.cast::<u8>(),
        }
    }

    pub fn new(engine: Box<Engine>) -> OpenedEngine
        ensures { result.value ≡ Some engine.value }
    {
        OpenedEngine::of_loose(Loose::of(engine))
    }
}

impl OpenedSeat {
    fn of_loose(loose: Loose<Seat, Global>) -> OpenedSeat
        ensures { result.value ≡ Some loose.value }
    {
        let Loose { at, alloc: _ } = loose;
        OpenedSeat {
            at: at.cast::<u8>(),
        }
    }

    pub fn new(seat: Box<Seat>) -> OpenedSeat
        ensures { result.value ≡ Some seat.value }
    {
        OpenedSeat::of_loose(Loose::of(seat))
    }
}
