//! The state of a buffer: handed out, or on hold.

ghost use Rattle.std.specs.Prelude.{◌≡◌};
ghost use Rattle.mem_work.specs.Marks.{mark_freed, is_held};

/// When a buffer was last put on hold, and whether it still is.
#[derive(Clone, Copy, Drop)]
pub enum Mark {
    Fresh,
    /// It was on hold with this tag, and no reader can reach it since.
    Past {
        generation: u64,
        commit: u32,
    },
    /// It is on hold with this tag. Its entries had this width.
    Held {
        generation: u64,
        commit: u32,
        width: u64,
    },
}

impl Mark {
    /// Returns the mark after everything on hold with a tag below this generation is freed.
    pub fn freed(self, below: u64) -> Mark
        ensures { result ≡ mark_freed below self }
    {
        match self {
            Mark::Held {
                generation,
                commit,
                width,
            } => {
                if generation < below {
                    Mark::Past { generation, commit }
                } else {
                    Mark::Held {
                        generation,
                        commit,
                        width,
                    }
                }
            }
            Mark::Past { generation, commit } => Mark::Past { generation, commit },
            Mark::Fresh => Mark::Fresh,
        }
    }

    /// Returns whether the buffer is on hold.
    pub fn is_held(self) -> bool
        ensures { result ≡ is_held self }
    {
        match self {
            Mark::Held { .. } => true,
            Mark::Past { .. } | Mark::Fresh => false,
        }
    }
}
