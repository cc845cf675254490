//! Work that is done once, in a thread or not.

/// Work that is done once. Unlike a closure that captures borrowed values, its input and result can be stated across
/// a thread.
pub trait Task {
    type Output;

    ghost can_run: { Self → Type 0 };

    ghost run_gives: { Self → Self.Output → Type 0 };

    fn run(self) -> Self::Output
        requires { can_run self }
        ensures { run_gives self result };
}
