//! Counts of the compared rows of a test, and of those with the expected result.
ghost use Rattle.std.specs.Io.Iter.{u64_saturate};
ghost use Rattle.std.specs.Prelude.{◌≡◌, ◌≢◌, ◌+◌, if◌then◌else◌};

use std::io;

/// Returns the number of rows so far.
#[derive(Clone, Copy, Debug, Default, Drop)]
pub struct Tally {
    pub compared: u64,
    pub right: u64,
}

impl Tally {
    /// Counts a row, and returns whether it had the expected result.
    pub fn count(&mut self, is_right: bool) -> bool
        ensures compared { self.new.compared ≡ u64_saturate (self.old.compared + 1) }
        ensures right { self.new.right ≡ (if is_right then u64_saturate (self.old.right + 1) else self.old.right) }
        ensures said { result ≡ is_right }
    {
        self.compared = self.compared.saturating_add(1);
        if is_right {
            self.right = self.right.saturating_add(1);
        }
        is_right
    }

    /// Counts a row, and prints it with its result if that is not the expected one.
    pub fn note(&mut self, rt: &HostRuntime, row: &str, found: &str, wanted: &str) -> io::Result<()>
        ensures compared { self.new.compared ≡ u64_saturate (self.old.compared + 1) }
        ensures right { found.now ≡ wanted.now → self.new.right ≡ u64_saturate (self.old.right + 1) }
        ensures wrong { found.now ≢ wanted.now → self.new.right ≡ self.old.right }
    {
        if self.count(found == wanted) {
            return Ok(());
        }
        println!(rt; "{row}: {found} in place of {wanted}")
    }

    /// Counts a row, and prints it if it is not right.
    pub fn judge(&mut self, rt: &HostRuntime, row: &str, is_right: bool) -> io::Result<()>
        ensures compared { self.new.compared ≡ u64_saturate (self.old.compared + 1) }
        ensures right { self.new.right ≡ (if is_right then u64_saturate (self.old.right + 1) else self.old.right) }
    {
        if self.count(is_right) {
            return Ok(());
        }
        println!(rt; "not so: {row}")
    }

    /// Prints both counts, after a word for the rows.
    pub fn print(&self, rt: &HostRuntime, rows: &str) -> io::Result<()> {
        let (compared, right) = (self.compared, self.right);
        println!(rt; "{rows}: {compared} compared, {right} as wanted")
    }
}
