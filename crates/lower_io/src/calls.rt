// Which calls of a source or a sink in memory fail.

ghost use Rattle.std.specs.Prelude.{◌≤◌};

/// Counts calls, and those of them that fail: the calls whose numbers, counted from 1, are listed.
#[derive(Drop)]
pub struct Calls {
    listed: Vec<u64>,
    count: u64,
    failed: u64,
    ghost some_failed: { failed ≤ count },
}

impl Calls {
    ghost use Rattle.lower_io.specs.Calls.{IsFresh, CountsCall};

    pub fn new(listed: Vec<u64>) -> Calls
        ensures { IsFresh result listed.items }
    {
        Calls {
            listed,
            count: 0,
            failed: 0,
        }
    }

    /// Counts a call, and says whether it fails. The number of the last call that may fail is 2^64 - 1.
    pub fn next_fails(&mut self) -> bool
        ensures { CountsCall self.old self.new result }
    {
        if self.count == u64::MAX {
            return false;
        }
        self.count += 1;
        let fails = self.listed.contains(&self.count);
        if fails {
            self.failed += 1;
        }
        fails
    }
}
