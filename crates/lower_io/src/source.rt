// Where bytes come from.

ghost use Rattle.std.specs.Prelude.{◌≡◌, ◌<◌, List, ℕ, Ok, Some, IfOk, is_err, length, min};
ghost use Rattle.std.specs.Io.{ReadsAtMost};
ghost use Rattle.std.specs.Io.KnownBytes.{ReadConsumes};
ghost use Rattle.std.specs.declared.option.Option.{Option};
ghost use Rattle.lower_io.specs.Causes.{HasCause};

use crate::calls::Calls;
use crate::failed::Failed;
use crate::rest::Rest;

/// A source of bytes, by the bytes that are left, where it tells them, and the faults that it met.
pub trait Source {
    /// The bytes that are left, where the source tells them.
    ghost left: { Self → Option (List ℕ) };

    /// How many faults it met. The count never falls, and stands still at 2^64 - 1.
    ghost faults: { Self → ℕ };

    /// Moves the first bytes that are left to the front of `into`, and says how many. They are none only
    /// where `into` is empty or no byte is left. Fails only where the count of faults rose in this call,
    /// and then takes nothing.
    fn take(&mut self, into: &mut [u8]) -> Result<usize, Failed>
        ensures bound { ReadsAtMost result into.new }
        ensures bytes { ReadConsumes (left self.old) (left self.new) result into.new }
        ensures cause { HasCause (faults self.old) (faults self.new) result };
}

/// Bytes in memory, given in small pieces, and a list of the calls that fail.
#[derive(Drop)]
pub struct BytesSource {
    rest: Rest,
    step: usize,
    calls: Calls,
    ghost some_step: { 0 < step },
}

impl BytesSource {
    ghost use Rattle.lower_io.specs.Calls.{IsFresh};
    ghost use Rattle.lower_io.specs.Memory.{source_step, source_calls};

    /// A source of these bytes that gives at most `step` of them in a call. The calls fail whose numbers,
    /// counted from 1, stand in `fail`.
    pub fn new(bytes: Vec<u8>, step: usize, fail: Vec<u64>) -> BytesSource
        requires { 0 < step }
        ensures left { ⟦<BytesSource as Source>⟧.left result ≡ Some bytes.items }
        ensures faults { ⟦<BytesSource as Source>⟧.faults result ≡ 0 }
        ensures calls { IsFresh (source_calls result) fail.items }
        ensures step { source_step result ≡ step }
    {
        BytesSource {
            rest: Rest::new(bytes),
            step,
            calls: Calls::new(fail),
        }
    }
}

impl Source for BytesSource {
    ghost use Rattle.lower_io.specs.Calls.{CountsCall};
    ghost use Rattle.lower_io.specs.Memory.{source_bytes, source_step, source_calls, source_faults};

    ghost left = { λ source. Some (source_bytes source) };

    ghost faults = { source_faults };

    fn take(&mut self, into: &mut [u8]) -> Result<usize, Failed>
        ensures bound { ReadsAtMost result into.new }
        ensures bytes { ReadConsumes (Some (source_bytes self.old)) (Some (source_bytes self.new)) result into.new }
        ensures cause { HasCause (source_faults self.old) (source_faults self.new) result }

        // It fails at the calls that are listed and at no other, and the count rises by one at each.
        ensures call { CountsCall (source_calls self.old) (source_calls self.new) (is_err result) }
        ensures count { IfOk result (λ n. n ≡ min (source_step self.old) (min (length into.old) (length (source_bytes self.old)))) }
        ensures step { source_step self.new ≡ source_step self.old }
    {
        if self.calls.next_fails() {
            return Err(Failed);
        }
        Ok(self.rest.take(into, self.step))
    }
}

/// Bytes in memory, as a source that never fails.
#[derive(Drop)]
pub struct SureSource {
    rest: Rest,
}

impl SureSource {
    /// A source of these bytes.
    pub fn new(bytes: Vec<u8>) -> SureSource
        ensures left { ⟦<SureSource as Source>⟧.left result ≡ Some bytes.items }
        ensures faults { ⟦<SureSource as Source>⟧.faults result ≡ 0 }
    {
        SureSource {
            rest: Rest::new(bytes),
        }
    }
}

impl Source for SureSource {
    ghost use Rattle.lower_io.specs.Memory.{sure_bytes};

    ghost left = { λ source. Some (sure_bytes source) };

    ghost faults = { λ _. 0 };

    fn take(&mut self, into: &mut [u8]) -> Result<usize, Failed>
        ensures bound { ReadsAtMost result into.new }
        ensures bytes { ReadConsumes (Some (sure_bytes self.old)) (Some (sure_bytes self.new)) result into.new }
        ensures cause { HasCause 0 0 result }

        // It gives as many bytes as fit.
        ensures count { result ≡ Ok (min (length into.old) (length (sure_bytes self.old))) }
    {
        let room = into.len();
        Ok(self.rest.take(into, room))
    }
}
