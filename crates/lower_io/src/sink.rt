// Where bytes go.

ghost use Rattle.std.specs.Prelude.{◌≡◌, ◌<◌, List, ℕ, [], Ok, Some, IfOk, OnErr, IfSome, is_err, length, min, take};
ghost use Rattle.std.specs.Io.{WritesAtMost};
ghost use Rattle.std.specs.declared.option.Option.{Option};
ghost use Rattle.lower_io.specs.Causes.{HasCause, Rose};
ghost use Rattle.lower_io.specs.Held.{PutExtends};

use crate::calls::Calls;
use crate::failed::Failed;
use crate::room::Room;
use std::alloc::{AllocError, Global};

/// A sink for bytes, by the bytes that it holds, where it tells them, and the faults that it met.
pub trait Sink {
    /// The bytes that it holds, where the sink tells them. It may stop telling them at any call.
    ghost held: { Self → Option (List ℕ) };

    /// How many faults it met. The count never falls, and stands still at 2^64 - 1.
    ghost faults: { Self → ℕ };

    /// Appends the first bytes of `piece`, and says how many. Fails, or appends nothing of a piece that
    /// isn't empty, only where the count of faults rose in this call. Nothing is appended where it fails.
    fn put(&mut self, piece: &[u8]) -> Result<usize, Failed>
        ensures bound { WritesAtMost result piece.now }
        ensures bytes { PutExtends (held self.old) (held self.new) result piece.now }
        ensures cause { HasCause (faults self.old) (faults self.new) result }
        ensures none { result ≡ Ok 0 → 0 < length piece.now → Rose (faults self.old) (faults self.new) };
}

/// Room in memory that takes bytes in small pieces, and a list of the calls that fail.
#[derive(Drop)]
pub struct BytesSink {
    room: Room,
    step: usize,
    calls: Calls,
    ghost some_step: { 0 < step },
}

impl BytesSink {
    ghost use Rattle.lower_io.specs.Calls.{IsFresh};
    ghost use Rattle.lower_io.specs.Memory.{sink_step, sink_calls, sink_room};
    ghost use Rattle.lower_io.specs.Room.{IsEmptyRoom, room_bytes};

    /// A sink with room for `room` bytes that takes at most `step` bytes in a call. The calls fail whose
    /// numbers, counted from 1, stand in `fail`. It tells the bytes that it holds until those that a call
    /// takes don't fit; they are dropped, and from then on it tells nothing. Fails on allocation failure alone.
    pub fn new(
        alloc: Global,
        room: usize,
        step: usize,
        fail: Vec<u64>,
    ) -> Result<BytesSink, AllocError>
        requires { 0 < step }
        ensures held { IfOk result (λ sink. ⟦<BytesSink as Sink>⟧.held sink ≡ Some []) }
        ensures faults { IfOk result (λ sink. ⟦<BytesSink as Sink>⟧.faults sink ≡ 0) }
        ensures calls { IfOk result (λ sink. IsFresh (sink_calls sink) fail.items) }
        ensures room { IfOk result (λ sink. IsEmptyRoom (sink_room sink) room) }
        ensures step { IfOk result (λ sink. sink_step sink ≡ step) }
    {
        Ok(BytesSink {
            room: Room::new(alloc, room)?,
            step,
            calls: Calls::new(fail),
        })
    }

    /// The bytes that it holds. Takes no memory.
    pub fn bytes(&self) -> &[u8]
        ensures held { IfSome (⟦<BytesSink as Sink>⟧.held self.now) (λ held. result.now ≡ held) }
        ensures room { result.now ≡ room_bytes (sink_room self.now) }
    {
        self.room.bytes()
    }
}

impl Sink for BytesSink {
    ghost use Rattle.lower_io.specs.Calls.{CountsCall};
    ghost use Rattle.lower_io.specs.Memory.{sink_step, sink_calls, sink_faults, sink_room, sink_told};
    ghost use Rattle.lower_io.specs.Room.{Adds};

    ghost held = { sink_told };

    ghost faults = { sink_faults };

    fn put(&mut self, piece: &[u8]) -> Result<usize, Failed>
        ensures bound { WritesAtMost result piece.now }
        ensures bytes { PutExtends (sink_told self.old) (sink_told self.new) result piece.now }
        ensures cause { HasCause (sink_faults self.old) (sink_faults self.new) result }
        ensures none { result ≡ Ok 0 → 0 < length piece.now → Rose (sink_faults self.old) (sink_faults self.new) }

        // It fails at the calls that are listed and at no other, and the count rises by one at each.
        ensures call { CountsCall (sink_calls self.old) (sink_calls self.new) (is_err result) }
        ensures count { IfOk result (λ n. n ≡ min (sink_step self.old) (length piece.now)) }
        ensures adds { IfOk result (λ n. Adds (sink_room self.old) (sink_room self.new) (take n piece.now)) }
        ensures err { OnErr result (sink_room self.new ≡ sink_room self.old) }
        ensures step { sink_step self.new ≡ sink_step self.old }
    {
        if self.calls.next_fails() {
            return Err(Failed);
        }
        let count = self.step.min(piece.len());
        self.room.add(&piece[..count]);
        Ok(count)
    }
}

/// Room in memory, as a sink that never fails.
#[derive(Drop)]
pub struct SureSink {
    room: Room,
}

impl SureSink {
    ghost use Rattle.lower_io.specs.Memory.{sure_room};
    ghost use Rattle.lower_io.specs.Room.{IsEmptyRoom, room_bytes};

    /// A sink with room for `room` bytes. It tells the bytes that it holds until a piece doesn't fit; that
    /// is dropped, and from then on it tells nothing. Fails on allocation failure alone.
    pub fn new(alloc: Global, room: usize) -> Result<SureSink, AllocError>
        ensures held { IfOk result (λ sink. ⟦<SureSink as Sink>⟧.held sink ≡ Some []) }
        ensures faults { IfOk result (λ sink. ⟦<SureSink as Sink>⟧.faults sink ≡ 0) }
        ensures room { IfOk result (λ sink. IsEmptyRoom (sure_room sink) room) }
    {
        Ok(SureSink {
            room: Room::new(alloc, room)?,
        })
    }

    /// The bytes that it holds. Takes no memory.
    pub fn bytes(&self) -> &[u8]
        ensures held { IfSome (⟦<SureSink as Sink>⟧.held self.now) (λ held. result.now ≡ held) }
        ensures room { result.now ≡ room_bytes (sure_room self.now) }
    {
        self.room.bytes()
    }
}

impl Sink for SureSink {
    ghost use Rattle.lower_io.specs.Memory.{sure_room, sure_told};
    ghost use Rattle.lower_io.specs.Room.{Adds};

    ghost held = { sure_told };

    ghost faults = { λ _. 0 };

    fn put(&mut self, piece: &[u8]) -> Result<usize, Failed>
        ensures bound { WritesAtMost result piece.now }
        ensures bytes { PutExtends (sure_told self.old) (sure_told self.new) result piece.now }
        ensures cause { HasCause 0 0 result }
        ensures none { result ≡ Ok 0 → 0 < length piece.now → Rose 0 0 }

        // It takes the whole piece.
        ensures count { result ≡ Ok (length piece.now) }
        ensures adds { Adds (sure_room self.old) (sure_room self.new) piece.now }
    {
        self.room.add(piece);
        Ok(piece.len())
    }
}
