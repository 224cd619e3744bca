// Bytes in reserved room.

ghost use Rattle.std.specs.Prelude.{◌≡◌, ◌≤◌, IfOk, vec_len, vec_capacity};

use std::alloc::{AllocError, Global};

/// Bytes in room that was reserved. A piece that doesn't fit is lost, and so is each later one.
#[derive(Drop)]
pub struct Room {
    bytes: Vec<u8>,
    size: usize,
    whole: bool,
    ghost within: { vec_len bytes ≤ size },
    ghost reserved: { size ≤ vec_capacity bytes },
}

impl Room {
    ghost use Rattle.lower_io.specs.Room.{IsEmptyRoom, Adds, room_bytes};

    /// Room for `size` bytes. Fails on allocation failure alone.
    pub fn new(alloc: Global, size: usize) -> Result<Room, AllocError>
        ensures { IfOk result (λ room. IsEmptyRoom room size) }
    {
        Ok(Room {
            bytes: Vec::with_capacity(alloc, size)?,
            size,
            whole: true,
        })
    }

    /// Adds a piece, if it fits and no earlier one was lost. Takes no memory.
    pub fn add(&mut self, piece: &[u8])
        ensures { Adds self.old self.new piece.now }
    {
        if self.whole && piece.len() <= self.size - self.bytes.len() {
            self.bytes.extend_from_slice(piece).unwrap();
        } else {
            self.whole = false;
        }
    }

    /// The bytes that it holds.
    pub fn bytes(&self) -> &[u8]
        ensures { result.now ≡ room_bytes self.now }
    {
        &self.bytes
    }
}
