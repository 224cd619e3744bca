// Bytes of which some may have been taken.

ghost use Rattle.std.specs.Prelude.{◌≡◌, ◌≤◌, min, length, take, drop, vec_len};

/// Bytes in memory, of which the first may have been taken.
#[derive(Drop)]
pub struct Rest {
    bytes: Vec<u8>,
    at: usize,
    ghost within: { at ≤ vec_len bytes },
}

impl Rest {
    ghost use Rattle.lower_io.specs.Rest.{rest_bytes};

    pub fn new(bytes: Vec<u8>) -> Rest
        ensures { rest_bytes result ≡ bytes.items }
    {
        Rest { bytes, at: 0 }
    }

    /// Moves the first bytes that are left to the front of `into`, at most `most`, and says how many.
    pub fn take(&mut self, into: &mut [u8], most: usize) -> usize
        ensures count { result ≡ min most (min (length into.old) (length (rest_bytes self.old))) }
        ensures front { take result into.new ≡ take result (rest_bytes self.old) }
        ensures rest { rest_bytes self.new ≡ drop result (rest_bytes self.old) }
    {
        let left = &self.bytes[self.at..];
        let count = most.min(into.len().min(left.len()));
        into[..count].copy_from_slice(&left[..count]);
        self.at += count;
        count
    }
}
