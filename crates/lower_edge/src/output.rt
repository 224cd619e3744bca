// What is written, and the status with which it is.

ghost use Rattle.std.specs.Prelude.{◌≡◌, IfOk};

use std::alloc::{AllocError, Global};

/// A text to be written, with its line feed, and the status with which it is.
#[derive(Drop)]
pub struct Output<T> {
    pub status: T,
    pub text: Vec<u8>,
}

/// This text with this status. Fails on allocation failure alone.
pub fn output_with<T: Copy>(alloc: Global, status: T, text: &str) -> Result<Output<T>, AllocError>
    ensures { IfOk result (λ s. (s.status ≡ status) × (s.text.items ≡ text.now)) }
{
    Ok(Output {
        status,
        text: Vec::from_slice(alloc, text.as_bytes())?,
    })
}
