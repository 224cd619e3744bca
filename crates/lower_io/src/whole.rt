// All bytes of a source, and bytes to a sink.

ghost use Rattle.std.specs.Prelude.{◌≡◌, ◌≤◌, ◌<◌, ◌++◌, [], Some, IfOk, IfSome, OnOk, OnErr, OnSome, IsErrOf, length, vec_len};
ghost use Rattle.lower_io.specs.Causes.{Rose};
ghost use Rattle.lower_io.specs.Held.{Extends, ExtendsInPart};

use crate::failed::Failed;
use crate::sink::Sink;
use crate::source::Source;
use std::alloc::{AllocError, Global};
use thiserror::Error;

/// How many bytes a source is asked for at a time.
const CHUNK: usize = 65536;

/// Why not all bytes of a source were read.
#[derive(Debug, Clone, Copy, PartialEq, Eq, Error)]
pub enum ReadStop {
    /// There was not enough memory.
    #[error("out of memory")]
    NoMemory,
    /// The source failed.
    #[error("the source failed")]
    Failed,
    /// The source has more bytes than are let in.
    #[error("too many bytes")]
    TooLong,
}

impl From<AllocError> for ReadStop {
    ghost use Rattle.lower_io.specs.declared.whole.ReadStop.{ReadStop};

    ghost from_gives = { λ _ stop. stop ≡ ReadStop.NoMemory };

    fn from(_: AllocError) -> ReadStop {
        ReadStop::NoMemory
    }
}

impl From<Failed> for ReadStop {
    ghost use Rattle.lower_io.specs.declared.whole.ReadStop.{ReadStop};

    ghost from_gives = { λ _ stop. stop ≡ ReadStop.Failed };

    fn from(_: Failed) -> ReadStop {
        ReadStop::Failed
    }
}

/// Reads a source to its end, and gives its bytes, of which there are at most `most`. `TooLong` comes only
/// where there are more, and the source is then read no further; `Failed` comes only where the source met a
/// fault in this call. Where it stops, the bytes that were taken are dropped, and nothing is said of those
/// that are left.
pub fn read_all<S: Source>(alloc: Global, source: &mut S, most: usize) -> Result<Vec<u8>, ReadStop>
    ensures all { IfOk result (λ v. IfSome (S.left source.old) (λ left. v.items ≡ left)) }
    ensures end { OnOk result (OnSome (S.left source.old) (S.left source.new ≡ Some [])) }
    ensures most { IfOk result (λ v. vec_len v ≤ most) }
    ensures too_long { IsErrOf result ReadStop.TooLong → IfSome (S.left source.old) (λ left. most < length left) }
    ensures failed { IsErrOf result ReadStop.Failed → Rose (S.faults source.old) (S.faults source.new) }
    ensures later { S.faults source.old ≤ S.faults source.new }
{
    let mut chunk = make_chunk(alloc)?;
    let mut bytes = Vec::new(alloc);
    loop {
        let count = source.take(chunk.as_mut_slice())?;
        if count == 0 {
            return Ok(bytes);
        }
        append(&mut bytes, &chunk[..count], most)?;
    }
}

/// Room for the bytes of a call.
fn make_chunk(alloc: Global) -> Result<Vec<u8>, AllocError>
    ensures { IfOk result (λ v. 0 < vec_len v) }
{
    vec![in alloc; 0; CHUNK]
}

/// Appends a piece, if there are then at most `most` bytes.
fn append(bytes: &mut Vec<u8>, piece: &[u8], most: usize) -> Result<(), ReadStop>
    requires { vec_len bytes.old ≤ most }
    ensures ok { OnOk result (bytes.new.items ≡ bytes.old.items ++ piece.now) }
    ensures most { vec_len bytes.new ≤ most }
    ensures too_long { IsErrOf result ReadStop.TooLong → most < length (bytes.old.items ++ piece.now) }
    ensures failed { IsErrOf result ReadStop.Failed → ⊥ }
{
    if piece.len() > most - bytes.len() {
        return Err(ReadStop::TooLong);
    }
    bytes.extend_from_slice(piece)?;
    Ok(())
}

/// Writes all of the bytes to a sink. Fails only where the sink met a fault in this call, and has then
/// written a part of them, from their front.
pub fn write_all<K: Sink>(sink: &mut K, bytes: &[u8]) -> Result<(), Failed>
    ensures ok { OnOk result (Extends (K.held sink.old) (K.held sink.new) bytes.now) }
    ensures part { OnErr result (ExtendsInPart (K.held sink.old) (K.held sink.new) bytes.now) }
    ensures failed { OnErr result (Rose (K.faults sink.old) (K.faults sink.new)) }
    ensures later { K.faults sink.old ≤ K.faults sink.new }
{
    let mut written = 0;
    while written < bytes.len() {
        let count = sink.put(&bytes[written..])?;
        if count == 0 {
            return Err(Failed);
        }
        written += count;
    }
    Ok(())
}
