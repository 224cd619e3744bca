// The standard streams as a source and a sink. No contract can say what they give or take. So that a body
// that does not read or write is refused, the adapters are generic, and proved for what any reader and any
// writer of std says of its bytes.

ghost use Rattle.std.specs.Prelude.{◌≡◌, ◌<◌, None, Ok, length};
ghost use Rattle.std.specs.Io.{ReadsAtMost, WritesAtMost};
ghost use Rattle.std.specs.Io.KnownBytes.{ReadConsumes, WriteAppends};
ghost use Rattle.lower_io.specs.Causes.{CountsFault, HasCause, Rose};
ghost use Rattle.lower_io.specs.Held.{PutExtends};
ghost use Rattle.lower_io.specs.Standard.{reader_of, reading_faults, writer_of, writing_faults};

use crate::failed::Failed;
use crate::sink::Sink;
use crate::source::Source;
use std::io::{Read, Write};
use std::rt::{Stdin, Stdout};

/// A reader as a source. Each read that fails is a fault, also where a signal broke it off.
#[derive(Drop)]
pub struct Reading<R> {
    reader: R,
    faults: u64,
}

/// Standard input as a source. It tells no bytes.
pub type StdinSource = Reading<Stdin>;

impl Reading<Stdin> {
    /// Standard input, at no fault.
    pub fn new(stdin: Stdin) -> StdinSource
        ensures left { ⟦<Reading<Stdin> as Source>⟧.left result ≡ None }
        ensures faults { ⟦<Reading<Stdin> as Source>⟧.faults result ≡ 0 }
    {
        Reading {
            reader: stdin,
            faults: 0,
        }
    }
}

impl<R: Read> Source for Reading<R> {
    ghost left = { λ source. R.remaining (reader_of source) };

    ghost faults = { reading_faults };

    fn take(&mut self, into: &mut [u8]) -> Result<usize, Failed>
        ensures bound { ReadsAtMost result into.new }
        ensures bytes { ReadConsumes (R.remaining (reader_of self.old)) (R.remaining (reader_of self.new)) result into.new }
        ensures cause { HasCause (reading_faults self.old) (reading_faults self.new) result }

        // The count rises where it fails, and else stands.
        ensures faults { CountsFault (reading_faults self.old) (reading_faults self.new) result }
    {
        match self.reader.read(into) {
            Ok(count) => Ok(count),
            Err(_) => {
                self.faults = self.faults.saturating_add(1);
                Err(Failed)
            }
        }
    }
}

/// A writer as a sink, which tells no bytes. Each write that fails is a fault, also where a signal broke it
/// off, and so is one that takes nothing of a piece that isn't empty.
#[derive(Drop)]
pub struct Writing<W> {
    writer: W,
    faults: u64,
}

/// Standard output as a sink. It tells no bytes.
pub type StdoutSink = Writing<Stdout>;

impl Writing<Stdout> {
    /// Standard output, at no fault.
    pub fn new(stdout: Stdout) -> StdoutSink
        ensures held { ⟦<Writing<Stdout> as Sink>⟧.held result ≡ None }
        ensures faults { ⟦<Writing<Stdout> as Sink>⟧.faults result ≡ 0 }
    {
        Writing {
            writer: stdout,
            faults: 0,
        }
    }
}

impl<W: Write> Sink for Writing<W> {
    ghost held = { λ _. None };

    ghost faults = { writing_faults };

    fn put(&mut self, piece: &[u8]) -> Result<usize, Failed>
        ensures bound { WritesAtMost result piece.now }
        ensures bytes { PutExtends None None result piece.now }
        ensures cause { HasCause (writing_faults self.old) (writing_faults self.new) result }
        ensures none { result ≡ Ok 0 → 0 < length piece.now → Rose (writing_faults self.old) (writing_faults self.new) }

        // What it says of the piece is what the writer took, and the count rises where it fails, and else stands.
        ensures written { WriteAppends (W.contents (writer_of self.old)) (W.contents (writer_of self.new)) result piece.now }
        ensures faults { CountsFault (writing_faults self.old) (writing_faults self.new) result }
    {
        match self.writer.write(piece) {
            Ok(count) if count > 0 || piece.is_empty() => Ok(count),
            _ => {
                self.faults = self.faults.saturating_add(1);
                Err(Failed)
            }
        }
    }
}
