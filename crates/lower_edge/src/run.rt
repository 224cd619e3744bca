// The run: from the bytes of a source to what a sink gets.

ghost use Rattle.std.specs.Prelude.{◌≤◌, IfOk, map, string_bytes};
ghost use Rattle.lower_edge.specs.Ending.{Cause, IsReadToEnd, Says};
ghost use Rattle.lower_io.specs.Settings.{settings_of};

use crate::answers::Answers;
use crate::output::{Output, output_with};
use crate::status::EdgeStatus;
use lower_io::settings::{WordsError, read_settings};
use lower_io::sink::Sink;
use lower_io::source::Source;
use lower_io::whole::{ReadStop, read_all, write_all};
use std::alloc::{AllocError, Global};

/// More bytes than this are not read.
const MOST_BYTES: usize = 67_108_864;

/// Reads the source to its end, and writes the program's answer to its bytes to the sink, or the line of a status of the edge.
/// The arguments are those of `read_settings`.
pub fn answer_source<T: Answers, S: Source, K: Sink>(
    alloc: Global,
    program: &T,
    arguments: &[String],
    source: &mut S,
    sink: &mut K,
) -> T::Status
    ensures cause { Cause T.edge T.gives (settings_of (map string_bytes arguments.now)) (S.left source.old) (S.faults source.old) (S.faults source.new) (K.held sink.old) (K.held sink.new) (K.faults sink.old) (K.faults sink.new) result }
    ensures end { IsReadToEnd (T.edge result) (S.left source.old) (S.left source.new) }
    ensures source_later { S.faults source.old ≤ S.faults source.new }
    ensures sink_later { K.faults sink.old ≤ K.faults sink.new }
{
    let output = match output_of(alloc, program, arguments, source) {
        Ok(output) => output,
        Err(_) => return T::of_edge(EdgeStatus::NoMemory),
    };
    match write_all(sink, output.text.as_slice()) {
        Ok(()) => output.status,
        Err(_) => T::of_edge(EdgeStatus::WriteFault),
    }
}

/// The output for these arguments and this source. Fails on allocation failure alone.
fn output_of<T: Answers, S: Source>(
    alloc: Global,
    program: &T,
    arguments: &[String],
    source: &mut S,
) -> Result<Output<T::Status>, AllocError>
    ensures output { IfOk result (λ s. Says T.edge T.gives (settings_of (map string_bytes arguments.now)) (S.left source.old) (S.faults source.old) (S.faults source.new) s.status s.text.items) }
    ensures end { IfOk result (λ s. IsReadToEnd (T.edge s.status) (S.left source.old) (S.left source.new)) }
    ensures later { S.faults source.old ≤ S.faults source.new }
{
    let settings = match read_settings(alloc, arguments) {
        Ok(settings) => settings,
        Err(WordsError::NoMemory) => return Err(AllocError),
        Err(WordsError::BadWords) => {
            return output_with(alloc, T::of_edge(EdgeStatus::BadArguments), "bad words\n");
        }
    };
    match read_all(alloc, source, MOST_BYTES) {
        Ok(bytes) => program.answer(alloc, &settings.options, bytes.as_slice()),
        Err(ReadStop::NoMemory) => Err(AllocError),
        Err(ReadStop::Failed) => {
            output_with(alloc, T::of_edge(EdgeStatus::ReadFault), "read fault\n")
        }
        Err(ReadStop::TooLong) => {
            output_with(alloc, T::of_edge(EdgeStatus::TooLong), "too long\n")
        }
    }
}
