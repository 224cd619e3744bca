// The run: from the bytes of a source to what a sink gets.

ghost use Rattle.std.specs.Prelude.{◌≡◌, ◌≤◌, List, ℕ, Some, map, string_bytes};
ghost use Rattle.lower_es2022.specs.Own.{IsComplete, IsMade, IsNotYet};
ghost use Rattle.lower_io.specs.Settings.{settings_of};
ghost use Rattle.lower_run.specs.Outcome.{Cause, HasLowered, IsReadToEnd};
ghost use Rattle.lower_run.specs.declared.status.Status.{Status};

use crate::own::ClassLowering;
use lower_io::sink::Sink;
use lower_io::source::Source;
use lower_run::run::run_by;
use lower_run::status::Status;
use std::alloc::Global;

/// Reads the source to its end, lowers the tree that its bytes are, and writes the lowered tree, or why there is none, to the sink.
/// The arguments are those of `read_settings`.
///
/// With `Done` the source's tree is valid, and the sink has gained the compact JSON text of a lowered tree, with its generated
/// names, the warnings and the shapes of the source, and a line feed: nothing that the options lower is left in that tree, every
/// generated name has its declaration, and where the source has no shape, or nothing to lower, it means what the source means. A
/// program that has nothing to lower, or is of the first form where fields are defined, is always lowered, and no name is generated
/// for it; of others that is not said. `NoMemory` comes before anything is written, `WriteFault` only where the sink failed, and
/// then it has gained a part; with each other status it has gained a line that tells the cause. After `Done`, `NotATree` and
/// `Refused` the source was read to its end.
pub fn run<S: Source, K: Sink>(
    alloc: Global,
    arguments: &[String],
    source: &mut S,
    sink: &mut K,
) -> Status
    ensures done { result ≡ Status.Done → (b held now : List ℕ) → S.left source.old ≡ Some b → K.held sink.old ≡ Some held → K.held sink.new ≡ Some now → HasLowered IsMade IsNotYet (settings_of (map string_bytes arguments.now)) b held now }
    ensures cause { Cause IsMade IsNotYet (settings_of (map string_bytes arguments.now)) (S.left source.old) (S.faults source.old) (S.faults source.new) (K.held sink.old) (K.held sink.new) (K.faults sink.old) (K.faults sink.new) result }
    ensures complete { IsComplete (settings_of (map string_bytes arguments.now)) (S.left source.old) (S.faults source.old) (S.faults source.new) (K.faults sink.old) (K.faults sink.new) result }
    ensures end { IsReadToEnd (S.left source.old) (S.left source.new) result }
    ensures source_later { S.faults source.old ≤ S.faults source.new }
    ensures sink_later { K.faults sink.old ≤ K.faults sink.new }
{
    run_by(alloc, &ClassLowering, arguments, source, sink)
}
