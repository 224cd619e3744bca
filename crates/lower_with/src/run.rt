// The run over any lowering.

ghost use Rattle.std.specs.Prelude.{◌≡◌, ◌≤◌, List, ℕ, Some, map, string_bytes};
ghost use Rattle.lower_io.specs.Settings.{settings_of};
ghost use Rattle.lower_run.specs.Outcome.{Cause, Complete, HasLowered, IsReadToEnd};
ghost use Rattle.lower_run.specs.declared.status.Status.{Status};
ghost use Rattle.lower_with.specs.Judged.{IsMade, IsUnmade};

use crate::judged::Judged;
use es_lowering::lowering::Lowering;
use lower_io::sink::Sink;
use lower_io::source::Source;
use lower_run::run::run_by;
use lower_run::status::Status;
use std::alloc::Global;

/// Reads the source to its end, lowers the tree that its bytes are by this lowering, judges what it made, and writes it to the
/// sink if it is right. The arguments are those of `read_settings`.
///
/// With `Done` the source's tree is valid, and the sink has gained the compact JSON text of a tree that meets the clauses on
/// lowered programs (docs/MEANING.md), with its generated names, the warnings and the shapes of the source, and a line feed:
/// nothing that the options lower is left in it, and every generated name has its declaration. Where the source has no shape, or
/// nothing to lower, the tree means what the source means; and where it has something to lower, the tree is one that the lowering
/// makes. Nothing is asked of the lowering. Where what it made is wrong, or it makes nothing of a program, the status is `Refused`,
/// with `NotYet` and the node that the judge or the lowering names, and then alone, if the program is valid and has a class that is
/// lowered. It is `TooDeep` where codes stand in each other too deep to be judged. The other statuses are those of
/// `lower_run::run::run_by`.
pub fn run_with<L: Lowering, S: Source, K: Sink>(
    alloc: Global,
    lowering: &L,
    arguments: &[String],
    source: &mut S,
    sink: &mut K,
) -> Status
    ensures done { result ≡ Status.Done → (b held now : List ℕ) → S.left source.old ≡ Some b → K.held sink.old ≡ Some held → K.held sink.new ≡ Some now → HasLowered (IsMade L.makes) (IsUnmade L.makes L.declines) (settings_of (map string_bytes arguments.now)) b held now }
    ensures cause { Cause (IsMade L.makes) (IsUnmade L.makes L.declines) (settings_of (map string_bytes arguments.now)) (S.left source.old) (S.faults source.old) (S.faults source.new) (K.held sink.old) (K.held sink.new) (K.faults sink.old) (K.faults sink.new) result }
    ensures complete { Complete (IsUnmade L.makes L.declines) (settings_of (map string_bytes arguments.now)) (S.left source.old) (S.faults source.old) (S.faults source.new) (K.faults sink.old) (K.faults sink.new) result }
    ensures end { IsReadToEnd (S.left source.old) (S.left source.new) result }
    ensures source_later { S.faults source.old ≤ S.faults source.new }
    ensures sink_later { K.faults sink.old ≤ K.faults sink.new }
{
    run_by(alloc, &Judged { lowering }, arguments, source, sink)
}
