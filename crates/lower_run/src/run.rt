// The run: from the bytes of a source to what a sink gets.

ghost use Rattle.std.specs.Prelude.{◌≡◌, ◌≤◌, List, ℕ, Some, map, string_bytes};
ghost use Rattle.lower_run.specs.Outcome.{Cause, Complete, HasLowered, IsReadToEnd};
ghost use Rattle.lower_io.specs.Settings.{settings_of};
ghost use Rattle.lower_run.specs.declared.status.Status.{Status};

use crate::answer::answer;
use crate::lowering::Lowers;
use crate::status::Status;
use es_steps::options::Options;
use lower_edge::answers::Answers;
use lower_edge::output::Output;
use lower_edge::run::answer_source;
use lower_edge::status::EdgeStatus;
use lower_io::sink::Sink;
use lower_io::source::Source;
use std::alloc::{AllocError, Global};

/// Reads the source to its end, lowers the tree that its bytes are by a lowering, and writes the lowered tree, or why there is none,
/// to the sink. The arguments are those of `read_settings`.
///
/// With `Done` the source's tree is valid, and the sink has gained the compact JSON text of what the lowering made of it, with its
/// generated names, the warnings and the shapes of the source, and a line feed. `NoMemory` comes before anything is written,
/// `WriteFault` only where the sink failed, and then it has gained a part; with each other status it has gained a line that tells
/// the cause: with `Refused` a fault of the tree, or the node by which the lowering declined it. After `Done`, `NotATree` and
/// `Refused` the source was read to its end.
pub fn run_by<L: Lowers, S: Source, K: Sink>(
    alloc: Global,
    lowering: &L,
    arguments: &[String],
    source: &mut S,
    sink: &mut K,
) -> Status
    ensures done { result ≡ Status.Done → (b held now : List ℕ) → S.left source.old ≡ Some b → K.held sink.old ≡ Some held → K.held sink.new ≡ Some now → HasLowered L.makes L.declines (settings_of (map string_bytes arguments.now)) b held now }
    ensures cause { Cause L.makes L.declines (settings_of (map string_bytes arguments.now)) (S.left source.old) (S.faults source.old) (S.faults source.new) (K.held sink.old) (K.held sink.new) (K.faults sink.old) (K.faults sink.new) result }
    ensures complete { Complete L.declines (settings_of (map string_bytes arguments.now)) (S.left source.old) (S.faults source.old) (S.faults source.new) (K.faults sink.old) (K.faults sink.new) result }
    ensures end { IsReadToEnd (S.left source.old) (S.left source.new) result }
    ensures source_later { S.faults source.old ≤ S.faults source.new }
    ensures sink_later { K.faults sink.old ≤ K.faults sink.new }
{
    answer_source(alloc, &Lowerer { lowering }, arguments, source, sink)
}

/// The program that lowers by this lowering.
#[derive(Drop)]
struct Lowerer<'a, L> {
    lowering: &'a L,
}

impl<L: Lowers> Answers for Lowerer<'_, L> {
    ghost use Rattle.lower_run.specs.Outcome.{IsOutputOfBytes, edge_of};

    type Status = Status;

    ghost edge = { edge_of };

    ghost gives = { IsOutputOfBytes L.makes L.declines };

    fn of_edge(status: EdgeStatus) -> Status {
        match status {
            EdgeStatus::BadArguments => Status::BadArguments,
            EdgeStatus::ReadFault => Status::ReadFault,
            EdgeStatus::WriteFault => Status::WriteFault,
            EdgeStatus::NoMemory => Status::NoMemory,
            EdgeStatus::TooLong => Status::TooLong,
        }
    }

    fn answer(
        &self,
        alloc: Global,
        options: &Options,
        bytes: &[u8],
    ) -> Result<Output<Status>, AllocError> {
        answer(alloc, self.lowering, options, bytes)
    }
}
