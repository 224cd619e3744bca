// The run: from the bytes of two programs to what a sink gets.

ghost use Rattle.std.specs.Prelude.{◌≡◌, ◌≤◌, List, ℕ, Some, map, string_bytes};
ghost use Rattle.check_run.specs.Outcome.{Cause, Complete, HasAgreed, IsReadToEnd};
ghost use Rattle.check_run.specs.declared.status.CheckStatus.{CheckStatus};
ghost use Rattle.lower_io.specs.Settings.{settings_of};

use crate::answer::answer;
use crate::status::CheckStatus;
use es_steps::options::Options;
use lower_edge::answers::Answers;
use lower_edge::output::Output;
use lower_edge::run::answer_source;
use lower_edge::status::EdgeStatus;
use lower_io::sink::Sink;
use lower_io::source::Source;
use std::alloc::{AllocError, Global};

/// Reads the source to its end, holds the second program that its bytes are against the first, and writes to the sink whether
/// it is what the first may be lowered to, in one line. The arguments are those of `read_settings`.
///
/// With `Agreed` the bytes are JSON of two programs, the first is valid, and the second meets the clauses on lowered programs
/// and means what the first means (docs/MEANING.md); nothing is asked of who lowered it. `NoMemory` comes before anything is
/// written, `WriteFault` only where the sink failed, and then it has gained a part; with each other status it has gained a line
/// that tells the cause. After `Agreed`, `Differs`, `NotAPair`, `Refused` and `TooDeep` the source was read to its end.
pub fn check_run<S: Source, K: Sink>(
    alloc: Global,
    arguments: &[String],
    source: &mut S,
    sink: &mut K,
) -> CheckStatus
    ensures agreed { result ≡ CheckStatus.Agreed → (b held now : List ℕ) → S.left source.old ≡ Some b → K.held sink.old ≡ Some held → K.held sink.new ≡ Some now → HasAgreed (settings_of (map string_bytes arguments.now)) b held now }
    ensures cause { Cause (settings_of (map string_bytes arguments.now)) (S.left source.old) (S.faults source.old) (S.faults source.new) (K.held sink.old) (K.held sink.new) (K.faults sink.old) (K.faults sink.new) result }
    ensures complete { Complete (settings_of (map string_bytes arguments.now)) (S.left source.old) (S.faults source.old) (S.faults source.new) (K.faults sink.old) (K.faults sink.new) result }
    ensures end { IsReadToEnd (S.left source.old) (S.left source.new) result }
    ensures source_later { S.faults source.old ≤ S.faults source.new }
    ensures sink_later { K.faults sink.old ≤ K.faults sink.new }
{
    answer_source(alloc, &Checker, arguments, source, sink)
}

/// The program that holds a lowered program against its source.
#[derive(Clone, Copy)]
struct Checker;

impl Answers for Checker {
    ghost use Rattle.check_run.specs.Outcome.{IsOutputOfBytes, edge_of};

    type Status = CheckStatus;

    ghost edge = { edge_of };

    ghost gives = { IsOutputOfBytes };

    fn of_edge(status: EdgeStatus) -> CheckStatus {
        match status {
            EdgeStatus::BadArguments => CheckStatus::BadWords,
            EdgeStatus::ReadFault => CheckStatus::ReadFault,
            EdgeStatus::WriteFault => CheckStatus::WriteFault,
            EdgeStatus::NoMemory => CheckStatus::NoMemory,
            EdgeStatus::TooLong => CheckStatus::TooLong,
        }
    }

    fn answer(
        &self,
        alloc: Global,
        options: &Options,
        bytes: &[u8],
    ) -> Result<Output<CheckStatus>, AllocError> {
        answer(alloc, options, bytes)
    }
}
