// Writing programs.

ghost use Rattle.std.specs.Prelude.{◌≡◌, [], IfOk, Ok, true, false};
ghost use Rattle.es_base.specs.Conforms.{conforms};
ghost use Rattle.es_base.specs.declared.table.Place.{Place};
ghost use Rattle.es_writing.specs.Lowered.{Writes};
ghost use Rattle.es_reading.specs.Reading.{read, root};
ghost use Rattle.es_reading.specs.declared.numbers.Numbers.{Numbers};
ghost use Rattle.es_base.specs.Carried.{stripped};
ghost use Rattle.es_writing.specs.Kept.{IsKept};
ghost use Rattle.es_writing.specs.Writing.{write};
ghost use Rattle.serde_json.specs.View.{view};
ghost use Rattle.serde_json.specs.Written.{has_float};

use es_base::diagnostic::Diagnostic;
use es_base::ledger::Ledger;
use es_base::shape::Shape;
use es_node::node::Node;
use es_writing::{lowered, node};
use serde_json::Value;
use std::alloc::{AllocError, Global};

/// The value of a program: each node as an object with its `type`, its number as `node`, its members, and
/// `start` and `end` where it has a span (ESTree; docs/JSON.md). Its semantic ids are not
/// written. Fails on allocation failure alone.
///
/// The value has no float, so its text is `compact_text` of it; and the program's numbers and strings are such
/// as JSON holds (`IsKept`), which the laws of `law` ask for. What was written is read again, by
/// `read_numbered`, as the same program without its semantic ids.
pub fn write_program(alloc: Global, program: &Node) -> Result<Value, AllocError>
    ensures value { IfOk result (λ v. view v ≡ write program.now) }
    ensures kept { IfOk result (λ v. IsKept program.now) }
    ensures no_float { IfOk result (λ v. has_float (view v) ≡ false) }
    ensures reads_back { IfOk result (λ v. conforms Place.Program program.now ≡ true
        → read Numbers.Given (view v) root 0 ≡ Ok (record { value = stripped program.now; foreign = [] })) }
{
    node::write(alloc, program)
}

/// The value of a lowered program: that of `write_program` with three members more (our own;
/// docs/JSON.md). `generated` has the generated names, in the order of the bytes of their strings and
/// then of their numbers; `warnings` has the warnings, in the order of the numbers of their nodes; and
/// `outside` has the numbers of the shapes that put the program outside the theorem on the order of its
/// events, as they are given. Fails on allocation failure alone.
///
/// As with `write_program`, the value has no float, `read_numbered` reads it as the same program without
/// its semantic ids, and its names and warnings, too, are such as JSON holds, which the laws of `law` ask for.
pub fn write_lowered(
    alloc: Global,
    program: &Node,
    ledger: &Ledger,
    warnings: &[Diagnostic],
    outside: &[Shape],
) -> Result<Value, AllocError>
    ensures value { IfOk result (λ v. Writes v program.now ledger.now.entries warnings.now outside.now) }
    ensures kept { IfOk result (λ v. IsKept program.now) }
    ensures no_float { IfOk result (λ v. has_float (view v) ≡ false) }
    ensures reads_back { IfOk result (λ v. conforms Place.Program program.now ≡ true
        → read Numbers.Given (view v) root 0 ≡ Ok (record { value = stripped program.now; foreign = [] })) }
{
    lowered::write_lowered(alloc, program, ledger, warnings, outside)
}
