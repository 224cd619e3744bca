// The output for the bytes of a source: the lowered tree, or why there is none.

ghost use Rattle.std.specs.Prelude.{◌≡◌, ◌≤◌, ◌<◌, ◌+◌, ◌^◌, IfOk, IfErr, Ok, length, true};
ghost use Rattle.es_base.specs.Conforms.{conforms};
ghost use Rattle.es_base.specs.Preorder.{nodes, numbered_from};
ghost use Rattle.es_base.specs.declared.kind.Kind.{Kind};
ghost use Rattle.es_base.specs.declared.table.Place.{Place};
ghost use Rattle.es_node.specs.View.{kind_of};
ghost use Rattle.es_writing.specs.Kept.{IsKept};
ghost use Rattle.es_reading.specs.Reading.{read, root};
ghost use Rattle.borrowed_json.specs.View.{view};
ghost use Rattle.es_reading.specs.Told.{Tells, ids, values};
ghost use Rattle.es_reading.specs.declared.numbers.Numbers.{Numbers};
ghost use Rattle.lower_edge.specs.Ending.{most_bytes};
ghost use Rattle.lower_run.specs.Outcome.{IsOutputOfBytes, IsOutputOfValue, IsOutputOfTree, IsLineOf, IsTextOf};

use crate::lines::{float_line, not_a_tree_line};
use crate::lowering::Lowers;
use crate::program::{NotLowered, Warned, lower_program};
use crate::status::Status;
use borrowed_json::parse::{ParseError, parse};
use borrowed_json::value::Value;
use es_base::ids::NodeId;
use es_base::list::List;
use es_node::node::Node;
use es_reading::fault::ReadError;
use es_reading::numbers::Numbers;
use es_reading::tree::read_tree;
use es_steps::options::Options;
use es_writing::program::lowered_text;
use json::Scratch;
use lower_edge::lines::refusal_line;
use lower_edge::output::{Output, output_with};
use std::alloc::{AllocError, Global};
use std::mem::forget;

/// The output for these bytes, of which there are at most 67,108,864: the lowered tree with the status
/// `Done`, or why there is none with `NotATree` or `Refused`. Fails on allocation failure alone.
pub fn answer<L: Lowers>(
    alloc: Global,
    lowering: &L,
    options: &Options,
    bytes: &[u8],
) -> Result<Output<Status>, AllocError>
    requires { length bytes.now ≤ most_bytes }
    ensures { IfOk result (λ s. IsOutputOfBytes L.makes L.declines options.now bytes.now s.status s.text.items) }
{
    let mut scratch = Scratch::new(alloc);
    match parse(alloc, bytes, &mut scratch) {
        Ok(value) => of_value(alloc, lowering, options, value),
        Err(ParseError::Invalid) => output_with(alloc, Status::NotATree, "not a tree: json\n"),
        Err(ParseError::NoMemory) => Err(AllocError),
    }
}

/// The output for a value.
fn of_value<L: Lowers>(
    alloc: Global,
    lowering: &L,
    options: &Options,
    value: Value<'_>,
) -> Result<Output<Status>, AllocError>
    requires { values (view value) + 1 < 2 ^ 32 }
    ensures { IfOk result (λ s. IsOutputOfValue L.makes L.declines options.now (view value.entry) s.status s.text.items) }
{
    match tree_of(alloc, value) {
        Ok((tree, foreign)) => of_tree(alloc, lowering, options, tree, foreign.as_slice()),
        Err(error) => of_fault(alloc, error),
    }
}

/// The program that a value is, and the numbers of its nodes that have members outside the table. The
/// value, which takes most of the memory, is let go.
fn tree_of(alloc: Global, value: Value<'_>) -> Result<(Node, List<NodeId>), ReadError>
    requires { values (view value) + 1 < 2 ^ 32 }
    ensures ok { IfOk result (λ r. read Numbers.Preorder (view value.entry) root 0 ≡ Ok (record { value = r.0; foreign = ids r.1 })) }
    ensures conforms { IfOk result (λ r. conforms Place.Program r.0 ≡ true) }
    ensures preorder { IfOk result (λ r. r.0 ≡ numbered_from 0 r.0) }
    ensures few { IfOk result (λ r. nodes r.0 < 2 ^ 32) }
    ensures err { IfErr result (λ e. Tells e (read Numbers.Preorder (view value.entry) root 0)) }
{
    read_tree(alloc, &value, Numbers::Preorder)
}

/// The fault of a value that is no program.
fn of_fault(alloc: Global, error: ReadError) -> Result<Output<Status>, AllocError>
    ensures { IfOk result (λ s. (s.status ≡ Status.NotATree) × IsLineOf error (s.text.items)) }
{
    let text = match error {
        ReadError::NoMemory => return Err(AllocError),
        ReadError::NotATree { at, what } => not_a_tree_line(alloc, at, what)?,
        ReadError::Float { at } => float_line(alloc, at)?,
    };
    Ok(Output {
        status: Status::NotATree,
        text: text.into_bytes(),
    })
}

/// The output for a program, and of the numbers of its nodes that have members outside the table.
fn of_tree<L: Lowers>(
    alloc: Global,
    lowering: &L,
    options: &Options,
    tree: Node,
    foreign: &[NodeId],
) -> Result<Output<Status>, AllocError>
    requires conforms { conforms Place.Program tree ≡ true }
    requires preorder { tree ≡ numbered_from 0 tree }
    requires few { nodes tree < 2 ^ 32 }
    ensures { IfOk result (λ s. IsOutputOfTree L.makes L.declines options.now tree (ids foreign.now) s.status s.text.items) }
{
    match lower_program(alloc, lowering, options, tree, foreign) {
        Ok(told) => Ok(Output {
            status: Status::Done,
            text: text_of(alloc, told)?,
        }),
        Err(NotLowered::Refused(error)) => Ok(Output {
            status: Status::Refused,
            text: refusal_line(alloc, error)?.into_bytes(),
        }),
        Err(NotLowered::TooDeep) => output_with(alloc, Status::TooDeep, "too deep\n"),
    }
}

/// The text of a lowered program, and a line feed. The tree is not let go: the program ends soon.
fn text_of(alloc: Global, told: Warned) -> Result<Vec<u8>, AllocError>
    requires { kind_of told.lowered.program ≡ Kind.Program }
    ensures text { IfOk result (λ s. IsTextOf s.items told.lowered.program told.lowered.names.entries told.warnings.items told.lowered.shapes.items) }
    ensures kept { IfOk result (λ _. IsKept told.lowered.program) }
{
    let lowered = told.lowered;
    let warnings = told.warnings.as_slice();
    let shapes = lowered.shapes.as_slice();
    let mut text = lowered_text(alloc, &lowered.program, &lowered.names, warnings, shapes)?;
    text.push(b'\n')?;
    forget(lowered.program);
    Ok(text)
}
