// The value of a lowered program.

ghost use Rattle.std.specs.Prelude.{◌≡◌, [], IfOk, map, codes};
ghost use Rattle.es_base.specs.Shape.{shape_number};
ghost use Rattle.es_writing.specs.Lowered.{Writes, items_of, with_entries};
ghost use Rattle.es_writing.specs.Kept.{IsKept};
ghost use Rattle.es_writing.specs.Writing.{entry, number_of};
ghost use Rattle.serde_json.specs.Data.{array};
ghost use Rattle.serde_json.specs.View.{view};

use crate::entries::{number_of, put_value};
use crate::generated::write_names;
use crate::node::write;
use crate::warnings::write_warnings;
use es_base::diagnostic::Diagnostic;
use es_base::ledger::Ledger;
use es_base::shape::Shape;
use es_node::node::Node;
use serde_json::Value;
use std::alloc::{AllocError, Global};

/// The value of a lowered program: that of its tree, with three members more (our own). `generated` has
/// the generated names, in the order of the bytes of their strings and then of their numbers;
/// `warnings` has the warnings, in the order of the numbers of their nodes; and `outside` has the numbers
/// of the shapes that put the program outside the theorem on the order of its events, as they are given.
/// Fails on allocation failure alone.
pub fn write_lowered(
    alloc: Global,
    tree: &Node,
    ledger: &Ledger,
    warnings: &[Diagnostic],
    outside: &[Shape],
) -> Result<Value, AllocError>
    ensures value { IfOk result (λ v. Writes v tree.now ledger.now.entries warnings.now outside.now) }
    ensures kept { IfOk result (λ v. IsKept tree.now) }
{
    let generated = write_names(alloc, ledger.entries.as_slice())?;
    let warned = write_warnings(alloc, warnings)?;
    let shapes = write_shapes(alloc, outside)?;
    let program = write(alloc, tree)?;
    put_lists(alloc, program, generated, warned, shapes)
}

/// The value of a program with the three lists put in, where it is an object.
fn put_lists(
    alloc: Global,
    program: Value,
    generated: Value,
    warnings: Value,
    outside: Value,
) -> Result<Value, AllocError>
    ensures { IfOk result (λ v. view v ≡ with_entries (view program)
        (entry (codes "generated") (view generated) (entry (codes "warnings") (view warnings)
        (entry (codes "outside") (view outside) [])))) }
{
    match program {
        Value::Object(mut members) => {
            put_value(&mut members, alloc, "generated", generated)?;
            put_value(&mut members, alloc, "warnings", warnings)?;
            put_value(&mut members, alloc, "outside", outside)?;
            Ok(Value::from(members))
        }
        other => Ok(other),
    }
}

/// The list of the numbers of the shapes.
fn write_shapes(alloc: Global, shapes: &[Shape]) -> Result<Value, AllocError>
    ensures { IfOk result (λ v. view v ≡ array (items_of (map (λ s. number_of (shape_number s)) shapes.now))) }
{
    let mut items = Vec::new(alloc);
    for shape in shapes {
        items.push(number_of(u32::from(shape.number())))?;
    }
    Ok(Value::from(items))
}
