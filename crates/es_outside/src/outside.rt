// The shapes of a program.

ghost use Rattle.std.specs.Prelude.{◌≡◌, ◌++◌, [], true, IfOk, OnOk};
ghost use Rattle.es_steps.specs.Shapes.{if_has, shapes};
ghost use Rattle.es_outside.specs.Outside.{other_shapes};

use crate::names::ProgramNames;
use crate::private_target::has_unwritable_target;
use es_base::shape::Shape;
use es_base::table::Place;
use es_left::left::nothing_left;
use es_node::node::Node;
use es_shapes::kept_block::has_kept_block;
use es_shapes::late_class::has_late_class;
use es_shapes::moved_heritage::has_moved_heritage;
use es_shapes::own_name::has_own_name;
use es_shapes::private_chain::has_private_chain;
use es_shapes::twice_read::has_twice_read_name;
use es_shapes::written_class::has_written_class;
use es_steps::options::Options;
use std::alloc::{AllocError, Global};

/// The shapes of a program under these options: ascending, each once. Fails on allocation failure alone.
#[tactic(auto, using(crate::proofs::Ascending::with_first))]
pub fn outside_shapes(
    alloc: Global,
    program: &Node,
    options: &Options,
) -> Result<Vec<Shape>, AllocError>
    ensures { IfOk result (λ r. r.items ≡ shapes options.now program.now) }
{
    let mut shapes = Vec::new(alloc);
    if stays_as_it_is(program, options) {
        return Ok(shapes);
    }
    let names = ProgramNames::of(alloc, program)?;
    let is_moved = has_moved_heritage(program, options, &names);
    push_if(is_moved, Shape::S1, &mut shapes)?;
    add_others(alloc, program, options, &names, &mut shapes)?;
    Ok(shapes)
}

/// Whether the program has no shape, since nothing in it is lowered.
#[tactic(auto, using(es_left::proofs::Shapeless::no_shapes))]
fn stays_as_it_is(program: &Node, options: &Options) -> bool
    ensures { result ≡ true → shapes options.now program.now ≡ [] }
{
    !options.es2022.class_static_block
        && nothing_left(program, options)
        && program.conforms(Place::Program)
}

/// Adds the shapes but S1.
#[tactic(auto, using(crate::proofs::Ascending::in_order))]
fn add_others(
    alloc: Global,
    program: &Node,
    options: &Options,
    names: &ProgramNames,
    shapes: &mut Vec<Shape>,
) -> Result<(), AllocError>
    requires { names.now.program.now ≡ program.now }
    ensures { OnOk result (shapes.new.items ≡ shapes.old.items ++ other_shapes options.now program.now) }
{
    push_if(has_late_class(program, options), Shape::S2, shapes)?;
    push_if(has_kept_block(program, options), Shape::S3, shapes)?;
    let is_read_twice = has_twice_read_name(program, options, names);
    push_if(is_read_twice, Shape::S4, shapes)?;
    let is_unwritable = has_unwritable_target(alloc, program, options)?;
    push_if(is_unwritable, Shape::S5, shapes)?;
    push_if(
        has_written_class(program, options, names),
        Shape::S6,
        shapes,
    )?;
    push_if(has_own_name(program, options, names), Shape::S7, shapes)?;
    push_if(has_private_chain(program, options), Shape::S8, shapes)
}

/// Adds the shape, if the program has it.
fn push_if(has: bool, shape: Shape, shapes: &mut Vec<Shape>) -> Result<(), AllocError>
    ensures { OnOk result (shapes.new.items ≡ shapes.old.items ++ if_has has shape []) }
{
    if has {
        shapes.push(shape)?;
    }
    Ok(())
}
