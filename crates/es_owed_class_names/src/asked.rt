// The references that are to stand behind a class: those to its names, and those to functions that read them.

ghost use Rattle.std.specs.Prelude.{◌≡◌, true, IfOk};
ghost use Rattle.es_binding_faults.specs.Seen.{seen};
ghost use Rattle.es_lowered.specs.ClassNames as spec;
ghost use Rattle.es_owed_references.specs.Moved.{functions_of};
ghost use Rattle.es_owed_class_names.specs.Asked.{asked_besides, kept_names};
ghost use Rattle.es_references.specs.References.{references_of};
ghost use Rattle.es_steps.specs.References.{has_number};

use crate::inside::{class_runs, numbers_inside};
use crate::kept_places::kept_places;
use crate::lists::without;
use crate::lowering::Lowering;
use crate::marked::with_class;
use crate::naming::free_naming;
use es_owed_initialized::numbers::add_numbers;
use es_owed_references::moved::MovedFunction;
use std::alloc::{AllocError, Global};

/// The references to names of this class that are asked for, where these are those of the source. Fails on allocation failure
/// alone.
pub fn asked_names(
    alloc: Global,
    lowering: &Lowering,
    class: u32,
    in_source: &[u32],
) -> Result<Vec<u32>, AllocError>
    requires { has_number class lowering.now.classes.items ≡ true }
    ensures { IfOk result (λ r. r.items ≡ asked_besides lowering.now.first lowering.now.reads.ledger.now lowering.now.source.now.program.now lowering.now.lowered.now.program.now class in_source.now) }
{
    let kept = kept_names(alloc, lowering, class, in_source)?;
    without(alloc, kept.as_slice(), lowering.names.get(class))
}

/// Those of these names of this class in the source that may stand where they stand, and do. Fails on allocation failure alone.
fn kept_names(
    alloc: Global,
    lowering: &Lowering,
    class: u32,
    names: &[u32],
) -> Result<Vec<u32>, AllocError>
    ensures { IfOk result (λ r. r.items ≡ kept_names lowering.now.first lowering.now.source.now.program.now lowering.now.lowered.now.program.now class names.now) }
{
    let runs = class_runs(class, lowering.lowered);
    let free = free_naming(alloc, runs, class, lowering.source, lowering.lowered, names)?;
    kept_places(alloc, lowering, class, names, free.as_slice())
}

/// The functions of generated names by which they are called that hold neither this class nor what stands in its elements. Fails
/// on allocation failure alone.
pub fn functions_outside<'a>(
    alloc: Global,
    lowering: &Lowering<'_, '_, 'a>,
    class: u32,
) -> Result<Vec<MovedFunction<'a>>, AllocError>
    ensures { IfOk result (λ r. functions_of r.items ≡ spec.functions_outside lowering.now.reads.ledger.now lowering.now.lowered.now.program.now class) }
{
    let elements = numbers_inside(alloc, class, lowering.lowered)?;
    let inside = with_class(alloc, class, elements.as_slice())?;
    lowering.reads.functions_outside(alloc, inside.as_slice())
}

/// These names, with the references to such functions that read them, but what stands in such a function, or in an element of the
/// class. Fails on allocation failure alone.
pub fn asked_references(
    alloc: Global,
    lowering: &Lowering,
    class: u32,
    functions: &[MovedFunction],
    names: &[u32],
) -> Result<Vec<u32>, AllocError>
    ensures { IfOk result (λ r. r.items ≡ spec.asked_references lowering.now.reads.ledger.now lowering.now.lowered.now.program.now class (functions_of functions.now) names.now) }
{
    let reached = reaching(alloc, lowering, functions, names)?;
    let outside = without_functions(alloc, functions, reached)?;
    let inside = numbers_inside(alloc, class, lowering.lowered)?;
    without(alloc, inside.as_slice(), outside.as_slice())
}

/// These names, with the references to functions that read them, and so on. Fails on allocation failure alone.
#[tactic(auto, using(crate::proofs::AskedNames::none_reaching))]
fn reaching(
    alloc: Global,
    lowering: &Lowering,
    functions: &[MovedFunction],
    names: &[u32],
) -> Result<Vec<u32>, AllocError>
    ensures { IfOk result (λ r. r.items ≡ spec.reaching lowering.now.reads.ledger.now (functions_of functions.now) (references_of lowering.now.reads.references.now) (seen lowering.now.reads.nodes.now) names.now) }
{
    match functions {
        [] => copied(alloc, names),
        _ => lowering.reads.reaching(alloc, functions, names),
    }
}

fn copied(alloc: Global, numbers: &[u32]) -> Result<Vec<u32>, AllocError>
    ensures { IfOk result (λ r. r.items ≡ numbers.now) }
{
    let mut all = Vec::new(alloc);
    add_numbers(numbers, &mut all)?;
    Ok(all)
}

/// Those of these numbers that are of no node of these functions. Fails on allocation failure alone.
fn without_functions(
    alloc: Global,
    functions: &[MovedFunction],
    numbers: Vec<u32>,
) -> Result<Vec<u32>, AllocError>
    ensures { IfOk result (λ r. r.items ≡ spec.without_functions (functions_of functions.now) numbers.items) }
{
    let mut rest = numbers;
    for function in functions {
        rest = without(alloc, function.numbers.as_slice(), rest.as_slice())?;
    }
    Ok(rest)
}
