// Whether what reads a name or `this` in a lowered program stands behind what it stood behind in the source.

ghost use Rattle.std.specs.Prelude.{◌≡◌, [], IfOk};
ghost use Rattle.es_base.specs.Preorder.{preorder};
ghost use Rattle.es_binding_faults.specs.Seen.{seen};
ghost use Rattle.es_lowered.specs.DeadZones as spec;
ghost use Rattle.es_owed_timely.specs.Functions.{super_functions_of};
ghost use Rattle.es_references.specs.References.{references_of};
ghost use Rattle.es_steps.specs.KeptNodes as kept;
ghost use Rattle.es_steps.specs.References.{resolve, written};
ghost use Rattle.es_owed_dead_zones.specs.Bodies.{kept_bodies};
ghost use Rattle.es_touches.specs.Touches.{classes_of, closures_of};

use crate::bodies::{KeptBody, Program, bodies, lent_bodies};
use crate::classes::Classes;
use crate::named_closures::NamedClosures;
use crate::terms::Terms;
use es_generated::ledger::Ledger;
use es_kept_bodies::bodies::bodies_fit;
use es_node::node::Node;
use es_number_set::NumberSet;
use es_owed::listed::Listed;
use es_owed::numbers::is_within;
use es_owed_initialized::numbers::add_numbers;
use es_owed_timely::functions::SuperFunctions;
use es_referents::Referents;
use es_steps::options::Options;
use es_touches::called::closures;
use es_touches::class_parts::class_parts;
use es_touches::closures::Closure;
use es_touches::derived::{add_common, derived_arrows, derived_constructors, static_arrows};
use es_touches::facts::{class_names, private_updates, super_calls, variables};
use es_touches::source::{ClassParts, Source};
use es_touches::throws::all_throws;
use std::alloc::{AllocError, Global};

/// Whether what reads a name or `this` without an event in a lowered program, and what makes a class of such, stands behind what
/// it stood behind in the source, and nothing new always throws. Fails on allocation failure alone.
pub fn dead_zones_stay(
    alloc: Global,
    first: u32,
    options: &Options,
    ledger: &Ledger,
    source: &Listed,
    lowered: &Listed,
) -> Result<bool, AllocError>
    ensures { IfOk result (λ holds. holds ≡ spec.dead_zones_stay first options.now ledger.now source.now.program.now lowered.now.program.now) }
{
    Ok(
        throws_stay(alloc, first, source, lowered)?
            && touches_stay(alloc, first, options, ledger, source, lowered)?,
    )
}

fn throws_stay(
    alloc: Global,
    first: u32,
    source: &Listed,
    lowered: &Listed,
) -> Result<bool, AllocError>
    ensures { IfOk result (λ holds. holds ≡ kept.is_within (spec.all_throws first (spec.private_updates (preorder source.now.program.now)) (preorder lowered.now.program.now)) (spec.all_throws first (spec.private_updates (preorder source.now.program.now)) (preorder source.now.program.now))) }
{
    let updates = NumberSet::of(alloc, private_updates(alloc, source.nodes.as_slice())?)?;
    let here = all_throws(alloc, first, &updates, lowered.nodes.as_slice())?;
    let there = all_throws(alloc, first, &updates, source.nodes.as_slice())?;
    Ok(is_within(here.as_slice(), there.as_slice()))
}

fn touches_stay(
    alloc: Global,
    first: u32,
    options: &Options,
    ledger: &Ledger,
    source: &Listed,
    lowered: &Listed,
) -> Result<bool, AllocError>
    ensures { IfOk result (λ holds. holds ≡ spec.bodies_fit first (spec.super_calls (preorder source.now.program.now)) (spec.class_parts options.now (written source.now.program.now) (resolve source.now.program.now) (preorder source.now.program.now)) (spec.closures ledger.now (preorder lowered.now.program.now)) (spec.bodies_of first [] [] (preorder source.now.program.now) source.now.program.now) (spec.bodies_of first ledger.now (spec.closures ledger.now (preorder lowered.now.program.now)) (preorder source.now.program.now) lowered.now.program.now)) }
{
    let called = closures(alloc, ledger, lowered.nodes.as_slice())?;
    let asked = facts_of(alloc, source)?;
    let there = source_bodies(alloc, first, &asked, source)?;
    let here = bodies_of(alloc, first, ledger, called.as_slice(), &asked, &*lowered)?;
    let supers = super_calls(alloc, source.nodes.as_slice())?;
    let classes = source_classes(alloc, options, source)?;
    kept_fit(
        alloc,
        first,
        supers.as_slice(),
        classes.as_slice(),
        called.as_slice(),
        there.as_slice(),
        here.as_slice(),
    )
}

/// The bodies of a source, in which there are no generated names. Fails on allocation failure alone.
fn source_bodies(
    alloc: Global,
    first: u32,
    asked: &SourceFacts,
    source: &Listed,
) -> Result<Vec<KeptBody>, AllocError>
    ensures { IfOk result (λ r. kept_bodies r.items ≡ spec.bodies_of first [] [] (preorder asked.now.program.now) source.now.program.now) }
{
    let none = Ledger::new(alloc);
    bodies_of(alloc, first, &none, &[], asked, &*source)
}

/// The parts of the classes of a source. Fails on allocation failure alone.
fn source_classes(
    alloc: Global,
    options: &Options,
    source: &Listed,
) -> Result<Vec<ClassParts>, AllocError>
    ensures { IfOk result (λ r. classes_of r.items ≡ spec.class_parts options.now (written source.now.program.now) (resolve source.now.program.now) (preorder source.now.program.now)) }
{
    let nodes = source.nodes.as_slice();
    class_parts(alloc, options, &source.names, nodes)
}

/// Whether the bodies of a lowered program fit those of the source, where these are facts of the source, and the closures of the
/// lowered program. Fails on allocation failure alone.
fn kept_fit<'s, 'c>(
    alloc: Global,
    first: u32,
    supers: &'s [u32],
    classes: &'s [ClassParts],
    called: &'c [Closure<'c>],
    there: &[KeptBody],
    here: &[KeptBody],
) -> Result<bool, AllocError>
    ensures { IfOk result (λ holds. holds ≡ spec.bodies_fit first supers.now (classes_of classes.now) (closures_of called.now) (kept_bodies there.now) (kept_bodies here.now)) }
{
    let there = lent_bodies(alloc, there)?;
    let here = lent_bodies(alloc, here)?;
    let source = Source {
        first,
        supers,
        classes,
        called,
        bodies: there.as_slice(),
    };
    bodies_fit(alloc, &source, here.as_slice())
}

/// What the walks over a program ask of its source.
#[derive(Drop)]
struct SourceFacts<'a> {
    program: &'a Node,
    /// The variables, by their declaring identifiers.
    variables: NumberSet,
    /// The names of classes, by their declaring identifiers.
    class_names: NumberSet,
    /// The arrows where `this` is there behind `super(..)` alone.
    arrows: Vec<u32>,
    /// The arrows of static code.
    statics: NumberSet,

    ghost variables_are: { variables ≡ spec.variables (preorder program.now) },
    ghost class_names_are: { class_names ≡ spec.class_names (preorder program.now) },
    ghost arrows_are: { arrows.items ≡ spec.derived_arrows (spec.derived_constructors (preorder program.now)) (preorder program.now) },
    ghost statics_are: { statics ≡ spec.static_arrows (preorder program.now) },
}

fn facts_of<'a>(alloc: Global, source: &Listed<'a>) -> Result<SourceFacts<'a>, AllocError>
    ensures { IfOk result (λ r. r.program.now ≡ source.now.program.now) }
{
    let nodes = source.nodes.as_slice();
    let variables = NumberSet::of(alloc, variables(alloc, nodes)?)?;
    let class_names = NumberSet::of(alloc, class_names(alloc, nodes)?)?;
    let constructors = derived_constructors(alloc, nodes)?;
    let arrows = derived_arrows(alloc, constructors.as_slice(), nodes)?;
    let statics = NumberSet::of(alloc, static_arrows(alloc, nodes)?)?;
    Ok(SourceFacts {
        program: source.program,
        variables,
        class_names,
        arrows,
        statics,
    })
}

/// The functions of a program where `this` is there behind `super(..)` alone. Fails on allocation failure alone.
fn derived_functions(
    alloc: Global,
    facts: &SourceFacts,
    nodes: &[&Node],
) -> Result<Vec<u32>, AllocError>
    ensures { IfOk result (λ r. r.items ≡ spec.derived_functions (preorder facts.now.program.now) (seen nodes.now)) }
{
    let constructors = derived_constructors(alloc, nodes)?;
    let here = derived_arrows(alloc, constructors.as_slice(), nodes)?;
    let mut arrows = Vec::new(alloc);
    add_numbers(facts.arrows.as_slice(), &mut arrows)?;
    add_common(&facts.statics, here.as_slice(), &mut arrows)?;
    let mut derived = constructors;
    add_numbers(arrows.as_slice(), &mut derived)?;
    Ok(derived)
}

/// The bodies of a program with these closures. Fails on allocation failure alone.
fn bodies_of<'a>(
    alloc: Global,
    first: u32,
    ledger: &Ledger,
    called: &'a [Closure<'a>],
    facts: &SourceFacts,
    program: &'a Listed<'a>,
) -> Result<Vec<KeptBody>, AllocError>
    ensures { IfOk result (λ r. kept_bodies r.items ≡ spec.bodies_of first ledger.now (closures_of called.now) (preorder facts.now.program.now) program.now.program.now) }
{
    let nodes = program.nodes.as_slice();
    let derived = NumberSet::of(alloc, derived_functions(alloc, facts, nodes)?)?;
    let given = SuperFunctions::of(alloc, ledger, nodes)?;
    let called = NamedClosures::of(alloc, called)?;
    let classes = Classes::of(alloc, program)?;
    let look_ups = LookUps {
        derived,
        references: &program.references,
        given,
        called,
        classes,
    };
    bodies_by(alloc, first, facts, &look_ups)
}

/// What the walks over a program look up in it.
#[derive(Drop)]
struct LookUps<'t, 'a> {
    /// The functions and arrows where `this` is there behind `super(..)` alone.
    derived: NumberSet,
    references: &'t Referents<'a>,
    /// The functions for `super(..)`.
    given: SuperFunctions,
    called: NamedClosures<'t, 'a>,
    classes: Classes<'t, 'a>,
}

/// The bodies of a program in which these are looked up. Fails on allocation failure alone.
fn bodies_by(
    alloc: Global,
    first: u32,
    facts: &SourceFacts,
    look_ups: &LookUps,
) -> Result<Vec<KeptBody>, AllocError>
    ensures { IfOk result (λ r. kept_bodies r.items ≡ spec.bodies first (closures_of look_ups.now.called) facts.now.variables facts.now.class_names (references_of look_ups.now.references.now.list.items) look_ups.now.derived (super_functions_of look_ups.now.given.functions.items) (seen look_ups.now.classes.listed.now.nodes.items) (seen look_ups.now.classes.listed.now.nodes.items)) }
{
    let terms = Terms {
        first,
        called: &look_ups.called,
        asked: &facts.variables,
        named: &facts.class_names,
        references: look_ups.references,
    };
    let program = Program {
        terms,
        derived: &look_ups.derived,
        given: &look_ups.given,
        classes: &look_ups.classes,
    };
    bodies(alloc, &program)
}
