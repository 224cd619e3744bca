// A lowered program with its scope table.

ghost use Rattle.std.specs.Prelude.{◌≡◌, ◌<◌, ◌^◌, IfOk, OnOk, IfErr, [], true};
ghost use Rattle.es_base.specs.Conforms.{conforms};
ghost use Rattle.es_base.specs.Numbered.{EachOnce};
ghost use Rattle.es_base.specs.Numbered as numbered;
ghost use Rattle.es_base.specs.Preorder.{nodes, numbered_from};
ghost use Rattle.es_base.specs.declared.table.Place.{Place};
ghost use Rattle.es_reading.specs.Told.{ids};
ghost use Rattle.es_scopes.specs.Agreement.{Agrees};
ghost use Rattle.es_validity.specs.Validity.{is_valid};
ghost use Rattle.es_shapes.specs.Warnings.{numbers};
ghost use Rattle.es_steps.specs.Shapes.{shapes};
ghost use Rattle.es_steps.specs.Told.{warnings_of};
ghost use Rattle.lower_es2022.specs.Own.{IsNotYet};
ghost use Rattle.lower_run.specs.Outcome.{IsNotLowered};
ghost use Rattle.lower_tree.specs.Scoped.{IsScoped};

use es_base::diagnostic::Diagnostic;
use es_base::ids::NodeId;
use es_base::ledger::Ledger;
use es_base::shape::Shape;
use es_node::node::Node;
use es_scopes::scoping::Scoping;
use es_scopes_build::build::build;
use es_steps::options::Options;
use lower_es2022::own::ClassLowering;
use lower_run::program::{NotLowered, Warned, lower_program};
use std::alloc::Global;

/// A lowered program, for what transforms it next.
#[derive(Drop)]
pub struct LoweredTree {
    /// The program: its nodes have the numbers of their scopes, symbols and references.
    pub program: Node,
    pub scoping: Scoping,
    /// The generated names.
    pub names: Ledger,
    /// The warnings for the source.
    pub warnings: Vec<Diagnostic>,
    /// The shapes of the source: where it has none, the program means what the source means.
    pub shapes: Vec<Shape>,
}

/// What a program is lowered to under the options, as the run lowers it (`lower_es2022::run::run`), with the scope table of the lowered
/// program, built anew (ECMA-262 sections 8.2 and 9.1): the scopes of functions that were moved out of a class are below the
/// scopes that they stand in now. `foreign` has the numbers of the nodes that have members outside the table.
///
/// Fails on allocation failure, and where the source has a fault, is not lowered yet or too deep to be judged.
#[tactic(auto, using(crate::proofs::BuiltProgram::built_program, crate::proofs::BuiltProgram::built_once))]
pub fn lower_tree(
    alloc: Global,
    options: &Options,
    source: Node,
    foreign: &[NodeId],
) -> Result<LoweredTree, NotLowered>
    requires conforms { conforms Place.Program source ≡ true }
    requires preorder { source ≡ numbered_from 0 source }
    requires few { nodes source < 2 ^ 32 }
    ensures valid { OnOk result (is_valid options.now (ids foreign.now) source ≡ true) }
    ensures program { IfOk result (λ r. conforms Place.Program r.program ≡ true) }
    ensures once { IfOk result (λ r. EachOnce (numbered.numbers r.program)) }
    ensures few { IfOk result (λ r. nodes r.program < 2 ^ 32) }
    ensures made { IfOk result (λ r. IsScoped options.now source (ids foreign.now) r.names.entries r.scoping r.program) }
    ensures agrees { IfOk result (λ r. Agrees [] r.scoping r.program) }
    ensures warned { IfOk result (λ r. numbers r.warnings.items ≡ warnings_of options.now source) }
    ensures shaped { IfOk result (λ r. r.shapes.items ≡ shapes options.now source) }
    ensures refused { IfErr result (IsNotLowered IsNotYet options.now source (ids foreign.now)) }
{
    let Warned { lowered, warnings } = lower_program(
        alloc,
        &ClassLowering,
        options,
        source,
        foreign,
    )?;
    let mut program = lowered.program;
    let scoping = build(alloc, &mut program)?;
    Ok(LoweredTree {
        program,
        scoping,
        names: lowered.names,
        warnings,
        shapes: lowered.shapes,
    })
}
