// A lowering whose lowered programs are judged.

ghost use Rattle.std.specs.Prelude.{◌≡◌, ◌<◌, ◌^◌, Err, IfErr, IfOk, OnOk, [], false, true};
ghost use Rattle.es_base.specs.Conforms.{conforms};
ghost use Rattle.es_base.specs.Preorder.{nodes, numbered_from};
ghost use Rattle.es_base.specs.declared.table.Place.{Place};
ghost use Rattle.es_reading.specs.Told.{ids};
ghost use Rattle.es_steps.specs.LoweredClasses.{has_lowered_class, nothing_left};
ghost use Rattle.es_steps.specs.Shapes.{shapes};
ghost use Rattle.lower_run.specs.Lowering.{IsDeclined, IsOwed, IsPlain};
ghost use Rattle.lower_with.specs.Judged.{IsFault, IsJudged, IsMade, IsReason, IsRefusedFor, IsUnmade};
ghost use Rattle.step_check.specs.declared.verdict.CheckError.{CheckError};

use es_base::ids::NodeId;
use es_base::ledger::LedgerEntry;
use es_base::shape::Shape;
use es_base::table::Place;
use es_left::left::nothing_left;
use es_lowering::lowering::{LoweredProgram, Lowering, Unlowered};
use es_node::node::Node;
use es_outside::outside::outside_shapes;
use es_owed::classes::has_lowered_class;
use es_steps::options::Options;
use lower_run::lowering::{Lowered, Lowers, unchanged};
use std::alloc::Global;
use step_check::check::{check_clauses, step_check};
use step_check::verdict::{CheckError, Verdict};

/// What is said of a program that a source was lowered to, with these generated names: where the source has no shape, whether it
/// is what the source may be lowered to, as `step_check` says it, and else whether it meets the clauses on lowered programs.
/// Fails on allocation failure, and where codes stand in codes too often.
pub fn judge(
    alloc: Global,
    options: &Options,
    outside: &[Shape],
    source: &Node,
    lowered: &Node,
    names: &[LedgerEntry],
) -> Result<Verdict, CheckError>
    requires few { nodes source.now < 2 ^ 32 }
    requires shaped { outside.now ≡ shapes options.now source.now }
    ensures judged { IfOk result (λ v. IsJudged v options.now names.now source.now lowered.now) }
    ensures deep { result ≡ Err CheckError.TooDeep → shapes options.now source.now ≡ [] }
{
    if outside.is_empty() {
        return step_check(alloc, options, names, source, lowered);
    }
    Ok(check_clauses(alloc, options, names, source, lowered)?)
}

/// A lowering whose lowered programs are judged.
#[derive(Drop)]
pub struct Judged<'a, L> {
    pub lowering: &'a L,
}

impl<L: Lowering> Lowers for Judged<'_, L> {
    ghost use Rattle.lower_with.specs.Judged.{IsMade, IsUnmade};

    ghost makes = { IsMade L.makes };

    ghost declines = { IsUnmade L.makes L.declines };

    fn lower(
        &self,
        alloc: Global,
        options: &Options,
        source: Node,
        foreign: &[NodeId],
    ) -> Result<Lowered, Unlowered> {
        lower_judged(alloc, self.lowering, options, source, foreign)
    }
}

/// What a program is lowered to, if it has nothing to lower or what the lowering makes of it is right.
#[tactic(auto, using(crate::proofs::Made::made_of_right, crate::proofs::Reasons::reason_unmade))]
fn lower_judged<L: Lowering>(
    alloc: Global,
    lowering: &L,
    options: &Options,
    source: Node,
    foreign: &[NodeId],
) -> Result<Lowered, Unlowered>
    requires conforms { conforms Place.Program source ≡ true }
    requires preorder { source ≡ numbered_from 0 source }
    requires few { nodes source < 2 ^ 32 }
    ensures program { IfOk result (λ r. conforms Place.Program r.program ≡ true) }
    ensures made { IfOk result (λ r. IsMade L.makes options.now source (ids foreign.now) r.names.entries r.program) }
    ensures shaped { IfOk result (λ r. r.shapes.items ≡ shapes options.now source) }
    ensures declined { IfErr result (IsDeclined (IsUnmade L.makes L.declines options.now source (ids foreign.now))) }
{
    if nothing_left(&source, options) {
        return Ok(unchanged(alloc, options, source)?);
    }
    match lower_changed(alloc, lowering, options, &source) {
        Ok(lowered) => Ok(lowered),
        Err(error) => Err(error),
    }
}

/// The same of a program with something to lower.
#[tactic(auto, using(crate::proofs::Reasons::declined_reason))]
fn lower_changed<L: Lowering>(
    alloc: Global,
    lowering: &L,
    options: &Options,
    source: &Node,
) -> Result<Lowered, Unlowered>
    requires few { nodes source.now < 2 ^ 32 }
    requires changed { nothing_left options.now source.now ≡ false }
    ensures program { IfOk result (λ r. conforms Place.Program r.program ≡ true) }
    ensures owed { IfOk result (λ r. IsOwed (IsPlain options.now source.now) options.now source.now r.names.entries r.program) }
    ensures made { IfOk result (λ r. L.makes options.now source.now r.names.entries r.program) }
    ensures shaped { IfOk result (λ r. r.shapes.items ≡ shapes options.now source.now) }
    ensures declined { IfErr result (IsDeclined (IsReason L.makes L.declines options.now source.now)) }
{
    // each valid program with something to lower has such a class, which is not proved
    if !has_lowered_class(options, source) {
        return Err(Unlowered::NotYet { node: NodeId(0) });
    }
    match lowering.lower(alloc, options, source) {
        Ok(lowered) => match shapes_if_right(alloc, options, source, &lowered) {
            Ok(shapes) => Ok(Lowered {
                program: lowered.program,
                names: lowered.names,
                shapes,
            }),
            Err(error) => Err(error),
        },
        Err(error) => Err(error),
    }
}

/// The shapes of a source, if what it was lowered to is right.
fn shapes_if_right(
    alloc: Global,
    options: &Options,
    source: &Node,
    lowered: &LoweredProgram,
) -> Result<Vec<Shape>, Unlowered>
    requires few { nodes source.now < 2 ^ 32 }
    requires changed { nothing_left options.now source.now ≡ false }
    requires classes { has_lowered_class options.now source.now ≡ true }
    ensures program { OnOk result (conforms Place.Program lowered.now.program ≡ true) }
    ensures owed { OnOk result (IsOwed (IsPlain options.now source.now) options.now source.now lowered.now.names.entries lowered.now.program) }
    ensures shaped { IfOk result (λ s. s.items ≡ shapes options.now source.now) }
    ensures refused { IfErr result (IsDeclined (IsRefusedFor options.now lowered.now.names.entries source.now lowered.now.program)) }
{
    let shapes = outside_shapes(alloc, source, options)?;
    match fault_of(
        alloc,
        options,
        shapes.as_slice(),
        source,
        &lowered.program,
        lowered.names.entries.as_slice(),
    ) {
        Ok(None) => Ok(shapes),
        Ok(Some(node)) => Err(Unlowered::NotYet { node }),
        Err(error) => Err(error),
    }
}

/// The node at which a lowered program is wrong; nothing where it is right.
fn fault_of(
    alloc: Global,
    options: &Options,
    outside: &[Shape],
    source: &Node,
    lowered: &Node,
    names: &[LedgerEntry],
) -> Result<Option<NodeId>, Unlowered>
    requires few { nodes source.now < 2 ^ 32 }
    requires changed { nothing_left options.now source.now ≡ false }
    requires classes { has_lowered_class options.now source.now ≡ true }
    requires shaped { outside.now ≡ shapes options.now source.now }
    ensures fault { IfOk result (λ fault. IsFault fault options.now names.now source.now lowered.now) }
    ensures unjudged { IfErr result (IsDeclined (IsRefusedFor options.now names.now source.now lowered.now)) }
{
    if !lowered.conforms(Place::Program) {
        return Ok(Some(NodeId(0)));
    }
    match judge(alloc, options, outside, source, lowered, names) {
        Ok(Verdict::Yes) => Ok(None),
        Ok(Verdict::No { part: _, node }) => Ok(Some(node)),
        Err(CheckError::TooDeep) => Err(Unlowered::TooDeep),
        Err(CheckError::NoMemory) => Err(Unlowered::NoMemory),
    }
}
