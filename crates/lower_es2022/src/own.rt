// The product's own lowering.

ghost use Rattle.std.specs.Prelude.{◌≡◌, ◌<◌, ◌^◌, IfErr, IfOk, false, true};
ghost use Rattle.es_base.specs.Conforms.{conforms};
ghost use Rattle.es_base.specs.Preorder.{nodes, numbered_from};
ghost use Rattle.es_base.specs.declared.table.Place.{Place};
ghost use Rattle.es_reading.specs.Told.{ids};
ghost use Rattle.es_steps.specs.Shapes.{shapes};
ghost use Rattle.es_validity.specs.Validity.{is_valid};
ghost use Rattle.lower_es2022.specs.Own.{IsMade, IsNotYet, is_proved};
ghost use Rattle.lower_run.specs.Lowering.{IsDeclined};

use crate::classes::Classes;
use es_base::ids::NodeId;
use es_left::left::nothing_left;
use es_lowering::lowering::Unlowered;
use es_node::node::Node;
use es_steps::options::Options;
use lower_run::first_form::{FirstForm, not_yet_lowered};
use lower_run::lowering::{Lowered, Lowers};
use lower_with::judged::Judged;
use std::alloc::{AllocError, Global};

/// The product's lowering: a program with nothing to lower, or of the first form, is lowered as is proved of it, and another one
/// by what is judged.
#[derive(Clone, Copy)]
pub struct ClassLowering;

impl Lowers for ClassLowering {
    ghost use Rattle.lower_es2022.specs.Own.{IsMade, IsNotYet};

    ghost makes = { IsMade };

    ghost declines = { IsNotYet };

    fn lower(
        &self,
        alloc: Global,
        options: &Options,
        source: Node,
        foreign: &[NodeId],
    ) -> Result<Lowered, Unlowered> {
        if is_proved(alloc, options, &source, foreign)? {
            lower_proved(alloc, options, source, foreign)
        } else {
            lower_judged(alloc, options, source, foreign)
        }
    }
}

/// Whether it is proved what a program is lowered to: it has nothing to lower, or is of the first form where fields are defined.
fn is_proved(
    alloc: Global,
    options: &Options,
    source: &Node,
    foreign: &[NodeId],
) -> Result<bool, AllocError>
    requires { conforms Place.Program source.now ≡ true }
    ensures { IfOk result (λ b. b ≡ is_proved options.now source.now (ids foreign.now)) }
{
    if nothing_left(source, options) {
        return Ok(true);
    }
    Ok(not_yet_lowered(alloc, source, foreign, options)?.is_none())
}

/// What a program of these is lowered to.
#[tactic(auto, using(crate::proofs::Reasons::made_of_form, crate::proofs::Reasons::reason_of_form))]
fn lower_proved(
    alloc: Global,
    options: &Options,
    source: Node,
    foreign: &[NodeId],
) -> Result<Lowered, Unlowered>
    requires conforms { conforms Place.Program source ≡ true }
    requires preorder { source ≡ numbered_from 0 source }
    requires few { nodes source < 2 ^ 32 }
    requires valid { is_valid options.now (ids foreign.now) source ≡ true }
    requires proved { is_proved options.now source (ids foreign.now) ≡ true }
    ensures program { IfOk result (λ r. conforms Place.Program r.program ≡ true) }
    ensures made { IfOk result (λ r. IsMade options.now source (ids foreign.now) r.names.entries r.program) }
    ensures shaped { IfOk result (λ r. r.shapes.items ≡ shapes options.now source) }
    ensures declined { IfErr result (IsDeclined (IsNotYet options.now source (ids foreign.now))) }
{
    match FirstForm.lower(alloc, options, source, foreign) {
        Ok(lowered) => Ok(lowered),
        Err(error) => Err(error),
    }
}

/// What another one is lowered to, if it is right.
#[tactic(auto, using(crate::proofs::Reasons::made_of_others, crate::proofs::Reasons::reason_of_others))]
fn lower_judged(
    alloc: Global,
    options: &Options,
    source: Node,
    foreign: &[NodeId],
) -> Result<Lowered, Unlowered>
    requires conforms { conforms Place.Program source ≡ true }
    requires preorder { source ≡ numbered_from 0 source }
    requires few { nodes source < 2 ^ 32 }
    requires valid { is_valid options.now (ids foreign.now) source ≡ true }
    requires unproved { is_proved options.now source (ids foreign.now) ≡ false }
    ensures program { IfOk result (λ r. conforms Place.Program r.program ≡ true) }
    ensures made { IfOk result (λ r. IsMade options.now source (ids foreign.now) r.names.entries r.program) }
    ensures shaped { IfOk result (λ r. r.shapes.items ≡ shapes options.now source) }
    ensures declined { IfErr result (IsDeclined (IsNotYet options.now source (ids foreign.now))) }
{
    let judged = Judged { lowering: &Classes };
    match judged.lower(alloc, options, source, foreign) {
        Ok(lowered) => Ok(lowered),
        Err(error) => Err(error),
    }
}
