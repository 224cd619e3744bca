// The product's own lowering: a program of the first form, where fields are defined, and one with nothing to lower.

ghost use Rattle.std.specs.Prelude.{◌≡◌, ◌<◌, ◌^◌, IfErr, IfOk, option_map, true};
ghost use Rattle.es_base.specs.Conforms.{conforms};
ghost use Rattle.es_base.specs.Preorder.{nodes, numbered_from};
ghost use Rattle.es_base.specs.declared.table.Place.{Place};
ghost use Rattle.es_reading.specs.Told.{ids};
ghost use Rattle.es_steps.specs.Shapes.{shapes};
ghost use Rattle.lower_run.specs.FirstForm.{IsMade, IsNotYet, not_yet_lowered};
ghost use Rattle.lower_run.specs.Lowering.{IsDeclined};

use crate::lowering::{Lowered, Lowers, no_names, unchanged};
use class_properties::not_yet::not_yet;
use class_properties::{defines_fields, lower};
use es_base::ids::NodeId;
use es_left::left::{first_left, nothing_left};
use es_lowering::lowering::Unlowered;
use es_node::node::Node;
use es_steps::options::Options;
use std::alloc::{AllocError, Global};

/// The lowering of the first form.
#[derive(Clone, Copy)]
pub struct FirstForm;

impl Lowers for FirstForm {
    ghost use Rattle.lower_run.specs.FirstForm.{IsMade, IsNotYet};

    ghost makes = { IsMade };

    ghost declines = { IsNotYet };

    fn lower(
        &self,
        alloc: Global,
        options: &Options,
        source: Node,
        foreign: &[NodeId],
    ) -> Result<Lowered, Unlowered> {
        lower_first_form(alloc, options, source, foreign)
    }
}

/// What a program is lowered to, if it has nothing to lower or is of the first form where fields are defined.
fn lower_first_form(
    alloc: Global,
    options: &Options,
    source: Node,
    foreign: &[NodeId],
) -> Result<Lowered, Unlowered>
    requires conforms { conforms Place.Program source ≡ true }
    requires preorder { source ≡ numbered_from 0 source }
    requires few { nodes source < 2 ^ 32 }
    ensures program { IfOk result (λ r. conforms Place.Program r.program ≡ true) }
    ensures made { IfOk result (λ r. IsMade options.now source (ids foreign.now) r.names.entries r.program) }
    ensures shaped { IfOk result (λ r. r.shapes.items ≡ shapes options.now source) }
    ensures declined { IfErr result (IsDeclined (IsNotYet options.now source (ids foreign.now))) }
{
    if nothing_left(&source, options) {
        return Ok(unchanged(alloc, options, source)?);
    }
    match not_yet_lowered(alloc, &source, foreign, options)? {
        Some(node) => Err(Unlowered::NotYet { node }),
        None => Ok(Lowered {
            program: lower(alloc, source)?,
            names: no_names(alloc),
            shapes: Vec::new(alloc),
        }),
    }
}

/// The node that says why a valid program with something to lower is not lowered yet: the least that is not
/// as the first form asks, where fields are defined, and else the first that is to be lowered.
pub fn not_yet_lowered(
    alloc: Global,
    program: &Node,
    foreign: &[NodeId],
    options: &Options,
) -> Result<Option<NodeId>, AllocError>
    requires { conforms Place.Program program.now ≡ true }
    ensures { IfOk result (λ n. option_map (λ n. n.0) n ≡ not_yet_lowered options.now program.now (ids foreign.now)) }
{
    if defines_fields(options) {
        not_yet(alloc, program, foreign)
    } else {
        Ok(first_left(program, options))
    }
}
