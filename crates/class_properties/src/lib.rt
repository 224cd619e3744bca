//! Class properties: lowers a program of the first form, a script of classes whose elements are fields, to
//! one whose classes define their fields in constructors, and tells which programs are of that form.
#![tactic(auto)]

ghost use Rattle.std.specs.Prelude.{◌≡◌, true, [], IfOk};
ghost use Rattle.es_base.specs.Conforms.{conforms};
ghost use Rattle.es_base.specs.declared.table.Place.{Place};
ghost use Rattle.es_steps.specs.FirstForm.{is_first_form};
ghost use Rattle.class_properties.specs.Lowering.{lowered};
ghost use Rattle.class_properties.specs.Options.{defines_fields};

use crate::transform::lower_classes;
use es_node::node::Node;
use es_steps::options::Options;
use std::alloc::{AllocError, Global};

mod class;
mod constructor;
pub mod not_yet;
mod prop_decl;
mod transform;

/// Whether these options ask that fields are defined: class properties are on, and fields are not set.
pub fn defines_fields(options: &Options) -> bool
    ensures { result ≡ defines_fields options.now }
{
    match options.es2022.class_properties {
        Some(fields) => !fields.loose && !options.assumptions.set_public_class_fields,
        None => false,
    }
}

/// What a program of the first form is lowered to where fields are defined. Its nodes are moved and keep their numbers; new nodes
/// have the numbers behind them, in preorder. Fails on allocation failure alone.
#[tactic(auto, using(crate::proofs::Small::form_small, crate::proofs::Small::form_light, crate::proofs::Small::lowered_small, crate::proofs::Changed::first_form_changed))]
pub fn lower(alloc: Global, mut program: Node) -> Result<Node, AllocError>
    requires program { conforms Place.Program program ≡ true }
    requires form { is_first_form program [] ≡ true }
    ensures lowered { IfOk result (λ r. r ≡ lowered program) }
{
    let first = program.nodes();
    lower_classes(alloc, &mut program)?;
    program.renumber_from(first);
    Ok(program)
}
