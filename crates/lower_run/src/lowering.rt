// What a lowering is: of valid programs it makes lowered ones, or tells which node is in the way.

ghost use Rattle.std.specs.Prelude.{◌≡◌, ◌<◌, ◌^◌, List, ℕ, IfErr, IfOk, [], true};
ghost use Rattle.es_base.specs.Conforms.{conforms};
ghost use Rattle.es_base.specs.Preorder.{nodes, numbered_from};
ghost use Rattle.es_base.specs.Tree.{Tree};
ghost use Rattle.es_base.specs.declared.ledger.LedgerEntry.{LedgerEntry};
ghost use Rattle.es_base.specs.declared.table.Place.{Place};
ghost use Rattle.es_reading.specs.Told.{ids};
ghost use Rattle.es_steps.specs.LoweredClasses.{nothing_left};
ghost use Rattle.es_steps.specs.Shapes.{shapes};
ghost use Rattle.es_steps.specs.declared.options.Options.{Options};
ghost use Rattle.es_validity.specs.Validity.{is_valid};
ghost use Rattle.lower_run.specs.Lowering.{IsDeclined};
ghost use Rattle.es_lowering.specs.declared.lowering.Unlowered.{Unlowered};

use es_base::ids::NodeId;
use es_base::ledger::Ledger;
use es_base::list::List;
use es_base::shape::Shape;
use es_lowering::lowering::Unlowered;
use es_node::node::Node;
use es_outside::outside::outside_shapes;
use es_steps::options::Options;
use std::alloc::{AllocError, Global};

/// What a program is lowered to.
#[derive(Drop)]
pub struct Lowered {
    pub program: Node,
    /// The generated names of the lowered program.
    pub names: Ledger,
    /// The shapes of the source.
    pub shapes: Vec<Shape>,
}

/// A lowering whose lowered programs are written as they are.
pub trait Lowers {
    /// What it makes of a valid program under options.
    ghost makes: { Options → Tree → List ℕ → List LedgerEntry → Tree → Type 0 };

    /// Why it makes nothing of one.
    ghost declines: { Options → Tree → List ℕ → Unlowered → Type 0 };

    /// What a valid program is lowered to under the options; `foreign` has the numbers of its nodes that have members outside
    /// the table. Fails on allocation failure, and where it lowers no such program yet.
    fn lower(
        &self,
        alloc: Global,
        options: &Options,
        source: Node,
        foreign: &[NodeId],
    ) -> Result<Lowered, Unlowered>
        requires conforms { conforms Place.Program source ≡ true }
        requires preorder { source ≡ numbered_from 0 source }
        requires few { nodes source < 2 ^ 32 }
        requires valid { is_valid options.now (ids foreign.now) source ≡ true }
        ensures program { IfOk result (λ r. conforms Place.Program r.program ≡ true) }
        ensures made { IfOk result (λ r. makes options.now source (ids foreign.now) r.names.entries r.program) }
        ensures shaped { IfOk result (λ r. r.shapes.items ≡ shapes options.now source) }
        ensures declined { IfErr result (IsDeclined (declines options.now source (ids foreign.now))) };
}

/// No generated name.
pub fn no_names(alloc: Global) -> Ledger
    ensures { result.entries ≡ [] }
{
    Ledger {
        entries: List::new(alloc),
    }
}

/// A program with nothing to lower, as it is. Fails on allocation failure alone.
pub fn unchanged(alloc: Global, options: &Options, source: Node) -> Result<Lowered, AllocError>
    requires conforms { conforms Place.Program source ≡ true }
    requires unchanged { nothing_left options.now source ≡ true }
    ensures program { IfOk result (λ r. r.program ≡ source) }
    ensures unnamed { IfOk result (λ r. r.names.entries ≡ []) }
    ensures shaped { IfOk result (λ r. r.shapes.items ≡ shapes options.now source) }
{
    let shapes = shapes_of_unchanged(alloc, &source, options)?;
    Ok(Lowered {
        program: source,
        names: no_names(alloc),
        shapes,
    })
}

/// The shapes of a program with nothing to lower, which has none where static blocks stay as well.
#[tactic(auto, using(es_left::proofs::Shapeless::no_shapes))]
fn shapes_of_unchanged(
    alloc: Global,
    program: &Node,
    options: &Options,
) -> Result<Vec<Shape>, AllocError>
    requires conforms { conforms Place.Program program.now ≡ true }
    requires unchanged { nothing_left options.now program.now ≡ true }
    ensures { IfOk result (λ s. s.items ≡ shapes options.now program.now) }
{
    if options.es2022.class_static_block {
        outside_shapes(alloc, program, options)
    } else {
        Ok(Vec::new(alloc))
    }
}
