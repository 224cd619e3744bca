// The lowering as a transform of the walk (docs/WALK.md).

ghost use Rattle.std.specs.Prelude.{◌≡◌, ◌*◌, ◌<◌, ◌^◌, [], true, false, OnOk};
ghost use Rattle.std.specs.List.{list_all};
ghost use Rattle.es_base.specs.Preorder.{nodes};
ghost use Rattle.es_node.specs.View.{kind_of};
ghost use Rattle.es_walk.specs.Any.{Any};
ghost use Rattle.es_walk.specs.Changed.{changed};
ghost use Rattle.es_walk.specs.Idle.{NothingKept, open_keeps_none, close_keeps_none};
ghost use Rattle.es_walk.specs.Rewriting as rewriting;
ghost use Rattle.es_walk.specs.Rewriting.{Enters, Leaves};
ghost use Rattle.es_walk.specs.StateStays as keeping;
ghost use Rattle.es_walk.specs.StateStays.{StateStays};
ghost use Rattle.class_properties.specs.Form.{is_name, is_named_field, is_body_of_fields, is_class_of_fields};
ghost use Rattle.class_properties.specs.Transform as laws;
ghost use Rattle.class_properties.specs.Transform.{goes_into, lowered_node, stays, weight};

use crate::class::lower_class;
use es_base::kind::Kind;
use es_base::list::List;
use es_ctx::ctx::TraverseCtx;
use es_names::names::Names;
use es_names::spellings::Spellings;
use es_node::node::Node;
use es_scopes::scoping::Scoping;
use es_steps::options::CompilerAssumptions;
use es_tree::class::{ClassBodyRef, ClassDeclarationRef, PropertyDefinitionRef};
use es_uids::traverse_scoping::TraverseScoping;
use es_walk::program::{Lawful, walk_program};
use es_walk::walk::Traverse;
use std::alloc::{AllocError, Global};

/// Lowers each class of a program whose elements are all fields with a name. The walk goes into the program alone.
#[derive(Drop)]
struct ClassProperties {
    alloc: Global,
}

impl Traverse for ClassProperties {
    ghost enters = { Enters goes_into lowered_node };

    ghost leaves = { Leaves stays };

    ghost weight = { weight };

    ghost spare = { λ s. 0 };

    ghost ready = { NothingKept };

    ghost enter_ready = { rewriting.enter_ready goes_into lowered_node stays };

    ghost leave_ready = { rewriting.leave_ready goes_into lowered_node stays };

    ghost open_ready = { open_keeps_none };

    ghost close_ready = { close_keeps_none };

    ghost weighs_something = { laws.weighs_something };

    ghost enter_pays = { laws.enter_pays };

    ghost leave_pays = { laws.leave_pays };

    ghost enter_keeps_place = { rewriting.enter_keeps_place goes_into lowered_node stays };

    ghost leave_keeps_place = { rewriting.leave_keeps_place goes_into lowered_node stays };

    fn enter(&mut self, node: &mut Node, _ctx: &mut TraverseCtx) -> Result<bool, AllocError> {
        if is_program(node) {
            return Ok(true);
        }
        lower_node(self.alloc, node)?;
        Ok(false)
    }

    fn exit(&mut self, _node: &mut Node, _ctx: &mut TraverseCtx) -> Result<(), AllocError> {
        Ok(())
    }
}

/// The transform stays, and of the context the scope table, the names and the warnings. What becomes of the tree is said of all of
/// it at once (`lower_classes`), and not of each node, since a class that is no statement of the program stays.
impl Lawful for ClassProperties {
    ghost settled = { λ transform. Any };

    ghost kept = { λ begin program s t around rest. StateStays begin s };

    ghost enter_steady = { λ goes s e t u h v x. x };

    ghost leave_steady = { λ s e t u h v x. x };

    ghost enter_settles = { keeping.enter_settles goes_into lowered_node stays Any };

    ghost pass_settles = { laws.pass_settles };

    ghost leave_settles = { laws.leave_settles };

    ghost enter_keeps = { keeping.enter_keeps goes_into lowered_node stays true };

    ghost pass_keeps = { keeping.enter_keeps goes_into lowered_node stays false };

    ghost leave_keeps = { keeping.leave_keeps goes_into lowered_node stays };

    ghost open_keeps = { keeping.open_keeps };

    ghost close_keeps = { keeping.close_keeps };
}

/// Lowers the classes of a program whose elements are all fields with a name. Fails on allocation failure alone; then nothing
/// is said of the program.
#[tactic(auto, using(es_walk::specs::StateStays::begins))]
pub fn lower_classes(alloc: Global, program: &mut Node) -> Result<(), AllocError>
    requires { 14 * nodes program.old < 2 ^ 32 }
    ensures { OnOk result (program.new ≡ changed goes_into lowered_node stays program.old) }
{
    let mut transform = ClassProperties { alloc };
    let mut ctx = root_ctx(alloc, program.nodes());
    walk_program(&mut transform, program, &mut ctx)?;
    Ok(())
}

/// A context at the root, with no scopes and no names: this lowering reads none.
fn root_ctx(alloc: Global, next: u32) -> TraverseCtx
    ensures next { result.next ≡ next }
    ensures path { result.path ≡ [] }
    ensures lists { result.lists ≡ [] }
    ensures table { result.scoping.scoping ≡ record { scopes = []; symbols = []; references = [] } }
{
    let names = Names::new(alloc, Spellings::new(alloc));
    TraverseCtx {
        alloc,
        next,
        path: List::new(alloc),
        lists: List::new(alloc),
        scoping: TraverseScoping::new(alloc, Scoping::new(alloc), names),
        assumptions: CompilerAssumptions::default(),
        diagnostics: List::new(alloc),
    }
}

/// Lowers the node, if it is a class whose elements are all fields with a name.
#[tactic(auto, using(crate::proofs::Tests::class_of_fields))]
fn lower_node(alloc: Global, node: &mut Node) -> Result<(), AllocError>
    ensures { OnOk result (node.new ≡ lowered_node node.old) }
{
    if is_class_of_fields(node) {
        *node = lower_class(alloc, node.take())?;
    }
    Ok(())
}

#[tactic(auto, using(crate::proofs::Tests::no_program))]
fn is_program(node: &Node) -> bool
    ensures { result ≡ goes_into node.now }
{
    matches!(node.kind(), Kind::Program)
}

/// Whether the node is a class whose elements are all fields with a name.
#[tactic(auto, using(crate::proofs::Tests::no_class_of_fields))]
fn is_class_of_fields(node: &Node) -> bool
    ensures { result ≡ is_class_of_fields node.now }
{
    match node.kind() {
        Kind::ClassDeclaration => is_body_of_fields(ClassDeclarationRef::from_node(node).body),
        _ => false,
    }
}

#[tactic(auto, using(crate::proofs::Children::children_of, crate::proofs::Tests::no_body_of_fields))]
fn is_body_of_fields(body: &Node) -> bool
    ensures { result ≡ is_body_of_fields body.now }
{
    match body.kind() {
        Kind::ClassBody => are_named_fields(ClassBodyRef::from_node(body).body),
        _ => false,
    }
}

fn are_named_fields(elements: &[Node]) -> bool
    ensures { result ≡ list_all is_named_field elements.now }
{
    for element in elements {
        if !is_named_field(element) {
            return false;
        }
    }
    true
}

#[tactic(auto, using(crate::proofs::Tests::no_named_field))]
fn is_named_field(element: &Node) -> bool
    ensures { result ≡ is_named_field element.now }
{
    match element.kind() {
        Kind::PropertyDefinition => is_name(PropertyDefinitionRef::from_node(element).key),
        _ => false,
    }
}

#[tactic(auto, using(crate::proofs::Tests::no_name))]
fn is_name(key: &Node) -> bool
    ensures { result ≡ is_name (kind_of key.now) }
{
    matches!(key.kind(), Kind::IdentifierName)
}
