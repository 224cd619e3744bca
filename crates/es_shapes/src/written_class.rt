// Whether the name of a lowered class is written.

ghost use Rattle.std.specs.Prelude.{◌≡◌, ◌&&◌, option_map};
ghost use Rattle.es_base.specs.Preorder.{preorder};
ghost use Rattle.es_base.specs.Tree.{nullable};
ghost use Rattle.es_steps.specs.References.{resolve};
ghost use Rattle.es_steps.specs.Quiet.{id_number};
ghost use Rattle.es_steps.specs.Shapes.{lowered_classes, writes_any, has_shape_6};
ghost use Rattle.es_shapes.specs.Classes.{class_view, is_lowered, is_lowered_with};
ghost use Rattle.es_shapes.specs.Names.{is_written_class, is_written_let, is_written_at};

use crate::asked::{lowers_blocks, lowers_fields};
use crate::class::{ClassRef, class_of, elements_of};
use crate::element::element_kinds;
use crate::facts::NameFacts;
use crate::name_scope::is_suspended_scope;
use crate::walk::{NodeTest, any_node};
use es_node::node::Node;
use es_steps::options::Options;

/// Whether the name of a lowered class is written anywhere, or that of a class declaration that becomes a
/// `let` where static blocks alone are lowered: shape S6.
#[tactic(auto, using(crate::proofs::Written::shape_6))]
pub fn has_written_class<F: NameFacts>(program: &Node, options: &Options, facts: &F) -> bool
    requires { F.program facts.now ≡ program.now }
    ensures { result ≡ has_shape_6 options.now program.now (lowered_classes options.now (preorder program.now)) }
{
    let class = IsWrittenClass { options, facts };
    let declaration = IsWrittenLet { options, facts };
    any_node(&class, program) || any_node(&declaration, program)
}

/// Whether the node is a lowered class whose name is written.
#[derive(Drop)]
struct IsWrittenClass<'a, F> {
    options: &'a Options,
    facts: &'a F,
}

impl<'a, F: NameFacts> NodeTest for IsWrittenClass<'a, F> {
    ghost passes = { λ k t. is_lowered_with k.options.now (is_written_class (resolve (F.program k.facts.now))) t };

    fn passes(&self, node: &Node) -> bool
        ensures { result ≡ is_lowered_with self.now.options.now (is_written_class (resolve (F.program self.now.facts.now))) node.now }
    {
        // class C { x = 1; } C = 0;
        match class_of(node) {
            Some(class) => is_written_class(self.options, self.facts, class),
            None => false,
        }
    }
}

fn is_written_class<F: NameFacts>(options: &Options, facts: &F, class: ClassRef) -> bool
    ensures { result ≡ (is_lowered options.now (class_view class.entry) && is_written_class (resolve (F.program facts.now)) (class_view class.entry)) }
{
    element_kinds(options, elements_of(class.body)).has_lowered && is_written_name(facts, class.id)
}

/// Whether the name is written.
#[tactic(auto, using(crate::proofs::Written::writes_none, crate::proofs::Written::writes_one, crate::proofs::Written::number_of_id))]
fn is_written_name<F: NameFacts>(facts: &F, id: Option<&Node>) -> bool
    ensures { result ≡ writes_any (id_number (nullable (option_map (λ x. x.now) id.entry))) (resolve (F.program facts.now)) }
{
    match id {
        Some(id) => facts.is_assigned(id.node_id()),
        None => false,
    }
}

/// Whether the node is a class declaration that becomes a `let` where static blocks alone are lowered, and
/// whose name is written.
#[derive(Drop)]
struct IsWrittenLet<'a, F> {
    options: &'a Options,
    facts: &'a F,
}

impl<'a, F: NameFacts> NodeTest for IsWrittenLet<'a, F> {
    ghost passes = { λ k t. is_written_let k.options.now (resolve (F.program k.facts.now)) t };

    #[tactic(auto, using(crate::proofs::Written::let_node))]
    fn passes(&self, node: &Node) -> bool
        ensures { result ≡ is_written_let self.now.options.now (resolve (F.program self.now.facts.now)) node.now }
    {
        // class C { [await k] = class { static {} }; } C = 0;
        !lowers_fields(self.options)
            && lowers_blocks(self.options)
            && is_suspended_scope(node)
            && is_written_declaration(self.facts, node)
    }
}

/// Whether the node is a class whose name is written.
fn is_written_declaration<F: NameFacts>(facts: &F, node: &Node) -> bool
    ensures { result ≡ is_written_at (resolve (F.program facts.now)) node.now }
{
    match class_of(node) {
        Some(class) => is_written_name(facts, class.id),
        None => false,
    }
}
