// Whether a name that changes without a write is a computed key that is read at another time.

ghost use Rattle.std.specs.Prelude.{◌≡◌, ◌&&◌, option_map};
ghost use Rattle.es_base.specs.Preorder.{preorder};
ghost use Rattle.es_base.specs.Tree.{child, nullable, trees};
ghost use Rattle.es_steps.specs.LoweredClasses.{any_element, element_of, elements_in};
ghost use Rattle.es_steps.specs.References.{resolve, written, changed_otherwise};
ghost use Rattle.es_steps.specs.Shapes.{any_class, lowered_classes, is_written_name, is_changing_key, has_changing_key};
ghost use Rattle.es_shapes.specs.Classes.{class_view, is_lowered, is_lowered_with};

use crate::class::{ClassRef, class_of, elements_of};
use crate::element::{element_kinds, element_of};
use crate::facts::NameFacts;
use crate::heritage::moves_before_heritage;
use crate::walk::{NodeTest, any_node};
use es_base::kind::Kind;
use es_node::node::Node;
use es_steps::options::Options;

/// Whether a lowered class has a name that changes without a write as a computed key of a field, or as one that stays behind
/// keys or static blocks that are evaluated before.
pub fn has_changing_key<F: NameFacts>(program: &Node, options: &Options, facts: &F) -> bool
    requires { F.program facts.now ≡ program.now }
    ensures { result ≡ any_class (has_changing_key options.now (written program.now) (changed_otherwise program.now) (resolve program.now)) (lowered_classes options.now (preorder program.now)) }
{
    let test = HasImportedKey { options, facts };
    any_node(&test, program)
}

/// Whether the node is a lowered class with such a key.
#[derive(Drop)]
struct HasImportedKey<'a, F> {
    options: &'a Options,
    facts: &'a F,
}

impl<'a, F: NameFacts> NodeTest for HasImportedKey<'a, F> {
    ghost passes = { λ k t. is_lowered_with k.options.now (has_changing_key k.options.now (written (F.program k.facts.now)) (changed_otherwise (F.program k.facts.now)) (resolve (F.program k.facts.now))) t };

    fn passes(&self, node: &Node) -> bool
        ensures { result ≡ is_lowered_with self.now.options.now (has_changing_key self.now.options.now (written (F.program self.now.facts.now)) (changed_otherwise (F.program self.now.facts.now)) (resolve (F.program self.now.facts.now))) node.now }
    {
        // import { k } from "m"; class A { [k] = 1; }
        match class_of(node) {
            Some(class) => is_changing_in(self.options, self.facts, class),
            None => false,
        }
    }
}

fn is_changing_in<F: NameFacts>(options: &Options, facts: &F, class: ClassRef) -> bool
    ensures { result ≡ (is_lowered options.now (class_view class.entry) && has_changing_key options.now (written (F.program facts.now)) (changed_otherwise (F.program facts.now)) (resolve (F.program facts.now)) (class_view class.entry)) }
{
    let elements = elements_of(class.body);
    element_kinds(options, elements).has_lowered
        && any_changing_key(
            facts,
            moves_before_heritage(options, facts, class),
            elements,
        )
}

/// Whether an element has such a key, where something is evaluated before the class or not.
#[tactic(auto, using(crate::proofs::NameScopes::any_first))]
fn any_changing_key<F: NameFacts>(facts: &F, is_behind: bool, elements: &[Node]) -> bool
    ensures { result ≡ any_element (is_changing_key is_behind (changed_otherwise (F.program facts.now)) (resolve (F.program facts.now))) (elements_in (trees elements.now)) }
{
    for element in elements {
        if is_changing_key(facts, is_behind, element) {
            return true;
        }
    }
    false
}

fn is_changing_key<F: NameFacts>(facts: &F, is_behind: bool, element: &Node) -> bool
    ensures { result ≡ any_element (is_changing_key is_behind (changed_otherwise (F.program facts.now)) (resolve (F.program facts.now))) (element_of (child element.now)) }
{
    match element_of(element) {
        Some(element) => {
            element.computed
                && is_changing_name(facts, element.key)
                && (element.is_field || is_behind)
        }
        None => false,
    }
}

/// Whether the key is a name that is imported.
#[tactic(auto, using(crate::proofs::Twice::no_name, crate::proofs::Twice::written_name))]
fn is_changing_name<F: NameFacts>(facts: &F, key: Option<&Node>) -> bool
    ensures { result ≡ is_written_name (changed_otherwise (F.program facts.now)) (resolve (F.program facts.now)) (nullable (option_map (λ x. x.now) key.entry)) }
{
    let Some(key) = key else { return false };
    match key.kind() {
        Kind::IdentifierReference => match facts.binding_of(key.node_id()) {
            Some(binding) => facts.changes_otherwise(binding),
            None => false,
        },
        _ => false,
    }
}
