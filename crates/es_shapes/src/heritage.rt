// What moves before the heritage of a class.

ghost use Rattle.std.specs.Prelude.{◌≡◌, ℕ, List, option_map};
ghost use Rattle.es_base.specs.Tree.{child, nullable, trees};
ghost use Rattle.es_base.specs.declared.kind.Kind.{Kind};
ghost use Rattle.es_node.specs.View.{kind_of};
ghost use Rattle.es_steps.specs.LoweredClasses.{any_element, element_of, elements_in, needs_temporary, is_hoisted_key};
ghost use Rattle.es_steps.specs.References.{Reference, resolve, written};
ghost use Rattle.es_steps.specs.Shapes.{moves_before_heritage};
ghost use Rattle.es_shapes.specs.Classes.{class_view};

use crate::asked::lowers_blocks;
use crate::class::{ClassRef, elements_of};
use crate::element::{element_kinds, element_of};
use crate::facts::NameFacts;
use crate::quiet::is_regular_expression;
use es_base::kind::Kind;
use es_node::node::Node;
use es_steps::options::Options;
use es_tree::expression::TemplateLiteralRef;

/// Whether a key of the class moves before its heritage, or its static blocks do.
pub fn moves_before_heritage<F: NameFacts>(options: &Options, facts: &F, class: ClassRef) -> bool
    ensures { result ≡ moves_before_heritage options.now (written (F.program facts.now)) (resolve (F.program facts.now)) (class_view class.entry) }
{
    let elements = elements_of(class.body);
    let kinds = element_kinds(options, elements);
    any_hoisted_key(facts, elements)
        || (class.is_expression
            && lowers_blocks(options)
            && kinds.has_block
            && !kinds.has_static_field)
}

/// Whether a computed key among these needs a temporary.
#[tactic(auto, using(crate::proofs::NameScopes::any_first))]
pub fn any_hoisted_key<F: NameFacts>(facts: &F, elements: &[Node]) -> bool
    ensures { result ≡ any_element (is_hoisted_key (written (F.program facts.now)) (resolve (F.program facts.now))) (elements_in (trees elements.now)) }
{
    for element in elements {
        if is_hoisted_key(facts, element) {
            return true;
        }
    }
    false
}

fn is_hoisted_key<F: NameFacts>(facts: &F, element: &Node) -> bool
    ensures { result ≡ any_element (is_hoisted_key (written (F.program facts.now)) (resolve (F.program facts.now))) (element_of (child element.now)) }
{
    match element_of(element) {
        Some(element) => element.computed && needs_temporary(facts, element.key),
        None => false,
    }
}

/// Whether the key is evaluated once and kept: all but literals, templates without expressions and bound
/// names that are not written (oxc's `key_needs_temp_var`). A regular expression, which is an object that is made, is kept.
#[tactic(auto, using(crate::proofs::Heritages::literal_needs, crate::proofs::Heritages::name_needs, crate::proofs::Heritages::other_needs))]
pub fn needs_temporary<F: NameFacts>(facts: &F, key: Option<&Node>) -> bool
    ensures { result ≡ needs_temporary (written (F.program facts.now)) (resolve (F.program facts.now)) (nullable (option_map (λ x. x.now) key.entry)) }
{
    let Some(key) = key else { return true };
    match key.kind() {
        Kind::Literal => is_regular_expression(key),
        Kind::TemplateLiteral => has_expressions(key),
        Kind::IdentifierReference => match facts.binding_of(key.node_id()) {
            Some(binding) => facts.is_written(binding),
            None => true,
        },
        _ => true,
    }
}

/// Whether a template has expressions, and so needs a temporary as a key.
fn has_expressions(template: &Node) -> bool
    requires { kind_of template.now ≡ Kind.TemplateLiteral }
    ensures { (written : List ℕ) (references : List Reference) → result ≡ needs_temporary written references (child template.now) }
{
    !TemplateLiteralRef::from_node(template)
        .expressions
        .is_empty()
}
