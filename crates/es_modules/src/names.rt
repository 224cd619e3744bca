// Names of imports and exports. (ECMA-262, 16.2.)

ghost use Rattle.std.specs.Prelude.{◌≡◌, option_map};
ghost use Rattle.std.specs.Str.{chars};
ghost use Rattle.es_base.specs.Tree.{child, nullable};
ghost use Rattle.es_steps.specs.Modules as spec;

use es_base::kind::Kind;
use es_base::literal::LiteralValue;
use es_node::node::Node;
use es_seen_names::parts::string_at;
use es_tree::literal::LiteralRef;

/// The name that an identifier or a string spells.
#[tactic(auto, using(crate::proofs::NameNodes::string_name, crate::proofs::NameNodes::other_name))]
pub fn module_name(node: &Node) -> &str
    ensures { chars result.now ≡ spec.module_name (child node.now) }
{
    match node.kind() {
        // 'a'
        Kind::Literal => match LiteralRef::from_node(node).value {
            LiteralValue::String { value, .. } => value.as_str(),
            _ => string_at(node.parts(), 0),
        },
        _ => string_at(node.parts(), 0),
    }
}

/// The name that a node spells, if there is one.
#[tactic(auto, using(crate::proofs::NameNodes::child_name))]
pub fn nullable_name(node: Option<&Node>) -> Option<&str>
    ensures { option_map (λ s. chars s.now) result ≡ spec.nullable_name (nullable (option_map (λ n. n.now) node.entry)) }
{
    match node {
        Some(node) => Some(module_name(node)),
        None => None,
    }
}
