// Nodes that can be printed.

ghost use Rattle.std.specs.Prelude.{◌≡◌};
ghost use Rattle.es_node.specs.View.{kind_of, parts_in};
ghost use Rattle.es_steps.specs.Printable as spec;

use crate::chains::has_stray_optional;
use crate::declarations::has_bare_declaration;
use crate::directives::{has_bad_prologue, is_bad_directive};
use crate::forms::is_bad_form;
use crate::modules::is_declaration_without_name;
use crate::names::{is_bad_label, is_bad_name};
use crate::templates::{has_uncooked, is_bad_literal, is_bad_template};
use es_base::kind::Kind;
use es_node::node::Node;

/// Whether the node cannot be printed where it stands: as a default export or not, in the body of a module or not.
pub fn is_bad_in(in_default: bool, in_module: bool, node: &Node) -> bool
    ensures { result ≡ spec.is_bad_in in_default in_module (kind_of node.now) (parts_in node.now) }
{
    is_bad_node(node)
        || ((is_declaration_without_name(node) && !in_default)
            || (is_module_item(node.kind()) && !in_module))
}

/// Whether the node cannot be printed anywhere.
fn is_bad_node(node: &Node) -> bool
    ensures { result ≡ spec.is_bad_node (kind_of node.now) (parts_in node.now) }
{
    (is_bad_name(node) || is_bad_label(node))
        || ((is_bad_literal(node) || is_bad_template(node))
            || ((is_bad_directive(node) || has_bad_prologue(node))
                || (is_bad_form(node)
                    || (has_stray_optional(node)
                        || (has_uncooked(node) || has_bare_declaration(node))))))
}

/// Whether a node of this kind is an import or export.
fn is_module_item(kind: Kind) -> bool
    ensures { result ≡ spec.is_module_item kind }
{
    matches!(
        kind,
        Kind::ImportDeclaration
            | Kind::ExportNamedDeclaration
            | Kind::ExportDefaultDeclaration
            | Kind::ExportAllDeclaration
    )
}
