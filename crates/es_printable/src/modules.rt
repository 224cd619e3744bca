// Declarations, imports and exports (ECMA-262, 14.3, 15.2, 15.7, 16.2).

ghost use Rattle.std.specs.Prelude.{◌≡◌, ◌&&◌};
ghost use Rattle.es_base.specs.Tree.{child, end, more, trees};
ghost use Rattle.es_node.specs.View.{kind_of, part_of, parts_in, parts_of};
ghost use Rattle.es_steps.specs.Parts.{at};
ghost use Rattle.es_steps.specs.Printable as spec;
ghost use Rattle.es_steps.specs.Printable.{are_behind_default, are_specifiers, has_string_name, is_bad_form, is_literal_part, only_named};
ghost use Rattle.es_printable.specs.Members.{is_declaration_form, is_named};

use es_base::kind::Kind;
use es_binding_faults::hoisted::part_at;
use es_node::node::{Node, Part};
use es_tree::class::ClassDeclarationRef;
use es_tree::function::FunctionDeclarationRef;
use es_tree::module::{ExportNamedDeclarationRef, ImportDeclarationRef};
use es_tree::statement::VariableDeclarationRef;

/// Whether the node is a declaration, an import or an export that cannot be written; those of functions and classes have
/// names.
#[tactic(auto, using(crate::proofs::NodeForms::none_declared, crate::proofs::NodeForms::none_listed, crate::proofs::NodeForms::no_declaration_form))]
pub fn is_bad_declaration(node: &Node) -> bool
    ensures { result ≡ (is_declaration_form (kind_of node.now) && is_bad_form (kind_of node.now) (parts_in node.now)) }
{
    match node.kind() {
        // var a;
        Kind::VariableDeclaration => {
            VariableDeclarationRef::from_node(node)
                .declarations
                .is_empty()
        }
        // export { a } from 'm';
        Kind::ExportNamedDeclaration => {
            let export = ExportNamedDeclarationRef::from_node(node);
            (export.declaration.is_some()
                && (export.source.is_some() || 1 <= export.specifiers.len()))
                || (export.source.is_none() && has_string_name(export.specifiers))
        }
        // import a from 'm';
        Kind::ImportDeclaration => {
            !are_specifiers(ImportDeclarationRef::from_node(node).specifiers)
        }
        _ => false,
    }
}

/// Whether the node is the declaration of a function or class without a name.
#[tactic(auto, using(crate::proofs::NodeForms::no_named_declaration))]
pub fn is_declaration_without_name(node: &Node) -> bool
    ensures { result ≡ spec.is_declaration_without_name (kind_of node.now) (parts_in node.now) }
{
    match node.kind() {
        Kind::FunctionDeclaration => FunctionDeclarationRef::from_node(node).id.is_none(),
        Kind::ClassDeclaration => ClassDeclarationRef::from_node(node).id.is_none(),
        _ => false,
    }
}

// ---- specifiers

/// Whether these are at most one default, first, and then one namespace or names alone: `import a, * as b from 'm'`.
fn are_specifiers(specifiers: &[Node]) -> bool
    ensures { result ≡ are_specifiers (trees specifiers.now) }
{
    match specifiers {
        [first, rest @ ..] => are_specifiers_from(first, rest, specifiers),
        [] => true,
    }
}

/// The same of a first specifier, the rest, and all of them.
#[tactic(auto, using(crate::proofs::NodeForms::default_first, crate::proofs::NodeForms::no_default_first))]
fn are_specifiers_from(first: &Node, rest: &[Node], all: &[Node]) -> bool
    requires { trees all.now ≡ more (child first.now) (trees rest.now) }
    ensures { result ≡ are_specifiers (trees all.now) }
{
    match first.kind() {
        Kind::ImportDefaultSpecifier => are_behind_default(rest),
        _ => are_behind_default(all),
    }
}

#[tactic(auto, using(crate::proofs::NodeForms::not_one))]
fn are_behind_default(specifiers: &[Node]) -> bool
    ensures { result ≡ are_behind_default (trees specifiers.now) }
{
    match specifiers {
        [only] => is_named_or_namespace(only),
        _ => only_named(specifiers),
    }
}

#[tactic(auto, using(crate::proofs::NodeForms::one_specifier))]
fn is_named_or_namespace(specifier: &Node) -> bool
    ensures { result ≡ are_behind_default (more (child specifier.now) end) }
{
    matches!(
        specifier.kind(),
        Kind::ImportNamespaceSpecifier | Kind::ImportSpecifier
    )
}

/// Whether all of these are names: `import { a, b } from 'm'`.
#[tactic(auto, using(crate::proofs::NodeForms::named_more))]
fn only_named(specifiers: &[Node]) -> bool
    ensures { result ≡ only_named (trees specifiers.now) }
{
    for specifier in specifiers {
        if !is_named(specifier.kind()) {
            return false;
        }
    }
    true
}

fn is_named(kind: Kind) -> bool
    ensures { result ≡ is_named kind }
{
    matches!(kind, Kind::ImportSpecifier)
}

// ---- exported names

/// Whether one of these exports what a string names: `export { 'a' as b }` (16.2.3.1).
#[tactic(auto, using(crate::proofs::NodeForms::string_name_more))]
fn has_string_name(specifiers: &[Node]) -> bool
    ensures { result ≡ has_string_name (trees specifiers.now) }
{
    for specifier in specifiers {
        if is_literal_at(specifier.parts(), 0) {
            return true;
        }
    }
    false
}

fn is_literal_at(parts: &[Part], i: usize) -> bool
    ensures { result ≡ is_literal_part (at i (parts_of parts.now)) }
{
    match part_at(parts, i) {
        Some(part) => is_literal_part(part),
        None => false,
    }
}

fn is_literal_part(part: &Part) -> bool
    ensures { result ≡ is_literal_part (part_of part.now) }
{
    match part {
        Part::Child(node) => is_literal(node),
        _ => false,
    }
}

#[tactic(auto, using(crate::proofs::NodeForms::literal_node, crate::proofs::NodeForms::no_literal_node))]
fn is_literal(node: &Node) -> bool
    ensures { result ≡ is_literal_part (child node.now) }
{
    match node.kind() {
        Kind::Literal => true,
        _ => false,
    }
}
