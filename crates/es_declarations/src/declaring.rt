// The declaring identifiers of a program, each with what it declares.

ghost use Rattle.std.specs.Prelude.{◌≡◌, ◌++◌, IfOk, OnOk};
ghost use Rattle.es_base.specs.Tree.{end, nullable, nullable_trees, trees};
ghost use Rattle.es_base.specs.Words.{variable_declaration_kind_string};
ghost use Rattle.es_base.specs.declared.kind.Kind.{Kind};
ghost use Rattle.es_node.specs.View.{kind_of, number_in, part_of, parts_in, parts_of};
ghost use Rattle.es_steps.specs.Meaning as spec;
ghost use Rattle.es_steps.specs.Meaning.{declaring, declaring_items, declaring_part};
ghost use Rattle.es_steps.specs.Parts.{at, string_of};
ghost use Rattle.es_steps.specs.Scopes.{class_in};
ghost use Rattle.es_declarations.specs.Declaring.{declares_within, declaring_from};
ghost use Rattle.es_declarations.specs.Kinds.{bindings_in, kind_in};

use crate::kind::{Binding, DeclarationKind};
use es_base::kind::Kind;
use es_base::operator::VariableDeclarationKind;
use es_binding_faults::bound::is_binding_identifier;
use es_binding_faults::hoisted::part_at;
use es_by_number::numbered::Numbered;
use es_generated::numbers::is_new;
use es_node::node::{Node, Part};
use es_seen_names::class_in::class_in;
use es_seen_names::parts::string_at;
use es_tree::statement::VariableDeclarationRef;
use std::alloc::{AllocError, Global};

/// Adds the declaring identifiers of a tree, in preorder, where an identifier declares so. Nodes from the number `first` on are
/// new. Fails on allocation failure alone.
#[cycle(declaring)]
#[tactic(auto, using(es_node::proofs::Below::nodes_in))]
pub fn add_declaring(
    alloc: Global,
    first: u32,
    kind: DeclarationKind,
    node: &Node,
    found: &mut Vec<Numbered<Binding>>,
) -> Result<(), AllocError>
    ensures { OnOk result (bindings_in found.new.items ≡ bindings_in found.old.items ++ declaring first (kind_in kind) node.now) }
{
    if is_binding_identifier(node) {
        found.push(Numbered {
            number: node.node_id().0,
            value: Binding::named(string_at(node.parts(), 0), kind),
        })?;
        Ok(())
    } else {
        add_declaring_in(alloc, first, kind, node, node.parts(), found)
    }
}

/// The same of the parts of a node.
#[cycle(declaring)]
fn add_declaring_in(
    alloc: Global,
    first: u32,
    kind: DeclarationKind,
    node: &Node,
    parts: &[Part],
    found: &mut Vec<Numbered<Binding>>,
) -> Result<(), AllocError>
    ensures { OnOk result (bindings_in found.new.items ≡ bindings_in found.old.items ++ declaring_from first (declares_within first node.now (kind_in kind)) 0 (parts_of parts.now)) }
{
    for (i, part) in parts.iter().enumerate() {
        let inner = declares_at(alloc, first, node, kind, i)?;
        add_declaring_at(alloc, first, inner, part, found)?;
    }
    Ok(())
}

#[cycle(declaring)]
fn add_declaring_at(
    alloc: Global,
    first: u32,
    kind: DeclarationKind,
    part: &Part,
    found: &mut Vec<Numbered<Binding>>,
) -> Result<(), AllocError>
    ensures { OnOk result (bindings_in found.new.items ≡ bindings_in found.old.items ++ declaring_part first (kind_in kind) (part_of part.now)) }
{
    match part {
        Part::Child(node) => add_declaring(alloc, first, kind, node, found),
        Part::List(nodes) => add_declaring_of_list(alloc, first, kind, nodes.as_slice(), found),
        Part::Holes(nodes) => add_declaring_of_list_with_holes(
            alloc,
            first,
            kind,
            nodes.as_slice(),
            found,
        ),
        _ => Ok(()),
    }
}

#[cycle(declaring)]
fn add_declaring_of_list(
    alloc: Global,
    first: u32,
    kind: DeclarationKind,
    nodes: &[Node],
    found: &mut Vec<Numbered<Binding>>,
) -> Result<(), AllocError>
    ensures { OnOk result (bindings_in found.new.items ≡ bindings_in found.old.items ++ declaring_items first (kind_in kind) (trees nodes.now)) }
{
    for node in nodes {
        add_declaring(alloc, first, kind, node, found)?;
    }
    Ok(())
}

#[cycle(declaring)]
fn add_declaring_of_list_with_holes(
    alloc: Global,
    first: u32,
    kind: DeclarationKind,
    nodes: &[Option<Node>],
    found: &mut Vec<Numbered<Binding>>,
) -> Result<(), AllocError>
    ensures { OnOk result (bindings_in found.new.items ≡ bindings_in found.old.items ++ declaring_items first (kind_in kind) (nullable_trees nodes.now)) }
{
    for node in nodes {
        add_declaring_of_hole(alloc, first, kind, node, found)?;
    }
    Ok(())
}

#[cycle(declaring)]
fn add_declaring_of_hole(
    alloc: Global,
    first: u32,
    kind: DeclarationKind,
    node: &Option<Node>,
    found: &mut Vec<Numbered<Binding>>,
) -> Result<(), AllocError>
    ensures { OnOk result (bindings_in found.new.items ≡ bindings_in found.old.items ++ declaring_part first (kind_in kind) (nullable node.now)) }
{
    match node {
        Some(node) => add_declaring(alloc, first, kind, node, found),
        None => Ok(()),
    }
}

// ---- what the identifiers in a part declare

/// What the identifiers in the i-th part of a node declare. Fails on allocation failure alone.
#[tactic(auto, using(crate::proofs::Declarings::within_node, crate::proofs::Declarings::as_around))]
fn declares_at(
    alloc: Global,
    first: u32,
    node: &Node,
    kind: DeclarationKind,
    i: usize,
) -> Result<DeclarationKind, AllocError>
    ensures { IfOk result (λ k. kind_in k ≡ declares_within first node.now (kind_in kind) i) }
{
    match node.kind() {
        // let x;
        Kind::VariableDeclaration => Ok(DeclarationKind::Variable(variable_kind(node))),
        // x = class {}
        Kind::VariableDeclarator => {
            if i == 0 {
                declared_by(alloc, is_new(first, node.node_id().0), node.parts(), kind)
            } else {
                Ok(kind)
            }
        }
        // function f(x) {}
        Kind::FunctionDeclaration | Kind::FunctionExpression => Ok(of_function(i)),
        // x => x
        Kind::ArrowFunctionExpression => Ok(DeclarationKind::ParameterName),
        // catch (x) {}
        Kind::CatchClause => Ok(DeclarationKind::CaughtName),
        // import x from 'm';
        Kind::ImportDeclaration => Ok(DeclarationKind::ImportName),
        // class A {}
        Kind::ClassDeclaration | Kind::ClassExpression => Ok(DeclarationKind::Class),
        _ => Ok(kind),
    }
}

/// What the identifiers in the i-th part of a function declare.
fn of_function(i: usize) -> DeclarationKind
    ensures { kind_in result ≡ spec.declares_at 0 Kind.FunctionDeclaration 0 end spec.FunctionName i }
{
    if i == 0 {
        DeclarationKind::FunctionName
    } else {
        DeclarationKind::ParameterName
    }
}

/// The word of a variable declaration.
fn variable_kind(node: &Node) -> VariableDeclarationKind
    requires { kind_of node.now ≡ Kind.VariableDeclaration }
    ensures { variable_declaration_kind_string result ≡ string_of (at 0 (parts_in node.now)) }
{
    VariableDeclarationRef::from_node(node).kind
}

/// What a declarator, new or not, declares: a class, if it is new and one stands in its initializer. Fails on allocation failure
/// alone.
fn declared_by(
    alloc: Global,
    is_new: bool,
    parts: &[Part],
    kind: DeclarationKind,
) -> Result<DeclarationKind, AllocError>
    ensures { IfOk result (λ k. kind_in k ≡ spec.declarator_kind is_new (class_in (at 1 (parts_of parts.now))) (kind_in kind)) }
{
    if !is_new {
        return Ok(kind);
    }
    let class = match part_at(parts, 1) {
        Some(init) => class_in(alloc, init)?,
        None => None,
    };
    Ok(match class {
        Some(_) => DeclarationKind::Class,
        None => kind,
    })
}
