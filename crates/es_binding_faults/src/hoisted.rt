// The names that a statement declares for the scope around it.

ghost use Rattle.std.specs.Prelude.{◌≡◌, ◌++◌, OnOk, [], map, true, cond, option_map, MatchOption};
ghost use Rattle.es_base.specs.Table.{members_of};
ghost use Rattle.es_base.specs.Tree.{absent, trees, nullable, nullable_trees};
ghost use Rattle.es_base.specs.declared.kind.Kind.{Kind};
ghost use Rattle.es_node.specs.View.{part_of, parts_of, parts_in, kind_of, have_shapes};
ghost use Rattle.es_steps.specs.Parts.{at};
ghost use Rattle.es_steps.specs.Scopes as spec;
ghost use Rattle.es_steps.specs.Scopes.{no_class, bound_part, declarators_names, is_var};
ghost use Rattle.es_binding_faults.specs.Hoisted.{form_of, first_of_two, identifier_in, declarator, declarators, variables, own, descends, hoisted, hoisted_part, hoisted_items};
ghost use Rattle.es_binding_faults.specs.Named.{named, plain};
ghost use Rattle.es_binding_faults.specs.declared.hoisted.StatementForm.{StatementForm};

use crate::bound::{Declared, add_bound, add_bound_part, add_identifier, is_binding_identifier};
use es_base::kind::Kind;
use es_base::operator::VariableDeclarationKind;
use es_node::node::{Node, Part};
use std::alloc::AllocError;

/// Which names of a statement are asked for.
#[derive(Debug, Clone, Copy, PartialEq, Eq)]
pub enum Hoist {
    /// Those of its own, functions among them.
    Lexical,
    /// Those of `var`, out of nested statements too.
    Var,
}

/// How a statement declares.
#[derive(Debug, Clone, Copy, PartialEq, Eq)]
pub enum StatementForm {
    /// `var`, `let`, `const`.
    Variables,
    Function,
    Class,
    Imports,
    /// What declares for the list around it what its parts declare: a label, an export, a case, an `if`.
    PassesOn,
    /// A statement of other statements, from which `var` alone is hoisted.
    Nests,
    Other,
}

/// How statements of this kind declare.
pub fn statement_form(kind: Kind) -> StatementForm
    ensures { form_of result ≡ spec.statement_form kind }
{
    match kind {
        Kind::VariableDeclaration => StatementForm::Variables,
        Kind::FunctionDeclaration => StatementForm::Function,
        Kind::ClassDeclaration => StatementForm::Class,
        Kind::ImportDeclaration => StatementForm::Imports,
        Kind::LabeledStatement
        | Kind::ExportNamedDeclaration
        | Kind::ExportDefaultDeclaration
        | Kind::SwitchCase
        | Kind::IfStatement => StatementForm::PassesOn,
        Kind::BlockStatement
        | Kind::WithStatement
        | Kind::SwitchStatement
        | Kind::TryStatement
        | Kind::CatchClause
        | Kind::WhileStatement
        | Kind::DoWhileStatement
        | Kind::ForStatement
        | Kind::ForInStatement
        | Kind::ForOfStatement => StatementForm::Nests,
        _ => StatementForm::Other,
    }
}

/// The part at this place, if there is one.
#[tactic(auto, using(crate::proofs::Places::at_there, crate::proofs::Places::at_absent))]
pub fn part_at(parts: &[Part], i: usize) -> Option<&Part>
    ensures { MatchOption result (at i (parts_of parts.now) ≡ absent) (λ p. at i (parts_of parts.now) ≡ part_of p.now) }
{
    if i < parts.len() {
        Some(&parts[i])
    } else {
        None
    }
}

/// Adds the names that the part at this place binds. Fails on allocation failure alone.
pub fn add_bound_at<'a>(
    parts: &'a [Part],
    i: usize,
    names: &mut Vec<Declared<'a>>,
) -> Result<(), AllocError>
    ensures { OnOk result (named names.new.items ≡ named names.old.items ++ bound_part no_class (at i (parts_of parts.now))) }
{
    match part_at(parts, i) {
        Some(part) => add_bound_part(part, names),
        None => Ok(()),
    }
}

/// The first of two parts, if these are two.
#[tactic(auto, using(crate::proofs::Hoisting::two_parts, crate::proofs::Hoisting::not_two_parts))]
fn first_of_two(parts: &[Part]) -> Option<&Part>
    ensures { MatchOption result (first_of_two (parts_of parts.now) ≡ absent) (λ p. first_of_two (parts_of parts.now) ≡ part_of p.now) }
{
    if parts.len() == 2 {
        Some(&parts[0])
    } else {
        None
    }
}

/// The identifier that a part is, if it declares.
#[tactic(auto, using(crate::proofs::Hoisting::identifier_here, crate::proofs::Hoisting::no_identifier))]
fn identifier_in(part: &Part) -> Option<&Node>
    ensures { option_map (λ x. x.now) result ≡ identifier_in (part_of part.now) }
{
    match part {
        Part::Child(node) => {
            if is_binding_identifier(node) {
                Some(node)
            } else {
                None
            }
        }
        _ => None,
    }
}

/// The identifier of a declarator that declares no more.
pub fn declarator_identifier(parts: &[Part]) -> Option<&Node>
    ensures { option_map (λ x. x.now) result ≡ identifier_in (first_of_two (parts_of parts.now)) }
{
    match first_of_two(parts) {
        Some(part) => identifier_in(part),
        None => None,
    }
}

/// Adds the names of a declarator. Fails on allocation failure alone.
fn add_declarator<'a>(node: &'a Node, names: &mut Vec<Declared<'a>>) -> Result<(), AllocError>
    ensures { OnOk result (named names.new.items ≡ named names.old.items ++ declarator node.now) }
{
    match declarator_identifier(node.parts()) {
        Some(id) => add_identifier(id, names),
        None => add_bound(node, names),
    }
}

/// Adds the names of declarators. Fails on allocation failure alone.
fn add_declarators<'a>(nodes: &'a [Node], names: &mut Vec<Declared<'a>>) -> Result<(), AllocError>
    ensures { OnOk result (named names.new.items ≡ named names.old.items ++ declarators (trees nodes.now)) }
{
    for node in nodes {
        add_declarator(node, names)?;
    }
    Ok(())
}

/// Whether a variable declaration is one by `var`.
pub fn is_var(parts: &[Part]) -> bool
    requires { have_shapes (members_of Kind.VariableDeclaration) parts.now ≡ true }
    ensures { result ≡ is_var (parts_of parts.now) }
{
    match parts {
        [kind, _] => match kind.as_variable_declaration_kind() {
            VariableDeclarationKind::Var => true,
            VariableDeclarationKind::Let | VariableDeclarationKind::Const => false,
        },
        _ => unreachable!(),
    }
}

/// Adds the names of a variable declaration. Fails on allocation failure alone.
fn add_variables<'a>(
    hoist: Hoist,
    parts: &'a [Part],
    names: &mut Vec<Declared<'a>>,
) -> Result<(), AllocError>
    requires { have_shapes (members_of Kind.VariableDeclaration) parts.now ≡ true }
    ensures { OnOk result (named names.new.items ≡ named names.old.items ++ variables hoist (parts_of parts.now)) }
{
    let var = is_var(parts);
    match parts {
        [_, declarations] => match hoist {
            Hoist::Lexical => {
                if var {
                    Ok(())
                } else {
                    add_declarators(declarations.as_list(), names)
                }
            }
            Hoist::Var => {
                if var {
                    add_bound_part(declarations, names)
                } else {
                    Ok(())
                }
            }
        },
        _ => unreachable!(),
    }
}

/// Adds what a statement of this form declares by itself. Fails on allocation failure alone.
fn add_own<'a>(
    hoist: Hoist,
    form: StatementForm,
    parts: &'a [Part],
    names: &mut Vec<Declared<'a>>,
) -> Result<(), AllocError>
    requires { form ≡ StatementForm.Variables → have_shapes (members_of Kind.VariableDeclaration) parts.now ≡ true }
    ensures { OnOk result (named names.new.items ≡ named names.old.items ++ own hoist form (parts_of parts.now)) }
{
    match (hoist, form) {
        (_, StatementForm::Variables) => add_variables(hoist, parts, names),
        (Hoist::Lexical, StatementForm::Function | StatementForm::Class | StatementForm::Imports) =>
            add_bound_at(parts, 0, names),
        _ => Ok(()),
    }
}

/// Whether a statement of this form declares what its parts declare.
fn descends(hoist: Hoist, form: StatementForm) -> bool
    ensures { result ≡ descends hoist form }
{
    match form {
        StatementForm::PassesOn => true,
        StatementForm::Nests => match hoist {
            Hoist::Lexical => false,
            Hoist::Var => true,
        },
        _ => false,
    }
}

/// Adds the names that a statement declares for the list around it. Fails on allocation failure alone.
#[cycle(hoisted)]
pub fn add_hoisted<'a>(
    hoist: Hoist,
    node: &'a Node,
    names: &mut Vec<Declared<'a>>,
) -> Result<(), AllocError>
    ensures { OnOk result (named names.new.items ≡ named names.old.items ++ hoisted hoist node.now) }
{
    let form = statement_form(node.kind());
    if descends(hoist, form) {
        add_hoisted_parts(hoist, node.parts(), names)
    } else {
        add_own(hoist, form, node.parts(), names)
    }
}

#[cycle(hoisted)]
pub fn add_hoisted_parts<'a>(
    hoist: Hoist,
    parts: &'a [Part],
    names: &mut Vec<Declared<'a>>,
) -> Result<(), AllocError>
    ensures { OnOk result (named names.new.items ≡ named names.old.items ++ hoisted_items hoist (parts_of parts.now)) }
{
    for part in parts {
        add_hoisted_part(hoist, part, names)?;
    }
    Ok(())
}

/// The same of a part. Fails on allocation failure alone.
#[cycle(hoisted)]
pub fn add_hoisted_part<'a>(
    hoist: Hoist,
    part: &'a Part,
    names: &mut Vec<Declared<'a>>,
) -> Result<(), AllocError>
    ensures { OnOk result (named names.new.items ≡ named names.old.items ++ hoisted_part hoist (part_of part.now)) }
{
    match part {
        Part::Child(node) => add_hoisted(hoist, node, names),
        Part::List(nodes) => add_hoisted_list(hoist, nodes.as_slice(), names),
        Part::Holes(nodes) => add_hoisted_list_with_holes(hoist, nodes.as_slice(), names),
        _ => Ok(()),
    }
}

#[cycle(hoisted)]
fn add_hoisted_list<'a>(
    hoist: Hoist,
    nodes: &'a [Node],
    names: &mut Vec<Declared<'a>>,
) -> Result<(), AllocError>
    ensures { OnOk result (named names.new.items ≡ named names.old.items ++ hoisted_items hoist (trees nodes.now)) }
{
    for node in nodes {
        add_hoisted(hoist, node, names)?;
    }
    Ok(())
}

#[cycle(hoisted)]
fn add_hoisted_list_with_holes<'a>(
    hoist: Hoist,
    nodes: &'a [Option<Node>],
    names: &mut Vec<Declared<'a>>,
) -> Result<(), AllocError>
    ensures { OnOk result (named names.new.items ≡ named names.old.items ++ hoisted_items hoist (nullable_trees nodes.now)) }
{
    for node in nodes {
        add_hoisted_hole(hoist, node, names)?;
    }
    Ok(())
}

#[cycle(hoisted)]
fn add_hoisted_hole<'a>(
    hoist: Hoist,
    node: &'a Option<Node>,
    names: &mut Vec<Declared<'a>>,
) -> Result<(), AllocError>
    ensures { OnOk result (named names.new.items ≡ named names.old.items ++ hoisted_part hoist (nullable node.now)) }
{
    match node {
        Some(node) => add_hoisted(hoist, node, names),
        None => Ok(()),
    }
}
