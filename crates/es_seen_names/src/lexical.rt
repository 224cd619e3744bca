// The names that a statement declares for the list around it, but those of `var`.

ghost use Rattle.std.specs.Prelude.{◌≡◌, ◌++◌, [], OnOk, IfOk, cond, true};
ghost use Rattle.es_base.specs.Table.{members_of};
ghost use Rattle.es_base.specs.Tree.{child, nullable, nullable_trees, trees};
ghost use Rattle.es_base.specs.declared.kind.Kind.{Kind};
ghost use Rattle.es_binding_faults.specs.Hoisted.{form_of};
ghost use Rattle.es_binding_faults.specs.declared.hoisted.StatementForm.{StatementForm};
ghost use Rattle.es_node.specs.View.{have_shapes, kind_of, number_in, part_of, parts_in, parts_of};
ghost use Rattle.es_steps.specs.Parts.{at};
ghost use Rattle.es_steps.specs.Scopes as spec;
ghost use Rattle.es_steps.specs.Scopes.{class_in, declarator_names, declarators_names, let_name, lexical_by, lexical_items, lexical_names, lexical_part, no_class};
ghost use Rattle.es_seen_names.specs.Declarations.{class_name_of, declarations};
ghost use Rattle.es_seen_names.specs.Statements.{passes_on};

use crate::class_in::class_in;
use crate::declaration::{ClassName, Declaration, add_bound, add_bound_at, add_identifier};
use es_base::operator::VariableDeclarationKind;
use es_binding_faults::hoisted::{
    StatementForm, declarator_identifier, is_var, part_at, statement_form,
};
use es_node::node::{Node, Part};
use std::alloc::{AllocError, Global};

// ---- declarators

/// Whether a variable declaration is one by `let`.
pub fn is_let(parts: &[Part]) -> bool
    requires { have_shapes (members_of Kind.VariableDeclaration) parts.now ≡ true }
    ensures { result ≡ spec.is_let (parts_of parts.now) }
{
    match parts {
        [kind, _] => match kind.as_variable_declaration_kind() {
            VariableDeclarationKind::Let => true,
            VariableDeclarationKind::Var | VariableDeclarationKind::Const => false,
        },
        _ => unreachable!(),
    }
}

/// The class that a declarator of one identifier names. Fails on allocation failure alone.
fn let_class(
    alloc: Global,
    variables: u32,
    is_let: bool,
    parts: &[Part],
) -> Result<ClassName, AllocError>
    ensures { IfOk result (λ c. class_name_of c ≡ cond is_let (let_name variables (class_in (at 1 (parts_of parts.now)))) no_class) }
{
    if !is_let {
        return Ok(ClassName::NoClass);
    }
    let class = match part_at(parts, 1) {
        Some(init) => class_in(alloc, init)?,
        None => None,
    };
    Ok(match class {
        Some(class) => ClassName::LetNames { variables, class },
        None => ClassName::NoClass,
    })
}

/// Adds the names of a declarator. Fails on allocation failure alone.
fn add_declarator<'a>(
    alloc: Global,
    variables: u32,
    is_let: bool,
    node: &'a Node,
    names: &mut Vec<Declaration<'a>>,
) -> Result<(), AllocError>
    ensures { OnOk result (declarations names.new.items ≡ declarations names.old.items ++ declarator_names variables is_let (child node.now)) }
{
    match declarator_identifier(node.parts()) {
        Some(id) => {
            let class_name = let_class(alloc, variables, is_let, node.parts())?;
            add_identifier(alloc, class_name, id, names)
        }
        None => add_bound(alloc, ClassName::NoClass, node, names),
    }
}

/// Adds the names of declarators. Fails on allocation failure alone.
fn add_declarators<'a>(
    alloc: Global,
    variables: u32,
    is_let: bool,
    nodes: &'a [Node],
    names: &mut Vec<Declaration<'a>>,
) -> Result<(), AllocError>
    ensures { OnOk result (declarations names.new.items ≡ declarations names.old.items ++ declarators_names variables is_let (trees nodes.now)) }
{
    for node in nodes {
        add_declarator(alloc, variables, is_let, node, names)?;
    }
    Ok(())
}

/// Adds the names of a variable declaration, unless it is one by `var`. Fails on allocation failure alone.
fn add_variables<'a>(
    alloc: Global,
    variables: u32,
    parts: &'a [Part],
    names: &mut Vec<Declaration<'a>>,
) -> Result<(), AllocError>
    requires { have_shapes (members_of Kind.VariableDeclaration) parts.now ≡ true }
    ensures { OnOk result (declarations names.new.items ≡ declarations names.old.items ++ lexical_by spec.variables variables (parts_of parts.now) []) }
{
    let var = is_var(parts);
    let is_let = is_let(parts);
    match parts {
        [_, declarators] => {
            if var {
                Ok(())
            } else {
                add_declarators(alloc, variables, is_let, declarators.as_list(), names)
            }
        }
        _ => unreachable!(),
    }
}

// ---- statements

/// Adds what a statement of this form declares by itself. Fails on allocation failure alone.
fn add_own<'a>(
    alloc: Global,
    form: StatementForm,
    node: u32,
    parts: &'a [Part],
    names: &mut Vec<Declaration<'a>>,
) -> Result<(), AllocError>
    requires { form ≡ StatementForm.Variables → have_shapes (members_of Kind.VariableDeclaration) parts.now ≡ true }
    ensures { OnOk result (declarations names.new.items ≡ declarations names.old.items ++ lexical_by (form_of form) node (parts_of parts.now) []) }
{
    match form {
        StatementForm::Variables => add_variables(alloc, node, parts, names),
        StatementForm::Function | StatementForm::Imports => {
            add_bound_at(alloc, ClassName::NoClass, parts, 0, names)
        }
        StatementForm::Class => add_bound_at(alloc, ClassName::Declares(node), parts, 0, names),
        _ => Ok(()),
    }
}

/// Whether a statement of this form declares what its parts declare.
fn passes_on(form: StatementForm) -> bool
    ensures { result ≡ passes_on form }
{
    matches!(form, StatementForm::PassesOn)
}

/// Adds the names that a statement declares for the list around it. Fails on allocation failure alone.
#[cycle(lexical)]
pub fn add_lexical<'a>(
    alloc: Global,
    node: &'a Node,
    names: &mut Vec<Declaration<'a>>,
) -> Result<(), AllocError>
    ensures { OnOk result (declarations names.new.items ≡ declarations names.old.items ++ lexical_names node.now) }
{
    let form = statement_form(node.kind());
    if passes_on(form) {
        add_lexical_parts(alloc, node.parts(), names)
    } else {
        add_own(alloc, form, node.node_id().0, node.parts(), names)
    }
}

#[cycle(lexical)]
fn add_lexical_parts<'a>(
    alloc: Global,
    parts: &'a [Part],
    names: &mut Vec<Declaration<'a>>,
) -> Result<(), AllocError>
    ensures { OnOk result (declarations names.new.items ≡ declarations names.old.items ++ lexical_items (parts_of parts.now)) }
{
    for part in parts {
        add_lexical_part(alloc, part, names)?;
    }
    Ok(())
}

/// The same of a part. Fails on allocation failure alone.
#[cycle(lexical)]
pub fn add_lexical_part<'a>(
    alloc: Global,
    part: &'a Part,
    names: &mut Vec<Declaration<'a>>,
) -> Result<(), AllocError>
    ensures { OnOk result (declarations names.new.items ≡ declarations names.old.items ++ lexical_part (part_of part.now)) }
{
    match part {
        Part::Child(node) => add_lexical(alloc, node, names),
        Part::List(nodes) => add_lexical_list(alloc, nodes.as_slice(), names),
        Part::Holes(nodes) => add_lexical_list_with_holes(alloc, nodes.as_slice(), names),
        _ => Ok(()),
    }
}

#[cycle(lexical)]
fn add_lexical_list<'a>(
    alloc: Global,
    nodes: &'a [Node],
    names: &mut Vec<Declaration<'a>>,
) -> Result<(), AllocError>
    ensures { OnOk result (declarations names.new.items ≡ declarations names.old.items ++ lexical_items (trees nodes.now)) }
{
    for node in nodes {
        add_lexical(alloc, node, names)?;
    }
    Ok(())
}

#[cycle(lexical)]
fn add_lexical_list_with_holes<'a>(
    alloc: Global,
    nodes: &'a [Option<Node>],
    names: &mut Vec<Declaration<'a>>,
) -> Result<(), AllocError>
    ensures { OnOk result (declarations names.new.items ≡ declarations names.old.items ++ lexical_items (nullable_trees nodes.now)) }
{
    for node in nodes {
        add_lexical_hole(alloc, node, names)?;
    }
    Ok(())
}

#[cycle(lexical)]
fn add_lexical_hole<'a>(
    alloc: Global,
    node: &'a Option<Node>,
    names: &mut Vec<Declaration<'a>>,
) -> Result<(), AllocError>
    ensures { OnOk result (declarations names.new.items ≡ declarations names.old.items ++ lexical_part (nullable node.now)) }
{
    match node {
        Some(node) => add_lexical(alloc, node, names),
        None => Ok(()),
    }
}

/// Adds the names of the statement, or of the statements of the list, that stands at this place. Fails on allocation
/// failure alone.
pub fn add_lexical_at<'a>(
    alloc: Global,
    parts: &'a [Part],
    i: usize,
    names: &mut Vec<Declaration<'a>>,
) -> Result<(), AllocError>
    ensures { OnOk result (declarations names.new.items ≡ declarations names.old.items ++ lexical_part (at i (parts_of parts.now))) }
{
    match part_at(parts, i) {
        Some(part) => add_lexical_part(alloc, part, names),
        None => Ok(()),
    }
}
