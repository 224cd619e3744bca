// The functions of generated names by which they are called.

ghost use Rattle.std.specs.Prelude.{◌≡◌, ◌++◌, ◌∷◌, [], cond, option_map, IfOk, OnOk};
ghost use Rattle.std.specs.Str.{chars};
ghost use Rattle.es_base.specs.Tree.{child, nullable};
ghost use Rattle.es_binding_faults.specs.Seen.{seen};
ghost use Rattle.es_lowered.specs.ClassNames as spec;
ghost use Rattle.es_owed_references.specs.Moved.{function_of, functions_of, names_of};

use crate::numbers::any_among;
use es_base::kind::Kind;
use es_base::ledger::GeneratedKind;
use es_binding_faults::numbers::Numbers;
use es_generated::ledger::Ledger;
use es_node::node::Node;
use es_owed::numbers::numbers_below;
use es_owed_initialized::numbers::add_numbers;
use es_owed_initialized::spelling::spelling_of;
use es_shapes::walk::is_any_function;
use es_tree::expression::AssignmentExpressionRef;
use es_tree::function::FunctionDeclarationRef;
use es_tree::statement::VariableDeclaratorRef;
use std::alloc::{AllocError, Global};

/// A function with the generated name by which it is called.
#[derive(Debug, Drop)]
pub struct MovedFunction<'a> {
    pub name: &'a str,
    /// Those of its nodes.
    pub numbers: Vec<u32>,
}

/// The functions that are declared by such a name or given to one among these nodes. Fails on allocation failure alone.
pub fn moved_functions<'a>(
    alloc: Global,
    ledger: &Ledger,
    nodes: &[&'a Node],
) -> Result<Vec<MovedFunction<'a>>, AllocError>
    ensures { IfOk result (λ r. functions_of r.items ≡ spec.moved_functions ledger.now (seen nodes.now)) }
{
    let mut functions = Vec::new(alloc);
    for node in nodes {
        add_moved(alloc, ledger, node, &mut functions)?;
    }
    Ok(functions)
}

#[tactic(auto, using(crate::proofs::MovedFunctions::moved_declaration, crate::proofs::MovedFunctions::moved_assignment, crate::proofs::MovedFunctions::moved_declarator, crate::proofs::MovedFunctions::none_moved))]
fn add_moved<'a>(
    alloc: Global,
    ledger: &Ledger,
    node: &'a Node,
    functions: &mut Vec<MovedFunction<'a>>,
) -> Result<(), AllocError>
    ensures { OnOk result (functions_of functions.new.items ≡ functions_of functions.old.items ++ spec.moved_at ledger.now node.now) }
{
    match node.kind() {
        // function _m() {}
        Kind::FunctionDeclaration => {
            let name = spelling_of(FunctionDeclarationRef::from_node(node).id);
            add_function(alloc, ledger, name, Some(node), functions)
        }
        // _f = function () {}
        Kind::AssignmentExpression => {
            let assignment = AssignmentExpressionRef::from_node(node);
            let name = spelling_of(Some(assignment.left));
            add_function(alloc, ledger, name, Some(assignment.right), functions)
        }
        // let _f = function () {};
        Kind::VariableDeclarator => {
            let declarator = VariableDeclaratorRef::from_node(node);
            let name = spelling_of(Some(declarator.id));
            add_function(alloc, ledger, name, declarator.init, functions)
        }
        _ => Ok(()),
    }
}

/// Adds what is given to a name, if a function is called by that. Fails on allocation failure alone.
fn add_function<'a>(
    alloc: Global,
    ledger: &Ledger,
    name: &'a str,
    value: Option<&Node>,
    functions: &mut Vec<MovedFunction<'a>>,
) -> Result<(), AllocError>
    ensures { OnOk result (functions_of functions.new.items ≡ functions_of functions.old.items ++ spec.moved_function ledger.now (chars name.now) (nullable (option_map (λ x. x.now) value.entry))) }
{
    if names_function(ledger.generated_as(name)) {
        let numbers = function_numbers(alloc, value)?;
        functions.push(MovedFunction { name, numbers })?;
    }
    Ok(())
}

/// Whether a name of this kind is one by which a function is called.
fn names_function(kind: Option<GeneratedKind>) -> bool
    ensures { result ≡ spec.names_function kind }
{
    matches!(
        kind,
        Some(GeneratedKind::Method(_) | GeneratedKind::SuperFn(_) | GeneratedKind::Closure)
    )
}

/// The numbers of the nodes of a function; none of another value. Fails on allocation failure alone.
fn function_numbers(alloc: Global, value: Option<&Node>) -> Result<Vec<u32>, AllocError>
    ensures { IfOk result (λ r. r.items ≡ spec.function_numbers (nullable (option_map (λ x. x.now) value.entry))) }
{
    match value {
        Some(value) => numbers_of_function(alloc, value),
        None => Ok(Vec::new(alloc)),
    }
}

#[tactic(auto, using(crate::proofs::MovedFunctions::function_node))]
fn numbers_of_function(alloc: Global, value: &Node) -> Result<Vec<u32>, AllocError>
    ensures { IfOk result (λ r. r.items ≡ spec.function_numbers (child value.now)) }
{
    if is_any_function(value.kind()) {
        numbers_below(alloc, value)
    } else {
        Ok(Vec::new(alloc))
    }
}

// ---- some of these functions

/// Copies of those of these functions that hold none of these nodes. Fails on allocation failure alone.
pub fn outside_class<'a>(
    alloc: Global,
    inside: &Numbers,
    functions: &[MovedFunction<'a>],
) -> Result<Vec<MovedFunction<'a>>, AllocError>
    ensures { IfOk result (λ r. functions_of r.items ≡ spec.outside_class inside.now (functions_of functions.now)) }
{
    let mut outside = Vec::new(alloc);
    for function in functions {
        add_unless_inside(alloc, inside, function, &mut outside)?;
    }
    Ok(outside)
}

fn add_unless_inside<'a>(
    alloc: Global,
    inside: &Numbers,
    function: &MovedFunction<'a>,
    outside: &mut Vec<MovedFunction<'a>>,
) -> Result<(), AllocError>
    ensures { OnOk result (functions_of outside.new.items ≡ functions_of outside.old.items ++ cond (spec.any_among inside.now (function_of function.now).numbers) [] (function_of function.now ∷ [])) }
{
    if !any_among(inside, function.numbers.as_slice()) {
        let mut numbers = Vec::new(alloc);
        add_numbers(function.numbers.as_slice(), &mut numbers)?;
        let name = function.name;
        outside.push(MovedFunction { name, numbers })?;
    }
    Ok(())
}

/// The names of those of these functions that hold one of these nodes. Fails on allocation failure alone.
pub fn names_holding<'a>(
    alloc: Global,
    held: &Numbers,
    functions: &[MovedFunction<'a>],
) -> Result<Vec<&'a str>, AllocError>
    ensures { IfOk result (λ r. names_of r.items ≡ spec.names_holding held.now (functions_of functions.now)) }
{
    let mut names = Vec::new(alloc);
    for function in functions {
        add_name_if_holding(held, function, &mut names)?;
    }
    Ok(names)
}

fn add_name_if_holding<'a>(
    held: &Numbers,
    function: &MovedFunction<'a>,
    names: &mut Vec<&'a str>,
) -> Result<(), AllocError>
    ensures { OnOk result (names_of names.new.items ≡ names_of names.old.items ++ cond (spec.any_among held.now (function_of function.now).numbers) ((function_of function.now).name ∷ []) []) }
{
    if any_among(held, function.numbers.as_slice()) {
        names.push(function.name)?;
    }
    Ok(())
}
