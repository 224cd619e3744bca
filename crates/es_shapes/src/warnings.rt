// Which nodes of a program are warned of.

ghost use Rattle.std.specs.Prelude.{◌≡◌, ◌++◌, [], map, IfOk, OnOk};
ghost use Rattle.es_base.specs.Tree.{trees, nullable, nullable_trees};
ghost use Rattle.es_node.specs.View.{kind_of, part_of, parts_of};
ghost use Rattle.es_shapes.specs.Warnings.{if_await, awaits, awaits_in, awaits_of, awaits_if, place_of, places, numbers};
ghost use Rattle.es_steps.specs.Told.{is_hoist_scope, warnings_of};

use es_base::diagnostic::Diagnostic;
use es_base::kind::Kind;
use es_node::node::{Node, Part};
use es_steps::options::Options;
use std::alloc::{AllocError, Global};

/// The warnings of a program, in preorder: with the option on, one for each await expression outside all
/// functions, arrows and static blocks, with its number and its place in the source; without it none.
/// Takes time in proportion to the program. Fails on allocation failure alone. (oxc's
/// `ES2022TopLevelAwait`.)
#[tactic(auto, using(crate::proofs::Awaits::numbers_are))]
pub fn warnings(
    alloc: Global,
    program: &Node,
    options: &Options,
) -> Result<Vec<Diagnostic>, AllocError>
    ensures numbers { IfOk result (λ ds. numbers ds.items ≡ warnings_of options.now program.now) }
    ensures places { IfOk result (λ ds. places ds.items ≡ map place_of (awaits_if options.now program.now)) }
{
    let mut warnings = Vec::new(alloc);
    if options.es2022.top_level_await {
        add_awaits(program, &mut warnings)?;
    }
    Ok(warnings)
}

/// Adds a warning for each await that is not inside a function, an arrow or a static block of the node.
#[cycle(awaits)]
#[tactic(auto, using(crate::proofs::Awaits::awaits_alone, crate::proofs::Awaits::awaits_below, es_node::proofs::Below::nodes_in))]
fn add_awaits(node: &Node, warnings: &mut Vec<Diagnostic>) -> Result<(), AllocError>
    ensures { OnOk result (places warnings.new.items ≡ places warnings.old.items ++ map place_of (awaits node.now)) }
{
    add_if_await(node, warnings)?;
    if !is_hoist_scope(node.kind()) {
        add_awaits_in(node.parts(), warnings)?;
    }
    Ok(())
}

/// Adds a warning, if the node is an await.
#[tactic(auto, using(crate::proofs::Awaits::no_await))]
fn add_if_await(node: &Node, warnings: &mut Vec<Diagnostic>) -> Result<(), AllocError>
    ensures { OnOk result (places warnings.new.items ≡ places warnings.old.items ++ map place_of (if_await (kind_of node.now) node.now)) }
{
    match node.kind() {
        // await x;
        Kind::AwaitExpression => {
            warnings.push(Diagnostic {
                node: node.node_id(),
                span: node.span(),
            })?;
            Ok(())
        }
        _ => Ok(()),
    }
}

#[cycle(awaits)]
fn add_awaits_in(parts: &[Part], warnings: &mut Vec<Diagnostic>) -> Result<(), AllocError>
    ensures { OnOk result (places warnings.new.items ≡ places warnings.old.items ++ map place_of (awaits_in (parts_of parts.now))) }
{
    for part in parts {
        add_awaits_of(part, warnings)?;
    }
    Ok(())
}

#[cycle(awaits)]
fn add_awaits_of(part: &Part, warnings: &mut Vec<Diagnostic>) -> Result<(), AllocError>
    ensures { OnOk result (places warnings.new.items ≡ places warnings.old.items ++ map place_of (awaits_of (part_of part.now))) }
{
    match part {
        Part::Child(node) => add_awaits(node, warnings),
        Part::List(nodes) => add_awaits_of_list(nodes.as_slice(), warnings),
        Part::Holes(nodes) => add_awaits_of_list_with_holes(nodes.as_slice(), warnings),
        _ => Ok(()),
    }
}

#[cycle(awaits)]
fn add_awaits_of_list(nodes: &[Node], warnings: &mut Vec<Diagnostic>) -> Result<(), AllocError>
    ensures { OnOk result (places warnings.new.items ≡ places warnings.old.items ++ map place_of (awaits_in (trees nodes.now))) }
{
    for node in nodes {
        add_awaits(node, warnings)?;
    }
    Ok(())
}

#[cycle(awaits)]
fn add_awaits_of_list_with_holes(
    nodes: &[Option<Node>],
    warnings: &mut Vec<Diagnostic>,
) -> Result<(), AllocError>
    ensures { OnOk result (places warnings.new.items ≡ places warnings.old.items ++ map place_of (awaits_in (nullable_trees nodes.now))) }
{
    for node in nodes {
        add_awaits_of_hole(node, warnings)?;
    }
    Ok(())
}

#[cycle(awaits)]
fn add_awaits_of_hole(node: &Option<Node>, warnings: &mut Vec<Diagnostic>) -> Result<(), AllocError>
    ensures { OnOk result (places warnings.new.items ≡ places warnings.old.items ++ map place_of (awaits_of (nullable node.now))) }
{
    match node {
        Some(node) => add_awaits(node, warnings),
        None => Ok(()),
    }
}

/// Whether an await inside is not one of the program's: in a function, an arrow or a static block.
fn is_hoist_scope(kind: Kind) -> bool
    ensures { result ≡ is_hoist_scope kind }
{
    matches!(
        kind,
        Kind::FunctionDeclaration
            | Kind::FunctionExpression
            | Kind::ArrowFunctionExpression
            | Kind::StaticBlock
    )
}
