// The bindings that functions in blocks give a value to (ECMA-262, B.3.2).

ghost use Rattle.std.specs.Prelude.{◌≡◌, ◌++◌, [], cond, false, IfOk, OnOk, true};
ghost use Rattle.std.specs.Str.{chars};
ghost use Rattle.es_base.specs.Tree.{nullable, nullable_trees, trees};
ghost use Rattle.es_node.specs.View.{kind_of, part_of, parts_in, parts_of};
ghost use Rattle.es_steps.specs.References as spec;
ghost use Rattle.es_steps.specs.References.{declared, given_around, if_bound, meant, referent};
ghost use Rattle.es_steps.specs.Scopes.{is_body_part};
ghost use Rattle.es_references.specs.Frames.{ids};
ghost use Rattle.es_references.specs.References.{names_in, names_inside};
ghost use Rattle.es_outside.specs.Given.{given_by, given_by_items, given_by_part, given_from, names_passed};
ghost use Rattle.es_outside.specs.InnerFunctions.{texts};

use crate::inner_functions::inner_functions;
use es_base::ids::NodeId;
use es_base::kind::Kind;
use es_binding_faults::scopes::is_body_part;
use es_binding_faults::vars::{catches_a_name, takes_vars};
use es_node::node::{Node, Part};
use es_references::references::{Parent, Scope, binding_of, names_seen};
use std::alloc::{AllocError, Global};

/// The bindings that functions in blocks, in cases and in branches of an `if` give a value to. Fails on allocation failure
/// alone.
#[tactic(auto, using(crate::proofs::Giving::given_alike))]
pub fn given(alloc: Global, program: &Node) -> Result<Vec<NodeId>, AllocError>
    ensures { IfOk result (λ r. ids r.items ≡ given_around [] [] false program.now) }
{
    let mut bindings = Vec::new(alloc);
    add_given(
        alloc,
        &Scope::Outside,
        &Scope::Outside,
        false,
        program,
        &mut bindings,
    )?;
    Ok(bindings)
}

// ---- the walk

/// Adds those of the node, where these names are seen, and these of them are not caught in the function, the arrow or the static
/// block around: what a function in a block is given to passes a caught name of its own function (B.3.4). Fails on allocation
/// failure alone.
#[cycle(given)]
fn add_given<'a>(
    alloc: Global,
    names: &Scope<'_, 'a>,
    uncaught: &Scope<'_, 'a>,
    is_body: bool,
    node: &'a Node,
    bindings: &mut Vec<NodeId>,
) -> Result<(), AllocError>
    ensures { OnOk result (ids bindings.new.items ≡ ids bindings.old.items ++ given_by (names_in names.now) (names_in uncaught.now) is_body node.now) }
{
    add_own(alloc, &*uncaught, is_body, node, bindings)?;
    let around = Parent {
        kind: node.kind(),
        is_body,
        parts: node.parts(),
    };
    add_given_inside(alloc, names, uncaught, around, bindings)
}

/// The same of the parts of a node: a function, an arrow or a static block passes no name that is caught outside of it.
#[cycle(given)]
fn add_given_inside<'a>(
    alloc: Global,
    names: &Scope<'_, 'a>,
    uncaught: &Scope<'_, 'a>,
    around: Parent<'a>,
    bindings: &mut Vec<NodeId>,
) -> Result<(), AllocError>
    ensures { OnOk result (ids bindings.new.items ≡ ids bindings.old.items ++ given_from (names_inside (names_in names.now) around.entry.is_body around.entry.kind (parts_of around.entry.parts.now)) (names_passed (cond (spec.takes_vars around.entry.kind) (names_in names.now) (names_in uncaught.now)) around.entry.is_body around.entry.kind (parts_of around.entry.parts.now)) (is_body_part around.entry.kind) 0 (parts_of around.entry.parts.now)) }
{
    if takes_vars(around.kind) {
        let all = *names;
        add_given_in(alloc, names, &all, around, bindings)
    } else {
        add_given_in(alloc, names, uncaught, around, bindings)
    }
}

/// The same of the parts of a node, where these names are seen around it, and these are passed on.
#[cycle(given)]
fn add_given_in<'a>(
    alloc: Global,
    names: &Scope<'_, 'a>,
    uncaught: &Scope<'_, 'a>,
    around: Parent<'a>,
    bindings: &mut Vec<NodeId>,
) -> Result<(), AllocError>
    ensures { OnOk result (ids bindings.new.items ≡ ids bindings.old.items ++ given_from (names_inside (names_in names.now) around.entry.is_body around.entry.kind (parts_of around.entry.parts.now)) (names_passed (names_in uncaught.now) around.entry.is_body around.entry.kind (parts_of around.entry.parts.now)) (is_body_part around.entry.kind) 0 (parts_of around.entry.parts.now)) }
{
    let parts = around.parts;
    for (i, part) in parts.iter().enumerate() {
        add_given_of(alloc, &*names, &*uncaught, around, i, part, bindings)?;
    }
    Ok(())
}

/// The same of the i-th part of a node.
#[cycle(given)]
#[tactic(auto, using(crate::proofs::Giving::nothing_passed))]
fn add_given_of<'a>(
    alloc: Global,
    names: &Scope<'_, 'a>,
    uncaught: &Scope<'_, 'a>,
    around: Parent<'a>,
    i: usize,
    part: &'a Part,
    bindings: &mut Vec<NodeId>,
) -> Result<(), AllocError>
    ensures { OnOk result (ids bindings.new.items ≡ ids bindings.old.items ++ given_by_part (names_inside (names_in names.now) around.entry.is_body around.entry.kind (parts_of around.entry.parts.now) i) (names_passed (names_in uncaught.now) around.entry.is_body around.entry.kind (parts_of around.entry.parts.now) i) (is_body_part around.entry.kind i) (part_of part.now)) }
{
    let frame = names_seen(alloc, around, i)?;
    let is_body = is_body_part(around.kind, i);
    if frame.names.is_empty() {
        return add_given_at(alloc, names, uncaught, is_body, part, bindings);
    }
    let seen = Scope::Inside {
        frame: &frame,
        outer: &*names,
    };
    if catches_a_name(around.kind, around.parts) {
        return add_given_at(alloc, &seen, uncaught, is_body, part, bindings);
    }
    let passed = Scope::Inside {
        frame: &frame,
        outer: &*uncaught,
    };
    add_given_at(alloc, &seen, &passed, is_body, part, bindings)
}

#[cycle(given)]
fn add_given_at<'a>(
    alloc: Global,
    names: &Scope<'_, 'a>,
    uncaught: &Scope<'_, 'a>,
    is_body: bool,
    part: &'a Part,
    bindings: &mut Vec<NodeId>,
) -> Result<(), AllocError>
    ensures { OnOk result (ids bindings.new.items ≡ ids bindings.old.items ++ given_by_part (names_in names.now) (names_in uncaught.now) is_body (part_of part.now)) }
{
    match part {
        Part::Child(node) => add_given(alloc, names, uncaught, is_body, node, bindings),
        Part::List(nodes) => add_given_of_list(alloc, names, uncaught, nodes.as_slice(), bindings),
        Part::Holes(nodes) => {
            add_given_of_list_with_holes(alloc, names, uncaught, nodes.as_slice(), bindings)
        }
        _ => Ok(()),
    }
}

#[cycle(given)]
fn add_given_of_list<'a>(
    alloc: Global,
    names: &Scope<'_, 'a>,
    uncaught: &Scope<'_, 'a>,
    nodes: &'a [Node],
    bindings: &mut Vec<NodeId>,
) -> Result<(), AllocError>
    ensures { OnOk result (ids bindings.new.items ≡ ids bindings.old.items ++ given_by_items (names_in names.now) (names_in uncaught.now) (trees nodes.now)) }
{
    for node in nodes {
        add_given(alloc, &*names, &*uncaught, false, node, bindings)?;
    }
    Ok(())
}

#[cycle(given)]
fn add_given_of_list_with_holes<'a>(
    alloc: Global,
    names: &Scope<'_, 'a>,
    uncaught: &Scope<'_, 'a>,
    nodes: &'a [Option<Node>],
    bindings: &mut Vec<NodeId>,
) -> Result<(), AllocError>
    ensures { OnOk result (ids bindings.new.items ≡ ids bindings.old.items ++ given_by_items (names_in names.now) (names_in uncaught.now) (nullable_trees nodes.now)) }
{
    for node in nodes {
        add_given_of_hole(alloc, &*names, &*uncaught, node, bindings)?;
    }
    Ok(())
}

#[cycle(given)]
fn add_given_of_hole<'a>(
    alloc: Global,
    names: &Scope<'_, 'a>,
    uncaught: &Scope<'_, 'a>,
    node: &'a Option<Node>,
    bindings: &mut Vec<NodeId>,
) -> Result<(), AllocError>
    ensures { OnOk result (ids bindings.new.items ≡ ids bindings.old.items ++ given_by_part (names_in names.now) (names_in uncaught.now) false (nullable node.now)) }
{
    match node {
        Some(node) => add_given(alloc, names, uncaught, false, node, bindings),
        None => Ok(()),
    }
}

// ---- at a node

/// Adds what the names of the functions in the node itself mean. Fails on allocation failure alone.
fn add_own(
    alloc: Global,
    scope: &Scope,
    is_body: bool,
    node: &Node,
    bindings: &mut Vec<NodeId>,
) -> Result<(), AllocError>
    ensures { OnOk result (ids bindings.new.items ≡ ids bindings.old.items ++ meant (names_in scope.now) (spec.inner_functions is_body (kind_of node.now) (parts_in node.now))) }
{
    let functions = inner_functions(alloc, is_body, node)?;
    add_meant(scope, functions.as_slice(), bindings)
}

/// Adds what these names mean.
fn add_meant(scope: &Scope, names: &[&str], bindings: &mut Vec<NodeId>) -> Result<(), AllocError>
    ensures { OnOk result (ids bindings.new.items ≡ ids bindings.old.items ++ meant (names_in scope.now) (texts names.now)) }
{
    for name in names {
        add_binding(&*scope, name, bindings)?;
    }
    Ok(())
}

/// Adds what the name means, if it is not free.
#[tactic(auto, using(crate::proofs::Giving::bound_name, crate::proofs::Giving::free_name))]
fn add_binding(scope: &Scope, name: &str, bindings: &mut Vec<NodeId>) -> Result<(), AllocError>
    ensures { OnOk result (ids bindings.new.items ≡ ids bindings.old.items ++ if_bound true (referent (chars name.now) (declared (chars name.now) (names_in scope.now)))) }
{
    match binding_of(scope, name) {
        Some(binding) => {
            bindings.push(binding)?;
            Ok(())
        }
        None => Ok(()),
    }
}
