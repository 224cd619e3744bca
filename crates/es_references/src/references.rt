// The references of a program: what each is spelled and what it means (ECMA-262, 9.4.2).

ghost use Rattle.std.specs.Prelude.{◌≡◌, ◌++◌, [], false, is_some, map, true, IfOk, IfSome, OnOk};
ghost use Rattle.std.specs.Str.{chars};
ghost use Rattle.es_base.specs.Table.{field_of};
ghost use Rattle.es_base.specs.Tree.{trees, nullable, nullable_trees};
ghost use Rattle.es_binding_faults.specs.Named.{named, plain};
ghost use Rattle.es_node.specs.View.{have_shapes, kind_of, number_in, part_of, parts_in, parts_of};
ghost use Rattle.es_steps.specs.Parts.{at, string_of};
ghost use Rattle.es_steps.specs.References as spec;
ghost use Rattle.es_steps.specs.References.{declared, referent};
ghost use Rattle.es_steps.specs.Scopes.{is_body_part, names_at};
ghost use Rattle.es_references.specs.Frames.{binding_of};
ghost use Rattle.es_references.specs.References.{meaning, meant_at, meant_from, meant_in, meant_of, names_in, names_inside, reference_of, references_of};

use crate::frame::Frame;
use es_base::ids::NodeId;
use es_base::kind::Kind;
use es_base::places::is_target_place;
use es_base::table::{Member, Sort, members};
use es_binding_faults::scopes::{add_seen, is_body_part, scope_in};
use es_node::node::{Node, Part};
use es_tree::identifier::IdentifierReferenceRef;
use std::alloc::{AllocError, Global};

/// A reference.
#[derive(Debug, Clone, Copy)]
pub struct Reference<'a> {
    pub node: NodeId,
    pub name: &'a str,
    /// The binding that it means, by the first identifier that declares that; none where it is free.
    pub binding: Option<NodeId>,
    /// Whether it stands where something is assigned to.
    pub writes: bool,
}

/// The names that are seen at a place.
#[derive(Clone, Copy)]
pub enum Scope<'r, 'a> {
    /// None.
    Outside,
    /// Those of a scope, and those around it.
    Inside {
        frame: &'r Frame<'a>,
        outer: &'r Scope<'r, 'a>,
    },
}

/// How a node stands in what is around it.
#[derive(Clone, Copy)]
pub struct Standing {
    /// Where something is assigned to.
    pub is_target: bool,
    /// As the body of a function.
    pub is_body: bool,
}

/// A node around a part.
#[derive(Clone, Copy)]
pub struct Parent<'a> {
    pub kind: Kind,
    /// Whether it is the body of a function.
    pub is_body: bool,
    pub parts: &'a [Part],
}

/// The references of a program in preorder. Fails on allocation failure alone.
#[tactic(auto, using(crate::proofs::Resolving::resolved))]
pub fn references(alloc: Global, program: &Node) -> Result<Vec<Reference<'_>>, AllocError>
    ensures { IfOk result (λ r. references_of r.items ≡ spec.resolve program.now) }
{
    let mut references = Vec::new(alloc);
    let standing = Standing {
        is_target: false,
        is_body: false,
    };
    add_references(alloc, &Scope::Outside, standing, program, &mut references)?;
    Ok(references)
}

// ---- the walk

/// Adds the references of the node. Fails on allocation failure alone.
#[cycle(references)]
fn add_references<'a>(
    alloc: Global,
    scope: &Scope<'_, 'a>,
    standing: Standing,
    node: &'a Node,
    references: &mut Vec<Reference<'a>>,
) -> Result<(), AllocError>
    ensures { OnOk result (references_of references.new.items ≡ references_of references.old.items ++ meant_in (names_in scope.now) standing.is_target standing.is_body node.now) }
{
    match reference_at(&*scope, standing.is_target, node) {
        Some(reference) => {
            references.push(reference)?;
            Ok(())
        }
        None => {
            let kind = node.kind();
            let around = Parent {
                kind,
                is_body: standing.is_body,
                parts: node.parts(),
            };
            add_references_in(alloc, scope, around, members(kind), references)
        }
    }
}

/// The same of the parts of a node, which have these members.
#[cycle(references)]
fn add_references_in<'a>(
    alloc: Global,
    scope: &Scope<'_, 'a>,
    around: Parent<'a>,
    members: &[Member],
    references: &mut Vec<Reference<'a>>,
) -> Result<(), AllocError>
    requires { have_shapes (map field_of members.now) around.parts.now ≡ true }
    ensures { OnOk result (references_of references.new.items ≡ references_of references.old.items ++ meant_from (names_inside (names_in scope.now) around.entry.is_body around.entry.kind (parts_of around.entry.parts.now)) (is_body_part around.entry.kind) 0 (map field_of members.now) (parts_of around.entry.parts.now)) }
{
    let parts = around.parts;
    for (i, part) in parts.iter().enumerate() {
        add_references_of(alloc, &*scope, around, i, members[i].sort, part, references)?;
    }
    Ok(())
}

/// The same of the i-th part of a node, which is a member of this sort.
#[cycle(references)]
fn add_references_of<'a>(
    alloc: Global,
    scope: &Scope<'_, 'a>,
    around: Parent<'a>,
    i: usize,
    sort: Sort,
    part: &'a Part,
    references: &mut Vec<Reference<'a>>,
) -> Result<(), AllocError>
    ensures { OnOk result (references_of references.new.items ≡ references_of references.old.items ++ meant_at (names_inside (names_in scope.now) around.entry.is_body around.entry.kind (parts_of around.entry.parts.now) i) (spec.is_target sort) (is_body_part around.entry.kind i) (part_of part.now)) }
{
    let frame = names_seen(alloc, around, i)?;
    let standing = Standing {
        is_target: is_target(sort),
        is_body: is_body_part(around.kind, i),
    };
    if frame.names.is_empty() {
        add_references_at(alloc, scope, standing, part, references)
    } else {
        let inner = Scope::Inside {
            frame: &frame,
            outer: &*scope,
        };
        add_references_at(alloc, &inner, standing, part, references)
    }
}

#[cycle(references)]
fn add_references_at<'a>(
    alloc: Global,
    scope: &Scope<'_, 'a>,
    standing: Standing,
    part: &'a Part,
    references: &mut Vec<Reference<'a>>,
) -> Result<(), AllocError>
    ensures { OnOk result (references_of references.new.items ≡ references_of references.old.items ++ meant_at (names_in scope.now) standing.is_target standing.is_body (part_of part.now)) }
{
    match part {
        Part::Child(node) => add_references(alloc, scope, standing, node, references),
        Part::List(nodes) => {
            add_references_of_list(
                alloc,
                scope,
                standing.is_target,
                nodes.as_slice(),
                references,
            )
        }
        Part::Holes(nodes) => add_references_of_list_with_holes(
            alloc,
            scope,
            standing.is_target,
            nodes.as_slice(),
            references,
        ),
        _ => Ok(()),
    }
}

#[cycle(references)]
fn add_references_of_list<'a>(
    alloc: Global,
    scope: &Scope<'_, 'a>,
    is_target: bool,
    nodes: &'a [Node],
    references: &mut Vec<Reference<'a>>,
) -> Result<(), AllocError>
    ensures { OnOk result (references_of references.new.items ≡ references_of references.old.items ++ meant_of (names_in scope.now) is_target (trees nodes.now)) }
{
    let standing = Standing {
        is_target,
        is_body: false,
    };
    for node in nodes {
        add_references(alloc, &*scope, standing, node, references)?;
    }
    Ok(())
}

#[cycle(references)]
fn add_references_of_list_with_holes<'a>(
    alloc: Global,
    scope: &Scope<'_, 'a>,
    is_target: bool,
    nodes: &'a [Option<Node>],
    references: &mut Vec<Reference<'a>>,
) -> Result<(), AllocError>
    ensures { OnOk result (references_of references.new.items ≡ references_of references.old.items ++ meant_of (names_in scope.now) is_target (nullable_trees nodes.now)) }
{
    for node in nodes {
        add_references_of_hole(alloc, &*scope, is_target, node, references)?;
    }
    Ok(())
}

#[cycle(references)]
fn add_references_of_hole<'a>(
    alloc: Global,
    scope: &Scope<'_, 'a>,
    is_target: bool,
    node: &'a Option<Node>,
    references: &mut Vec<Reference<'a>>,
) -> Result<(), AllocError>
    ensures { OnOk result (references_of references.new.items ≡ references_of references.old.items ++ meant_at (names_in scope.now) is_target false (nullable node.now)) }
{
    let standing = Standing {
        is_target,
        is_body: false,
    };
    match node {
        Some(node) => add_references(alloc, scope, standing, node, references),
        None => Ok(()),
    }
}

// ---- at a node

/// What the i-th part of a node sees of the names of its scope. Fails on allocation failure alone.
pub fn names_seen<'a>(alloc: Global, around: Parent<'a>, i: usize) -> Result<Frame<'a>, AllocError>
    ensures { IfOk result (λ r. named r.names.items ≡ plain (names_at around.entry.is_body around.entry.kind 0 (parts_of around.entry.parts.now) i)) }
{
    let mut names = Vec::new(alloc);
    add_seen(
        scope_in(around.kind, around.is_body),
        around.parts,
        i,
        &mut names,
    )?;
    Frame::of(alloc, names)
}

/// Whether a member of this sort is assigned to.
pub fn is_target(sort: Sort) -> bool
    ensures { result ≡ spec.is_target sort }
{
    match sort {
        Sort::Child(place)
        | Sort::Nullable(place)
        | Sort::List(place)
        | Sort::NonEmptyList(place)
        | Sort::ListWithHoles(place) => is_target_place(place),
        _ => false,
    }
}

/// The reference that the node is, where these names are seen.
#[tactic(auto, using(crate::proofs::Resolving::no_reference, crate::proofs::Resolving::referent_again))]
fn reference_at<'a>(scope: &Scope<'_, 'a>, is_target: bool, node: &'a Node) -> Option<Reference<'a>>
    ensures is { is_some result ≡ spec.is_reference (kind_of node.now) }
    ensures means { IfSome result (λ r. reference_of r ≡ meaning (names_in scope.now) is_target (number_in node.now) (string_of (at 0 (parts_in node.now)))) }
{
    match node.kind() {
        // a
        Kind::IdentifierReference => {
            let reference = IdentifierReferenceRef::from_node(node);
            let name = reference.name.as_str();
            Some(Reference {
                node: reference.node_id,
                name,
                binding: binding_of(scope, name),
                writes: is_target,
            })
        }
        _ => None,
    }
}

/// The binding of this name, by the first identifier that declares it; none if it is free.
#[tactic(auto, using(crate::proofs::Resolving::declared_here, crate::proofs::Resolving::declared_outside))]
pub fn binding_of(scope: &Scope, name: &str) -> Option<NodeId>
    ensures { result ≡ binding_of (referent (chars name.now) (declared (chars name.now) (names_in scope.now))) }
{
    match scope {
        Scope::Outside => None,
        Scope::Inside { frame, outer } => match frame.get(name) {
            Some(binding) => Some(binding),
            None => binding_of(outer, name),
        },
    }
}
