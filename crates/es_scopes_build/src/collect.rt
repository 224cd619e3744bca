// The nodes of a tree that may bear a semantic id, in preorder.

ghost use Rattle.std.specs.Prelude.{◌≡◌, ◌+◌, ◌<◌, ◌^◌, IfOk, OnOk, true, [], ◌++◌, option_to_list, cond};
ghost use Rattle.es_base.specs.Preorder.{nodes, nodes_of, nodes_of_part};
ghost use Rattle.es_base.specs.Table.{members_of};
ghost use Rattle.es_base.specs.Tree.{trees, nullable, nullable_trees};
ghost use Rattle.es_base.specs.declared.kind.Kind.{Kind};
ghost use Rattle.es_node.specs.View.{part_of, parts_of, have_shapes};
ghost use Rattle.es_scopes.specs.NodeScopes.{is_strict, opens};
ghost use Rattle.es_steps.specs.Parts.{at, string_of};
ghost use Rattle.es_scopes.specs.Entries.{Collected, binding, scope_entry, entry_of, entered, collected, collected_parts, collected_part, collected_items, entries_of};
ghost use Rattle.es_scopes.specs.Surroundings.{scope_place};
ghost use Rattle.es_scopes.specs.Surroundings as place;

use crate::flags::scope_flags;
use crate::inside::{Parent, has_scope, inside, opens};
use es_base::ids::{NodeId, ScopeId};
use es_base::kind::Kind;
use es_base::list::List;
use es_base::name::Name;
use es_node::node::{Node, Part};
use es_scopes::entry::Entry;
use es_scopes::surroundings::{Declarer, Declares, Surroundings};
use es_strict::strict::makes_strict;
use std::alloc::{AllocError, Global};

/// Whether the code of a node is strict (ECMA-262, 11.2.2).
fn is_strict(kind: Kind, parts: &[Part], around: Surroundings) -> bool
    requires { have_shapes (members_of kind) parts.now ≡ true }
    ensures { result ≡ is_strict kind (parts_of parts.now) (scope_place around) }
{
    around.strict || makes_strict(kind, parts)
}

/// The name of an identifier that declares.
fn binding_name(alloc: Global, parts: &[Part]) -> Result<Name, AllocError>
    requires { have_shapes (members_of Kind.BindingIdentifier) parts.now ≡ true }
    ensures { IfOk result (λ s. s ≡ string_of (at 0 (parts_of parts.now))) }
{
    match parts {
        [name] => name.as_string().try_clone(alloc),
        _ => unreachable!(),
    }
}

/// The name of a reference.
fn reference_name(alloc: Global, parts: &[Part]) -> Result<Name, AllocError>
    requires { have_shapes (members_of Kind.IdentifierReference) parts.now ≡ true }
    ensures { IfOk result (λ s. s ≡ string_of (at 0 (parts_of parts.now))) }
{
    match parts {
        [name] => name.as_string().try_clone(alloc),
        _ => unreachable!(),
    }
}

/// An identifier that declares.
fn binding(node: NodeId, name: Name, around: Surroundings) -> Entry
    ensures { result ≡ binding around.declares node name around }
{
    let (holder, declarer) = match around.declares {
        Declares::Pattern { holder, declarer } => (holder, declarer),
        _ => (None, Declarer::Other),
    };
    Entry::Binding {
        node,
        holder,
        declarer,
        name,
        flags: around.symbol_flags,
        head_var: around.head_var,
    }
}

/// A node of a kind that has scopes.
fn scope_entry(kind: Kind, node: NodeId, strict: bool, around: Surroundings) -> Entry
    ensures { result ≡ scope_entry kind node strict around }
{
    if opens(kind, around) {
        Entry::Scope {
            node,
            parent: around.scope,
            in_parameters: around.in_parameters,
            flags: scope_flags(kind, around.given, strict),
        }
    } else {
        Entry::Body { node }
    }
}

/// What a node has to do with scopes. Fails on allocation failure alone.
fn entry_of(
    alloc: Global,
    kind: Kind,
    node: NodeId,
    parts: &[Part],
    strict: bool,
    around: Surroundings,
) -> Result<Option<Entry>, AllocError>
    requires shapes { have_shapes (members_of kind) parts.now ≡ true }
    requires strict { strict ≡ is_strict kind (parts_of parts.now) (scope_place around) }
    ensures { IfOk result (λ e. e ≡ entry_of kind node (parts_of parts.now) around) }
{
    match kind {
        Kind::BindingIdentifier => Ok(Some(binding(node, binding_name(alloc, parts)?, around))),
        Kind::IdentifierReference => Ok(Some(Entry::Reference {
            node,
            scope: around.scope,
            in_parameters: around.in_parameters,
            name: reference_name(alloc, parts)?,
            flags: around.usage,
        })),
        _ => {
            if has_scope(kind) {
                Ok(Some(scope_entry(kind, node, strict, around)))
            } else {
                Ok(None)
            }
        }
    }
}

/// The number of the next scope in the parts of a node.
fn next_inside(kind: Kind, around: Surroundings, next: u32) -> u32
    requires { next + 1 < 2 ^ 32 }
    ensures { result ≡ cond (opens kind (scope_place around)) (next + 1) next }
{
    if opens(kind, around) { next + 1 } else { next }
}

/// Adds the entry of a node, and answers the number of the next scope in its parts.
fn enter(
    alloc: Global,
    node: NodeId,
    parent: Parent,
    parts: &[Part],
    entries: &mut List<Entry>,
    next: u32,
) -> Result<u32, AllocError>
    requires shapes { have_shapes (members_of parent.kind) parts.now ≡ true }
    requires strict { parent.strict ≡ is_strict parent.kind (parts_of parts.now) (scope_place parent.around) }
    requires room { next + 1 < 2 ^ 32 }
    ensures { IfOk result (λ n. record { entries = entries.new; next = n } ≡ entered parent.kind node (parts_of parts.now) parent.around (record { entries = entries.old; next = next })) }
{
    let Parent {
        kind,
        strict,
        around,
        ..
    } = parent;
    add(entries, entry_of(alloc, kind, node, parts, strict, around)?)?;
    Ok(next_inside(kind, around, next))
}

/// Adds an entry, if there is one.
fn add(entries: &mut List<Entry>, entry: Option<Entry>) -> Result<(), AllocError>
    ensures { OnOk result (entries.new ≡ entries.old ++ option_to_list entry) }
{
    match entry {
        Some(entry) => entries.push(entry),
        None => Ok(()),
    }
}

/// Adds the entries of a tree, where `next` is the number of the next scope, and answers the number that
/// comes next. Fails on allocation failure alone.
#[cycle(collect)]
fn collect_node(
    alloc: Global,
    node: &Node,
    around: Surroundings,
    entries: &mut List<Entry>,
    next: u32,
) -> Result<u32, AllocError>
    requires { next + nodes node.now < 2 ^ 32 }
    ensures { IfOk result (λ n. record { entries = entries.new; next = n } ≡ collected around (record { entries = entries.old; next = next }) node.now) }
{
    let kind = node.kind();
    let parts = node.parts();
    let strict = is_strict(kind, parts, around);
    let parent = Parent {
        kind,
        own: ScopeId(next),
        strict,
        around,
    };
    let next = enter(alloc, node.node_id(), parent, parts, entries, next)?;
    collect_parts(alloc, parent, parts, entries, next)
}

#[cycle(collect)]
fn collect_parts(
    alloc: Global,
    parent: Parent,
    parts: &[Part],
    entries: &mut List<Entry>,
    next: u32,
) -> Result<u32, AllocError>
    requires shapes { have_shapes (members_of parent.kind) parts.now ≡ true }
    requires strict { parent.strict ≡ is_strict parent.kind (parts_of parts.now) (scope_place parent.around) }
    requires room { next + nodes_of (parts_of parts.now) < 2 ^ 32 }
    ensures { IfOk result (λ n. record { entries = entries.new; next = n } ≡ collected_parts (place.inside parent.kind parent.own (parts_of parts.now) parent.around) 0 (record { entries = entries.old; next = next }) (parts_of parts.now)) }
{
    let mut next = next;
    for i in 0..parts.len() {
        next = collect_part(alloc, &parts[i], inside(parent, parts, i), entries, next)?;
    }
    Ok(next)
}

#[cycle(collect)]
fn collect_part(
    alloc: Global,
    part: &Part,
    around: Surroundings,
    entries: &mut List<Entry>,
    next: u32,
) -> Result<u32, AllocError>
    requires { next + nodes_of_part (part_of part.now) < 2 ^ 32 }
    ensures { IfOk result (λ n. record { entries = entries.new; next = n } ≡ collected_part around (record { entries = entries.old; next = next }) (part_of part.now)) }
{
    match part {
        Part::Child(node) => collect_node(alloc, node, around, entries, next),
        Part::List(nodes) => collect_list(alloc, nodes.as_slice(), around, entries, next),
        Part::Holes(nodes) => {
            collect_list_with_holes(alloc, nodes.as_slice(), around, entries, next)
        }
        _ => Ok(next),
    }
}

#[cycle(collect)]
fn collect_list(
    alloc: Global,
    nodes: &[Node],
    around: Surroundings,
    entries: &mut List<Entry>,
    next: u32,
) -> Result<u32, AllocError>
    requires { next + nodes_of (trees nodes.now) < 2 ^ 32 }
    ensures { IfOk result (λ n. record { entries = entries.new; next = n } ≡ collected_items around (record { entries = entries.old; next = next }) (trees nodes.now)) }
{
    let mut next = next;
    for i in 0..nodes.len() {
        next = collect_node(alloc, &nodes[i], around, entries, next)?;
    }
    Ok(next)
}

#[cycle(collect)]
fn collect_list_with_holes(
    alloc: Global,
    nodes: &[Option<Node>],
    around: Surroundings,
    entries: &mut List<Entry>,
    next: u32,
) -> Result<u32, AllocError>
    requires { next + nodes_of (nullable_trees nodes.now) < 2 ^ 32 }
    ensures { IfOk result (λ n. record { entries = entries.new; next = n } ≡ collected_items around (record { entries = entries.old; next = next }) (nullable_trees nodes.now)) }
{
    let mut next = next;
    for i in 0..nodes.len() {
        next = collect_hole(alloc, &nodes[i], around, entries, next)?;
    }
    Ok(next)
}

#[cycle(collect)]
fn collect_hole(
    alloc: Global,
    node: &Option<Node>,
    around: Surroundings,
    entries: &mut List<Entry>,
    next: u32,
) -> Result<u32, AllocError>
    requires { next + nodes_of_part (nullable node.now) < 2 ^ 32 }
    ensures { IfOk result (λ n. record { entries = entries.new; next = n } ≡ collected_part around (record { entries = entries.old; next = next }) (nullable node.now)) }
{
    match node {
        Some(node) => collect_node(alloc, node, around, entries, next),
        None => Ok(next),
    }
}

/// The entries of a program. Fails on allocation failure alone.
pub(crate) fn entries_of(alloc: Global, program: &Node) -> Result<List<Entry>, AllocError>
    requires { nodes program.now < 2 ^ 32 }
    ensures { IfOk result (λ es. es ≡ entries_of program.now) }
{
    let mut entries = List::new(alloc);
    collect_node(alloc, program, Surroundings::nowhere(), &mut entries, 0)?;
    Ok(entries)
}
