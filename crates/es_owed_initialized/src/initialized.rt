// Each generated name is given what it stands for, once and in its place.

ghost use Rattle.std.specs.Prelude.{◌≡◌, ◌&&◌, ◌||◌, IfOk};
ghost use Rattle.std.specs.Option.{option_to_list};
ghost use Rattle.es_base.specs.Preorder.{preorder};
ghost use Rattle.es_binding_faults.specs.Seen.{seen};
ghost use Rattle.es_owed_initialized.specs.Fronts.{HasFronts};
ghost use Rattle.es_owed_initialized.specs.Initial.{pairs_of};
ghost use Rattle.es_owed_initialized.specs.Placed.{is_one_before, stands};
ghost use Rattle.es_seen_names.specs.PrivateMembers.{private_members_of};
ghost use Rattle.es_steps.specs.KeptNodes as kept;
ghost use Rattle.es_lowered.specs.Lowered as spec;
ghost use Rattle.es_steps.specs.PrivateNames as privates;

use crate::generated::Generated;
use crate::initializing::{Initialization, initializations};
use crate::members::{belongs, class_before};
use crate::private_classes::PrivateClasses;
use es_base::kind::Kind;
use es_base::ledger::{GeneratedKind, LedgerEntry};
use es_generated::ledger::Ledger;
use es_node::node::Node;
use es_owed::listed::Listed;
use std::alloc::{AllocError, Global};

/// Whether each generated name that stands for something is given that by one node, in front of the class that it belongs to
/// and of those in that, and a temporary is assigned at most once. Fails on allocation failure alone.
pub fn initializations_stand(
    alloc: Global,
    first: u32,
    ledger: &Ledger,
    source: &Listed,
    lowered: &Listed,
) -> Result<bool, AllocError>
    ensures { IfOk result (λ holds. holds ≡ spec.initializations_stand first ledger.now source.now.program.now lowered.now.program.now ledger.now) }
{
    let names = Generated::of(alloc, first, ledger, lowered)?;
    let classes = PrivateClasses::of(alloc, &names, source)?;
    all_stand(alloc, &names, source, &classes, ledger.entries())
}

fn all_stand(
    alloc: Global,
    names: &Generated,
    source: &Listed,
    classes: &PrivateClasses,
    entries: &[LedgerEntry],
) -> Result<bool, AllocError>
    requires members { private_members_of classes.now.members.list.items ≡ privates.private_members source.now.program.now }
    requires fronts { HasFronts (seen source.now.nodes.items) (seen names.now.lowered.now.nodes.items) classes.now.classes.items classes.now.fronts }
    ensures { IfOk result (λ holds. holds ≡ spec.initializations_stand names.now.first names.now.ledger.now source.now.program.now names.now.lowered.now.program.now entries.now) }
{
    for entry in entries {
        if !entry_stands(alloc, names, source, classes, entry)? {
            return Ok(false);
        }
    }
    Ok(true)
}

#[tactic(auto, using(crate::proofs::Placed::stands_by, crate::proofs::Placed::stands_given))]
fn entry_stands(
    alloc: Global,
    names: &Generated,
    source: &Listed,
    classes: &PrivateClasses,
    entry: &LedgerEntry,
) -> Result<bool, AllocError>
    requires members { private_members_of classes.now.members.list.items ≡ privates.private_members source.now.program.now }
    requires fronts { HasFronts (seen source.now.nodes.items) (seen names.now.lowered.now.nodes.items) classes.now.classes.items classes.now.fronts }
    ensures { IfOk result (λ holds. holds ≡ spec.initialization_stands entry.now.kind source.now.program.now names.now.lowered.now.program.now (spec.initializations names.now.first names.now.ledger.now names.now.lowered.now.program.now entry.now.name entry.now.kind (preorder names.now.lowered.now.program.now))) }
{
    if needs_none(entry.kind) && !is_temporary(entry.kind) {
        return Ok(true);
    }
    let found = initializations(alloc, names, entry.name.as_str(), entry.kind)?;
    initialization_stands(alloc, names, source, classes, entry.kind, found.as_slice())
}

/// Whether this is what gives a name of this kind its values: nothing, at most one node, or one in its place. Fails on
/// allocation failure alone.
fn initialization_stands(
    alloc: Global,
    names: &Generated,
    source: &Listed,
    classes: &PrivateClasses,
    kind: GeneratedKind,
    found: &[Initialization],
) -> Result<bool, AllocError>
    requires { HasFronts (seen source.now.nodes.items) (seen names.now.lowered.now.nodes.items) classes.now.classes.items classes.now.fronts }
    ensures { IfOk result (λ holds. holds ≡ stands kind (private_members_of classes.now.members.list.items) (seen source.now.nodes.items) (seen names.now.lowered.now.nodes.items) (pairs_of found.now)) }
{
    if needs_none(kind) && (!is_temporary(kind) || is_at_most_one(found)) {
        return Ok(true);
    }
    let members = classes.members.about(kind);
    if !belongs(members, kind) {
        return Ok(false);
    }
    let class = class_before(kind, members);
    is_one_in_place(alloc, names, source, classes, class, found)
}

fn needs_none(kind: GeneratedKind) -> bool
    ensures { result ≡ spec.needs_none kind }
{
    matches!(
        kind,
        GeneratedKind::Temp | GeneratedKind::Param | GeneratedKind::Args | GeneratedKind::Private(_)
    )
}

fn is_temporary(kind: GeneratedKind) -> bool
    ensures { result ≡ spec.is_temp kind }
{
    matches!(kind, GeneratedKind::Temp)
}

fn is_at_most_one(found: &[Initialization]) -> bool
    ensures { result ≡ spec.is_at_most_one (pairs_of found.now) }
{
    match found {
        [] => true,
        [_] => true,
        _ => false,
    }
}

// ---- in its place

/// Whether there is one initialization, of the right form, and it is a declared function or stands in front of the class, if
/// there is one, and of those in that. Fails on allocation failure alone.
fn is_one_in_place(
    alloc: Global,
    names: &Generated,
    source: &Listed,
    classes: &PrivateClasses,
    class: Option<u32>,
    found: &[Initialization],
) -> Result<bool, AllocError>
    requires { HasFronts (seen source.now.nodes.items) (seen names.now.lowered.now.nodes.items) classes.now.classes.items classes.now.fronts }
    ensures { IfOk result (λ holds. holds ≡ is_one_before (option_to_list class) (seen source.now.nodes.items) (seen names.now.lowered.now.nodes.items) (pairs_of found.now)) }
{
    match found {
        [one] => is_in_place(alloc, names, source, classes, class, *one),
        _ => Ok(false),
    }
}

fn is_in_place(
    alloc: Global,
    names: &Generated,
    source: &Listed,
    classes: &PrivateClasses,
    class: Option<u32>,
    one: Initialization,
) -> Result<bool, AllocError>
    requires { HasFronts (seen source.now.nodes.items) (seen names.now.lowered.now.nodes.items) classes.now.classes.items classes.now.fronts }
    ensures { IfOk result (λ holds. holds ≡ (one.is_right && (spec.is_declared_function one.number (seen names.now.lowered.now.nodes.items) || spec.all_before one.number (spec.with_inner (seen source.now.nodes.items) (option_to_list class)) (seen names.now.lowered.now.nodes.items)))) }
{
    if !one.is_right {
        return Ok(false);
    }
    if is_declared_function(one.number, names.lowered) {
        return Ok(true);
    }
    classes.is_in_front(alloc, names, source, one.number, class)
}

/// Whether a node of this number declares a function.
#[tactic(auto, using(crate::proofs::Placed::functions_numbered))]
fn is_declared_function(number: u32, lowered: &Listed) -> bool
    ensures { result ≡ spec.is_declared_function number (seen lowered.now.nodes.items) }
{
    declares_function(number, lowered.numbered(number))
}

/// Whether one of these nodes does.
#[tactic(auto, using(es_owed::proofs::Nodes::number_of_node))]
fn declares_function(number: u32, nodes: &[&Node]) -> bool
    ensures { result ≡ spec.is_declared_function number (seen nodes.now) }
{
    for node in nodes {
        if number == node.node_id().0 && is_function_declaration(node) {
            return true;
        }
    }
    false
}

#[tactic(auto, using(crate::proofs::Placed::function_by_kind))]
fn is_function_declaration(node: &Node) -> bool
    ensures { result ≡ kept.is_function_declaration node.now }
{
    matches!(node.kind(), Kind::FunctionDeclaration)
}
