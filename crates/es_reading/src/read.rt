// Reading a value as a node.

ghost use Rattle.std.specs.Prelude.{◌≡◌, ◌+◌, ◌<◌, ◌≤◌, ◌++◌, ◌^◌, IfOk, IfErr, OnOk, Ok, option_map, is_some, codes, true, false};
ghost use Rattle.es_base.specs.Preorder.{nodes, nodes_of, nodes_of_part};
ghost use Rattle.es_base.specs.Conforms.{key_place};
ghost use Rattle.es_base.specs.Table.{members_of};
ghost use Rattle.es_base.specs.Tree.{nullable};
ghost use Rattle.es_node.specs.View.{has_shape, have_shapes, is_child, is_list, is_list_with_holes, is_nullable, part_of, parts_of};
ghost use Rattle.es_reading.specs.Reading.{kind_of, number_in, number_of, own_number, place_below, parent_of, below, slots_below, slot, read, reader_of};
ghost use Rattle.es_reading.specs.Look.{array_at, is_true_at};
ghost use Rattle.es_reading.specs.Members.{are_good, are_of_sorts, is_of_sort};
ghost use Rattle.es_reading.specs.Unlisted.{is_foreign_node};
ghost use Rattle.es_reading.specs.Told.{Tells, Gives, child_in, ids, list_in, member_in, nullable_in, row_in, values, values_there, values_at};
ghost use Rattle.serde_json.specs.Find.{get};
ghost use Rattle.borrowed_json.specs.View.{view};

use crate::fault::{ReadError, What};
use crate::kinds::kind_in;
use crate::leaf::leaf_of;
use crate::look::{
    is_string_at, is_there, is_true_at, items_at, span_at, string_at, u32_at, value_at,
};
use crate::members::are_good;
use crate::numbers::Numbers;
use crate::spot::{Parent, Slots, Spot};
use crate::unlisted::{floats_of, is_foreign_node};
use borrowed_json::value::Value;
use es_base::ids::NodeId;
use es_base::kind::Kind;
use es_base::list::List;
use es_base::table::{Member, Place, Sort, members};
use es_node::node::{Contents, Node, Part};
use es_node::parts::nullable_part;
use std::alloc::{AllocError, Global};

/// What the reading of each node needs.
#[derive(Clone, Copy)]
pub struct Reader {
    pub alloc: Global,
    pub numbers: Numbers,
}

/// The kind of a value that stands at a spot, by its `type`, its place and its members.
fn kind_of(value: &Value<'_>, spot: Spot, at: u32) -> Result<Kind, ReadError>
    ensures ok { IfOk result (λ k. kind_of (view value.now) spot at ≡ Ok k) }
    ensures err { IfErr result (λ e. Tells e (kind_of (view value.now) spot at)) }
{
    match string_at(value, "type") {
        None => Err(ReadError::NotATree {
            at,
            what: What::NotANode,
        }),
        Some(name) => match kind_in(name, spot, value) {
            Ok(kind) => Ok(kind),
            Err(what) => Err(ReadError::NotATree { at, what }),
        },
    }
}

/// The number of a node of this kind, where no member is a float or a bad one.
fn number_of(numbers: Numbers, value: &Value<'_>, kind: Kind, at: u32) -> Result<NodeId, ReadError>
    ensures ok { IfOk result (λ i. number_of numbers (view value.now) kind at ≡ Ok i.0) }
    ensures good { OnOk result (are_good kind (view value.now) ≡ true) }
    ensures err { IfErr result (λ e. Tells e (number_of numbers (view value.now) kind at)) }
{
    if floats_of(members(kind), value) {
        return Err(ReadError::Float { at });
    }
    if !are_good(kind, value) {
        return Err(ReadError::NotATree {
            at,
            what: What::BadMember,
        });
    }
    match number_in(numbers, value, at) {
        Some(id) => Ok(NodeId(id)),
        None => Err(ReadError::NotATree {
            at,
            what: What::BadMember,
        }),
    }
}

fn number_in(numbers: Numbers, value: &Value<'_>, at: u32) -> Option<u32>
    ensures { result ≡ number_in numbers (view value.now) at }
{
    match numbers {
        Numbers::Preorder => Some(at),
        Numbers::Given => u32_at(value, "node"),
    }
}

/// The place of a child: a pattern is assigned by `=` alone.
fn place_below(kind: Kind, value: &Value<'_>, place: Place) -> Place
    ensures { result ≡ place_below kind (view value.now) place }
{
    match (kind, place) {
        (Kind::AssignmentExpression, Place::AssignmentTarget) => {
            if is_string_at(value, "operator", "=") {
                Place::AssignmentTarget
            } else {
                Place::SimpleAssignmentTarget
            }
        }
        _ => place,
    }
}

/// The place of a key: an expression where it is computed.
fn key_place(value: &Value<'_>, place: Place) -> Place
    ensures { result ≡ key_place (is_true_at (codes "computed") (view value.now)) place }
{
    if is_true_at(value, "computed") {
        Place::Expression
    } else {
        place
    }
}

fn parent_of(kind: Kind, spot: Spot, value: &Value<'_>) -> Parent
    ensures { result ≡ parent_of kind spot (view value.now) }
{
    let sourced = match kind {
        Kind::ExportNamedDeclaration => is_there(value, "source"),
        Kind::ExportSpecifier => spot.sourced,
        _ => false,
    };
    Parent { kind, sourced }
}

fn below(parent: Parent, place: Place) -> Spot
    ensures { result ≡ below parent place }
{
    Spot {
        place,
        last: true,
        sourced: parent.sourced,
    }
}

fn slots_below(parent: Parent, holes: bool, place: Place) -> Slots
    ensures { result ≡ slots_below parent holes place }
{
    Slots {
        place,
        holes,
        sourced: parent.sourced,
    }
}

fn slot(slots: Slots, last: bool) -> Spot
    ensures { result ≡ slot slots last }
{
    Spot {
        place: slots.place,
        last,
        sourced: slots.sourced,
    }
}

/// Adds the number of a node, where it is foreign.
fn note(
    foreign: &mut List<NodeId>,
    kind: Kind,
    value: &Value<'_>,
    node_id: NodeId,
) -> Result<(), AllocError>
    ensures { OnOk result (ids foreign.new ≡ ids foreign.old ++ own_number (is_foreign_node kind (view value.now)) node_id.0) }
{
    if is_foreign_node(kind, value) {
        foreign.push(node_id)?;
    }
    Ok(())
}

/// Reads a node, which has the number `at` in preorder; gives the number of what follows too, and
/// adds the numbers of foreign nodes.
#[cycle(read)]
pub fn read_node(
    reader: Reader,
    value: &Value<'_>,
    spot: Spot,
    at: u32,
    foreign: &mut List<NodeId>,
) -> Result<(Node, u32), ReadError>
    requires { at + values (view value.now) < 2 ^ 32 }
    ensures tree { IfOk result (λ r.
        Gives (read reader.numbers (view value.now) spot at) r.0 (ids foreign.old) (ids foreign.new)) }
    ensures next { IfOk result (λ r. r.1 ≡ at + nodes r.0) }
    ensures bound { IfOk result (λ r. r.1 ≤ at + values (view value.now)) }
    ensures err { IfErr result (λ e. Tells e (read reader.numbers (view value.now) spot at)) }
{
    let kind = kind_of(value, spot, at)?;
    let node_id = number_of(reader.numbers, value, kind, at)?;
    note(foreign, kind, value, node_id)?;
    let parent = parent_of(kind, spot, value);
    let (parts, next) = read_members(reader, value, parent, at + 1, foreign)?;
    let contents = Contents {
        node_id,
        span: span_at(value),
        semantic_id: None,
        parts,
    };
    Ok((Node::new(kind, contents), next))
}

/// Reads the members of a node.
#[cycle(read)]
fn read_members(
    reader: Reader,
    value: &Value<'_>,
    parent: Parent,
    at: u32,
    foreign: &mut List<NodeId>,
) -> Result<(List<Part>, u32), ReadError>
    requires room { at + values_at (view value.now) (members_of parent.kind) < 2 ^ 32 }
    requires good { are_of_sorts (view value.now) (members_of parent.kind) ≡ true }
    ensures parts { IfOk result (λ r.
        Gives (row_in reader.numbers (view value.now) parent at)
        (parts_of r.0) (ids foreign.old) (ids foreign.new)) }
    ensures shapes { IfOk result (λ r. have_shapes (members_of parent.kind) r.0 ≡ true) }
    ensures next { IfOk result (λ r. r.1 ≡ at + nodes_of (parts_of r.0)) }
    ensures bound { IfOk result (λ r. r.1 ≤ at + values_at (view value.now) (members_of parent.kind)) }
    ensures err { IfErr result (λ e. Tells e (row_in reader.numbers (view value.now) parent at)) }
{
    let members = members(parent.kind);
    let mut parts = List::from_vec(Vec::with_capacity(reader.alloc, members.len())?);
    let mut next = at;
    for member in members {
        let (part, after) = read_member(reader, value, parent, *member, next, foreign)?;
        parts.push(part)?;
        next = after;
    }
    Ok((parts, next))
}

/// Reads what stands at a member.
#[cycle(read)]
fn read_member(
    reader: Reader,
    value: &Value<'_>,
    parent: Parent,
    member: Member,
    at: u32,
    foreign: &mut List<NodeId>,
) -> Result<(Part, u32), ReadError>
    requires room { at + values_there (get member.name.now (view value.now)) < 2 ^ 32 }
    requires good { is_of_sort (view value.now) member.name.now member.sort ≡ true }
    ensures part { IfOk result (λ r.
        Gives (member_in reader.numbers (view value.now) parent member.name.now member.sort at)
        (part_of r.0) (ids foreign.old) (ids foreign.new)) }
    ensures shape { IfOk result (λ r. has_shape member.sort r.0 ≡ true) }
    ensures next { IfOk result (λ r. r.1 ≡ at + nodes_of_part (part_of r.0)) }
    ensures bound { IfOk result (λ r. r.1 ≤ at + values_there (get member.name.now (view value.now))) }
    ensures err { IfErr result (λ e.
        Tells e (member_in reader.numbers (view value.now) parent member.name.now member.sort at)) }
{
    match member.sort {
        Sort::Child(place) => {
            let spot = below(parent, place_below(parent.kind, value, place));
            read_child(reader, value, member, spot, at, foreign)
        }
        Sort::Key(place) => {
            let spot = below(parent, key_place(value, place));
            read_child(reader, value, member, spot, at, foreign)
        }
        Sort::Nullable(place) => {
            read_nullable(reader, value, member, below(parent, place), at, foreign)
        }
        Sort::List(place) | Sort::NonEmptyList(place) => {
            let slots = slots_below(parent, false, place);
            read_list(reader, value, member, slots, at, foreign)
        }
        Sort::ListWithHoles(place) => {
            let slots = slots_below(parent, true, place);
            read_list_with_holes(reader, value, member, slots, at, foreign)
        }
        sort => Ok((leaf_of(reader.alloc, value, member.name, sort)?, at)),
    }
}

/// Reads the node at a member.
#[cycle(read)]
fn read_child(
    reader: Reader,
    value: &Value<'_>,
    member: Member,
    spot: Spot,
    at: u32,
    foreign: &mut List<NodeId>,
) -> Result<(Part, u32), ReadError>
    requires room { at + values_there (get member.name.now (view value.now)) < 2 ^ 32 }
    requires good { is_some (get member.name.now (view value.now)) ≡ true }
    ensures part { IfOk result (λ r.
        Gives (child_in reader.numbers (view value.now) member.name.now spot at)
        (part_of r.0) (ids foreign.old) (ids foreign.new)) }
    ensures shape { IfOk result (λ r. is_child r.0 ≡ true) }
    ensures next { IfOk result (λ r. r.1 ≡ at + nodes_of_part (part_of r.0)) }
    ensures bound { IfOk result (λ r. r.1 ≤ at + values_there (get member.name.now (view value.now))) }
    ensures err { IfErr result (λ e.
        Tells e (child_in reader.numbers (view value.now) member.name.now spot at)) }
{
    let (node, next) = read_node(reader, value_at(value, member.name), spot, at, foreign)?;
    Ok((Part::Child(node), next))
}

/// Reads the node at a member, or none where the member is absent or null.
#[cycle(read)]
fn read_nullable(
    reader: Reader,
    value: &Value<'_>,
    member: Member,
    spot: Spot,
    at: u32,
    foreign: &mut List<NodeId>,
) -> Result<(Part, u32), ReadError>
    requires { at + values_there (get member.name.now (view value.now)) < 2 ^ 32 }
    ensures part { IfOk result (λ r.
        Gives (nullable_in reader.numbers (view value.now) member.name.now spot at)
        (part_of r.0) (ids foreign.old) (ids foreign.new)) }
    ensures shape { IfOk result (λ r. is_nullable r.0 ≡ true) }
    ensures next { IfOk result (λ r. r.1 ≡ at + nodes_of_part (part_of r.0)) }
    ensures bound { IfOk result (λ r. r.1 ≤ at + values_there (get member.name.now (view value.now))) }
    ensures err { IfErr result (λ e.
        Tells e (nullable_in reader.numbers (view value.now) member.name.now spot at)) }
{
    match value.get(member.name) {
        None => Ok((Part::Absent, at)),
        Some(found) => {
            let (node, next) = read_nullable_node(reader, found, spot, at, foreign)?;
            Ok((nullable_part(node), next))
        }
    }
}

/// Reads a node, or none where the value is null.
#[cycle(read)]
fn read_nullable_node(
    reader: Reader,
    value: &Value<'_>,
    spot: Spot,
    at: u32,
    foreign: &mut List<NodeId>,
) -> Result<(Option<Node>, u32), ReadError>
    requires { at + values (view value.now) < 2 ^ 32 }
    ensures part { IfOk result (λ r.
        Gives ((reader_of reader.numbers (view value.now)).item true spot at)
        (nullable r.0) (ids foreign.old) (ids foreign.new)) }
    ensures next { IfOk result (λ r. r.1 ≡ at + nodes_of_part (nullable r.0)) }
    ensures bound { IfOk result (λ r. r.1 ≤ at + values (view value.now)) }
    ensures err { IfErr result (λ e. Tells e ((reader_of reader.numbers (view value.now)).item true spot at)) }
{
    if value.is_null() {
        return Ok((None, at));
    }
    let (node, next) = read_node(reader, value, spot, at, foreign)?;
    Ok((Some(node), next))
}

/// Reads the list at a member, which has no holes.
#[cycle(read)]
fn read_list(
    reader: Reader,
    value: &Value<'_>,
    member: Member,
    slots: Slots,
    at: u32,
    foreign: &mut List<NodeId>,
) -> Result<(Part, u32), ReadError>
    requires room { at + values_there (get member.name.now (view value.now)) < 2 ^ 32 }
    requires good { is_some (array_at member.name.now (view value.now)) ≡ true }
    requires full { slots.holes ≡ false }
    ensures part { IfOk result (λ r.
        Gives (list_in reader.numbers (view value.now) member.name.now slots at)
        (part_of r.0) (ids foreign.old) (ids foreign.new)) }
    ensures shape { IfOk result (λ r. is_list r.0 ≡ true) }
    ensures next { IfOk result (λ r. r.1 ≡ at + nodes_of_part (part_of r.0)) }
    ensures bound { IfOk result (λ r. r.1 ≤ at + values_there (get member.name.now (view value.now))) }
    ensures err { IfErr result (λ e.
        Tells e (list_in reader.numbers (view value.now) member.name.now slots at)) }
{
    let items = items_at(value, member.name);
    let mut nodes = List::from_vec(Vec::with_capacity(reader.alloc, items.len())?);
    let mut next = at;
    for (i, item) in items.iter().enumerate() {
        let spot = slot(slots, i + 1 == items.len());
        let (node, after) = read_node(reader, item, spot, next, foreign)?;
        nodes.push(node)?;
        next = after;
    }
    Ok((Part::List(nodes), next))
}

/// Reads the list at a member, which may have holes: they are null.
#[cycle(read)]
fn read_list_with_holes(
    reader: Reader,
    value: &Value<'_>,
    member: Member,
    slots: Slots,
    at: u32,
    foreign: &mut List<NodeId>,
) -> Result<(Part, u32), ReadError>
    requires room { at + values_there (get member.name.now (view value.now)) < 2 ^ 32 }
    requires good { is_some (array_at member.name.now (view value.now)) ≡ true }
    requires holes { slots.holes ≡ true }
    ensures part { IfOk result (λ r.
        Gives (list_in reader.numbers (view value.now) member.name.now slots at)
        (part_of r.0) (ids foreign.old) (ids foreign.new)) }
    ensures shape { IfOk result (λ r. is_list_with_holes r.0 ≡ true) }
    ensures next { IfOk result (λ r. r.1 ≡ at + nodes_of_part (part_of r.0)) }
    ensures bound { IfOk result (λ r. r.1 ≤ at + values_there (get member.name.now (view value.now))) }
    ensures err { IfErr result (λ e.
        Tells e (list_in reader.numbers (view value.now) member.name.now slots at)) }
{
    let items = items_at(value, member.name);
    let mut nodes = List::from_vec(Vec::with_capacity(reader.alloc, items.len())?);
    let mut next = at;
    for (i, item) in items.iter().enumerate() {
        let spot = slot(slots, i + 1 == items.len());
        let (node, after) = read_nullable_node(reader, item, spot, next, foreign)?;
        nodes.push(node)?;
        next = after;
    }
    Ok((Part::Holes(nodes), next))
}
