// Whether a tree is one of the table's grammar.

ghost use Rattle.std.specs.Prelude.{◌≡◌, [], map, true, false, bytes_eq};
ghost use Rattle.es_base.specs.Tree.{child, nullable, trees, nullable_trees};
ghost use Rattle.es_base.specs.Conforms.{conforms, parts_conform, part_conforms, items_conform, item_conforms, is_rest, key_place};
ghost use Rattle.es_base.specs.Table.{field_of};
ghost use Rattle.es_node.specs.View.{part_of, parts_of, has_shape, have_shapes};

use super::rules::{boolean_at, is_rest, kind_rule, literal_conforms, place_rule};
use super::{Node, Part};
use es_base::name::Name;
use es_base::strings::is_foreign_name;
use es_base::table::{Member, Place, Sort, fits, members};

impl Node {
    /// Whether the tree is one of the table's grammar at this place: its kind may stand there, its parts
    /// are those of its members, and so are all nodes below. Allocates nothing. (docs/TREE.md)
    pub fn conforms(&self, place: Place) -> bool
        ensures { result ≡ conforms place self.now }
    {
        node_conforms(self, place)
    }
}

#[cycle(conforms)]
#[tactic(auto, using(crate::proofs::KindRules::conforms_node, crate::proofs::Below::nodes_in))]
fn node_conforms(node: &Node, place: Place) -> bool
    ensures { result ≡ conforms place node.now }
{
    let kind = node.kind();
    let parts = node.parts();
    let members = members(kind);
    fits(place, kind)
        && place_rule(place, kind, parts)
        && kind_rule(kind, parts)
        && parts_conform(parts, members, boolean_at("computed", members, parts))
}

/// Whether the parts are those of the members, whose shapes they have.
#[cycle(conforms)]
#[tactic(auto, using(crate::proofs::Shapes::members_length))]
fn parts_conform(parts: &[Part], members: &[Member], computed: bool) -> bool
    requires { have_shapes (map field_of members.now) parts.now ≡ true }
    ensures { result ≡ parts_conform computed (map field_of members.now) (parts_of parts.now) }
{
    for (i, part) in parts.iter().enumerate() {
        if !part_conforms(part, members[i].sort, computed) {
            return false;
        }
    }
    true
}

/// Whether the part is of this sort, whose shape it has, in a node whose key is computed or not.
#[cycle(conforms)]
#[tactic(auto, using(crate::proofs::Rows::some_list))]
fn part_conforms(part: &Part, sort: Sort, computed: bool) -> bool
    requires { has_shape sort part.now ≡ true }
    ensures { result ≡ part_conforms computed sort (part_of part.now) }
{
    match sort {
        Sort::Child(place) => node_conforms(part.as_child(), place),
        Sort::Nullable(place) => match part.as_nullable() {
            Some(node) => node_conforms(node, place),
            None => true,
        },
        Sort::Key(place) => node_conforms(part.as_child(), key_place(place, computed)),
        Sort::List(place) => items_conform(part.as_list(), place),
        Sort::NonEmptyList(place) => {
            let nodes = part.as_list();
            !nodes.is_empty() && items_conform(nodes, place)
        }
        Sort::ListWithHoles(place) => items_or_holes_conform(part.as_list_with_holes(), place),
        Sort::Name => !is_empty(part.as_string()),
        Sort::Type => is_foreign_name(part.as_string().as_str()),
        Sort::False => !part.as_boolean(),
        Sort::Literal => literal_conforms(part.as_literal()),
        Sort::NullableString | Sort::Boolean | Sort::Word(_) | Sort::Raw | Sort::Cooked => true,
    }
}

/// Whether each node of a list may stand there, and only the last is a rest.
#[cycle(conforms)]
#[tactic(auto, using(crate::proofs::Rows::rest_before))]
fn items_conform(nodes: &[Node], place: Place) -> bool
    ensures { result ≡ items_conform false place (trees nodes.now) }
{
    for (i, node) in nodes.iter().enumerate() {
        if !node_conforms(node, place) {
            return false;
        }
        if is_rest(node) && i + 1 < nodes.len() {
            return false;
        }
    }
    true
}

/// Whether each node of a list that may have holes may stand there, and only the last item is a rest.
#[cycle(conforms)]
#[tactic(auto, using(crate::proofs::Rows::rest_or_hole_before))]
fn items_or_holes_conform(nodes: &[Option<Node>], place: Place) -> bool
    ensures { result ≡ items_conform true place (nullable_trees nodes.now) }
{
    for (i, node) in nodes.iter().enumerate() {
        if !item_conforms(node, place) {
            return false;
        }
        if is_rest_item(node) && i + 1 < nodes.len() {
            return false;
        }
    }
    true
}

#[cycle(conforms)]
fn item_conforms(node: &Option<Node>, place: Place) -> bool
    ensures { result ≡ item_conforms true place (nullable node.now) }
{
    match node {
        Some(node) => node_conforms(node, place),
        None => true,
    }
}

fn is_rest_item(node: &Option<Node>) -> bool
    ensures { result ≡ is_rest (nullable node.now) }
{
    match node {
        Some(node) => is_rest(node),
        None => false,
    }
}

/// The place of a key: an expression where it is computed.
fn key_place(place: Place, computed: bool) -> Place
    ensures { result ≡ key_place computed place }
{
    if computed { Place::Expression } else { place }
}

#[tactic(auto, using(es_base::proofs::Spelling::empty_name))]
fn is_empty(name: &Name) -> bool
    ensures { result ≡ bytes_eq name.now [] }
{
    name.as_str().is_empty()
}
