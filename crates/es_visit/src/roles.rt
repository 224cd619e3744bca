// How a node stands where it does, which decides with its kind what hooks it meets.

ghost use Rattle.std.specs.Prelude.{◌≡◌, [], ◌∷◌, map};
ghost use Rattle.es_base.specs.Conforms.{boolean_at};
ghost use Rattle.es_base.specs.Table.{field_of, members_of};
ghost use Rattle.es_base.specs.Tree.{more, end};
ghost use Rattle.es_node.specs.View.{part_of, parts_of};
ghost use Rattle.es_visit.specs.Roles.{role_in, role_of, role_at, is_computed, is_static};

use es_base::kind::Kind;
use es_base::table::{Member, Place, Sort, members};
use es_node::node::Part;

/// How a node stands in the node around it.
#[derive(Debug, Clone, Copy, PartialEq, Eq)]
pub enum Role {
    /// As a statement, a declaration, an import or an export.
    Statement,
    /// As an expression.
    Expression,
    /// As what an assignment, an update or a loop writes.
    Target,
    /// Otherwise.
    Other,
}

/// The role of what stands in this place. What is an element of a pattern may be a target, and an element
/// of a call or an array an expression, as its kind says.
pub fn role_in(place: Place) -> Role
    ensures { result ≡ role_in place }
{
    match place {
        Place::Statement => Role::Statement,
        Place::Expression
        | Place::ExpressionOrSuper
        | Place::ExpressionOrSpread
        | Place::ArrowBody
        | Place::ForInit
        | Place::ExportDefault => Role::Expression,
        Place::SimpleAssignmentTarget
        | Place::AssignmentTarget
        | Place::AssignmentTargetMaybeDefault
        | Place::TargetOrRest
        | Place::ForLeft => Role::Target,
        _ => Role::Other,
    }
}

/// The role of what a member of this sort holds, in a node whose key is computed or not.
pub fn role_of(sort: Sort, computed: bool) -> Role
    ensures { result ≡ role_of computed sort }
{
    match sort {
        Sort::Child(place)
        | Sort::Nullable(place)
        | Sort::List(place)
        | Sort::NonEmptyList(place)
        | Sort::ListWithHoles(place) => role_in(place),
        Sort::Key(place) => {
            if computed {
                Role::Expression
            } else {
                role_in(place)
            }
        }
        _ => Role::Other,
    }
}

/// The role of what stands at a member of a node of this kind, whose key is computed or not.
pub fn role_at(kind: Kind, computed: bool, at: usize) -> Role
    ensures { result ≡ role_at computed (members_of kind) at }
{
    role_in_row(members(kind), computed, at)
}

#[tactic(auto, using(crate::proofs::Rows::role_found, crate::proofs::Rows::role_past))]
fn role_in_row(members: &[Member], computed: bool, at: usize) -> Role
    ensures { result ≡ role_at computed (map field_of members.now) at }
{
    if at < members.len() {
        role_of(members[at].sort, computed)
    } else {
        Role::Other
    }
}

/// Whether a node of this kind with these parts has a computed key.
pub fn is_computed(kind: Kind, parts: &[Part]) -> bool
    ensures { result ≡ is_computed kind (parts_of parts.now) }
{
    is_true_at_member("computed", members(kind), parts)
}

/// Whether a node of this kind with these parts is a static element of a class.
pub fn is_static(kind: Kind, parts: &[Part]) -> bool
    ensures { result ≡ is_static kind (parts_of parts.now) }
{
    is_true_at_member("static", members(kind), parts)
}

/// Whether the boolean at the member of this name is true.
fn is_true_at_member(name: &str, members: &[Member], parts: &[Part]) -> bool
    ensures { result ≡ boolean_at name.now (map field_of members.now) (parts_of parts.now) }
{
    for (member, part) in members.iter().zip(parts) {
        if is_true(name, member, part) {
            return true;
        }
    }
    false
}

/// Whether the member has this name, and the part is true.
fn is_true(name: &str, member: &Member, part: &Part) -> bool
    ensures { result ≡ boolean_at name.now (field_of member.now ∷ []) (more (part_of part.now) end) }
{
    match part {
        Part::Boolean(value) => member.name == name && *value,
        _ => false,
    }
}
