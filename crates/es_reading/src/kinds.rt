// Which kind a value is.

ghost use Rattle.std.specs.Prelude.{◌≡◌};
ghost use Rattle.es_reading.specs.Kinds.{is_named, has_private_property, is_private_in, may_be_target, may_be_literal, may_be_reference, may_be_name, suits, may_stand, kind_in, kind_among};
ghost use Rattle.borrowed_json.specs.View.{view};

use crate::fault::What;
use crate::lengths::kinds_of_length;
use crate::literal::may_be_key;
use crate::look::{is_node_at, is_string_at, is_true_at};
use crate::spot::Spot;
use borrowed_json::value::Value;
use es_base::kind::Kind;
use es_base::places::is_target_place;
use es_base::strings::is_foreign_name;
use es_base::table::{Place, estree_name, fits};

/// The kind of a value whose `type` is this name: the first that has the name and may stand there.
pub fn kind_in(name: &str, spot: Spot, value: &Value<'_>) -> Result<Kind, What>
    ensures { result ≡ kind_in name.now spot (view value.now) }
{
    let mut known = false;
    for kind in kinds_of_length(name.len()) {
        if is_named(name, *kind) {
            if may_stand(spot, value, *kind) {
                return Ok(*kind);
            }
            known = true;
        }
    }
    if known {
        Err(What::WrongPlace)
    } else {
        Err(What::UnknownKind)
    }
}

/// Whether the kind has this name in ESTree.
fn is_named(name: &str, kind: Kind) -> bool
    ensures { result ≡ is_named name.now kind }
{
    match kind {
        Kind::Foreign => is_foreign_name(name),
        _ => estree_name(kind) == name,
    }
}

/// Whether the kind may stand at the spot with the members that the value has.
fn may_stand(spot: Spot, value: &Value<'_>, kind: Kind) -> bool
    ensures { result ≡ may_stand spot (view value.now) kind }
{
    fits(spot.place, kind) && suits(spot, value, kind)
}

/// What a kind asks of its spot and its members.
fn suits(spot: Spot, value: &Value<'_>, kind: Kind) -> bool
    ensures { result ≡ suits spot (view value.now) kind }
{
    match kind {
        Kind::PrivateField => has_private_property(value) && may_be_target(spot.place, value),
        Kind::MemberExpression => !has_private_property(value) && may_be_target(spot.place, value),
        Kind::PrivateIn => is_private_in(value),
        Kind::BinaryExpression => !is_private_in(value),
        Kind::IdentifierReference => may_be_reference(spot),
        Kind::IdentifierName => may_be_name(spot),
        Kind::Literal => may_be_literal(spot.place, value),
        Kind::RestElement | Kind::AssignmentTargetRest => spot.last,
        _ => true,
    }
}

/// Whether a member has a private name.
fn has_private_property(value: &Value<'_>) -> bool
    ensures { result ≡ has_private_property (view value.now) }
{
    is_node_at(value, "property", "PrivateIdentifier") && !is_true_at(value, "computed")
}

/// Whether it is a private `in`.
fn is_private_in(value: &Value<'_>) -> bool
    ensures { result ≡ is_private_in (view value.now) }
{
    is_node_at(value, "left", "PrivateIdentifier") && is_string_at(value, "operator", "in")
}

/// Whether it is no optional member where one is assigned to.
fn may_be_target(place: Place, value: &Value<'_>) -> bool
    ensures { result ≡ may_be_target place (view value.now) }
{
    !(is_target_place(place) && is_true_at(value, "optional"))
}

/// Whether it is a literal that may be a key, where it is one.
fn may_be_literal(place: Place, value: &Value<'_>) -> bool
    ensures { result ≡ may_be_literal place (view value.now) }
{
    match place {
        Place::PropertyKey | Place::ClassKey => may_be_key(value),
        _ => true,
    }
}

/// Whether it may be a reference: where an export names it, the export has no source.
fn may_be_reference(spot: Spot) -> bool
    ensures { result ≡ may_be_reference spot.place spot.sourced }
{
    match spot.place {
        Place::ExportLocal => !spot.sourced,
        _ => true,
    }
}

/// Whether it may be a mere name: where an export names it, the export has a source.
fn may_be_name(spot: Spot) -> bool
    ensures { result ≡ may_be_name spot.place spot.sourced }
{
    match spot.place {
        Place::ExportLocal => spot.sourced,
        _ => true,
    }
}
