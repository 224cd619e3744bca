// Looking a private name up in classes.

ghost use Rattle.std.specs.Prelude.{◌≡◌};
ghost use Rattle.class_details.specs.Stack.{found, found_in};

use crate::class_details::ClassDetails;
use crate::found::Found;
use es_base::name::Name;

/// The member of this name of the last class that declares it.
pub(crate) fn find_among(classes: &[ClassDetails], name: &Name) -> Option<Found>
    ensures { result ≡ found name.now classes.now }
{
    let mut place = classes.len();
    while place > 0 {
        place -= 1;
        let member = find_in(&classes[place], place, name);
        if member.is_some() {
            return member;
        }
    }
    None
}

/// The member of this name of the class at this place.
fn find_in(class: &ClassDetails, place: usize, name: &Name) -> Option<Found>
    ensures { result ≡ found_in name.now place class.now }
{
    match class.private_props.get_full(name) {
        Some((member, _, prop)) => Some(Found {
            class: place,
            member,
            is_static: prop.is_static,
            method_kind: prop.method_kind,
            has_second: prop.binding2.is_some(),
            is_declaration: class.is_declaration,
        }),
        None => None,
    }
}
