// Tests of places.

ghost use Rattle.std.specs.Prelude.{◌≡◌};
ghost use Rattle.es_base.specs.Conforms.{is_target_place};

use crate::table::Place;

/// Whether what stands in the place is assigned to.
pub fn is_target_place(place: Place) -> bool
    ensures { result ≡ is_target_place place }
{
    matches!(
        place,
        Place::SimpleAssignmentTarget
            | Place::AssignmentTarget
            | Place::AssignmentTargetMaybeDefault
            | Place::TargetOrRest
            | Place::ForLeft
    )
}
