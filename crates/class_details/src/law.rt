// Laws of looking a private name up: functions that do nothing.

ghost use Rattle.class_details.specs.Law.{NearestLaw};

/// What a private name means is the member of the innermost class that has one of this name (ECMA-262, 9.2).
pub fn the_nearest_class_is_found()
    ensures { NearestLaw }
{}
