// The law of lowerings that are right: a function that does nothing.

ghost use Rattle.lower_with.specs.Law.{RightLaw};

/// Where a lowering makes right programs alone, and declines none, no program is told as not lowered yet that has a class to be
/// lowered.
pub fn right_lowerings_are_not_refused()
    ensures { RightLaw }
{}
