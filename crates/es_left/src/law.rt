// The laws of programs that have nothing to lower: functions that do nothing.

ghost use Rattle.es_left.specs.Law.{UnloweredLaw, UnshapedLaw};

/// In a program that holds nothing that the options lower, no class is lowered.
pub fn unchanged_programs_have_no_lowered_class()
    ensures { UnloweredLaw }
{}

/// Such a program has no shape, where it is a program of the table's grammar and static blocks are not lowered.
pub fn unchanged_programs_have_no_shape()
    ensures { UnshapedLaw }
{}
