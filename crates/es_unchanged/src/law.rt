// The laws of programs that have nothing to lower: functions that do nothing.

ghost use Rattle.es_unchanged.specs.Law.{UnchangedLaw, SameLaw};

/// A program that is numbered in preorder and has nothing that the options lower owes nothing as it is, without generated
/// names.
pub fn unchanged_programs_owe_nothing()
    ensures { UnchangedLaw }
{}

/// And it means as a lowered program what it means as a source, if it has a meaning.
pub fn unchanged_programs_mean_the_same()
    ensures { SameLaw }
{}
