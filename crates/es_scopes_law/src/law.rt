// The laws of built tables, and of what agrees with a tree: functions that do nothing.

ghost use Rattle.es_scopes_law.specs.Law.{BuiltAgreesLaw, BuiltFlagsLaw, BuiltMarksLaw, RemovedAgreesLaw};

/// The table of a program agrees with its tree, on whose nodes the numbers of the table are written: its
/// scopes, their names, what its references mean, and which of its symbols are mutated.
pub fn built_tables_agree_with_their_trees()
    ensures { BuiltAgreesLaw }
{}

/// The symbol of a name in a scope has the flags and the mark of the identifiers that declare the name
/// there.
pub fn built_symbols_have_the_flags_of_their_identifiers()
    ensures flags { BuiltFlagsLaw }
    ensures mark { BuiltMarksLaw }
{}

/// From a table that agrees with a tree, a scope that no node has may be removed.
pub fn removed_scopes_leave_agreement()
    ensures { RemovedAgreesLaw }
{}
