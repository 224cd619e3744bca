// The laws of agreement and of built tables: functions that do nothing.

ghost use Rattle.es_scopes.specs.Law.{AlikeLaw, MeaningLaw, RemovedScopeLaw, ListedLaw, UnlistedLaw, CreatedReferenceLaw, ScopeFlagsLaw, SymbolFlagsLaw, NewScopeLaw, ParentLaw, BindingLaw, NameLaw, MarkLaw, ReferenceFlagsLaw, TargetLaw, NewReferenceLaw, BindingsLaw, ReferencesLaw, OrderLaw, BuiltScopesLaw, BuiltReferencesLaw, BuiltIdsLaw, BuiltTargetsLaw, OwnNamesLaw, ProgramNamesLaw, EachNamesLaw, BuiltNamesLaw, ScopeCountLaw, StatementNamesLaw};

/// In a tree that agrees with a table, what a reference means is what its number says.
pub fn references_mean_what_their_numbers_say()
    ensures { MeaningLaw }
{}

/// A table that is changed where a tree does not look agrees with it still.
pub fn alike_tables_agree()
    ensures { AlikeLaw }
{}

/// The changes of scopes after which a table is as it was for a tree.
pub fn scopes_stay_alike()
    ensures flags { ScopeFlagsLaw }
    ensures added { NewScopeLaw }
    ensures parent { ParentLaw }
    ensures removed { RemovedScopeLaw }
    ensures name { BindingLaw }
{}

/// The changes of symbols after which a table is as it was for a tree.
pub fn symbols_stay_alike()
    ensures flags { SymbolFlagsLaw }
    ensures name { NameLaw }
    ensures mark { MarkLaw }
{}

/// The changes of references after which a table is as it was for a tree.
pub fn references_stay_alike()
    ensures flags { ReferenceFlagsLaw }
    ensures target { TargetLaw }
    ensures added { NewReferenceLaw }
    ensures listed { ListedLaw }
    ensures unlisted { UnlistedLaw }
    ensures created { CreatedReferenceLaw }
{}

/// The entries of a tree have its identifiers that declare and its references, in preorder, and each names
/// scopes that stand before it.
pub fn entries_are_those_of_the_tree()
    ensures bindings { BindingsLaw }
    ensures references { ReferencesLaw }
    ensures order { OrderLaw }
{}

/// The scopes and the references of a built table are those of the tree, in preorder, with their flags.
pub fn built_tables_have_the_flags_of_the_tree()
    ensures scopes { BuiltScopesLaw }
    ensures references { BuiltReferencesLaw }
{}

/// The names that a scope gets among the entries of a tree that conforms are those that the definitions of
/// `es_steps` collect: for the scope of a node, for that of a program, for each scope of a program, and for
/// the scopes around a statement.
pub fn scopes_get_the_names_collected_for_them()
    ensures own { OwnNamesLaw }
    ensures program { ProgramNamesLaw }
    ensures each { EachNamesLaw }
    ensures built { BuiltNamesLaw }
    ensures count { ScopeCountLaw }
    ensures statement { StatementNamesLaw }
{}

/// The numbers on the nodes are those of a built table, and its references mean the nearest scope where
/// their names are seen.
pub fn built_tables_have_their_numbers_on_the_nodes()
    ensures ids { BuiltIdsLaw }
    ensures targets { BuiltTargetsLaw }
{}
