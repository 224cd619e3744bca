// The law of replacement: functions that do nothing.

ghost use Rattle.es_replacement.specs.Example.{LogicalLaw, LogicalHasMeaning, PrivateLaw, PrivateHasMeaning};
ghost use Rattle.es_replacement.specs.Law.{HoleLaw, StandingLaw, DeclarationLaw, MeaningLaw, ReadingLaw, AroundLaw, UnaskedLaw, ReplacementLaw, ApartLaw};

/// What may stand in the place of expressions may do so in the holes of every code.
pub fn what_may_replace_may_in_every_hole()
    ensures { HoleLaw }
{}

/// A code may stand in its own place, also where names have values that stand nowhere in it.
pub fn a_code_may_replace_itself()
    ensures { StandingLaw }
{}

/// A list of statements with a declaration of generated names, which gives them no value, may stand in the place of the
/// list without it.
pub fn a_declaration_may_be_put_into_a_list()
    ensures { DeclarationLaw }
{}

/// Programs that are read as codes of which one may stand in the place of the other have one meaning, if they declare the same.
pub fn replacing_keeps_meaning()
    ensures { MeaningLaw }
{}

/// A tree with another in its hole is read as the code around, with the code of that tree in its hole, where each node
/// around is read with it as with a hole; and the code around is the same with a third, where the same is known around.
pub fn what_is_around_is_read_alike()
    ensures reading { ReadingLaw }
    ensures around { AroundLaw }
{}

/// Each node around is read with an expression as with a hole, where the node that has it as a part is, and no rule asks
/// for its form.
pub fn rules_do_not_ask_for_what_stands_apart()
    ensures { UnaskedLaw }
{}

/// The law of replacement: what stands for an expression, in a hole of a program, keeps the program's meaning.
pub fn what_stands_for_an_expression_keeps_meaning()
    ensures { ReplacementLaw }
{}

/// An expression that no rule asks for the form of stands for another such, where the same is known around.
pub fn what_stands_apart_stands_for_an_expression()
    ensures { ApartLaw }
{}

/// An example: `(_t = a()).b || (_t.b = c)` stands for `a().b ||= c` in a script that declares the temporary `_t`, and that
/// script has a meaning.
pub fn a_logical_assignment_has_one_that_stands_for_it()
    ensures stands { LogicalLaw }
    ensures meaning { LogicalHasMeaning }
{}

/// An example: `babelHelpers.classPrivateFieldGet2(_x, this)` stands for `this.#x` in a method of its class, behind the
/// declaration of the `WeakMap` `_x`, and that script has a meaning.
pub fn a_private_field_has_one_that_stands_for_it()
    ensures stands { PrivateLaw }
    ensures meaning { PrivateHasMeaning }
{}
