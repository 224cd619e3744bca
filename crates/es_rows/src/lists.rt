// Meanings that are written out, so that a reader sees the lists: functions that do nothing.

ghost use Rattle.std.specs.Prelude.{◌≡◌, [], ◌∷◌, Some, None, true, false, codes};
ghost use Rattle.es_rows.specs.Lists.{script_of_class, script_with_parameter, script_of, x, y, z, number, sum, gives};
ghost use Rattle.es_rows.specs.rows.InstanceField.{source_instance_field, output_instance_field, options_instance_field};
ghost use Rattle.es_rows.specs.rows.TwoFields.{source_two_fields, options_two_fields};
ghost use Rattle.es_rows.specs.witnesses.AnotherLiteral.{source_another_literal, output_another_literal, generated_another_literal, options_another_literal};
ghost use Rattle.es_rows.specs.witnesses.ArgumentsOfAProgram.{source_arguments_of_a_program, options_arguments_of_a_program};
ghost use Rattle.es_rows.specs.witnesses.CompoundAssignment.{source_compound_assignment, options_compound_assignment};
ghost use Rattle.es_rows.specs.witnesses.FieldsExchanged.{source_fields_exchanged, output_fields_exchanged, generated_fields_exchanged, options_fields_exchanged};
ghost use Rattle.es_rows.specs.witnesses.FreeName.{source_free_name, options_free_name};
ghost use Rattle.es_rows.specs.witnesses.NestedClasses.{source_nested_classes};
ghost use Rattle.es_steps.specs.Events.{then, none, Define, ReadName, Set, Get, Call, Operate};
ghost use Rattle.es_steps.specs.LoweredClasses.{nothing_left};
ghost use Rattle.es_steps.specs.Meaning.{source_means, lowered_means};
ghost use Rattle.es_steps.specs.PrivateNames.{a_field, a_getter, member, private_members, used, resolve_privates};
ghost use Rattle.es_steps.specs.Values.{BindingOf, ThisOf, ResultOf, Undefined, Free};

/// Lists of events: of two fields, and of those in the other order; of one field, and of another literal; of a field
/// with a free name beside a parameter of that name; of a compound assignment; of `arguments.x = 1` outside of all functions. A
/// source given back has something left to lower.
pub fn lists_are_these()
    ensures two_fields { source_means options_two_fields source_two_fields ≡ script_of_class (then (Define (ThisOf 1) x Undefined) (then (ReadName 8 (Free (codes "z"))) (then (Define (ThisOf 1) y (ResultOf 8)) none))) }
    ensures exchanged { lowered_means options_fields_exchanged generated_fields_exchanged source_fields_exchanged output_fields_exchanged ≡ script_of_class (then (ReadName 8 (Free (codes "z"))) (then (Define (ThisOf 1) y (ResultOf 8)) (then (Define (ThisOf 1) x Undefined) none))) }
    ensures one_field { source_means options_instance_field source_instance_field ≡ script_of_class (then (Define (ThisOf 1) x (number (codes "1"))) none) }
    ensures another_literal { lowered_means options_another_literal generated_another_literal source_another_literal output_another_literal ≡ script_of_class (then (Define (ThisOf 1) x (number (codes "2"))) none) }
    ensures given_back { nothing_left options_instance_field source_instance_field ≡ false }
    ensures lowered { nothing_left options_instance_field output_instance_field ≡ true }
    ensures free_name { source_means options_free_name source_free_name ≡ script_with_parameter (then (ReadName 6 (Free (codes "y"))) (then (Define (ThisOf 1) x (ResultOf 6)) (then (Operate 13 gives (BindingOf 10 ∷ [])) (then (Set (ThisOf 1) z (ResultOf 13)) none)))) }
    ensures compound { source_means options_compound_assignment source_compound_assignment ≡ script_of (then (ReadName 5 (Free (codes "o"))) (then (Call 4 (ResultOf 5) None []) (then (Get 3 (ResultOf 4) x) (then (Operate 2 sum (ResultOf 3 ∷ number (codes "1") ∷ [])) (then (Set (ResultOf 4) x (ResultOf 2)) none))))) }
    ensures arguments { source_means options_arguments_of_a_program source_arguments_of_a_program ≡ script_of (then (ReadName 4 (Free (codes "arguments"))) (then (Operate 2 gives (number (codes "1") ∷ [])) (then (Set (ResultOf 4) x (ResultOf 2)) none))) }
{}

/// The private members of
/// `class A { #x; #y; f = class extends o.#y { static get #y() {} g = #x in o; h = o.#y; }; k = o.#z; }`,
/// and which class each use of one means: the heritage of the inner class lies outside it, and no class
/// declares `#z`.
pub fn private_names_mean_the_nearest_class()
    ensures members { private_members source_nested_classes ≡ member 5 (codes "x") 1 false a_field ∷ member 7 (codes "y") 1 false a_field ∷ member 16 (codes "y") 10 true a_getter ∷ [] }
    ensures uses { resolve_privates source_nested_classes ≡ used 13 (codes "y") (Some 1) ∷ used 22 (codes "x") (Some 1) ∷ used 28 (codes "y") (Some 10) ∷ used 33 (codes "z") None ∷ [] }
{}
