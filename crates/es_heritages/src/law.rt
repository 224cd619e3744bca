// Heritages by their form and by their evaluation. Printed by tools/rows/heritages.js.

ghost use Rattle.es_heritages.specs.Agreement.{HasHeritages};
ghost use Rattle.es_heritages.specs.Programs.{source_bindings, options_bindings, heritages_bindings, source_caught_names, options_caught_names, heritages_caught_names, source_written_class, options_written_class, heritages_written_class, source_own_name, options_own_name, heritages_own_name, source_shadowed_class, options_shadowed_class, heritages_shadowed_class, source_imports, options_imports, heritages_imports, source_arguments_of_functions, options_arguments_of_functions, heritages_arguments_of_functions, source_written_arguments, options_written_arguments, heritages_written_arguments, source_declared_arguments, options_declared_arguments, heritages_declared_arguments, source_constants, options_constants, heritages_constants, source_targets, options_targets, heritages_targets, source_templates, options_templates, heritages_templates, source_unary, options_unary, heritages_unary, source_sequences, options_sequences, heritages_sequences, source_functions, options_functions, heritages_functions, source_operations, options_operations, heritages_operations, source_members, options_members, heritages_members, source_suspended, options_suspended, heritages_suspended, source_nested_heritages, options_nested_heritages, heritages_nested_heritages, source_keys, options_keys, heritages_keys, source_names_in_heads, options_names_in_heads, heritages_names_in_heads, source_elements, options_elements, heritages_elements, source_removed_fields, options_removed_fields, heritages_removed_fields, source_set_fields, options_set_fields, heritages_set_fields, source_blocks, options_blocks, heritages_blocks, source_functions_in_blocks, options_functions_in_blocks, heritages_functions_in_blocks, source_statements_in_blocks, options_statements_in_blocks, heritages_statements_in_blocks, source_names_in_blocks, options_names_in_blocks, heritages_names_in_blocks};

/// Of each class with a heritage in these programs, in preorder, whether that has events: the same by its
/// form as by evaluation. Does nothing.
pub fn heritages_have_events()
    ensures bindings { HasHeritages options_bindings source_bindings heritages_bindings }
    ensures caught_names { HasHeritages options_caught_names source_caught_names heritages_caught_names }
    ensures written_class { HasHeritages options_written_class source_written_class heritages_written_class }
    ensures own_name { HasHeritages options_own_name source_own_name heritages_own_name }
    ensures shadowed_class { HasHeritages options_shadowed_class source_shadowed_class heritages_shadowed_class }
    ensures imports { HasHeritages options_imports source_imports heritages_imports }
    ensures arguments_of_functions { HasHeritages options_arguments_of_functions source_arguments_of_functions heritages_arguments_of_functions }
    ensures written_arguments { HasHeritages options_written_arguments source_written_arguments heritages_written_arguments }
    ensures declared_arguments { HasHeritages options_declared_arguments source_declared_arguments heritages_declared_arguments }
    ensures constants { HasHeritages options_constants source_constants heritages_constants }
    ensures targets { HasHeritages options_targets source_targets heritages_targets }
    ensures templates { HasHeritages options_templates source_templates heritages_templates }
    ensures unary { HasHeritages options_unary source_unary heritages_unary }
    ensures sequences { HasHeritages options_sequences source_sequences heritages_sequences }
    ensures functions { HasHeritages options_functions source_functions heritages_functions }
    ensures operations { HasHeritages options_operations source_operations heritages_operations }
    ensures members { HasHeritages options_members source_members heritages_members }
    ensures suspended { HasHeritages options_suspended source_suspended heritages_suspended }
    ensures nested_heritages { HasHeritages options_nested_heritages source_nested_heritages heritages_nested_heritages }
    ensures keys { HasHeritages options_keys source_keys heritages_keys }
    ensures names_in_heads { HasHeritages options_names_in_heads source_names_in_heads heritages_names_in_heads }
    ensures elements { HasHeritages options_elements source_elements heritages_elements }
    ensures removed_fields { HasHeritages options_removed_fields source_removed_fields heritages_removed_fields }
    ensures set_fields { HasHeritages options_set_fields source_set_fields heritages_set_fields }
    ensures blocks { HasHeritages options_blocks source_blocks heritages_blocks }
    ensures functions_in_blocks { HasHeritages options_functions_in_blocks source_functions_in_blocks heritages_functions_in_blocks }
    ensures statements_in_blocks { HasHeritages options_statements_in_blocks source_statements_in_blocks heritages_statements_in_blocks }
    ensures names_in_blocks { HasHeritages options_names_in_blocks source_names_in_blocks heritages_names_in_blocks }
{}
