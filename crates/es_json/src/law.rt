// What the value of a program fixes: laws, which do nothing.

ghost use Rattle.es_json.specs.Laws.{ValueFixesTree, TextFixesTree, LoweredValueFixesTree, LoweredValueFixesNames, LoweredValueFixesWarnings, LoweredValueFixesShapes, LoweredTextFixesValue};

/// The value of a program fixes its tree, but for its semantic ids.
pub fn value_fixes_tree()
    ensures { ValueFixesTree }
{}

/// The value of a lowered program fixes its tree, but for its semantic ids, the generated names, the
/// warnings and the shapes, each list in its order.
pub fn lowered_value_fixes_all()
    ensures tree { LoweredValueFixesTree }
    ensures names { LoweredValueFixesNames }
    ensures warnings { LoweredValueFixesWarnings }
    ensures shapes { LoweredValueFixesShapes }
{}

/// The compact JSON text of a program fixes its tree, but for its semantic ids.
pub fn text_fixes_tree()
    ensures { TextFixesTree }
{}

/// The compact JSON text of a lowered program fixes its value, and so all that `lowered_value_fixes_all`
/// names.
pub fn lowered_text_fixes_value()
    ensures { LoweredTextFixesValue }
{}
