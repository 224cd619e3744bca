// What is written is read again: a law, which does nothing.

ghost use Rattle.es_ledger.specs.Laws.{WrittenNamesAreRead};

/// The generated names of a lowered program that was written are read from its value.
pub fn written_names_are_read()
    ensures { WrittenNamesAreRead }
{}
