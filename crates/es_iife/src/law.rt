// The law of functions that are called where they stand: a function that does nothing.

ghost use Rattle.es_iife.specs.Law.{CalledLaw};

/// `(() => { return e; })()` has the events and the value of `e`, where it is new (ECMA-262, 13.3.6 and 15.3).
pub fn called_arrow_gives_its_value()
    ensures { CalledLaw }
{}
