// Laws of what is evaluated once and read again: functions that do nothing.

ghost use Rattle.es_common.specs.Law.{BindingLaw, TemporaryLaw, ThisLaw};

/// `t = e` has the events and the value of `e`, where t is a temporary, and behind it each read of t has no event and this
/// value; where the evaluation of `e` does not throw, and its value is one that a temporary may hold.
pub fn temporary_holds_its_value()
    ensures { TemporaryLaw }
{}

/// A read of a binding that does not vary, or of `this`, has no event and the same value each time.
pub fn what_does_not_vary_is_read_again()
    ensures binding { BindingLaw }
    ensures this { ThisLaw }
{}
