// Numbers of nodes.

ghost use Rattle.std.specs.Prelude.{◌≡◌};
ghost use Rattle.es_base.specs.Numbered as numbered;
ghost use Rattle.es_steps.specs.References as references;

/// Whether the number is that of a node that is new: at least the first one.
pub fn is_new(first: u32, number: u32) -> bool
    ensures { result ≡ numbered.is_new first number }
{
    first <= number
}

/// Whether the number is among these.
pub fn has_number(number: u32, numbers: &[u32]) -> bool
    ensures { result ≡ references.has_number number numbers.now }
{
    for other in numbers {
        if number == *other {
            return true;
        }
    }
    false
}
