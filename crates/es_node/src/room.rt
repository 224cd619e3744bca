// Printed by tools/tree.py from tools/kinds.py.
// Taking parts out of a list that keeps its capacity, and putting parts back without allocating.

ghost use Rattle.std.specs.Prelude.{◌≡◌, ◌∷◌, [], length};

use crate::node::Part;
use es_base::list::List;
use std::mem;

fn one_taken(parts: &mut [Part]) -> Part
    requires { length parts.old ≡ 1 }
    ensures was { parts.old ≡ result ∷ [] }
    ensures length { length parts.new ≡ 1 }
{
    match parts {
        [first] => mem::replace(first, Part::Absent),
        _ => unreachable!(),
    }
}

/// Takes out the one part of a list; its capacity stays.
pub fn take_one(parts: &mut List<Part>) -> Part
    requires { length parts.old ≡ 1 }
    ensures was { parts.old ≡ result ∷ [] }
    ensures length { length parts.new ≡ 1 }
{
    one_taken(parts.as_mut_slice())
}

fn one_put(parts: &mut [Part], first: Part)
    requires { length parts.old ≡ 1 }
    ensures { parts.new ≡ first ∷ [] }
{
    parts[0] = first;
}

/// Puts one part into a list of that length.
pub fn put_one(parts: &mut List<Part>, first: Part)
    requires { length parts.old ≡ 1 }
    ensures { parts.new ≡ first ∷ [] }
{
    one_put(parts.as_mut_slice(), first);
}

fn two_taken(parts: &mut [Part]) -> (Part, Part)
    requires { length parts.old ≡ 2 }
    ensures was { parts.old ≡ result.0 ∷ result.1 ∷ [] }
    ensures length { length parts.new ≡ 2 }
{
    match parts {
        [first, second] => (
            mem::replace(first, Part::Absent),
            mem::replace(second, Part::Absent),
        ),
        _ => unreachable!(),
    }
}

/// Takes out the two parts of a list; its capacity stays.
pub fn take_two(parts: &mut List<Part>) -> (Part, Part)
    requires { length parts.old ≡ 2 }
    ensures was { parts.old ≡ result.0 ∷ result.1 ∷ [] }
    ensures length { length parts.new ≡ 2 }
{
    two_taken(parts.as_mut_slice())
}

fn two_put(parts: &mut [Part], first: Part, second: Part)
    requires { length parts.old ≡ 2 }
    ensures { parts.new ≡ first ∷ second ∷ [] }
{
    parts[0] = first;
    parts[1] = second;
}

/// Puts two parts into a list of that length.
pub fn put_two(parts: &mut List<Part>, first: Part, second: Part)
    requires { length parts.old ≡ 2 }
    ensures { parts.new ≡ first ∷ second ∷ [] }
{
    two_put(parts.as_mut_slice(), first, second);
}

fn three_taken(parts: &mut [Part]) -> (Part, Part, Part)
    requires { length parts.old ≡ 3 }
    ensures was { parts.old ≡ result.0 ∷ result.1 ∷ result.2 ∷ [] }
    ensures length { length parts.new ≡ 3 }
{
    match parts {
        [first, second, third] => (
            mem::replace(first, Part::Absent),
            mem::replace(second, Part::Absent),
            mem::replace(third, Part::Absent),
        ),
        _ => unreachable!(),
    }
}

/// Takes out the three parts of a list; its capacity stays.
pub fn take_three(parts: &mut List<Part>) -> (Part, Part, Part)
    requires { length parts.old ≡ 3 }
    ensures was { parts.old ≡ result.0 ∷ result.1 ∷ result.2 ∷ [] }
    ensures length { length parts.new ≡ 3 }
{
    three_taken(parts.as_mut_slice())
}

fn three_put(parts: &mut [Part], first: Part, second: Part, third: Part)
    requires { length parts.old ≡ 3 }
    ensures { parts.new ≡ first ∷ second ∷ third ∷ [] }
{
    parts[0] = first;
    parts[1] = second;
    parts[2] = third;
}

/// Puts three parts into a list of that length.
pub fn put_three(parts: &mut List<Part>, first: Part, second: Part, third: Part)
    requires { length parts.old ≡ 3 }
    ensures { parts.new ≡ first ∷ second ∷ third ∷ [] }
{
    three_put(parts.as_mut_slice(), first, second, third);
}

fn four_taken(parts: &mut [Part]) -> (Part, Part, Part, Part)
    requires { length parts.old ≡ 4 }
    ensures was { parts.old ≡ result.0 ∷ result.1 ∷ result.2 ∷ result.3 ∷ [] }
    ensures length { length parts.new ≡ 4 }
{
    match parts {
        [first, second, third, fourth] => (
            mem::replace(first, Part::Absent),
            mem::replace(second, Part::Absent),
            mem::replace(third, Part::Absent),
            mem::replace(fourth, Part::Absent),
        ),
        _ => unreachable!(),
    }
}

/// Takes out the four parts of a list; its capacity stays.
pub fn take_four(parts: &mut List<Part>) -> (Part, Part, Part, Part)
    requires { length parts.old ≡ 4 }
    ensures was { parts.old ≡ result.0 ∷ result.1 ∷ result.2 ∷ result.3 ∷ [] }
    ensures length { length parts.new ≡ 4 }
{
    four_taken(parts.as_mut_slice())
}

fn four_put(parts: &mut [Part], first: Part, second: Part, third: Part, fourth: Part)
    requires { length parts.old ≡ 4 }
    ensures { parts.new ≡ first ∷ second ∷ third ∷ fourth ∷ [] }
{
    parts[0] = first;
    parts[1] = second;
    parts[2] = third;
    parts[3] = fourth;
}

/// Puts four parts into a list of that length.
pub fn put_four(parts: &mut List<Part>, first: Part, second: Part, third: Part, fourth: Part)
    requires { length parts.old ≡ 4 }
    ensures { parts.new ≡ first ∷ second ∷ third ∷ fourth ∷ [] }
{
    four_put(parts.as_mut_slice(), first, second, third, fourth);
}

fn five_taken(parts: &mut [Part]) -> (Part, Part, Part, Part, Part)
    requires { length parts.old ≡ 5 }
    ensures was { parts.old ≡ result.0 ∷ result.1 ∷ result.2 ∷ result.3 ∷ result.4 ∷ [] }
    ensures length { length parts.new ≡ 5 }
{
    match parts {
        [first, second, third, fourth, fifth] => (
            mem::replace(first, Part::Absent),
            mem::replace(second, Part::Absent),
            mem::replace(third, Part::Absent),
            mem::replace(fourth, Part::Absent),
            mem::replace(fifth, Part::Absent),
        ),
        _ => unreachable!(),
    }
}

/// Takes out the five parts of a list; its capacity stays.
pub fn take_five(parts: &mut List<Part>) -> (Part, Part, Part, Part, Part)
    requires { length parts.old ≡ 5 }
    ensures was { parts.old ≡ result.0 ∷ result.1 ∷ result.2 ∷ result.3 ∷ result.4 ∷ [] }
    ensures length { length parts.new ≡ 5 }
{
    five_taken(parts.as_mut_slice())
}

fn five_put(parts: &mut [Part], first: Part, second: Part, third: Part, fourth: Part, fifth: Part)
    requires { length parts.old ≡ 5 }
    ensures { parts.new ≡ first ∷ second ∷ third ∷ fourth ∷ fifth ∷ [] }
{
    parts[0] = first;
    parts[1] = second;
    parts[2] = third;
    parts[3] = fourth;
    parts[4] = fifth;
}

/// Puts five parts into a list of that length.
pub fn put_five(
    parts: &mut List<Part>,
    first: Part,
    second: Part,
    third: Part,
    fourth: Part,
    fifth: Part,
)
    requires { length parts.old ≡ 5 }
    ensures { parts.new ≡ first ∷ second ∷ third ∷ fourth ∷ fifth ∷ [] }
{
    five_put(parts.as_mut_slice(), first, second, third, fourth, fifth);
}

fn six_taken(parts: &mut [Part]) -> (Part, Part, Part, Part, Part, Part)
    requires { length parts.old ≡ 6 }
    ensures was { parts.old ≡ result.0 ∷ result.1 ∷ result.2 ∷ result.3 ∷ result.4 ∷ result.5 ∷ [] }
    ensures length { length parts.new ≡ 6 }
{
    match parts {
        [first, rest @ ..] => {
            let first = mem::replace(first, Part::Absent);
            let (second, third, fourth, fifth, sixth) = five_taken(rest);
            (first, second, third, fourth, fifth, sixth)
        }
        _ => unreachable!(),
    }
}

/// Takes out the six parts of a list; its capacity stays.
pub fn take_six(parts: &mut List<Part>) -> (Part, Part, Part, Part, Part, Part)
    requires { length parts.old ≡ 6 }
    ensures was { parts.old ≡ result.0 ∷ result.1 ∷ result.2 ∷ result.3 ∷ result.4 ∷ result.5 ∷ [] }
    ensures length { length parts.new ≡ 6 }
{
    six_taken(parts.as_mut_slice())
}

fn six_put(
    parts: &mut [Part],
    first: Part,
    second: Part,
    third: Part,
    fourth: Part,
    fifth: Part,
    sixth: Part,
)
    requires { length parts.old ≡ 6 }
    ensures { parts.new ≡ first ∷ second ∷ third ∷ fourth ∷ fifth ∷ sixth ∷ [] }
{
    parts[0] = first;
    parts[1] = second;
    parts[2] = third;
    parts[3] = fourth;
    parts[4] = fifth;
    parts[5] = sixth;
}

/// Puts six parts into a list of that length.
pub fn put_six(
    parts: &mut List<Part>,
    first: Part,
    second: Part,
    third: Part,
    fourth: Part,
    fifth: Part,
    sixth: Part,
)
    requires { length parts.old ≡ 6 }
    ensures { parts.new ≡ first ∷ second ∷ third ∷ fourth ∷ fifth ∷ sixth ∷ [] }
{
    six_put(
        parts.as_mut_slice(),
        first,
        second,
        third,
        fourth,
        fifth,
        sixth,
    );
}
