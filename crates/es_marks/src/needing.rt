// What holds the classes that need names, looked up by these.

ghost use Rattle.std.specs.Prelude.{◌≡◌, ◌++◌, ◌&&◌, ℕ, IfOk, OnOk};
ghost use Rattle.std.specs.Option.{option_to_list};
ghost use Rattle.std.specs.Str.{chars};
ghost use Rattle.es_by_number.specs.Numbered.{numbered};
ghost use Rattle.es_grouped.specs.Groups.{group, having};
ghost use Rattle.es_lowered.specs.Timely as spec;
ghost use Rattle.es_marks.specs.Around.{held_parts};
ghost use Rattle.es_marks.specs.Marks.{mark_of, marks_of};
ghost use Rattle.es_marks.specs.Needing.{held_named, needing_name, needing_names, with_number, with_numbers};

use crate::around::HeldPart;
use crate::marks::{Mark, is_needed};
use es_base::strings::is_word;
use es_binding_faults::leasts::Leasts;
use es_by_number::numbered::Numbered;
use es_generated::spellings::spelling_number;
use es_grouped::Grouped;
use std::alloc::{AllocError, Global};

/// A name that a class needs where it stands, with what holds the class.
#[derive(Debug, Clone, Copy)]
pub struct NeedingName<'m, 'a> {
    pub name: &'a str,
    pub held: &'m [HeldPart],
}

/// The names that classes of a program need where these stand, by the numbers of the spellings.
#[derive(Drop)]
pub struct NeedingNames<'m, 'a> {
    /// The marks of the program.
    pub marks: &'m [Mark<'a>],
    pub spellings: &'m Leasts<'a>,
    pub by_number: Grouped<NeedingName<'m, 'a>>,

    ghost are_its: { (n : ℕ) → needing_names (group n by_number) ≡ having n (with_numbers spellings.now (marks_of marks.now)) },
}

impl<'m, 'a> NeedingNames<'m, 'a> {
    /// Those among these marks. Fails on allocation failure alone.
    pub fn of(
        alloc: Global,
        spellings: &'m Leasts<'a>,
        marks: &'m [Mark<'a>],
    ) -> Result<NeedingNames<'m, 'a>, AllocError>
        ensures { IfOk result (λ n. n.marks.now ≡ marks.now) }
    {
        let by_number = by_number(alloc, spellings, marks)?;
        Ok(NeedingNames {
            marks,
            spellings,
            by_number,
        })
    }

    /// What holds the first class that needs this name.
    #[tactic(auto, using(crate::proofs::NeedingNames::held_by_number))]
    pub fn held_of(&self, name: &str) -> &'m [HeldPart]
        ensures { held_parts result.now ≡ spec.held_of (chars name.now) (marks_of self.now.marks.now) }
    {
        held_named(
            name,
            self.by_number.get(spelling_number(name, self.spellings)),
        )
    }
}

/// What holds the first of these classes that needs this name.
fn held_named<'m>(name: &str, names: &[NeedingName<'m, '_>]) -> &'m [HeldPart]
    ensures { held_parts result.now ≡ held_named (chars name.now) (needing_names names.now) }
{
    for other in names {
        if is_word(other.name, name) {
            return other.held;
        }
    }
    &[]
}

/// A number for the name of each of these marks. Fails on allocation failure alone.
pub fn spellings<'a>(alloc: Global, marks: &[Mark<'a>]) -> Result<Leasts<'a>, AllocError> {
    let mut spellings = Leasts::new(alloc);
    let mut next: u32 = 0;
    for mark in marks {
        spellings.add(mark.name, next)?;
        next = next.saturating_add(1);
    }
    Ok(spellings)
}

fn by_number<'m, 'a>(
    alloc: Global,
    spellings: &Leasts,
    marks: &'m [Mark<'a>],
) -> Result<Grouped<NeedingName<'m, 'a>>, AllocError>
    ensures { IfOk result (λ g. (n : ℕ) → needing_names (group n g) ≡ having n (with_numbers spellings.now (marks_of marks.now))) }
{
    let items = with_numbers(alloc, spellings, marks)?;
    Grouped::of(alloc, items)
}

/// Those among these marks, each with the number of its spelling. Fails on allocation failure alone.
fn with_numbers<'m, 'a>(
    alloc: Global,
    spellings: &Leasts,
    marks: &'m [Mark<'a>],
) -> Result<Vec<Numbered<NeedingName<'m, 'a>>>, AllocError>
    ensures { IfOk result (λ r. numbered needing_name r.items ≡ with_numbers spellings.now (marks_of marks.now)) }
{
    let mut items = Vec::new(alloc);
    for mark in marks {
        add_with_number(spellings, mark, &mut items)?;
    }
    Ok(items)
}

/// Adds the name of the mark, if that is of what a class needs where it stands. Fails on allocation failure alone.
fn add_with_number<'m, 'a>(
    spellings: &Leasts,
    mark: &'m Mark<'a>,
    items: &mut Vec<Numbered<NeedingName<'m, 'a>>>,
) -> Result<(), AllocError>
    ensures { OnOk result (numbered needing_name items.new.items ≡ numbered needing_name items.old.items ++ with_number spellings.now (mark_of mark.now)) }
{
    if is_of_class(mark) {
        items.push(Numbered {
            number: spelling_number(mark.name, spellings),
            value: NeedingName {
                name: mark.name,
                held: mark.around.held.as_slice(),
            },
        })?;
    }
    Ok(())
}

/// Whether it is the mark of what a class needs where it stands.
fn is_of_class(mark: &Mark) -> bool
    ensures { result ≡ (spec.is_needed (mark_of mark.now).form && spec.is_of_no_node (mark_of mark.now).node) }
{
    is_needed(mark.form) && is_of_no_node(mark.node)
}

fn is_of_no_node(node: Option<u32>) -> bool
    ensures { result ≡ spec.is_of_no_node (option_to_list node) }
{
    match node {
        Some(_) => false,
        None => true,
    }
}
