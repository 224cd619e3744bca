// The classes of a source that have private members.

ghost use Rattle.std.specs.Prelude.{◌≡◌, ◌∷◌, [], None, IfOk};
ghost use Rattle.std.specs.Option.{option_to_list};
ghost use Rattle.es_binding_faults.specs.Seen.{seen};
ghost use Rattle.es_by_number.specs.Numbered.{pairs};
ghost use Rattle.es_lowered.specs.Lowered as spec;
ghost use Rattle.es_owed_initialized.specs.Fronts.{HasFronts, first_of, front, with_fronts};
ghost use Rattle.es_owed_initialized.specs.Order.{first_of_all};
ghost use Rattle.es_seen_names.specs.PrivateMembers.{private_members_of};
ghost use Rattle.es_steps.specs.PrivateNames.{private_members};

use crate::generated::Generated;
use crate::inner::with_inner;
use crate::members::Members;
use crate::order::{earlier, is_before};
use es_by_number::numbered::Numbered;
use es_grouped::Grouped;
use es_owed::listed::Listed;
use es_seen_names::private_member::PrivateMember;
use std::alloc::{AllocError, Global};

/// The private members of a source, and their classes.
#[derive(Drop)]
pub struct PrivateClasses<'a> {
    pub members: Members<'a>,
    pub classes: Vec<u32>,
    /// Of each of these classes its front: the first of the places in the lowered program of it and of the classes in it.
    pub fronts: Grouped<Option<usize>>,
}

impl<'a> PrivateClasses<'a> {
    /// Those of this source of a lowered program. Fails on allocation failure alone.
    pub fn of(
        alloc: Global,
        names: &Generated,
        source: &Listed<'a>,
    ) -> Result<PrivateClasses<'a>, AllocError>
        ensures members { IfOk result (λ c. private_members_of c.members.list.items ≡ private_members source.now.program.now) }
        ensures fronts { IfOk result (λ c. HasFronts (seen source.now.nodes.items) (seen names.now.lowered.now.nodes.items) c.classes.items c.fronts) }
    {
        let members = Members::of(alloc, source.program)?;
        let classes = classes_of(alloc, members.list.as_slice())?;
        let fronts = fronts(alloc, names, source, classes.as_slice())?;
        Ok(PrivateClasses {
            members,
            classes,
            fronts,
        })
    }

    /// Whether the node of this number comes before the class, if there is one, and before those in it. Fails on allocation
    /// failure alone.
    pub fn is_in_front(
        &self,
        alloc: Global,
        names: &Generated,
        source: &Listed,
        number: u32,
        class: Option<u32>,
    ) -> Result<bool, AllocError>
        requires { HasFronts (seen source.now.nodes.items) (seen names.now.lowered.now.nodes.items) self.now.classes.items self.now.fronts }
        ensures { IfOk result (λ holds. holds ≡ spec.all_before number (spec.with_inner (seen source.now.nodes.items) (option_to_list class)) (seen names.now.lowered.now.nodes.items)) }
    {
        match class {
            Some(class) => self.is_in_front_of(alloc, names, source, number, class),
            None => Ok(true),
        }
    }

    #[tactic(auto, using(crate::proofs::Fronts::before_front))]
    fn is_in_front_of(
        &self,
        alloc: Global,
        names: &Generated,
        source: &Listed,
        number: u32,
        class: u32,
    ) -> Result<bool, AllocError>
        requires { HasFronts (seen source.now.nodes.items) (seen names.now.lowered.now.nodes.items) self.now.classes.items self.now.fronts }
        ensures { IfOk result (λ holds. holds ≡ spec.all_before number (spec.with_inner (seen source.now.nodes.items) (class ∷ [])) (seen names.now.lowered.now.nodes.items)) }
    {
        let front = self.front(alloc, names, source, class)?;
        Ok(is_before(names.place(number), front))
    }

    /// The front of a class. Fails on allocation failure alone.
    fn front(
        &self,
        alloc: Global,
        names: &Generated,
        source: &Listed,
        class: u32,
    ) -> Result<Option<usize>, AllocError>
        requires { HasFronts (seen source.now.nodes.items) (seen names.now.lowered.now.nodes.items) self.now.classes.items self.now.fronts }
        ensures { IfOk result (λ f. f ≡ front (seen source.now.nodes.items) (seen names.now.lowered.now.nodes.items) class) }
    {
        match first_of(self.fronts.get(class)) {
            Some(front) => Ok(front),
            None => front(alloc, names, source, class),
        }
    }
}

fn first_of(fronts: &[Option<usize>]) -> Option<Option<usize>>
    ensures { result ≡ first_of fronts.now }
{
    match fronts {
        [front, ..] => Some(*front),
        [] => None,
    }
}

/// The classes of these members, which stand class by class.
fn classes_of(alloc: Global, members: &[PrivateMember]) -> Result<Vec<u32>, AllocError> {
    let mut classes = Vec::new(alloc);
    let mut last = None;
    for member in members {
        if last != Some(member.class) {
            classes.push(member.class)?;
            last = Some(member.class);
        }
    }
    Ok(classes)
}

// ---- fronts

/// The fronts of these classes. Fails on allocation failure alone.
fn fronts(
    alloc: Global,
    names: &Generated,
    source: &Listed,
    classes: &[u32],
) -> Result<Grouped<Option<usize>>, AllocError>
    ensures { IfOk result (λ g. HasFronts (seen source.now.nodes.items) (seen names.now.lowered.now.nodes.items) classes.now g) }
{
    let items = with_fronts(alloc, names, source, classes)?;
    Grouped::of(alloc, items)
}

/// These classes, each with its front. Fails on allocation failure alone.
fn with_fronts(
    alloc: Global,
    names: &Generated,
    source: &Listed,
    classes: &[u32],
) -> Result<Vec<Numbered<Option<usize>>>, AllocError>
    ensures { IfOk result (λ r. pairs r.items ≡ with_fronts (seen source.now.nodes.items) (seen names.now.lowered.now.nodes.items) classes.now) }
{
    let mut items = Vec::new(alloc);
    for class in classes {
        let value = front(alloc, names, source, *class)?;
        items.push(Numbered {
            number: *class,
            value,
        })?;
    }
    Ok(items)
}

/// The first of the places of a class and of those in it. Fails on allocation failure alone.
fn front(
    alloc: Global,
    names: &Generated,
    source: &Listed,
    class: u32,
) -> Result<Option<usize>, AllocError>
    ensures { IfOk result (λ f. f ≡ front (seen source.now.nodes.items) (seen names.now.lowered.now.nodes.items) class) }
{
    let classes = with_inner(alloc, class, source)?;
    Ok(first_of_all(names, classes.as_slice()))
}

/// The first of the places of the nodes of these numbers.
fn first_of_all(names: &Generated, numbers: &[u32]) -> Option<usize>
    ensures { result ≡ first_of_all None numbers.now (seen names.now.lowered.now.nodes.items) }
{
    let mut first = None;
    for number in numbers {
        first = earlier(first, names.place(*number));
    }
    first
}
