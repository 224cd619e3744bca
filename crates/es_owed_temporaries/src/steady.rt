// Whether the names of a program hold one value wherever they are read.

ghost use Rattle.std.specs.Prelude.{◌≡◌, ◌++◌, ◌&&◌, [], ◌∷◌, cond, bytes_eq, IfOk, OnOk};
ghost use Rattle.std.specs.Option.{option_to_list};
ghost use Rattle.std.specs.Str.{chars};
ghost use Rattle.es_by_number.specs.Numbered.{pairs};
ghost use Rattle.es_lowered.specs.Temporaries as spec;
ghost use Rattle.es_seen_names.specs.PrivateMembers.{private_members_of};
ghost use Rattle.es_owed_temporaries.specs.Steady.{all_construct, all_in, all_of, all_of_home, all_stand, steady_by_kind, test_of};
ghost use Rattle.es_owed_temporaries.specs.Touches.{touch_here, touches_all};

use crate::class_places::ClassPlaces;
use crate::named_touches::{NamedTouches, spellings};
use crate::touches::Touch;
use es_base::ledger::{GeneratedKind, LedgerEntry};
use es_base::strings::is_word;
use es_by_number::numbered::Numbered;
use es_numbered_members::NumberedMembers;
use es_seen_names::private_member::PrivateMember;
use std::alloc::{AllocError, Global};

/// What is done with a name.
#[derive(Debug, Clone, Copy, PartialEq, Eq)]
pub enum Use {
    Declares,
    Gives,
    Reads,
}

/// Whether each generated name is steady among these touches, and declared in the body in which it is given a value. The places
/// are those of classes, and the members those of the source. Fails on allocation failure alone.
pub fn all_steady(
    alloc: Global,
    places: &[Numbered<u32>],
    members: &[PrivateMember],
    ledger: &[LedgerEntry],
    touches: &[Touch],
) -> Result<bool, AllocError>
    ensures { IfOk result (λ holds. holds ≡ spec.all_steady (pairs places.now) (private_members_of members.now) ledger.now (touches_all touches.now)) }
{
    let spellings = spellings(alloc, touches)?;
    let named = NamedTouches::of(alloc, &spellings, touches)?;
    let class_places = ClassPlaces::of(alloc, places)?;
    let numbered = NumberedMembers::of(alloc, members)?;
    all_entries_steady(alloc, &class_places, &numbered, ledger, &named)
}

fn all_entries_steady(
    alloc: Global,
    places: &ClassPlaces,
    members: &NumberedMembers,
    ledger: &[LedgerEntry],
    touches: &NamedTouches,
) -> Result<bool, AllocError>
    ensures { IfOk result (λ holds. holds ≡ spec.all_steady (pairs places.now.places.now) (private_members_of members.now.members.now) ledger.now (touches_all touches.now.touches.now)) }
{
    for entry in ledger {
        if !is_steady_entry(alloc, places, members, entry, touches)? {
            return Ok(false);
        }
    }
    Ok(true)
}

#[tactic(auto, using(crate::proofs::SteadyKinds::steady_name))]
fn is_steady_entry(
    alloc: Global,
    places: &ClassPlaces,
    members: &NumberedMembers,
    entry: &LedgerEntry,
    touches: &NamedTouches,
) -> Result<bool, AllocError>
    ensures { IfOk result (λ holds. holds ≡ (spec.is_steady_name (pairs places.now.places.now) (private_members_of members.now.members.now) entry.now.kind entry.now.name (touches_all touches.now.touches.now) && spec.is_near (spec.declarations_of entry.now.name (touches_all touches.now.touches.now)) (spec.gifts_of entry.now.name (touches_all touches.now.touches.now)))) }
{
    let name = entry.name.as_str();
    let declarations = chosen(alloc, Use::Declares, name, touches)?;
    let gifts = chosen(alloc, Use::Gives, name, touches)?;
    let reads = chosen(alloc, Use::Reads, name, touches)?;
    let gifts = gifts.as_slice();
    Ok(
        is_steady_name(places, members, entry.kind, gifts, reads.as_slice())
            && is_near(declarations.as_slice(), gifts),
    )
}

// ---- those of one name

/// Those of this name that are used so. Fails on allocation failure alone.
fn chosen<'a>(
    alloc: Global,
    used: Use,
    name: &str,
    touches: &NamedTouches<'_, 'a>,
) -> Result<Vec<Touch<'a>>, AllocError>
    ensures { IfOk result (λ r. touches_all r.items ≡ spec.chosen (test_of used) (chars name.now) (touches_all touches.now.touches.now)) }
{
    chosen_among(alloc, used, name, touches.of_name(name))
}

fn chosen_among<'a>(
    alloc: Global,
    used: Use,
    name: &str,
    touches: &[Touch<'a>],
) -> Result<Vec<Touch<'a>>, AllocError>
    ensures { IfOk result (λ r. touches_all r.items ≡ spec.chosen (test_of used) (chars name.now) (touches_all touches.now)) }
{
    let mut chosen = Vec::new(alloc);
    for touch in touches {
        add_if_used(used, name, *touch, &mut chosen)?;
    }
    Ok(chosen)
}

fn add_if_used<'a>(
    used: Use,
    name: &str,
    touch: Touch<'a>,
    chosen: &mut Vec<Touch<'a>>,
) -> Result<(), AllocError>
    ensures { OnOk result (touches_all chosen.new.items ≡ touches_all chosen.old.items ++ cond (test_of used (touch_here touch.entry) && bytes_eq (chars name.now) (touch_here touch.entry).name) (touch_here touch.entry ∷ []) []) }
{
    if is_used(used, touch) && is_word(touch.name, name) {
        chosen.push(touch)?;
    }
    Ok(())
}

fn is_used(used: Use, touch: Touch) -> bool
    ensures { result ≡ test_of used (touch_here touch.entry) }
{
    match used {
        Use::Declares => touch.declares,
        Use::Gives => touch.gives,
        Use::Reads => !(touch.declares || touch.gives),
    }
}

// ---- all of them

fn all_at_place(place: u32, touches: &[Touch]) -> bool
    ensures { result ≡ all_of place (touches_all touches.now) }
{
    for touch in touches {
        if place != touch.place {
            return false;
        }
    }
    true
}

fn all_in_declaration(declaration: u32, touches: &[Touch]) -> bool
    ensures { result ≡ all_in declaration (touches_all touches.now) }
{
    for touch in touches {
        if declaration != touch.declaration {
            return false;
        }
    }
    true
}

fn all_at_home(home: u32, touches: &[Touch]) -> bool
    ensures { result ≡ all_of_home home (touches_all touches.now) }
{
    for touch in touches {
        if home != touch.home {
            return false;
        }
    }
    true
}

/// Whether all are evaluated again with the class, if there is one, or are there from the head of their list on.
fn all_stand_with(places: &ClassPlaces, class: Option<u32>, touches: &[Touch]) -> bool
    ensures { result ≡ all_stand (pairs places.now.places.now) (option_to_list class) (touches_all touches.now) }
{
    for touch in touches {
        if !stands_with(places, class, *touch) {
            return false;
        }
    }
    true
}

fn stands_with(places: &ClassPlaces, class: Option<u32>, touch: Touch) -> bool
    ensures { result ≡ spec.stands_with (pairs places.now.places.now) (option_to_list class) (touch_here touch.entry) }
{
    match class {
        Some(class) => touch.hoists || places.has(class, touch.place),
        None => true,
    }
}

/// Whether all stand in the construction of the class, or are evaluated again with it.
fn all_construct_with(places: &ClassPlaces, class: u32, touches: &[Touch]) -> bool
    ensures { result ≡ all_construct (pairs places.now.places.now) class (touches_all touches.now) }
{
    for touch in touches {
        if class != touch.place && !places.has(class, touch.place) {
            return false;
        }
    }
    true
}

// ---- steady names

/// Whether a name of this kind, which is given values and read so, is steady.
fn is_steady_name(
    places: &ClassPlaces,
    members: &NumberedMembers,
    kind: GeneratedKind,
    gifts: &[Touch],
    reads: &[Touch],
) -> bool
    ensures { result ≡ steady_by_kind (pairs places.now.places.now) (private_members_of members.now.members.now) kind (touches_all gifts.now) (touches_all reads.now) }
{
    match kind {
        GeneratedKind::Temp => is_steady(gifts, reads),
        GeneratedKind::Param => is_at_call(gifts, reads),
        GeneratedKind::Closure => {
            is_given_with(gifts, reads) && !is_none(reads) && is_at_most_one(reads)
        }
        GeneratedKind::SuperFn(class) => all_construct_with(places, class.0, gifts),
        _ => all_stand_with(places, members.class_before(kind), gifts),
    }
}

/// Whether a temporary is given at one place, and read there; or given once, and read in no function declaration around.
fn is_steady(gifts: &[Touch], reads: &[Touch]) -> bool
    ensures { result ≡ spec.is_steady (touches_all gifts.now) (touches_all reads.now) }
{
    match gifts {
        [] => true,
        [first, others @ ..] => {
            all_at_place(first.place, others)
                && (all_at_place(first.place, reads)
                    || (is_none(others) && all_in_declaration(first.declaration, reads)))
        }
    }
}

/// Whether a parameter that stands for an argument is read where its arrow is called, and once at most.
fn is_at_call(gifts: &[Touch], reads: &[Touch]) -> bool
    ensures { result ≡ spec.is_at_call (touches_all gifts.now) (touches_all reads.now) }
{
    match gifts {
        [] => true,
        [first] => all_at_place(first.place, reads) && is_at_most_one(reads),
        _ => false,
    }
}

fn is_none(touches: &[Touch]) -> bool
    ensures { result ≡ spec.is_none (touches_all touches.now) }
{
    matches!(touches, [])
}

fn is_at_most_one(touches: &[Touch]) -> bool
    ensures { result ≡ spec.is_at_most_one (touches_all touches.now) }
{
    match touches {
        [] => true,
        [_] => true,
        _ => false,
    }
}

/// Whether all reads stand where the name is given first.
fn is_given_with(gifts: &[Touch], reads: &[Touch]) -> bool
    ensures { result ≡ spec.is_given_with (touches_all gifts.now) (touches_all reads.now) }
{
    match gifts {
        [first, ..] => all_at_place(first.place, reads),
        [] => true,
    }
}

/// Whether the name is declared in the body in which it is given.
fn is_near(declarations: &[Touch], gifts: &[Touch]) -> bool
    ensures { result ≡ spec.is_near (touches_all declarations.now) (touches_all gifts.now) }
{
    for declaration in declarations {
        if !all_at_home(declaration.home, gifts) {
            return false;
        }
    }
    true
}
