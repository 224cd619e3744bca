// Names in front of which others of their spelling stand.

ghost use Rattle.std.specs.Prelude.{◌≡◌, ◌++◌, [], List, ℕ, IfOk, OnOk, None, Some, bytes_eq, cond};
ghost use Rattle.std.specs.Str.{chars};
ghost use Rattle.es_binding_faults.specs.Leasts.{number_of};
ghost use Rattle.es_binding_faults.specs.Named.{named};
ghost use Rattle.es_by_number.specs.Numbered.{pairs};
ghost use Rattle.es_steps.specs.Scopes.{Declaration};
ghost use Rattle.es_steps.specs.Shared as spec;
ghost use Rattle.es_shared_names.specs.Earlier.{declared_number, or_number, shared_among, with_number};

use crate::numbers::Numbers;
use es_binding_faults::bound::Declared;
use es_by_number::numbered::Numbered;
use std::alloc::{AllocError, Global};

/// Adds each of these names in front of which one of its spelling stands, with the nearest one. Fails on allocation failure alone.
pub fn add_shared_behind(
    alloc: Global,
    names: &[Declared],
    found: &mut Vec<Numbered<u32>>,
) -> Result<(), AllocError>
    ensures { OnOk result (pairs found.new.items ≡ pairs found.old.items ++ spec.shared_behind [] (named names.now)) }
{
    let mut numbers = Numbers::new(alloc);
    for name in names {
        add_earlier(name, numbers.get(name.name), found)?;
        numbers.set(name.name, name.node.0)?;
    }
    Ok(())
}

/// Adds each of these names that is of the spelling of one of the first, with the first such one. Fails on allocation failure
/// alone.
pub fn add_shared_with(
    alloc: Global,
    front: &[Declared],
    names: &[Declared],
    found: &mut Vec<Numbered<u32>>,
) -> Result<(), AllocError>
    ensures { OnOk result (pairs found.new.items ≡ pairs found.old.items ++ spec.shared_with (named front.now) (named names.now)) }
{
    let firsts = firsts_of(alloc, front)?;
    add_shared_with_firsts(&firsts, names, found)
}

/// The same, where the first number of each of the first names is known.
fn add_shared_with_firsts(
    firsts: &Numbers,
    names: &[Declared],
    found: &mut Vec<Numbered<u32>>,
) -> Result<(), AllocError>
    ensures { (front : List Declaration) → ((s : List ℕ) → number_of s firsts.now ≡ declared_number s front) → OnOk result (pairs found.new.items ≡ pairs found.old.items ++ spec.shared_with front (named names.now)) }
{
    add_shared_among(firsts, names, found)
}

/// Adds each of these names that has a number, with that. Fails on allocation failure alone.
fn add_shared_among(
    firsts: &Numbers,
    names: &[Declared],
    found: &mut Vec<Numbered<u32>>,
) -> Result<(), AllocError>
    ensures { OnOk result (pairs found.new.items ≡ pairs found.old.items ++ shared_among (λ s. number_of s firsts.now) (named names.now)) }
{
    for name in names {
        add_earlier(name, firsts.get(name.name), found)?;
    }
    Ok(())
}

/// Of each name the number of the first that has it. Fails on allocation failure alone.
fn firsts_of<'a>(alloc: Global, names: &[Declared<'a>]) -> Result<Numbers<'a>, AllocError>
    ensures { IfOk result (λ r. (s : List ℕ) → number_of s r ≡ declared_number s (named names.now)) }
{
    let mut firsts = Numbers::new(alloc);
    for name in names {
        add_first(name, &mut firsts)?;
    }
    Ok(firsts)
}

/// Gives the name its number, unless it has one. Fails on allocation failure alone.
#[tactic(auto, using(crate::proofs::Nearest::set_first, crate::proofs::Nearest::kept_first))]
fn add_first<'a>(name: &Declared<'a>, firsts: &mut Numbers<'a>) -> Result<(), AllocError>
    ensures { OnOk result ((s : List ℕ) → number_of s firsts.new ≡ or_number (number_of s firsts.old) (cond (bytes_eq s (chars name.now.name.now)) (Some name.now.node.0) None)) }
{
    match firsts.get(name.name) {
        Some(_) => Ok(()),
        None => firsts.set(name.name, name.node.0),
    }
}

/// Adds a name with an earlier one, if there is one. Fails on allocation failure alone.
fn add_earlier(
    name: &Declared,
    earlier: Option<u32>,
    found: &mut Vec<Numbered<u32>>,
) -> Result<(), AllocError>
    ensures { OnOk result (pairs found.new.items ≡ pairs found.old.items ++ with_number name.now.node.0 earlier) }
{
    if let Some(earlier) = earlier {
        found.push(Numbered {
            number: name.node.0,
            value: earlier,
        })?;
    }
    Ok(())
}
