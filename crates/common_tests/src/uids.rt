// Generated names, in a program with the names `x` and `_x`.

ghost use Rattle.std.specs.Prelude.{OnOk};
ghost use Rattle.es_uids.specs.Uids.{AreTaken};
ghost use Rattle.common_tests.specs.Root.{root};

use crate::tables::{ROOT, check_room, table};
use es_base::ledger::GeneratedKind;
use es_scopes::flags::SymbolFlags;
use es_uids::traverse_scoping::TraverseScoping;
use std::alloc::{AllocError, Global};
use std::test::Fail;

/// Writes the name that is generated from a base, and bound.
fn write_bound(base: &str, scoping: &mut TraverseScoping, text: &mut String) -> Result<(), Fail>
    requires { AreTaken scoping.old root }
    ensures { OnOk result (AreTaken scoping.new root) }
{
    check_room(&scoping.scoping, ROOT)?;
    let binding = scoping.generate_uid(base, ROOT, SymbolFlags::VAR, GeneratedKind::Temp)?;
    text.push_str(binding.name.as_str())?;
    text.push(' ')?;
    Ok(())
}

/// Writes the name that is generated from a base, which no scope holds.
fn write_free(
    base: &str,
    scoping: &mut TraverseScoping,
    text: &mut String,
) -> Result<(), AllocError> {
    let name = scoping.generate_uid_name(base)?;
    text.push_str(name.as_str())?;
    text.push(' ')
}

fn write_all_bound(scoping: &mut TraverseScoping, text: &mut String) -> Result<(), Fail>
    requires { AreTaken scoping.old root }
{
    write_bound("x", scoping, text)?;
    write_bound("_x1", scoping, text)?;
    write_bound("12", scoping, text)
}

fn write_all_free(scoping: &mut TraverseScoping, text: &mut String) -> Result<(), AllocError> {
    write_free("x", scoping, text)?;
    write_free("_x1", scoping, text)?;
    write_free("12", scoping, text)
}

/// The names that are bound, each with a space behind it.
fn bound(alloc: Global) -> Result<String, Fail> {
    let mut scoping = table(alloc, &["x", "_x"])?;
    let mut text = String::new(alloc);
    write_all_bound(&mut scoping, &mut text)?;
    Ok(text)
}

/// The names that no scope holds, each with a space behind it.
fn free(alloc: Global) -> Result<String, AllocError> {
    let mut scoping = table(alloc, &["x", "_x"])?;
    let mut text = String::new(alloc);
    write_all_free(&mut scoping, &mut text)?;
    Ok(text)
}

#[test]
fn names_are_generated_and_bound(rt: HostRuntime) -> Result<(), Fail> {
    let names = bound(rt.alloc())?;
    assert_eq!(rt; names.as_str(), "_x2 _x3 _temp ");
    Ok(())
}

#[test]
fn names_are_generated(rt: HostRuntime) -> Result<(), Fail> {
    let names = free(rt.alloc())?;
    assert_eq!(rt; names.as_str(), "_x2 _x3 _temp ");
    Ok(())
}
