// The scope table of programs, built from their trees.

ghost use Rattle.es_scopes.specs.Table.{HasScope};

use crate::sources::sources;
use bitflags::Flags;
use es_base::ids::{ReferenceId, ScopeId, SymbolId};
use es_json::read::read_program;
use es_reading::count::is_countable;
use es_scopes::flags::{ScopeFlags, SymbolFlags};
use es_scopes::scoping::Scoping;
use es_scopes_build::build::build;
use serde_json::Value;
use std::alloc::{AllocError, Global};
use std::process::Abort;
use std::test::Fail;

/// The scopes of a table, each with the scope around and its flags.
fn scopes(alloc: Global, scoping: &Scoping) -> Result<String, AllocError> {
    let mut text = String::new(alloc);
    for i in 0..100u32 {
        let scope = ScopeId(i);
        if scoping.has_scope(scope) {
            let flags = scoping.scope_flags(scope).bits();
            match scoping.scope_parent_id(scope) {
                Some(around) => write!(text, "{i} in {} {flags}\n", around.0)?,
                None => write!(text, "{i} {flags}\n")?,
            }
        }
    }
    Ok(text)
}

/// The symbols of a table, each with its scope, its flags, and whether it is mutated.
fn symbols(alloc: Global, scoping: &Scoping) -> Result<String, AllocError> {
    let mut text = String::new(alloc);
    for i in 0..100u32 {
        let symbol = SymbolId(i);
        if scoping.has_symbol(symbol) {
            let name = scoping.symbol_name(symbol);
            let scope = scoping.symbol_scope_id(symbol).0;
            let flags = scoping.symbol_flags(symbol).bits();
            let mutated = if scoping.symbol_is_mutated(symbol) {
                " mutated"
            } else {
                ""
            };
            write!(text, "{name} in {scope} {flags}{mutated}\n")?;
        }
    }
    Ok(text)
}

/// The references of a table, each with the name and the scope of what it means, and its flags.
fn references(alloc: Global, scoping: &Scoping) -> Result<String, AllocError> {
    let mut text = String::new(alloc);
    for i in 0..100u32 {
        if scoping.has_reference(ReferenceId(i)) {
            let reference = scoping.get_reference(ReferenceId(i));
            let flags = reference.flags().bits();
            match reference.symbol_id() {
                Some(symbol) => write!(text, "{} {flags}\n", symbol.0)?,
                None => write!(text, "free {flags}\n")?,
            }
        }
    }
    Ok(text)
}

/// The table of the program that a text is, unless it has too many values or nodes to be counted.
fn built(alloc: Global, text: &str) -> Result<Option<Scoping>, Fail> {
    let value = Value::from_str(alloc, text)?;
    if !is_countable(&value) {
        return Ok(None);
    }
    let (mut program, _foreign) = read_program(alloc, &value)?.into_node();
    if !program.has_at_most(u32::MAX) {
        return Ok(None);
    }
    Ok(Some(build(alloc, &mut program)?))
}

/// A table as text: its scopes, its symbols, its references.
fn shown(alloc: Global, scoping: &Scoping) -> Result<String, AllocError> {
    let mut text = scopes(alloc, scoping)?;
    text.push_str(symbols(alloc, scoping)?.as_str())?;
    text.push_str(references(alloc, scoping)?.as_str())?;
    Ok(text)
}

#[test]
fn tables(rt: HostRuntime) -> Result<(), Fail> {
    let alloc = rt.alloc();
    for (source, tree, expected) in sources() {
        let Some(scoping) = built(alloc, tree)? else {
            return Err(Fail::new("too many values"));
        };
        let found = shown(alloc, &scoping)?;
        assert!(rt; found.as_str() == *expected, "{source}: {found}");
    }
    Ok(())
}

/// Adds a scope below this one with a name, and gives that another.
fn add_below(rt: &impl Abort, scoping: &mut Scoping, around: ScopeId) -> Result<(), AllocError>
    requires { HasScope scoping.old around }
{
    if scoping.has_room() {
        let scope = scoping.add_scope(Some(around), ScopeFlags::FUNCTION)?;
        assert!(rt; scope == ScopeId(2) && scoping.has_scope(scope));
        if scoping.has_scope(scope) && scoping.get_binding(scope, "c") == None {
            let symbol = scoping.add_binding(scope, "c", SymbolFlags::VAR)?;
            assert!(rt; symbol == SymbolId(3));
        }
    }
    Ok(())
}

/// Gives the name `c` of a scope another.
fn rename_c(rt: &impl Abort, scoping: &mut Scoping, scope: ScopeId) -> Result<(), AllocError>
    requires { HasScope scoping.old scope }
{
    let symbol = scoping.get_binding(scope, "c").expect(rt, "no `c`");
    if scoping.get_binding(scope, "d") == None {
        scoping.rename_symbol(symbol, scope, "d")?;
    }
    Ok(())
}

// `let a; function f(b) { a = b; }`
#[test]
fn names_mean_what_scopes_hold(rt: HostRuntime) -> Result<(), Fail> {
    let alloc = rt.alloc();
    let Some((_source, tree, _table)) = sources().first() else {
        return Err(Fail::new("no programs"));
    };
    let Some(mut scoping) = built(alloc, tree)? else {
        return Err(Fail::new("too many values"));
    };
    let program = scoping.root_scope_id();
    let function = ScopeId(1);
    assert!(rt; scoping.has_scope(program) && scoping.has_scope(function));
    assert!(rt; scoping.get_binding(program, "a") == Some(SymbolId(0)));
    assert!(rt; scoping.get_binding(program, "f") == Some(SymbolId(1)));
    assert!(rt; scoping.get_binding(function, "b") == Some(SymbolId(2)));
    assert!(rt; scoping.find_binding(function, "a") == Some(SymbolId(0)));
    assert!(rt; scoping.get_binding(function, "a") == None);
    assert!(rt; scoping.scope_parent_id(function) == Some(program));
    assert!(rt; scoping.has_symbol(SymbolId(0)) && scoping.symbol_is_mutated(SymbolId(0)));
    assert!(rt; scoping.has_symbol(SymbolId(2)) && !scoping.symbol_is_mutated(SymbolId(2)));
    add_below(&rt, &mut scoping, function)?;
    let scope = ScopeId(2);
    assert!(rt; scoping.has_scope(scope));
    rename_c(&rt, &mut scoping, scope)?;
    assert!(rt; scoping.has_scope(scope) && scoping.get_binding(scope, "c") == None);
    Ok(())
}
