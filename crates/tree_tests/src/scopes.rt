// `let a; function f(b) { a = b; }`, added by hand.

use bitflags::Flags;
use es_base::ids::ScopeId;
use es_scopes::flags::{ReferenceFlags, ScopeFlags, SymbolFlags};
use es_scopes::scoping::Scoping;
use std::alloc::AllocError;

#[test]
fn scopes_and_their_ancestors(rt: HostRuntime) -> Result<(), AllocError> {
    let mut scoping = Scoping::new(rt.alloc());
    let program = scoping.add_scope(None, ScopeFlags::TOP)?;
    let function = scoping.add_scope(Some(program), ScopeFlags::FUNCTION)?;
    assert!(rt; program == scoping.root_scope_id());
    assert!(rt; scoping.scope_parent_id(function) == Some(program));
    assert!(rt; scoping.scope_parent_id(program) == None);
    assert!(rt; scoping.scope_flags(function) == ScopeFlags::FUNCTION);
    assert!(rt; scoping.scope_ancestors(function).count() == 2);
    scoping.set_scope_flags(function, ScopeFlags::FUNCTION | ScopeFlags::STRICT);
    assert!(rt; scoping.scope_flags(function) == ScopeFlags::FUNCTION | ScopeFlags::STRICT);
    Ok(())
}

#[test]
fn names_and_what_they_mean(rt: HostRuntime) -> Result<(), AllocError> {
    let mut scoping = Scoping::new(rt.alloc());
    let program = scoping.add_scope(None, ScopeFlags::TOP)?;
    let function = scoping.add_scope(Some(program), ScopeFlags::FUNCTION)?;
    let block = scoping.add_scope(Some(function), ScopeFlags::empty())?;
    assert!(rt; !scoping.has_bindings(program));
    let a = scoping.add_binding(program, "a", SymbolFlags::LET)?;
    let b = scoping.add_binding(function, "b", SymbolFlags::PARAM)?;
    assert!(rt; scoping.has_bindings(function));
    assert!(rt; scoping.find_binding(block, "a") == Some(a));
    assert!(rt; scoping.get_binding(function, "a") == None);
    assert!(rt; scoping.find_binding(block, "c") == None);
    assert!(rt; scoping.symbol_name(b) == "b");
    assert!(rt; scoping.symbol_scope_id(b) == function);
    scoping.set_symbol_flags(b, SymbolFlags::VAR);
    assert!(rt; scoping.symbol_flags(b) == SymbolFlags::VAR);
    scoping.mark_symbol(b);
    assert!(rt; scoping.symbol_is_mutated(b));
    if scoping.get_binding(function, "b") == Some(b)
        && scoping.get_binding(function, "d").is_none()
    {
        scoping.rename_symbol(b, function, "d")?;
    }
    assert!(rt; scoping.find_binding(block, "d") == Some(b));
    assert!(rt; scoping.get_binding(function, "b") == None);
    Ok(())
}

#[test]
fn references_and_lists(rt: HostRuntime) -> Result<(), AllocError> {
    let mut scoping = Scoping::new(rt.alloc());
    let program = scoping.add_scope(None, ScopeFlags::TOP)?;
    let a = scoping.add_binding(program, "a", SymbolFlags::LET)?;
    let written = scoping.create_reference(Some(a), ReferenceFlags::WRITE)?;
    let free = scoping.create_reference(None, ReferenceFlags::READ)?;
    assert!(rt; scoping.symbol_is_mutated(a));
    assert!(rt; scoping.get_reference(written).symbol_id() == Some(a));
    assert!(rt; scoping.get_reference(free).flags() == ReferenceFlags::READ);
    scoping.delete_resolved_reference(a, written);
    assert!(rt; !scoping.symbol_is_mutated(a));
    scoping.add_resolved_reference(a, free)?;
    assert!(rt; !scoping.symbol_is_mutated(a));
    scoping.set_reference_flags(free, ReferenceFlags::WRITE);
    assert!(rt; scoping.symbol_is_mutated(a));
    assert!(rt; scoping.get_reference(free).symbol_id() == None);
    scoping.set_symbol_id(free, a);
    assert!(rt; scoping.get_reference(free).symbol_id() == Some(a));
    Ok(())
}

#[test]
fn scopes_moved_and_removed(rt: HostRuntime) -> Result<(), AllocError> {
    let mut scoping = Scoping::new(rt.alloc());
    let program = scoping.add_scope(None, ScopeFlags::TOP)?;
    let class = scoping.add_scope(Some(program), ScopeFlags::STRICT)?;
    let function = scoping.add_scope(Some(class), ScopeFlags::FUNCTION)?;
    scoping.remove_scope(class);
    assert!(rt; scoping.scope_parent_id(function) == Some(program));
    scoping.change_scope_parent_id(function, None);
    assert!(rt; scoping.scope_parent_id(function) == None);
    assert!(rt; scoping.add_scope(None, ScopeFlags::empty())? == ScopeId(3));
    Ok(())
}
