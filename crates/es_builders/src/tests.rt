// Each sort of call once.

use crate::bound_identifier::BoundIdentifier;
use crate::builders::{create_bind_call, create_call_call, create_prototype_member, create_void_0};
use crate::helper::{Helper, helper_call_expr, helper_name};
use es_base::kind::Kind;
use es_base::list::List;
use es_base::name::Name;
use es_node::node::Node;
use es_scopes::flags::{ScopeFlags, SymbolFlags};
use es_scopes::scoping::Scoping;
use es_tree::expression::make_this_expression;
use es_tree::identifier::make_identifier_reference;
use std::alloc::{AllocError, Global};
use std::test::Fail;

// f
fn callee(alloc: Global) -> Result<Node, AllocError> {
    make_identifier_reference(alloc, Name::new(alloc, "f")?)
}

#[test]
fn expressions(rt: HostRuntime) -> Result<(), Fail> {
    let alloc = rt.alloc();
    let call = create_call_call(alloc, callee(alloc)?, make_this_expression(alloc)?)?;
    assert!(rt; call.kind() == Kind::CallExpression && call.has_at_most(5) && !call.has_at_most(4));
    let bind = create_bind_call(alloc, callee(alloc)?, make_this_expression(alloc)?)?;
    assert!(rt; bind.kind() == Kind::CallExpression && bind.has_at_most(5));
    let prototype = create_prototype_member(alloc, callee(alloc)?)?;
    assert!(rt; prototype.kind() == Kind::MemberExpression && prototype.has_at_most(3));
    let undefined = create_void_0(alloc)?;
    assert!(rt; undefined.kind() == Kind::UnaryExpression && undefined.has_at_most(2));
    Ok(())
}

#[test]
fn helpers(rt: HostRuntime) -> Result<(), Fail> {
    let alloc = rt.alloc();
    let mut scoping = Scoping::new(alloc);
    let call = helper_call_expr(alloc, Helper::ToPropertyKey, List::new(alloc), &mut scoping)?;
    assert!(rt; call.kind() == Kind::CallExpression && call.has_at_most(4) && !call.has_at_most(3));
    assert!(rt; helper_name(Helper::ToPropertyKey) == "toPropertyKey");
    Ok(())
}

#[test]
fn references(rt: HostRuntime) -> Result<(), Fail> {
    let alloc = rt.alloc();
    let mut scoping = Scoping::new(alloc);
    let scope = scoping.add_scope(None, ScopeFlags::TOP)?;
    let symbol = scoping.add_binding(scope, "a", SymbolFlags::LET)?;
    if !scoping.has_room() || !scoping.has_symbol(symbol) {
        return Err(Fail::new("no symbol"));
    }
    let a = BoundIdentifier::new(Name::new(alloc, "a")?, symbol);
    let read = a.create_read_expression(alloc, &mut scoping)?;
    assert!(rt; read.kind() == Kind::IdentifierReference && read.semantic_id() == Some(0));
    let id = a.create_binding_identifier(alloc, None)?;
    assert!(rt; id.kind() == Kind::BindingIdentifier && id.semantic_id() == Some(symbol.0));
    let pattern = a.create_binding_pattern(alloc)?;
    assert!(rt;
        pattern.kind() == Kind::BindingIdentifier && pattern.semantic_id() == Some(symbol.0)
    );
    Ok(())
}
