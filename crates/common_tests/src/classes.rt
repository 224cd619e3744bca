// Private names in the classes around a place (ECMA-262, 9.2).

use class_details::class_details::{ClassDetails, PrivateProp};
use class_details::classes_stack::ClassesStack;
use es_base::ids::SymbolId;
use es_base::name::Name;
use es_base::operator::MethodDefinitionKind;
use es_builders::bound_identifier::BoundIdentifier;
use std::alloc::{AllocError, Global};
use std::test::Fail;

/// A class with a member of this name.
fn class_with(
    alloc: Global,
    name: &str,
    kind: Option<MethodDefinitionKind>,
) -> Result<ClassDetails, AllocError> {
    let binding = BoundIdentifier::new(Name::new(alloc, name)?, SymbolId(0));
    let mut class = ClassDetails::dummy(alloc, true);
    class.private_props.insert(
        Name::new(alloc, name)?,
        PrivateProp::new(binding, false, kind),
    )?;
    Ok(class)
}

/// The place of the class that declares the name.
fn place_of(alloc: Global, stack: &ClassesStack, name: &str) -> Result<usize, Fail> {
    let name = Name::new(alloc, name)?;
    if !stack.declares(&name) {
        return Err(Fail::new("not declared"));
    }
    Ok(stack.find_private_prop(&name).class)
}

// class A { #x; m() { class B { #y; } } }
#[test]
fn names_are_found_in_their_classes(rt: HostRuntime) -> Result<(), Fail> {
    let alloc = rt.alloc();
    let mut stack = ClassesStack::new(alloc)?;
    stack.push(class_with(alloc, "x", None)?)?;
    stack.push(class_with(alloc, "y", None)?)?;
    let outer = place_of(alloc, &stack, "x")?;
    let inner = place_of(alloc, &stack, "y")?;
    assert!(rt; outer == 1 && inner == 2);
    Ok(())
}

// class A { get #g() {} }
#[test]
fn getters_are_not_written(rt: HostRuntime) -> Result<(), Fail> {
    let alloc = rt.alloc();
    let mut stack = ClassesStack::new(alloc)?;
    stack.push(class_with(alloc, "g", Some(MethodDefinitionKind::Get))?)?;
    let name = Name::new(alloc, "g")?;
    if !stack.declares(&name) {
        return Err(Fail::new("not declared"));
    }
    assert!(rt; stack.find_writable_private_prop(&name).is_none());
    assert!(rt; stack.find_readable_private_prop(&name).is_some());
    Ok(())
}
