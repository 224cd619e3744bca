// Codes in codes, what is opened in what is opened, and the limit.

use crate::evaluate::evaluate_among;
use es_base::list::List;
use es_base::name::Name;
use es_code_rules::definition::Definition;
use es_codes::boxed::Boxed;
use es_codes::code::Code;
use es_codes::event::Token;
use es_codes::same::same_lists;
use es_codes::value::{Origin, Value};
use es_evaluator::fault::Fault;
use es_evaluator::state::State;
use std::alloc::{AllocError, Global};
use std::test::Fail;

// what a binding holds
fn held(binding: u32) -> Value {
    Value::of(Origin::BindingOf(binding))
}

// a
fn read(alloc: Global, binding: u32) -> Result<Boxed<Code>, AllocError> {
    Boxed::new(alloc, Code::value(held(binding)))
}

// o[k]
fn member(
    alloc: Global,
    node: u32,
    object: Boxed<Code>,
    key: Boxed<Code>,
) -> Result<Boxed<Code>, AllocError> {
    Boxed::new(alloc, Code::member(node, object, key))
}

// a[a[b]]
fn nested(alloc: Global) -> Result<Boxed<Code>, AllocError> {
    let object = read(alloc, 1)?;
    let key = read(alloc, 2)?;
    let inner = member(alloc, 4, object, key)?;
    let object = read(alloc, 1)?;
    member(alloc, 5, object, inner)
}

// _f()
fn called(alloc: Global, name: Name) -> Code {
    Code::call_closure(name, List::new(alloc))
}

// let _f = () => body;
fn defined(name: Name, body: Code) -> Definition {
    Definition::OfName { name, body }
}

// let _f = () => _g(), _g = () => a, _h = () => _h();
fn definitions(alloc: Global) -> Result<List<Definition>, AllocError> {
    let mut definitions = List::new(alloc);
    let name = Name::new(alloc, "_f")?;
    let body = Name::new(alloc, "_g")?;
    definitions.push(defined(name, called(alloc, body)))?;
    let name = Name::new(alloc, "_g")?;
    definitions.push(defined(name, Code::value(held(7))))?;
    let name = Name::new(alloc, "_h")?;
    let body = Name::new(alloc, "_h")?;
    definitions.push(defined(name, called(alloc, body)))?;
    Ok(definitions)
}

// nothing so far
fn start(alloc: Global) -> State {
    State {
        names: Vec::new(alloc),
        tokens: Vec::new(alloc),
        has_thrown: false,
    }
}

// the value among those definitions of what calls one of them
fn value_of_call(alloc: Global, name: Name) -> Result<Value, Fault> {
    let definitions = definitions(alloc)?;
    let code = Boxed::new(alloc, called(alloc, name))?;
    let mut state = start(alloc);
    evaluate_among(alloc, &definitions, 9, &mut state, code.get())
}

#[test]
fn codes_in_codes(rt: HostRuntime) -> Result<(), Fail> {
    let alloc = rt.alloc();
    let code = nested(alloc)?;
    let definitions = List::new(alloc);
    let mut state = start(alloc);
    let Ok(value) = evaluate_among(alloc, &definitions, 3, &mut state, code.get()) else {
        return Err(Fail::new("no value"));
    };
    assert!(rt; value.is_same(&Value::result_of(5)));
    let inner = Token::Get {
        node: 4,
        object: held(1),
        key: held(2),
    };
    let outer = Token::Get {
        node: 5,
        object: held(1),
        key: Value::result_of(4),
    };
    let expected = vec![in alloc; inner, outer]?;
    assert!(rt; same_lists(state.tokens.as_slice(), expected.as_slice()));
    Ok(())
}

#[test]
fn too_deep(rt: HostRuntime) -> Result<(), Fail> {
    let alloc = rt.alloc();
    let code = nested(alloc)?;
    let definitions = List::new(alloc);
    let mut state = start(alloc);
    let result = evaluate_among(alloc, &definitions, 2, &mut state, code.get());
    assert!(rt; matches!(result, Err(Fault::TooDeep)));
    Ok(())
}

#[test]
fn opened_in_opened(rt: HostRuntime) -> Result<(), Fail> {
    let alloc = rt.alloc();
    let Ok(value) = value_of_call(alloc, Name::new(alloc, "_f")?) else {
        return Err(Fail::new("no value"));
    };
    assert!(rt; value.is_same(&held(7)));
    let result = value_of_call(alloc, Name::new(alloc, "_h")?);
    assert!(rt; matches!(result, Err(Fault::NoMeaning)));
    Ok(())
}
