// The keys that are made in turn beside reserved ones (oxc_transformer, the tests of `Keys`).

use es_names::keys::Keys;
use std::alloc::{AllocError, Global};
use std::test::Fail;

/// The next keys, each with a space behind it.
fn given(alloc: Global, reserved: &[&str], count: usize) -> Result<String, AllocError> {
    let mut keys = Keys::new(alloc);
    for key in reserved {
        keys.reserve(key)?;
    }
    let mut given = String::new(alloc);
    for _ in 0..count {
        given.push_str(keys.get_unique()?.as_str())?;
        given.push(' ')?;
    }
    Ok(given)
}

#[test]
fn none_reserved(rt: HostRuntime) -> Result<(), Fail> {
    let keys = given(rt.alloc(), &[], 12)?;
    assert_eq!(rt; keys.as_str(), "_ _2 _3 _4 _5 _6 _7 _8 _9 _10 _11 _12 ");
    Ok(())
}

#[test]
fn others_reserved(rt: HostRuntime) -> Result<(), Fail> {
    let reserved = ["a", "foo", "__", "_0", "_1", "_a", "_foo", "_2foo"];
    let keys = given(rt.alloc(), &reserved, 3)?;
    assert_eq!(rt; keys.as_str(), "_ _2 _3 ");
    Ok(())
}

#[test]
fn underscore_reserved(rt: HostRuntime) -> Result<(), Fail> {
    let keys = given(rt.alloc(), &["_"], 3)?;
    assert_eq!(rt; keys.as_str(), "_2 _3 _4 ");
    Ok(())
}

#[test]
fn reserved_in_order(rt: HostRuntime) -> Result<(), Fail> {
    let keys = given(rt.alloc(), &["_2", "_4", "_11"], 9)?;
    assert_eq!(rt; keys.as_str(), "_ _3 _5 _6 _7 _8 _9 _10 _12 ");
    Ok(())
}

#[test]
fn reserved_out_of_order(rt: HostRuntime) -> Result<(), Fail> {
    let keys = given(rt.alloc(), &["_5", "_4", "_12", "_13"], 10)?;
    assert_eq!(rt; keys.as_str(), "_ _2 _3 _6 _7 _8 _9 _10 _11 _14 ");
    Ok(())
}

#[test]
fn reserved_in_order_with_underscore(rt: HostRuntime) -> Result<(), Fail> {
    let keys = given(rt.alloc(), &["_2", "_4", "_"], 3)?;
    assert_eq!(rt; keys.as_str(), "_3 _5 _6 ");
    Ok(())
}

#[test]
fn reserved_out_of_order_with_underscore(rt: HostRuntime) -> Result<(), Fail> {
    let keys = given(rt.alloc(), &["_5", "_4", "_"], 3)?;
    assert_eq!(rt; keys.as_str(), "_2 _3 _6 ");
    Ok(())
}
