// JSON values whose strings are borrowed.

ghost use Rattle.std.specs.Prelude.{◌≡◌, is_some, option_map, option_and_then};
ghost use Rattle.borrowed_json.specs.View.{items_view, members_view, view};
ghost use Rattle.serde_json.specs.Find.{get, get_member, as_array, as_bool, as_i64, as_null, as_number, as_str, as_u64};
ghost use Rattle.serde_json.specs.View.{number_view};

use serde_json::Number;

/// A JSON value that borrows its strings. An object has its members in the order of the bytes of their keys,
/// each key once.
#[derive(Drop)]
pub enum Value<'a> {
    Null,
    Bool(bool),
    Number(Number),
    String(&'a str),
    Array(Vec<Value<'a>>),
    Object(Vec<Member<'a>>),
}

/// A member of an object: its key and its value.
pub type Member<'a> = (&'a str, Value<'a>);

impl<'a> Value<'a> {
    /// The value at the member of this name.
    pub fn get(&self, name: &str) -> Option<&Value<'a>>
        ensures { option_map (λ v. view v.now) result ≡ get name.now (view self.now) }
    {
        match self {
            Value::Object(members) => find(members.as_slice(), name),
            _ => None,
        }
    }

    /// The items of a list.
    pub fn as_array(&self) -> Option<&Vec<Value<'a>>>
        ensures { option_map (λ v. items_view v.now.items) result ≡ as_array (view self.now) }
    {
        if let Value::Array(list) = self {
            Some(list)
        } else {
            None
        }
    }

    /// The string that it is.
    pub fn as_str(&self) -> Option<&'a str>
        ensures { option_map (λ s. s.now) result ≡ as_str (view self.now) }
    {
        if let Value::String(string) = self {
            Some(*string)
        } else {
            None
        }
    }

    /// The boolean that it is.
    pub fn as_bool(&self) -> Option<bool>
        ensures { result ≡ as_bool (view self.now) }
    {
        if let Value::Bool(boolean) = self {
            Some(*boolean)
        } else {
            None
        }
    }

    /// The number that it is.
    fn as_number(&self) -> Option<Number>
        ensures { option_map number_view result ≡ as_number (view self.now) }
    {
        if let Value::Number(number) = self {
            Some(*number)
        } else {
            None
        }
    }

    /// The whole number of u64 that it is.
    pub fn as_u64(&self) -> Option<u64>
        ensures { result ≡ option_and_then as_u64 (as_number (view self.now)) }
    {
        match self.as_number() {
            Some(number) => number.as_u64(),
            None => None,
        }
    }

    /// Whether it is a whole number of u64.
    pub fn is_u64(&self) -> bool
        ensures { result ≡ is_some (option_and_then as_u64 (as_number (view self.now))) }
    {
        self.as_u64().is_some()
    }

    /// Whether it is a whole number of i64.
    pub fn is_i64(&self) -> bool
        ensures { result ≡ is_some (option_and_then as_i64 (as_number (view self.now))) }
    {
        match self.as_number() {
            Some(number) => number.is_i64(),
            None => false,
        }
    }

    /// Whether it is a string.
    pub fn is_string(&self) -> bool
        ensures { result ≡ is_some (as_str (view self.now)) }
    {
        self.as_str().is_some()
    }

    /// Whether it is null.
    pub fn is_null(&self) -> bool
        ensures { result ≡ is_some (as_null (view self.now)) }
    {
        matches!(self, Value::Null)
    }
}

fn find<'v, 'a>(members: &'v [Member<'a>], name: &str) -> Option<&'v Value<'a>>
    ensures { option_map (λ v. view v.now) result ≡ get_member name.now (members_view members.now) }
{
    for member in members {
        if name == member.0 {
            return Some(&member.1);
        }
    }
    None
}
