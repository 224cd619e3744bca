// From JSON text to a value, in one pass over its tokens.

ghost use Rattle.std.specs.Prelude.{◌≡◌, ◌<◌, ◌≤◌, ℕ, length, slice_index, ◌==◌, Some, None, Err, IfOk, OnOk, IsUtf8, IsTrue, option_map, true, false};
ghost use Rattle.serde_json.specs.Read.{number_of, number_from, float_of, read};
ghost use Rattle.serde_json.specs.View.{number_view};
ghost use Rattle.borrowed_json.specs.Grammar.{value_in, list_in, object_in, object_from};
ghost use Rattle.borrowed_json.specs.View.{members_view, view};
ghost use Rattle.borrowed_json.specs.declared.parse.ParseError.{ParseError};

use crate::members::{in_order, of_map, to_map};
use crate::value::Value;
use fast_float::Numeral;
use json::{Invalid, Reader, Scratch, Token};
use serde_json::Number;
use std::alloc::{AllocError, AllocFailed, Global};
use std::collections::BTreeMap;
use thiserror::Error;

/// A value nests at most this deep.
const MAX_DEPTH: usize = 127;

/// The members of an object are gathered in a list where there are fewer, and else in a map.
const FEW: usize = 16;

/// Why bytes were not read as a value.
#[derive(Clone, Copy, Debug, PartialEq, Eq, Error)]
pub enum ParseError {
    /// They are no JSON.
    #[error("no JSON")]
    Invalid,
    /// There was not enough memory.
    #[error("out of memory")]
    NoMemory,
}

impl From<Invalid> for ParseError {
    ghost use Rattle.borrowed_json.specs.declared.parse.ParseError as error;

    ghost from_gives = { λ _ e. e ≡ error.ParseError.Invalid };

    fn from(_: Invalid) -> ParseError {
        ParseError::Invalid
    }
}

impl From<AllocError> for ParseError {
    ghost use Rattle.borrowed_json.specs.declared.parse.ParseError as error;

    ghost from_gives = { λ _ e. e ≡ error.ParseError.NoMemory };

    fn from(_: AllocError) -> ParseError {
        ParseError::NoMemory
    }
}

impl<T: Drop> From<AllocFailed<T>> for ParseError {
    ghost use Rattle.borrowed_json.specs.declared.parse.ParseError as error;

    ghost from_gives = { λ _ e. e ≡ error.ParseError.NoMemory };

    fn from(_: AllocFailed<T>) -> ParseError {
        ParseError::NoMemory
    }
}

/// The value that the bytes are, which nests at most 127 deep; of a key that is repeated the last value
/// stands (docs/JSON.md). Strings with escapes are unescaped into `scratch`, all others are borrowed.
/// `Invalid` where the bytes are no JSON, or not UTF-8.
pub fn parse<'a>(
    alloc: Global,
    bytes: &'a [u8],
    scratch: &'a mut Scratch,
) -> Result<Value<'a>, ParseError>
    ensures ok { IfOk result (λ v. IsUtf8 bytes.now × (read bytes.now ≡ Some (view v))) }
    ensures err { result ≡ Err ParseError.Invalid → IsUtf8 bytes.now → read bytes.now ≡ None }
{
    match simdutf8::compat::from_utf8(bytes) {
        Ok(text) => parse_text(alloc, text, scratch),
        Err(_) => Err(ParseError::Invalid),
    }
}

fn parse_text<'a>(
    alloc: Global,
    text: &'a str,
    scratch: &'a mut Scratch,
) -> Result<Value<'a>, ParseError>
    ensures ok { IfOk result (λ v. read text.now ≡ Some (view v)) }
    ensures err { result ≡ Err ParseError.Invalid → read text.now ≡ None }
{
    let mut reader = Reader::new(text, scratch)?;
    let value = next_value(alloc, &mut reader, MAX_DEPTH)?;
    match reader.next() {
        None => Ok(value),
        Some(_) => Err(ParseError::Invalid),
    }
}

/// The next value of the reader, in which lists and objects nest at most `depth` deep.
#[cycle(next)]
fn next_value<'a>(
    alloc: Global,
    reader: &mut Reader<'a>,
    depth: usize,
) -> Result<Value<'a>, ParseError>
    ensures ok { IfOk result (λ v. value_in depth reader.old ≡ Some (view v, reader.new)) }
    ensures shorter { OnOk result (length reader.new < length reader.old) }
    ensures err { result ≡ Err ParseError.Invalid → value_in depth reader.old ≡ None }
{
    let token = reader.next().ok_or(ParseError::Invalid)?;
    match token {
        Token::BeginArray => next_list(alloc, reader, depth),
        Token::BeginObject => next_object(alloc, reader, depth),
        Token::String(string) => Ok(Value::String(string)),
        Token::Number(text) => match number_of(text) {
            None => Err(ParseError::Invalid),
            Some(number) => Ok(Value::Number(number)),
        },
        Token::Bool(boolean) => Ok(Value::Bool(boolean)),
        Token::Null => Ok(Value::Null),
        Token::EndArray | Token::EndObject | Token::Key(_) | Token::Bad => Err(ParseError::Invalid),
    }
}

/// The list whose bracket was taken.
#[cycle(next)]
fn next_list<'a>(
    alloc: Global,
    reader: &mut Reader<'a>,
    depth: usize,
) -> Result<Value<'a>, ParseError>
    ensures ok { IfOk result (λ v. list_in depth reader.old ≡ Some (view v, reader.new)) }
    ensures shorter { OnOk result (length reader.new < length reader.old) }
    ensures err { result ≡ Err ParseError.Invalid → list_in depth reader.old ≡ None }
{
    if depth == 0 {
        return Err(ParseError::Invalid);
    }
    let mut items = Vec::new(alloc);
    'items: while !reader.take_end_array() {
        let item = next_value(alloc, reader, depth - 1)?;
        items.push(item)?;
    }
    Ok(Value::Array(items))
}

/// The object whose brace was taken.
#[cycle(next)]
fn next_object<'a>(
    alloc: Global,
    reader: &mut Reader<'a>,
    depth: usize,
) -> Result<Value<'a>, ParseError>
    ensures ok { IfOk result (λ v. object_in depth reader.old ≡ Some (view v, reader.new)) }
    ensures shorter { OnOk result (length reader.new < length reader.old) }
    ensures err { result ≡ Err ParseError.Invalid → object_in depth reader.old ≡ None }
{
    if depth == 0 {
        return Err(ParseError::Invalid);
    }
    let mut members = Vec::new(alloc);
    'members: while let Some(key) = reader.next_key()? {
        let value = next_value(alloc, reader, depth - 1)?;
        members.push((key, value))?;
        if members.len() == FEW {
            let map = to_map(alloc, members)?;
            return next_members(alloc, reader, depth - 1, map);
        }
    }
    Ok(Value::Object(in_order(alloc, members)?))
}

/// The object of which these members were taken, whose values nest at most `depth` deep.
#[cycle(next)]
fn next_members<'a>(
    alloc: Global,
    reader: &mut Reader<'a>,
    depth: usize,
    mut map: BTreeMap<&'a str, Value<'a>>,
) -> Result<Value<'a>, ParseError>
    ensures ok { IfOk result (λ v. (n : ℕ) → length reader.old ≤ n → object_from (value_in depth) n (members_view map.entry.entries) reader.old ≡ Some (view v, reader.new)) }
    ensures shorter { OnOk result (length reader.new < length reader.old) }
    ensures err { result ≡ Err ParseError.Invalid → (n : ℕ) → length reader.old ≤ n → object_from (value_in depth) n (members_view map.entry.entries) reader.old ≡ None }
{
    'members: while let Some(key) = reader.next_key()? {
        let value = next_value(alloc, reader, depth)?;
        drop(map.insert(key, value)?);
    }
    Ok(Value::Object(of_map(alloc, map)?))
}

/// The number that a text of JSON's grammar is; nothing where it is too great for a float.
fn number_of(text: &str) -> Option<Number>
    ensures { option_map number_view result ≡ number_of text.now }
{
    let bytes = text.as_bytes();
    if is_signed(bytes) {
        number_below(&Numeral::scan(&bytes[1..]))
    } else {
        number_above(&Numeral::scan(bytes))
    }
}

/// Whether a minus stands in front.
fn is_signed(bytes: &[u8]) -> bool
    ensures value { result ≡ (slice_index bytes.now 0 == 45) }
    ensures some { IsTrue result → 0 < length bytes.now }
{
    !bytes.is_empty() && bytes[0] == b'-'
}

/// A number without a sign: whole, where it is and fits, and else the nearest float.
fn number_above(numeral: &Numeral<'_>) -> Option<Number>
    ensures { option_map number_view result ≡ number_from false numeral.now }
{
    match numeral.to_u64() {
        Some(whole) => Number::from_u128(whole as u128),
        None => nearest(false, numeral),
    }
}

/// A number with a sign. Minus zero is a float.
fn number_below(numeral: &Numeral<'_>) -> Option<Number>
    ensures { option_map number_view result ≡ number_from true numeral.now }
{
    match numeral.to_i64(true) {
        Some(whole) => {
            if whole < 0 {
                Number::from_i128(whole as i128)
            } else {
                nearest(true, numeral)
            }
        }
        None => nearest(true, numeral),
    }
}

/// The nearest float, if it is finite.
fn nearest(signed: bool, numeral: &Numeral<'_>) -> Option<Number>
    ensures { option_map number_view result ≡ float_of signed numeral.now }
{
    Number::from_f64(numeral.to_float::<f64>(signed))
}
