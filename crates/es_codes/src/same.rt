// Comparison: yes exactly where both are equal.

ghost use Rattle.std.specs.Prelude.{◌≡◌, ◌↔◌, IsTrue};
ghost use Rattle.es_steps.specs.Events.{Events};
ghost use Rattle.es_evaluation.specs.Flat.{tokens};
ghost use Rattle.es_codes.specs.View.{tokens_of};

use crate::event::{Detail, Home, Operation, Place, PrivateTest, Token};
use crate::name::Referent;
use crate::value::{Constant, Value};
use es_base::kind::Kind;
use es_base::list::List;
use es_base::name::Name;
use es_base::strings::is_word;

/// Whether two names are equal.
#[tactic(auto, using(crate::proofs::Sameness::same_string))]
pub fn same_name(left: &Name, right: &Name) -> bool
    ensures { IsTrue result ↔ (left.now ≡ right.now) }
{
    is_word(right.as_str(), left.as_str())
}

/// Whether two names that may be absent are equal.
pub fn same_nullable_name(left: &Option<Name>, right: &Option<Name>) -> bool
    ensures { IsTrue result ↔ (left.now ≡ right.now) }
{
    match left {
        None => right.is_none(),
        Some(x) => match right {
            Some(y) => same_name(x, y),
            None => false,
        },
    }
}

/// Whether two constants are equal.
pub fn same_constant(left: &Constant, right: &Constant) -> bool
    ensures { IsTrue result ↔ (left.now ≡ right.now) }
{
    match left {
        Constant::StringOf(x) => match right {
            Constant::StringOf(y) => same_name(x, y),
            _ => false,
        },
        Constant::NumberOf(x) => match right {
            Constant::NumberOf(y) => same_name(x, y),
            _ => false,
        },
        Constant::BigIntOf(x) => match right {
            Constant::BigIntOf(y) => same_name(x, y),
            _ => false,
        },
        Constant::BooleanOf(x) => match right {
            Constant::BooleanOf(y) => *x == *y,
            _ => false,
        },
        Constant::Null => matches!(right, Constant::Null),
        Constant::RawTemplate(x) => match right {
            Constant::RawTemplate(y) => same_name(x, y),
            _ => false,
        },
        Constant::TagString { raw, cooked } => match right {
            Constant::TagString {
                raw: raw_2,
                cooked: cooked_2,
            } => same_name(raw, raw_2) && same_nullable_name(cooked, cooked_2),
            _ => false,
        },
    }
}

/// Whether two values are equal.
pub fn same_value(left: &Value, right: &Value) -> bool
    ensures { IsTrue result ↔ (left.now ≡ right.now) }
{
    left.is_same(right)
}

/// Whether two values that may be absent are equal.
pub fn same_nullable_value(left: &Option<Value>, right: &Option<Value>) -> bool
    ensures { IsTrue result ↔ (left.now ≡ right.now) }
{
    match left {
        None => right.is_none(),
        Some(x) => match right {
            Some(y) => same_value(x, y),
            None => false,
        },
    }
}

/// Whether two slices of values are equal.
pub fn same_values(left: &[Value], right: &[Value]) -> bool
    ensures { IsTrue result ↔ (left.now ≡ right.now) }
{
    if left.len() != right.len() {
        return false;
    }
    for i in 0..left.len() {
        if !same_value(&left[i], &right[i]) {
            return false;
        }
    }
    true
}

/// Whether two lists of values are equal.
pub fn same_value_list(left: &List<Value>, right: &List<Value>) -> bool
    ensures { IsTrue result ↔ (left.now ≡ right.now) }
{
    same_values(left.as_slice(), right.as_slice())
}

/// Whether two referents are equal.
pub fn same_referent(left: &Referent, right: &Referent) -> bool
    ensures { IsTrue result ↔ (left.now ≡ right.now) }
{
    match left {
        Referent::Bound(x) => match right {
            Referent::Bound(y) => *x == *y,
            _ => false,
        },
        Referent::Free(x) => match right {
            Referent::Free(y) => same_name(x, y),
            _ => false,
        },
    }
}

/// Whether two home objects are equal.
pub fn same_home(left: &Home, right: &Home) -> bool
    ensures { IsTrue result ↔ (left.now ≡ right.now) }
{
    match left {
        Home::OfClass(x) => match right {
            Home::OfClass(y) => *x == *y,
            _ => false,
        },
        Home::OfPrototype(x) => match right {
            Home::OfPrototype(y) => *x == *y,
            _ => false,
        },
        Home::OfObject(x) => match right {
            Home::OfObject(y) => *x == *y,
            _ => false,
        },
    }
}

/// Whether two tests of private names are equal.
pub fn same_test(left: &PrivateTest, right: &PrivateTest) -> bool
    ensures { IsTrue result ↔ (left.now ≡ right.now) }
{
    match left {
        PrivateTest::HasField(x) => match right {
            PrivateTest::HasField(y) => *x == *y,
            _ => false,
        },
        PrivateTest::HasBrand(x) => match right {
            PrivateTest::HasBrand(y) => *x == *y,
            _ => false,
        },
        PrivateTest::IsClass(x) => match right {
            PrivateTest::IsClass(y) => *x == *y,
            _ => false,
        },
    }
}

/// Whether two details are equal.
pub fn same_detail(left: &Detail, right: &Detail) -> bool
    ensures { IsTrue result ↔ (left.now ≡ right.now) }
{
    match left {
        Detail::Operand => matches!(right, Detail::Operand),
        Detail::Empty => matches!(right, Detail::Empty),
        Detail::Spelled(x) => match right {
            Detail::Spelled(y) => same_name(x, y),
            _ => false,
        },
        Detail::Flag(x) => match right {
            Detail::Flag(y) => *x == *y,
            _ => false,
        },
        Detail::Key(x) => match right {
            Detail::Key(y) => same_constant(x, y),
            _ => false,
        },
        Detail::Opens => matches!(right, Detail::Opens),
        Detail::Closes => matches!(right, Detail::Closes),
        Detail::Prototype => matches!(right, Detail::Prototype),
        Detail::Index(x) => match right {
            Detail::Index(y) => *x == *y,
            _ => false,
        },
        Detail::Rest => matches!(right, Detail::Rest),
    }
}

/// Whether two slices of details are equal.
pub fn same_details(left: &[Detail], right: &[Detail]) -> bool
    ensures { IsTrue result ↔ (left.now ≡ right.now) }
{
    if left.len() != right.len() {
        return false;
    }
    for i in 0..left.len() {
        if !same_detail(&left[i], &right[i]) {
            return false;
        }
    }
    true
}

/// Whether two lists of details are equal.
pub fn same_detail_list(left: &List<Detail>, right: &List<Detail>) -> bool
    ensures { IsTrue result ↔ (left.now ≡ right.now) }
{
    same_details(left.as_slice(), right.as_slice())
}

/// Whether two kinds are equal.
pub fn same_kind(left: &Kind, right: &Kind) -> bool
    ensures { IsTrue result ↔ (left.now ≡ right.now) }
{
    *left == *right
}

/// Whether two operations are equal.
pub fn same_operation(left: &Operation, right: &Operation) -> bool
    ensures { IsTrue result ↔ (left.now ≡ right.now) }
{
    match left {
        Operation::OfKind { kind, details } => match right {
            Operation::OfKind {
                kind: kind_2,
                details: details_2,
            } => same_kind(kind, kind_2) && same_detail_list(details, details_2),
            _ => false,
        },
        Operation::Delete => matches!(right, Operation::Delete),
        Operation::Take(x) => match right {
            Operation::Take(y) => same_detail_list(x, y),
            _ => false,
        },
    }
}

/// Whether two places are equal.
pub fn same_place(left: &Place, right: &Place) -> bool
    ensures { IsTrue result ↔ (left.now ≡ right.now) }
{
    match left {
        Place::RightOf(x) => match right {
            Place::RightOf(y) => same_name(x, y),
            _ => false,
        },
        Place::Default => matches!(right, Place::Default),
        Place::Part(x) => match right {
            Place::Part(y) => *x == *y,
            _ => false,
        },
    }
}

/// Whether two tokens are equal.
pub fn same_token(left: &Token, right: &Token) -> bool
    ensures { IsTrue result ↔ (left.now ≡ right.now) }
{
    match left {
        Token::ReadName { node, referent } => match right {
            Token::ReadName {
                node: node_2,
                referent: referent_2,
            } => *node == *node_2 && same_referent(referent, referent_2),
            _ => false,
        },
        Token::SetName { referent, value } => match right {
            Token::SetName {
                referent: referent_2,
                value: value_2,
            } => same_referent(referent, referent_2) && same_value(value, value_2),
            _ => false,
        },
        Token::Get { node, object, key } => match right {
            Token::Get {
                node: node_2,
                object: object_2,
                key: key_2,
            } => *node == *node_2 && same_value(object, object_2) && same_value(key, key_2),
            _ => false,
        },
        Token::Set { object, key, value } => match right {
            Token::Set {
                object: object_2,
                key: key_2,
                value: value_2,
            } => same_value(object, object_2)
                && same_value(key, key_2)
                && same_value(value, value_2),
            _ => false,
        },
        Token::Define { object, key, value } => match right {
            Token::Define {
                object: object_2,
                key: key_2,
                value: value_2,
            } => same_value(object, object_2)
                && same_value(key, key_2)
                && same_value(value, value_2),
            _ => false,
        },
        Token::Call {
            node,
            callee,
            receiver,
            arguments,
        } => match right {
            Token::Call {
                node: node_2,
                callee: callee_2,
                receiver: receiver_2,
                arguments: arguments_2,
            } => *node == *node_2
                && same_value(callee, callee_2)
                && same_nullable_value(receiver, receiver_2)
                && same_value_list(arguments, arguments_2),
            _ => false,
        },
        Token::Construct {
            node,
            callee,
            arguments,
        } => match right {
            Token::Construct {
                node: node_2,
                callee: callee_2,
                arguments: arguments_2,
            } => *node == *node_2
                && same_value(callee, callee_2)
                && same_value_list(arguments, arguments_2),
            _ => false,
        },
        Token::Operate {
            node,
            operation,
            operands,
        } => match right {
            Token::Operate {
                node: node_2,
                operation: operation_2,
                operands: operands_2,
            } => *node == *node_2
                && same_operation(operation, operation_2)
                && same_value_list(operands, operands_2),
            _ => false,
        },
        Token::Update {
            node,
            operator,
            old,
        } => match right {
            Token::Update {
                node: node_2,
                operator: operator_2,
                old: old_2,
            } => *node == *node_2 && same_name(operator, operator_2) && same_value(old, old_2),
            _ => false,
        },
        Token::PrivateGet { node, key, object } => match right {
            Token::PrivateGet {
                node: node_2,
                key: key_2,
                object: object_2,
            } => *node == *node_2 && *key == *key_2 && same_value(object, object_2),
            _ => false,
        },
        Token::PrivateSet { key, object, value } => match right {
            Token::PrivateSet {
                key: key_2,
                object: object_2,
                value: value_2,
            } => *key == *key_2 && same_value(object, object_2) && same_value(value, value_2),
            _ => false,
        },
        Token::PrivateInitialize { key, object, value } => match right {
            Token::PrivateInitialize {
                key: key_2,
                object: object_2,
                value: value_2,
            } => *key == *key_2 && same_value(object, object_2) && same_value(value, value_2),
            _ => false,
        },
        Token::PrivateIn { node, test, object } => match right {
            Token::PrivateIn {
                node: node_2,
                test: test_2,
                object: object_2,
            } => *node == *node_2 && same_test(test, test_2) && same_value(object, object_2),
            _ => false,
        },
        Token::AddBrand { class, object } => match right {
            Token::AddBrand {
                class: class_2,
                object: object_2,
            } => *class == *class_2 && same_value(object, object_2),
            _ => false,
        },
        Token::SuperGet {
            node,
            home,
            key,
            this,
        } => match right {
            Token::SuperGet {
                node: node_2,
                home: home_2,
                key: key_2,
                this: this_2,
            } => *node == *node_2
                && same_home(home, home_2)
                && same_value(key, key_2)
                && same_value(this, this_2),
            _ => false,
        },
        Token::SuperSet {
            home,
            key,
            value,
            this,
        } => match right {
            Token::SuperSet {
                home: home_2,
                key: key_2,
                value: value_2,
                this: this_2,
            } => same_home(home, home_2)
                && same_value(key, key_2)
                && same_value(value, value_2)
                && same_value(this, this_2),
            _ => false,
        },
        Token::SuperCall {
            node,
            class,
            arguments,
        } => match right {
            Token::SuperCall {
                node: node_2,
                class: class_2,
                arguments: arguments_2,
            } => *node == *node_2 && *class == *class_2 && same_value_list(arguments, arguments_2),
            _ => false,
        },
        Token::SuperCallWithAll { class } => match right {
            Token::SuperCallWithAll { class: class_2 } => *class == *class_2,
            _ => false,
        },
        Token::EnterBody => matches!(right, Token::EnterBody),
        Token::InitializeClass { class } => match right {
            Token::InitializeClass { class: class_2 } => *class == *class_2,
            _ => false,
        },
        Token::Throw => matches!(right, Token::Throw),
        Token::Short { value } => match right {
            Token::Short { value: value_2 } => same_value(value, value_2),
            _ => false,
        },
        Token::Begin => matches!(right, Token::Begin),
        Token::End {
            node,
            place,
            tested,
            value,
        } => match right {
            Token::End {
                node: node_2,
                place: place_2,
                tested: tested_2,
                value: value_2,
            } => *node == *node_2
                && same_place(place, place_2)
                && same_nullable_value(tested, tested_2)
                && same_value(value, value_2),
            _ => false,
        },
    }
}

/// Whether two lists of tokens are equal.
pub fn same_tokens(left: &[Token], right: &[Token]) -> bool
    ensures { IsTrue result ↔ (left.now ≡ right.now) }
{
    if left.len() != right.len() {
        return false;
    }
    for i in 0..left.len() {
        if !same_token(&left[i], &right[i]) {
            return false;
        }
    }
    true
}

/// Whether two lists of tokens stand for equal lists of events.
pub fn same_lists(left: &[Token], right: &[Token]) -> bool
    ensures { (l k : Events) → tokens_of left.now ≡ tokens l → tokens_of right.now ≡ tokens k → IsTrue result ↔ (l ≡ k) }
{
    same_tokens(left, right)
}
