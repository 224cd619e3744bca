// Values.

ghost use Rattle.std.specs.Prelude.{◌≡◌, ◌↔◌, IsTrue, IfOk, IfSome, MatchOption, true};

use crate::same::same_constant;
use es_base::literal::clone_of_nullable;
use es_base::name::Name;
use std::alloc::{AllocError, Global};
use std::marker::Model;

/// A literal but a regular expression, or what is alike: the name of a property, a template without expressions (ECMA-262,
/// 12.9).
#[derive(Drop)]
pub enum Constant {
    StringOf(Name),
    NumberOf(Name),
    BigIntOf(Name),
    BooleanOf(bool),
    Null,
    /// A template without expressions whose string has no cooked form.
    RawTemplate(Name),
    /// A string that a tag is called with.
    TagString { raw: Name, cooked: Option<Name> },
}

impl Constant {
    /// A copy. Fails on allocation failure alone.
    pub fn try_clone(&self, alloc: Global) -> Result<Constant, AllocError>
        ensures { IfOk result (λ c. c ≡ self.now) }
    {
        Ok(match self {
            Constant::StringOf(string) => Constant::StringOf(string.try_clone(alloc)?),
            Constant::NumberOf(raw) => Constant::NumberOf(raw.try_clone(alloc)?),
            Constant::BigIntOf(digits) => Constant::BigIntOf(digits.try_clone(alloc)?),
            Constant::BooleanOf(boolean) => Constant::BooleanOf(*boolean),
            Constant::Null => Constant::Null,
            Constant::RawTemplate(raw) => Constant::RawTemplate(raw.try_clone(alloc)?),
            Constant::TagString { raw, cooked } => {
                let raw = raw.try_clone(alloc)?;
                let cooked = clone_of_nullable(alloc, cooked)?;
                Constant::TagString { raw, cooked }
            }
        })
    }
}

/// Where a value comes from: a constant, a binding that is never written, the function, class or operation
/// of a node, or what is known in a function.
#[derive(Drop)]
pub enum Origin {
    ConstantOf(Constant),
    Undefined,
    BindingOf(u32),
    FunctionOf(u32),
    ClassOf(u32),
    ThisOf(u32),
    ArgumentsOf(u32),
    NewTargetOf(u32),
    ResultOf(u32),
    FormerOf(u32),
}

impl Origin {
    /// A copy. Fails on allocation failure alone.
    pub fn try_clone(&self, alloc: Global) -> Result<Origin, AllocError>
        ensures { IfOk result (λ o. o ≡ self.now) }
    {
        Ok(match self {
            Origin::ConstantOf(constant) => Origin::ConstantOf(constant.try_clone(alloc)?),
            Origin::Undefined => Origin::Undefined,
            Origin::BindingOf(binding) => Origin::BindingOf(*binding),
            Origin::FunctionOf(function) => Origin::FunctionOf(*function),
            Origin::ClassOf(class) => Origin::ClassOf(*class),
            Origin::ThisOf(k) => Origin::ThisOf(*k),
            Origin::ArgumentsOf(k) => Origin::ArgumentsOf(*k),
            Origin::NewTargetOf(k) => Origin::NewTargetOf(*k),
            Origin::ResultOf(node) => Origin::ResultOf(*node),
            Origin::FormerOf(node) => Origin::FormerOf(*node),
        })
    }

    /// Whether two origins are equal.
    pub fn is_same(&self, other: &Origin) -> bool
        ensures { IsTrue result ↔ (self.now ≡ other.now) }
    {
        match self {
            Origin::ConstantOf(x) => match other {
                Origin::ConstantOf(y) => same_constant(x, y),
                _ => false,
            },
            Origin::Undefined => matches!(other, Origin::Undefined),
            Origin::BindingOf(x) => matches!(other, Origin::BindingOf(y) if *x == *y),
            Origin::FunctionOf(x) => matches!(other, Origin::FunctionOf(y) if *x == *y),
            Origin::ClassOf(x) => matches!(other, Origin::ClassOf(y) if *x == *y),
            Origin::ThisOf(x) => matches!(other, Origin::ThisOf(y) if *x == *y),
            Origin::ArgumentsOf(x) => matches!(other, Origin::ArgumentsOf(y) if *x == *y),
            Origin::NewTargetOf(x) => matches!(other, Origin::NewTargetOf(y) if *x == *y),
            Origin::ResultOf(x) => matches!(other, Origin::ResultOf(y) if *x == *y),
            Origin::FormerOf(x) => matches!(other, Origin::FormerOf(y) if *x == *y),
        }
    }
}

/// A value, which contracts see as one of the definitions. It keeps where the value comes from, and how
/// often it was made the key of a property (ECMA-262, 7.1.19).
#[derive(Drop)]
pub struct Value {
    origin: Origin,
    key_depth: u32,
}

impl Model for Value {
    ghost use Rattle.es_steps.specs.Values as of;
    ghost use Rattle.es_codes.specs.Stored.{value_code};
    ghost use Rattle.es_codes.specs.contracts.value.Origin as origins;

    ghost Value = { of.Value };

    ghost coded = { value_code origins.the_row.coded };

    ghost use Rattle.es_codes.specs.Keyed.{keyed};
    ghost use Rattle.es_codes.specs.Constants.{origin_of};

    ghost view = { λ v. keyed v.key_depth (origin_of v.origin) };
}

impl Value {
    ghost use Rattle.es_steps.specs.Values.{Undefined, BindingOf, FunctionOf, ClassOf, ThisOf, ArgumentsOf, NewTargetOf, ResultOf, FormerOf, KeyOf, ConstantOf, as_key, is_class_value};
    ghost use Rattle.es_steps.specs.Evaluation.{is_binding_value};
    ghost use Rattle.es_codes.specs.Constants.{constant_of, origin_of};
    ghost use Rattle.es_codes.specs.Keyed.{is_key};

    /// The value that comes from there.
    pub fn of(origin: Origin) -> Value
        ensures { result ≡ origin_of origin }
    {
        Value {
            origin,
            key_depth: 0,
        }
    }

    /// `undefined`.
    pub fn undefined() -> Value
        ensures { result ≡ Undefined }
    {
        Value::of(Origin::Undefined)
    }

    /// What a class is.
    pub fn class_of(class: u32) -> Value
        ensures { result ≡ ClassOf class }
    {
        Value::of(Origin::ClassOf(class))
    }

    /// `this` of a function, of the construction of a class, or of the program.
    pub fn this_of(k: u32) -> Value
        ensures { result ≡ ThisOf k }
    {
        Value::of(Origin::ThisOf(k))
    }

    /// The result of a node.
    pub fn result_of(node: u32) -> Value
        ensures { result ≡ ResultOf node }
    {
        Value::of(Origin::ResultOf(node))
    }

    /// A copy. Fails on allocation failure alone.
    pub fn try_clone(&self, alloc: Global) -> Result<Value, AllocError>
        ensures { IfOk result (λ v. v ≡ self.now) }
    {
        let origin = self.origin.try_clone(alloc)?;
        Ok(Value {
            origin,
            key_depth: self.key_depth,
        })
    }

    /// Where it comes from, unless it was made the key of a property.
    #[tactic(auto, using(crate::proofs::Keys::a_key, crate::proofs::Keys::unkeyed))]
    pub fn origin(&self) -> Option<&Origin>
        ensures { MatchOption result (is_key self.now ≡ true) (λ o. self.now ≡ origin_of o.now) }
    {
        if self.key_depth > 0 {
            None
        } else {
            Some(&self.origin)
        }
    }

    /// Whether it was made the key of a property.
    #[tactic(auto, using(crate::proofs::Keys::no_key, crate::proofs::Keys::a_key))]
    pub fn is_key(&self) -> bool
        ensures { result ≡ is_key self.now }
    {
        self.key_depth > 0
    }

    /// Whether it is no value of a temporary: what a binding holds, a class, or the key of one.
    #[tactic(auto, using(crate::proofs::Keys::binding_keyed))]
    pub fn is_of_binding(&self) -> bool
        ensures { result ≡ is_binding_value self.now }
    {
        match &self.origin {
            Origin::ConstantOf(_) => false,
            Origin::BindingOf(_) => true,
            Origin::Undefined => false,
            Origin::FunctionOf(_) => false,
            Origin::ClassOf(_) => true,
            Origin::ThisOf(_) => false,
            Origin::ArgumentsOf(_) => false,
            Origin::NewTargetOf(_) => false,
            Origin::ResultOf(_) => false,
            Origin::FormerOf(_) => false,
        }
    }

    /// What it is as the key of a property (ECMA-262, 7.1.19). None where it was made a key too often.
    pub fn into_key(self) -> Option<Value>
        ensures { IfSome result (λ v. v ≡ KeyOf self) }
    {
        let key_depth = self.key_depth.checked_add(1)?;
        Some(Value {
            origin: self.origin,
            key_depth,
        })
    }

    /// What stands for it where a key is asked for.
    #[tactic(auto, using(crate::proofs::Keys::as_key_keyed))]
    pub fn as_key(self) -> Value
        ensures { result ≡ as_key self }
    {
        Value {
            origin: self.origin,
            key_depth: self.key_depth.saturating_sub(1),
        }
    }

    /// Whether it is this class.
    #[tactic(auto, using(crate::proofs::Keys::is_class_keyed))]
    pub fn is_class(&self, class: u32) -> bool
        ensures { result ≡ is_class_value class self.now }
    {
        self.key_depth == 0 && matches!(&self.origin, Origin::ClassOf(n) if *n == class)
    }

    /// Whether two values are equal.
    #[tactic(auto, using(crate::proofs::Keys::same_depth, crate::proofs::Keys::same_origin))]
    pub fn is_same(&self, other: &Value) -> bool
        ensures { IsTrue result ↔ (self.now ≡ other.now) }
    {
        self.key_depth == other.key_depth && self.origin.is_same(&other.origin)
    }
}
