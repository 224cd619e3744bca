// What evaluation knows so far.

ghost use Rattle.std.specs.Prelude.{◌≡◌, ◌&&◌, OnOk, IfOk, length, Some, option_map};
ghost use Rattle.es_codes.specs.View.{token_of};
ghost use Rattle.es_steps.specs.SameValues.{same_value};
ghost use Rattle.es_evaluation.specs.Direct.{with_token, with_name, entered, settle_with, unless_thrown, opened, apart, is_none, class_with, this_with};
ghost use Rattle.es_evaluator.specs.Running.{Returns, state_of, closed_with};

use crate::fault::Fault;
use es_base::name::Name;
use es_codes::event::Token;
use es_codes::value::Value;
use std::alloc::{AllocError, Global};
use std::mem;

/// A temporary, and the value that it was given.
#[derive(Drop)]
pub struct Named {
    pub name: Name,
    pub value: Value,
}

impl Named {
    /// A copy. Fails on allocation failure alone.
    fn try_clone(&self, alloc: Global) -> Result<Named, AllocError>
        ensures { IfOk result (λ n. n ≡ self.now) }
    {
        let name = self.name.try_clone(alloc)?;
        let value = self.value.try_clone(alloc)?;
        Ok(Named { name, value })
    }
}

/// A copy of temporaries. Fails on allocation failure alone.
fn clone_names(alloc: Global, names: &[Named]) -> Result<Vec<Named>, AllocError>
    ensures { IfOk result (λ ns. ns.items ≡ names.now) }
{
    let mut copy = Vec::new(alloc);
    for i in 0..names.len() {
        copy.push(names[i].try_clone(alloc)?)?;
    }
    Ok(copy)
}

/// The temporaries, the last given last; the tokens of the list so far; whether a throw stands in this form.
#[derive(Drop)]
pub struct State {
    pub names: Vec<Named>,
    pub tokens: Vec<Token>,
    pub has_thrown: bool,
}

/// A callee, and its receiver if it has one.
#[derive(Drop)]
pub struct Called {
    pub callee: Value,
    pub receiver: Option<Value>,
}

/// The values of the operands of a target.
#[derive(Drop)]
pub enum Operands {
    Nothing,
    One(Value),
    Two(Value, Value),
}

/// What is put back behind a part that may run or not, or again.
#[derive(Clone, Copy)]
pub struct Around {
    pub count: usize,
    pub has_thrown: bool,
}

impl State {
    /// Adds a token. Fails on allocation failure alone.
    #[tactic(auto, using(crate::proofs::Given::tokens_of_push), unfolding(crate::specs::Running::state_of))]
    pub fn push(&mut self, token: Token) -> Result<(), AllocError>
        ensures { OnOk result (state_of self.new ≡ with_token (token_of token) (state_of self.old)) }
    {
        self.tokens.push(token)?;
        Ok(())
    }

    /// The name stands for the value from here on. Fails on allocation failure alone.
    #[tactic(auto, using(crate::proofs::Given::names_of_push), unfolding(crate::specs::Running::state_of))]
    pub fn give(&mut self, name: Name, value: Value) -> Result<(), AllocError>
        ensures { OnOk result (state_of self.new ≡ with_name name value (state_of self.old)) }
    {
        self.names.push(Named { name, value })?;
        Ok(())
    }

    /// Undefined if a throw stands in this form, else the value.
    #[tactic(auto, unfolding(crate::specs::Running::state_of))]
    pub fn settled(&self, value: Value) -> Value
        ensures { result ≡ unless_thrown (state_of self.now) value }
    {
        if self.has_thrown {
            Value::undefined()
        } else {
            value
        }
    }

    /// Enters a form, and gives whether a throw stands in the one around.
    #[tactic(auto, unfolding(crate::specs::Running::state_of))]
    pub fn enter(&mut self) -> bool
        ensures value { result ≡ (state_of self.old).has_thrown }
        ensures state { state_of self.new ≡ entered (state_of self.old) }
    {
        mem::replace(&mut self.has_thrown, false)
    }

    /// Leaves a form for the one around, and gives its value.
    #[tactic(auto, unfolding(crate::specs::Running::state_of))]
    pub fn leave(&mut self, outer: bool, value: Value) -> Value
        ensures { settle_with outer (Some (value, state_of self.old)) ≡ Some (result, state_of self.new) }
    {
        let value = self.settled(value);
        self.has_thrown = outer || self.has_thrown;
        value
    }

    /// Begins a part. Fails on allocation failure alone.
    #[tactic(auto, using(crate::proofs::Given::length_names_of, crate::proofs::Given::tokens_of_push), unfolding(crate::specs::Running::state_of))]
    pub fn open(&mut self) -> Result<Around, AllocError>
        ensures count { IfOk result (λ a. a.count ≡ length (state_of self.old).names) }
        ensures has_thrown { IfOk result (λ a. a.has_thrown ≡ (state_of self.old).has_thrown) }
        ensures state { OnOk result (state_of self.new ≡ opened (state_of self.old)) }
    {
        let around = Around {
            count: self.names.len(),
            has_thrown: self.has_thrown,
        };
        self.push(Token::Begin)?;
        self.has_thrown = false;
        Ok(around)
    }

    /// Ends a part with this token: the names that it added end with it. Fails on allocation failure alone.
    #[tactic(auto, using(crate::proofs::Given::names_of_take, crate::proofs::Given::tokens_of_push), unfolding(crate::specs::Running::state_of))]
    pub fn close(&mut self, around: Around, token: Token) -> Result<(), AllocError>
        ensures { OnOk result (state_of self.new ≡ closed_with around.count around.has_thrown (state_of self.old) (token_of token)) }
    {
        self.names.truncate(around.count);
        self.has_thrown = around.has_thrown;
        self.push(token)
    }

    /// The receiver of a callee, settled.
    #[tactic(auto, unfolding(crate::specs::Running::state_of))]
    pub fn settled_receiver(&self, receiver: Option<Value>) -> Option<Value>
        ensures { result ≡ option_map (unless_thrown (state_of self.now)) receiver }
    {
        match receiver {
            None => None,
            Some(receiver) => Some(self.settled(receiver)),
        }
    }

    /// A state of the same names with a list of its own. Fails on allocation failure alone.
    #[tactic(auto, unfolding(crate::specs::Running::state_of))]
    pub fn apart(&self, alloc: Global) -> Result<State, AllocError>
        ensures { IfOk result (λ t. state_of t ≡ apart (state_of self.now)) }
    {
        let names = clone_names(alloc, self.names.as_slice())?;
        Ok(State {
            names,
            tokens: Vec::new(alloc),
            has_thrown: false,
        })
    }

    /// Whether nothing happened, and this value was found.
    #[tactic(auto, using(crate::proofs::SameValues::same_value_is), unfolding(crate::specs::Running::state_of))]
    pub fn is_only(&self, value: &Value, found: &Value) -> bool
        ensures { result ≡ (is_none (state_of self.now).tokens && same_value value.now found.now) }
    {
        self.is_empty() && value.is_same(found)
    }

    /// Whether nothing happened.
    #[tactic(auto, using(crate::proofs::SameValues::is_none_of), unfolding(crate::specs::Running::state_of))]
    fn is_empty(&self) -> bool
        ensures { result ≡ is_none (state_of self.now).tokens }
    {
        self.tokens.is_empty()
    }

    /// Leaves what has to give this class, unless it throws.
    #[tactic(auto, unfolding(crate::specs::Running::state_of))]
    pub fn leave_class(&mut self, outer: bool, class: u32, value: Value) -> Result<Value, Fault>
        ensures { Returns (λ v. v) result self.new (class_with class outer (Some (value, state_of self.old))) }
    {
        if !self.has_thrown && !value.is_class(class) {
            return Err(Fault::NoMeaning);
        }
        self.has_thrown = outer || self.has_thrown;
        Ok(value)
    }

    /// Leaves what has to give `this` of this class, unless it throws.
    #[tactic(auto, using(crate::proofs::SameValues::same_value_is), unfolding(crate::specs::Running::state_of))]
    pub fn leave_this(&mut self, outer: bool, class: u32, value: Value) -> Result<Value, Fault>
        ensures { Returns (λ v. v) result self.new (this_with class outer (Some (value, state_of self.old))) }
    {
        if !self.has_thrown && !Value::this_of(class).is_same(&value) {
            return Err(Fault::NoMeaning);
        }
        self.has_thrown = outer || self.has_thrown;
        Ok(value)
    }
}
