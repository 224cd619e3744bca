// Environments.

ghost use Rattle.std.specs.Prelude.{◌≡◌, ◌++◌, ◌-◌, cond, length, option_map, IfOk, OnOk};
ghost use Rattle.es_codes.specs.CodeView.{code_of, codes_of};
ghost use Rattle.es_evaluation.specs.Direct.{is_none, kept};
ghost use Rattle.es_evaluator.specs.Running.{names_of, state_of};
ghost use Rattle.es_steps.specs.Entries as spec;
ghost use Rattle.es_steps.specs.Evaluation.{only_private};
ghost use Rattle.es_code_environments.specs.FlatEntries.{flat_at, flat_list, list_in};
ghost use Rattle.es_code_environments.specs.Results.{Gives, Proceeds};
ghost use Rattle.es_code_environments.specs.Parts.{run_of};
ghost use Rattle.es_code_environments.specs.Standing.{opens_in, standing};

use crate::names::{copy_names, copy_others, copy_private, cut, quieted, standing};
use crate::part::{Part, evaluate_call, evaluate_part};
use crate::terms::Terms;
use es_base::list::List;
use es_base::name::Name;
use es_codes::code::Code;
use es_codes::value::Value;
use es_entries::listed::Listed;
use es_evaluator::fault::Fault;
use es_evaluator::state::{Named, State};
use std::alloc::{AllocError, Global};
use std::marker::Model;
use std::mem;

/// An environment: where a walk stands, by the values of the temporaries there.
#[derive(Drop)]
pub struct Here {
    names: Vec<Named>,
    // What an evaluation begins with. There is none behind one that has no meaning, which may leave any names.
    state: Option<State>,
}

impl Model for Here {
    ghost use Rattle.std.specs.Coded.{coded_list, coded_ℕ, coded×};
    ghost use Rattle.es_codes.specs.Stored.{value_code};
    ghost use Rattle.es_codes.specs.contracts.value.Origin as origins;
    ghost use Rattle.es_steps.specs.Evaluation.{Environment};
    ghost use Rattle.es_evaluator.specs.Running.{names_of};
    ghost use Rattle.es_code_environments.specs.Standing.{IsStanding};

    ghost Value = { Environment };

    ghost coded = { coded_list (coded× (coded_list coded_ℕ) (value_code origins.the_row.coded)) };

    ghost view = { λ h. names_of h.names.items };

    ghost invariant = { λ h. IsStanding h.names.items h.state };
}

impl Here {
    /// Where these temporaries are all that have values. Takes no memory.
    pub fn new(names: Vec<Named>) -> Here
        ensures { result ≡ names_of names.items }
    {
        Here { names, state: None }
    }

    /// How many values were given to temporaries.
    #[tactic(auto, using(es_evaluator::proofs::Given::length_names_of))]
    pub fn len(&self) -> usize
        ensures { result ≡ length self.now }
    {
        self.names.len()
    }

    /// Goes back to where there were so many.
    #[tactic(auto, using(es_evaluator::proofs::Given::names_of_take))]
    pub fn back(&mut self, count: usize)
        ensures { self.new ≡ kept count self.old }
    {
        self.names.truncate(count);
        if let Some(state) = self.state.take() {
            self.state = Some(cut(state, count));
        }
    }

    /// What an evaluation begins with here. Fails on allocation failure alone.
    fn take_state(&mut self, alloc: Global) -> Result<State, AllocError>
        ensures state { IfOk result (λ s. state_of s ≡ standing self.old) }
        ensures same { self.new ≡ self.old }
    {
        match self.state.take() {
            Some(state) => Ok(state),
            None => standing(alloc, self.names.as_slice()),
        }
    }

    /// Goes on behind an evaluation that came to this state. Fails on allocation failure alone.
    #[tactic(auto, using(crate::proofs::Copies::names_behind), unfolding(es_evaluator::specs::Running::state_of))]
    fn go_on(&mut self, alloc: Global, state: State) -> Result<(), AllocError>
        requires { kept (length self.old) (state_of state).names ≡ self.old }
        ensures { OnOk result (self.new ≡ (state_of state).names) }
    {
        self.state = None;
        let count = self.names.len();
        copy_names(alloc, state.names.as_slice(), count, &mut self.names)?;
        self.state = Some(quieted(state));
        Ok(())
    }

    /// Goes on behind a part, or stays here where it has no meaning.
    #[tactic(auto, using(crate::proofs::Runs::leads_to, crate::proofs::Runs::leads_nowhere, crate::proofs::Runs::leads_over, crate::proofs::Back::back_here))]
    pub fn pass(&mut self, terms: &Terms<'_>, part: Part<'_>) -> Result<(), Fault>
        ensures leads { OnOk result (self.new ≡ spec.after_run self.old (run_of (opens_in terms.now) terms.now.late.now part.entry self.old)) }
        ensures over { OnOk result (kept (length self.old) self.new ≡ self.old) }
        ensures err { Proceeds result }
    {
        let alloc = terms.among.alloc;
        let mut state = self.take_state(alloc)?;
        match evaluate_part(terms, &mut state, part) {
            Ok(_) => Ok(self.go_on(alloc, state)?),
            Err(Fault::NoMeaning) => Ok(()),
            Err(fault) => Err(fault),
        }
    }

    /// The value of a part, and goes on behind it.
    #[tactic(auto, using(crate::proofs::Runs::leads_to, crate::proofs::Runs::leads_over, crate::proofs::Runs::has_value, crate::proofs::Runs::has_no_value))]
    pub fn pass_value(&mut self, terms: &Terms<'_>, part: Part<'_>) -> Result<Value, Fault>
        ensures value { Gives (λ v. v) result (spec.value_in (run_of (opens_in terms.now) terms.now.late.now part.entry self.old)) }
        ensures leads { OnOk result (self.new ≡ spec.after_run self.old (run_of (opens_in terms.now) terms.now.late.now part.entry self.old)) }
        ensures over { OnOk result (kept (length self.old) self.new ≡ self.old) }
    {
        let alloc = terms.among.alloc;
        let mut state = self.take_state(alloc)?;
        let value = evaluate_part(terms, &mut state, part)?;
        let value = state.settled(value);
        self.go_on(alloc, state)?;
        Ok(value)
    }

    /// The value of a part.
    pub fn value_of(&mut self, terms: &Terms<'_>, part: Part<'_>) -> Result<Value, Fault>
        ensures value { Gives (λ v. v) result (spec.value_in (run_of (opens_in terms.now) terms.now.late.now part.entry self.old)) }
        ensures here { OnOk result (self.new ≡ self.old) }
    {
        let front = self.len();
        let value = self.pass_value(terms, part)?;
        self.back(front);
        Ok(value)
    }

    /// Goes on behind a part in which nothing happens; gives whether that is so.
    #[tactic(auto, using(crate::proofs::Runs::leads_to, crate::proofs::Runs::leads_over, crate::proofs::Runs::is_quiet, crate::proofs::Runs::is_nowhere_quiet, crate::proofs::Back::back_here))]
    pub fn pass_if_quiet(&mut self, terms: &Terms<'_>, part: Part<'_>) -> Result<bool, Fault>
        ensures quiet { IfOk result (λ b. b ≡ spec.is_quiet_run (run_of (opens_in terms.now) terms.now.late.now part.entry self.old)) }
        ensures here { IfOk result (λ b. self.new ≡ cond b (spec.after_run self.old (run_of (opens_in terms.now) terms.now.late.now part.entry self.old)) self.old) }
        ensures over { OnOk result (kept (length self.old) self.new ≡ self.old) }
        ensures err { Proceeds result }
    {
        let alloc = terms.among.alloc;
        let mut state = self.take_state(alloc)?;
        match evaluate_part(terms, &mut state, part) {
            Ok(_) => {
                if !is_quiet(&state) {
                    return Ok(false);
                }
                self.go_on(alloc, state)?;
                Ok(true)
            }
            Err(Fault::NoMeaning) => Ok(false),
            Err(fault) => Err(fault),
        }
    }

    /// The list of a call of a function that is read here, with its value.
    #[tactic(auto, using(crate::proofs::Runs::body_has_list, crate::proofs::Runs::body_has_no_list))]
    pub fn list_of_body(
        &mut self,
        terms: &Terms<'_>,
        parameters: &[Code],
        body: &Code,
    ) -> Result<Listed, Fault>
        ensures list { Gives list_in result (option_map flat_list (spec.listed (spec.ev_body (opens_in terms.now) 0 terms.now.late.now (codes_of parameters.now) (code_of body.now) self.old))) }
        ensures here { self.new ≡ self.old }
    {
        let alloc = terms.among.alloc;
        let mut state = self.take_state(alloc)?;
        let value = evaluate_call(terms, &mut state, parameters, body)?;
        Ok(list_in(alloc, state, value))
    }

    /// The list of a construction of a class that starts here, with its value.
    #[tactic(auto, using(crate::proofs::Runs::has_list, crate::proofs::Runs::has_no_list))]
    pub fn list_of_construction(
        &mut self,
        terms: &Terms<'_>,
        class: u32,
        heritage: &[Code],
        elements: &[Code],
    ) -> Result<Listed, Fault>
        ensures list { Gives list_in result (option_map flat_list (spec.listed (spec.ev_construction (opens_in terms.now) 0 terms.now.late.now class (codes_of heritage.now) (codes_of elements.now) (codes_of elements.now) self.old))) }
        ensures here { self.new ≡ self.old }
    {
        let alloc = terms.among.alloc;
        let mut state = self.take_state(alloc)?;
        let value = terms
            .among
            .evaluate_construction(&mut state, terms.late, class, heritage, elements)?;
        Ok(list_in(alloc, state, value))
    }

    /// Where temporaries of these names have no value. Fails on allocation failure alone.
    pub fn without(&self, alloc: Global, hidden: &[Name]) -> Result<Here, AllocError>
        ensures { IfOk result (λ h. h ≡ spec.without hidden.now self.now) }
    {
        let names = copy_others(alloc, self.names.as_slice(), hidden)?;
        Ok(Here::new(names))
    }

    /// Gives the private elements here what they hold elsewhere, behind the first `first` temporaries there. Fails on allocation
    /// failure alone.
    #[tactic(auto, using(es_evaluator::proofs::Given::length_names_of))]
    pub fn give_private(
        &mut self,
        alloc: Global,
        other: &Here,
        first: usize,
    ) -> Result<(), AllocError>
        ensures { OnOk result (self.new ≡ only_private (length other.now - first) other.now ++ self.old) }
    {
        self.state = None;
        copy_private(alloc, other.names.as_slice(), first, &mut self.names)
    }
}

/// The list of an evaluation that came to this state and gave this value.
#[tactic(auto, unfolding(es_evaluator::specs::Running::state_of))]
fn list_in(alloc: Global, mut state: State, value: Value) -> Listed
    ensures { list_in result ≡ flat_at (state_of state) value }
{
    let value = state.settled(value);
    let tokens = mem::replace(&mut state.tokens, Vec::new(alloc));
    Listed {
        tokens: List::from_vec(tokens),
        value,
    }
}

/// Whether nothing happened up to this state.
#[tactic(auto, using(es_evaluator::proofs::SameValues::is_none_of), unfolding(es_evaluator::specs::Running::state_of))]
fn is_quiet(state: &State) -> bool
    ensures { result ≡ is_none (state_of state.now).tokens }
{
    state.tokens.is_empty()
}
