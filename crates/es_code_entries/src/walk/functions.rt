// The entries of functions, and in them.

ghost use Rattle.std.specs.Prelude.{◌≡◌, ◌++◌, OnOk};
ghost use Rattle.es_codes.specs.CodeView.{code_of, codes_of, form_of};
ghost use Rattle.es_steps.specs.Entries.{without};
ghost use Rattle.es_steps.specs.Opening.{assigned_in};
ghost use Rattle.es_code_entries.specs.Found.{Reaches, seen};
ghost use Rattle.es_code_entries.specs.Own.{function_own, function_start};
ghost use Rattle.es_code_entries.specs.Walked as walked;

use crate::found::add_function_entry;
use crate::walk::Walk;
use es_by_number::numbered::Numbered;
use es_code_environments::function::body_start;
use es_code_environments::here::Here;
use es_code_environments::part::{CodeRole, CodesRole, Part};
use es_codes::code::{Code, FunctionForm};
use es_entries::entry::Entry;
use es_evaluator::fault::Fault;

impl<'a> Walk<'a> {
    /// `function () {}`
    #[cycle(walk)]
    pub(crate) fn add_function(
        &self,
        here: &mut Here,
        found: &mut Vec<Numbered<Entry>>,
        node: u32,
        form: FunctionForm,
        own_name: Option<u32>,
        parameters: &[Code],
        body: &Code,
    ) -> Result<(), Fault>
        ensures here { OnOk result (here.new ≡ here.old) }
        ensures found { Reaches result (seen found.old.items) (seen found.new.items) (function_own self.now.terms here.old node (form_of form) own_name (codes_of parameters.now) (code_of body.now) ++ walked.called_entries self.now.terms (function_start here.old (codes_of parameters.now) (code_of body.now)) (codes_of parameters.now) (code_of body.now)) }
    {
        let mut start = add_function_entry(
            &self.terms,
            &*here,
            found,
            node,
            form,
            own_name,
            parameters,
            body,
        )?;
        self.add_called(&mut start, found, parameters, body)
    }

    /// The parameters and the body of a function that is read here.
    #[cycle(walk)]
    pub(crate) fn add_called(
        &self,
        here: &mut Here,
        found: &mut Vec<Numbered<Entry>>,
        parameters: &[Code],
        body: &Code,
    ) -> Result<(), Fault>
        ensures here { OnOk result (here.new ≡ here.old) }
        ensures found { Reaches result (seen found.old.items) (seen found.new.items) (walked.called_entries self.now.terms here.old (codes_of parameters.now) (code_of body.now)) }
    {
        let parameters = Part::Codes(CodesRole::Parameters, parameters);
        let body = Part::Code(CodeRole::Value, body);
        self.add_then(here, found, parameters, body)
    }

    /// Parameters, all in front of the first.
    #[cycle(walk)]
    pub(crate) fn add_parameters(
        &self,
        here: &mut Here,
        found: &mut Vec<Numbered<Entry>>,
        parameters: &[Code],
    ) -> Result<(), Fault>
        ensures here { OnOk result (here.new ≡ here.old) }
        ensures found { Reaches result (seen found.old.items) (seen found.new.items) (walked.parameter_entries self.now.terms here.old (codes_of parameters.now)) }
    {
        for parameter in parameters {
            self.add_parameter(here, found, parameter)?;
        }
        Ok(())
    }

    /// A parameter.
    #[cycle(walk)]
    #[tactic(auto, using(es_codes::proofs::Forms::pattern_is, es_codes::proofs::Forms::rest_is, crate::proofs::Others::no_parameter, crate::proofs::Reached::nothing_reached))]
    fn add_parameter(
        &self,
        here: &mut Here,
        found: &mut Vec<Numbered<Entry>>,
        parameter: &Code,
    ) -> Result<(), Fault>
        ensures here { OnOk result (here.new ≡ here.old) }
        ensures found { Reaches result (seen found.old.items) (seen found.new.items) (walked.parameter_entry self.now.terms here.old (code_of parameter.now)) }
    {
        match parameter {
            // [a, b]
            Code::Pattern { to, .. } => self.add_given(here, found, to.get()),
            // ...t
            Code::Rest { to } => self.add_given(here, found, to.get()),
            _ => Ok(()),
        }
    }

    /// A function that a generated name is given: one that is new has no entry.
    #[cycle(walk)]
    #[tactic(auto, using(es_codes::proofs::Forms::new_function_is, crate::proofs::Others::no_new_function))]
    pub(crate) fn add_given_function(
        &self,
        here: &mut Here,
        found: &mut Vec<Numbered<Entry>>,
        function: &Code,
    ) -> Result<(), Fault>
        ensures here { OnOk result (here.new ≡ here.old) }
        ensures found { Reaches result (seen found.old.items) (seen found.new.items) (walked.given_function self.now.terms here.old (code_of function.now)) }
    {
        match function {
            Code::NewFunction { body, .. } => self.add_new_body(&*here, found, body.get()),
            _ => self.add_entries(here, found, function),
        }
    }

    /// The body of a new function that stands here.
    #[cycle(walk)]
    fn add_new_body(
        &self,
        here: &Here,
        found: &mut Vec<Numbered<Entry>>,
        body: &Code,
    ) -> Result<(), Fault>
        ensures { Reaches result (seen found.old.items) (seen found.new.items) (walked.entries self.now.terms (without (assigned_in (code_of body.now)) here.now) (code_of body.now)) }
    {
        let mut start = body_start(self.terms.among.alloc, here, body)?;
        self.add_entries(&mut start, found, body)
    }
}
