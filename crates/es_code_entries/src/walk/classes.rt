// The entries of classes, and in them.

ghost use Rattle.std.specs.Prelude.{◌≡◌, [], cond, OnOk};
ghost use Rattle.es_codes.specs.CodeView.{code_of, codes_of};
ghost use Rattle.es_code_entries.specs.Found.{Reaches, seen};
ghost use Rattle.es_code_entries.specs.Walked as walked;

use crate::found::add_class_entry;
use crate::walk::Walk;
use es_by_number::numbered::Numbered;
use es_code_environments::class::pass_fields;
use es_code_environments::here::Here;
use es_code_environments::part::{CodeRole, CodesRole, Part};
use es_codes::code::Code;
use es_entries::entry::Entry;
use es_evaluator::fault::Fault;

impl<'a> Walk<'a> {
    /// `class extends h {}`
    #[cycle(walk)]
    pub(crate) fn add_class(
        &self,
        here: &mut Here,
        found: &mut Vec<Numbered<Entry>>,
        node: u32,
        declared: Option<u32>,
        heritage: &[Code],
        elements: &[Code],
    ) -> Result<(), Fault>
        ensures here { OnOk result (here.new ≡ here.old) }
        ensures found { Reaches result (seen found.old.items) (seen found.new.items) (walked.class_entries self.now.terms here.old node declared (codes_of heritage.now) (codes_of elements.now)) }
    {
        let mut start = add_class_entry(
            &self.terms,
            here,
            found,
            node,
            declared,
            heritage,
            elements,
        )?;
        self.add_running(here, found, node, heritage, elements)?;
        self.add_constructed(here, &mut start, found, node, heritage, elements)
    }

    /// What runs with a class: its heritage, its keys, its static elements.
    #[cycle(walk)]
    fn add_running(
        &self,
        here: &mut Here,
        found: &mut Vec<Numbered<Entry>>,
        class: u32,
        heritage: &[Code],
        elements: &[Code],
    ) -> Result<(), Fault>
        ensures here { OnOk result (here.new ≡ here.old) }
        ensures found { Reaches result (seen found.old.items) (seen found.new.items) (walked.running_entries self.now.terms here.old class (codes_of heritage.now) (codes_of elements.now)) }
    {
        let front = here.len();
        self.add_and_pass(here, found, Part::Codes(CodesRole::All, heritage))?;
        self.add_and_pass(here, found, Part::Codes(CodesRole::Keys, elements))?;
        self.add_each(here, found, CodeRole::Static(class), elements)?;
        here.back(front);
        Ok(())
    }

    /// What runs with a construction, which starts inside, or is called later.
    #[cycle(walk)]
    fn add_constructed(
        &self,
        here: &mut Here,
        inside: &mut Here,
        found: &mut Vec<Numbered<Entry>>,
        class: u32,
        heritage: &[Code],
        elements: &[Code],
    ) -> Result<(), Fault>
        ensures here { OnOk result (here.new ≡ here.old) }
        ensures inside { OnOk result (inside.new ≡ inside.old) }
        ensures found { Reaches result (seen found.old.items) (seen found.new.items) (walked.constructed_entries self.now.terms here.old inside.old class (codes_of heritage.now) (codes_of elements.now)) }
    {
        let front = inside.len();
        self.add_each(inside, found, CodeRole::Field(class), elements)?;
        pass_fields(&self.terms, inside, class, heritage, elements)?;
        self.add_functions(here, inside, found, elements)?;
        inside.back(front);
        Ok(())
    }

    /// The key of an element.
    #[cycle(walk)]
    #[tactic(auto, using(es_codes::proofs::Forms::field_is, es_codes::proofs::Forms::method_is, crate::proofs::Others::no_key, crate::proofs::Reached::nothing_reached))]
    pub(crate) fn add_key(
        &self,
        here: &mut Here,
        found: &mut Vec<Numbered<Entry>>,
        element: &Code,
    ) -> Result<(), Fault>
        ensures here { OnOk result (here.new ≡ here.old) }
        ensures found { Reaches result (seen found.old.items) (seen found.new.items) (walked.key_entry self.now.terms here.old (code_of element.now)) }
    {
        match element {
            Code::Field { key, .. } => self.add_entries(here, found, key.get()),
            Code::Method { key, .. } => self.add_entries(here, found, key.get()),
            _ => Ok(()),
        }
    }

    /// An element that runs with the class.
    #[cycle(walk)]
    #[tactic(auto, using(es_codes::proofs::Forms::field_is, es_codes::proofs::Forms::private_field_is, es_codes::proofs::Forms::static_block_is, es_codes::proofs::Forms::generated_element_is, crate::proofs::EntryForms::static_field, crate::proofs::EntryForms::static_private, crate::proofs::Others::no_static, crate::proofs::Reached::nothing_reached))]
    pub(crate) fn add_static(
        &self,
        here: &mut Here,
        found: &mut Vec<Numbered<Entry>>,
        element: &Code,
    ) -> Result<(), Fault>
        ensures here { OnOk result (here.new ≡ here.old) }
        ensures found { Reaches result (seen found.old.items) (seen found.new.items) (walked.static_entry self.now.terms here.old (code_of element.now)) }
    {
        match element {
            // static k = e;
            Code::Field {
                is_static,
                right,
                ..
            } => { self.add_if(here, found, *is_static, right.get()) }
            // static #x = e;
            Code::PrivateField {
                is_static,
                right,
                ..
            } => { self.add_if(here, found, *is_static, right.get()) }
            // static {}
            Code::StaticBlock { all } => {
                self.add_each(here, found, CodeRole::Value, all.as_slice())
            }
            Code::GeneratedElement { right, .. } => self.add_entries(here, found, right.get()),
            _ => Ok(()),
        }
    }

    /// An instance field.
    #[cycle(walk)]
    #[tactic(auto, using(es_codes::proofs::Forms::field_is, es_codes::proofs::Forms::private_field_is, crate::proofs::EntryForms::instance_field, crate::proofs::EntryForms::instance_private, crate::proofs::Others::no_field, crate::proofs::Reached::nothing_reached))]
    pub(crate) fn add_field(
        &self,
        here: &mut Here,
        found: &mut Vec<Numbered<Entry>>,
        element: &Code,
    ) -> Result<(), Fault>
        ensures here { OnOk result (here.new ≡ here.old) }
        ensures found { Reaches result (seen found.old.items) (seen found.new.items) (walked.field_entry self.now.terms here.old (code_of element.now)) }
    {
        match element {
            // k = e;
            Code::Field {
                is_static,
                right,
                ..
            } => { self.add_if(here, found, !*is_static, right.get()) }
            // #x = e;
            Code::PrivateField {
                is_static,
                right,
                ..
            } => { self.add_if(here, found, !*is_static, right.get()) }
            _ => Ok(()),
        }
    }

    /// A code, where it is wanted.
    #[cycle(walk)]
    #[tactic(auto, using(crate::proofs::Reached::nothing_reached))]
    fn add_if(
        &self,
        here: &mut Here,
        found: &mut Vec<Numbered<Entry>>,
        is_wanted: bool,
        code: &Code,
    ) -> Result<(), Fault>
        ensures here { OnOk result (here.new ≡ here.old) }
        ensures found { Reaches result (seen found.old.items) (seen found.new.items) (cond is_wanted (walked.entries self.now.terms here.old (code_of code.now)) []) }
    {
        if is_wanted {
            self.add_entries(here, found, code)
        } else {
            Ok(())
        }
    }

    /// Methods, and what stands in the constructor, whose parameters are inside.
    #[cycle(walk)]
    fn add_functions(
        &self,
        here: &mut Here,
        inside: &mut Here,
        found: &mut Vec<Numbered<Entry>>,
        elements: &[Code],
    ) -> Result<(), Fault>
        ensures here { OnOk result (here.new ≡ here.old) }
        ensures inside { OnOk result (inside.new ≡ inside.old) }
        ensures found { Reaches result (seen found.old.items) (seen found.new.items) (walked.function_entries self.now.terms here.old inside.old (codes_of elements.now)) }
    {
        for element in elements {
            self.add_element_function(here, inside, found, element)?;
        }
        Ok(())
    }

    /// A method, or what stands in the constructor.
    #[cycle(walk)]
    #[tactic(auto, using(es_codes::proofs::Forms::method_is, es_codes::proofs::Forms::private_method_is, es_codes::proofs::Forms::constructor_is, crate::proofs::EntryForms::constructor_function, crate::proofs::Others::no_element_function, crate::proofs::Reached::nothing_reached))]
    fn add_element_function(
        &self,
        here: &mut Here,
        inside: &mut Here,
        found: &mut Vec<Numbered<Entry>>,
        element: &Code,
    ) -> Result<(), Fault>
        ensures here { OnOk result (here.new ≡ here.old) }
        ensures inside { OnOk result (inside.new ≡ inside.old) }
        ensures found { Reaches result (seen found.old.items) (seen found.new.items) (walked.element_function self.now.terms here.old inside.old (code_of element.now)) }
    {
        match element {
            // k() {}
            Code::Method { function, .. } => self.add_entries(here, found, function.get()),
            // #x() {}
            Code::PrivateMethod { function, .. } => self.add_entries(here, found, function.get()),
            // constructor() {}
            Code::Constructor { function } => self.add_constructor(inside, found, function.get()),
            _ => Ok(()),
        }
    }

    /// What stands in a constructor whose parameters are here.
    #[cycle(walk)]
    #[tactic(auto, using(es_codes::proofs::Forms::function_is, es_codes::proofs::Forms::new_function_is, crate::proofs::Others::no_constructor, crate::proofs::Reached::nothing_reached))]
    fn add_constructor(
        &self,
        here: &mut Here,
        found: &mut Vec<Numbered<Entry>>,
        function: &Code,
    ) -> Result<(), Fault>
        ensures here { OnOk result (here.new ≡ here.old) }
        ensures found { Reaches result (seen found.old.items) (seen found.new.items) (walked.constructor_entries self.now.terms here.old (code_of function.now)) }
    {
        match function {
            Code::Function {
                parameters,
                body,
                ..
            } => self.add_called(here, found, parameters.as_slice(), body.get()),
            Code::NewFunction {
                parameters,
                body,
                ..
            } => self.add_called(here, found, parameters.as_slice(), body.get()),
            _ => Ok(()),
        }
    }
}
