// The entries in parts that are evaluated in front of others.

ghost use Rattle.std.specs.Prelude.{◌≡◌, ◌++◌, length, OnOk};
ghost use Rattle.es_codes.specs.CodeView.{code_of, codes_of};
ghost use Rattle.es_evaluation.specs.Direct.{kept};
ghost use Rattle.es_code_entries.specs.Found.{Reaches, seen};
ghost use Rattle.es_code_entries.specs.Walked as walked;

use crate::walk::Walk;
use es_by_number::numbered::Numbered;
use es_code_environments::here::Here;
use es_code_environments::part::{CodeRole, CodesRole, Part};
use es_codes::code::Code;
use es_entries::entry::Entry;
use es_evaluator::fault::Fault;

impl<'a> Walk<'a> {
    /// A part.
    #[cycle(walk)]
    pub(crate) fn add_part(
        &self,
        here: &mut Here,
        found: &mut Vec<Numbered<Entry>>,
        part: Part<'_>,
    ) -> Result<(), Fault>
        ensures here { OnOk result (here.new ≡ here.old) }
        ensures found { Reaches result (seen found.old.items) (seen found.new.items) (walked.part_entries self.now.terms here.old part.entry) }
    {
        match part {
            Part::Code(role, code) => self.add_code(here, found, role, code),
            Part::Codes(role, codes) => self.add_codes(here, found, role, codes),
            Part::Target(to) => self.add_target(here, found, to),
            Part::Callee(callee) => self.add_callee(here, found, callee),
            Part::Arguments { arguments, .. } => {
                self.add_each(here, found, CodeRole::Value, arguments)
            }
        }
    }

    /// A code, of which the entries are wanted that are evaluated in this role.
    #[cycle(walk)]
    fn add_code(
        &self,
        here: &mut Here,
        found: &mut Vec<Numbered<Entry>>,
        role: CodeRole,
        code: &Code,
    ) -> Result<(), Fault>
        ensures here { OnOk result (here.new ≡ here.old) }
        ensures found { Reaches result (seen found.old.items) (seen found.new.items) (walked.code_entries self.now.terms here.old role (code_of code.now)) }
    {
        match role {
            CodeRole::Value => self.add_entries(here, found, code),
            CodeRole::Member => self.add_take(here, found, code),
            CodeRole::Key => self.add_key(here, found, code),
            CodeRole::Static(_) => self.add_static(here, found, code),
            CodeRole::Field(_) => self.add_field(here, found, code),
        }
    }

    /// Codes, likewise.
    #[cycle(walk)]
    fn add_codes(
        &self,
        here: &mut Here,
        found: &mut Vec<Numbered<Entry>>,
        role: CodesRole,
        codes: &[Code],
    ) -> Result<(), Fault>
        ensures here { OnOk result (here.new ≡ here.old) }
        ensures found { Reaches result (seen found.old.items) (seen found.new.items) (walked.codes_entries self.now.terms here.old role (codes_of codes.now)) }
    {
        match role {
            CodesRole::All => self.add_each(here, found, CodeRole::Value, codes),
            CodesRole::Keys => self.add_each(here, found, CodeRole::Key, codes),
            CodesRole::Fields(class) => self.add_each(here, found, CodeRole::Field(class), codes),
            CodesRole::Parameters => self.add_parameters(here, found, codes),
        }
    }

    /// A part, and goes on behind it.
    #[cycle(walk)]
    pub(crate) fn add_and_pass(
        &self,
        here: &mut Here,
        found: &mut Vec<Numbered<Entry>>,
        part: Part<'_>,
    ) -> Result<(), Fault>
        ensures leads { OnOk result (here.new ≡ walked.behind self.now.terms here.old part.entry) }
        ensures over { OnOk result (kept (length here.old) here.new ≡ here.old) }
        ensures found { Reaches result (seen found.old.items) (seen found.new.items) (walked.part_entries self.now.terms here.old part.entry) }
    {
        self.add_part(here, found, part)?;
        here.pass(&self.terms, part)
    }

    /// A part, and one behind it.
    #[cycle(walk)]
    pub(crate) fn add_then(
        &self,
        here: &mut Here,
        found: &mut Vec<Numbered<Entry>>,
        first: Part<'_>,
        second: Part<'_>,
    ) -> Result<(), Fault>
        ensures here { OnOk result (here.new ≡ here.old) }
        ensures found { Reaches result (seen found.old.items) (seen found.new.items) (walked.part_entries self.now.terms here.old first.entry ++ walked.part_entries self.now.terms (walked.behind self.now.terms here.old first.entry) second.entry) }
    {
        let front = here.len();
        self.add_and_pass(here, found, first)?;
        self.add_part(here, found, second)?;
        here.back(front);
        Ok(())
    }

    /// `o[k]`, `a || b`
    #[cycle(walk)]
    pub(crate) fn add_two(
        &self,
        here: &mut Here,
        found: &mut Vec<Numbered<Entry>>,
        first: &Code,
        second: &Code,
    ) -> Result<(), Fault>
        ensures here { OnOk result (here.new ≡ here.old) }
        ensures found { Reaches result (seen found.old.items) (seen found.new.items) (walked.entries self.now.terms here.old (code_of first.now) ++ walked.entries self.now.terms (walked.behind_code self.now.terms here.old (code_of first.now)) (code_of second.now)) }
    {
        let first = Part::Code(CodeRole::Value, first);
        let second = Part::Code(CodeRole::Value, second);
        self.add_then(here, found, first, second)
    }

    /// Codes in order, each in this role.
    #[cycle(walk)]
    pub(crate) fn add_each(
        &self,
        here: &mut Here,
        found: &mut Vec<Numbered<Entry>>,
        role: CodeRole,
        codes: &[Code],
    ) -> Result<(), Fault>
        ensures here { OnOk result (here.new ≡ here.old) }
        ensures found { Reaches result (seen found.old.items) (seen found.new.items) (walked.each_entries self.now.terms here.old role (codes_of codes.now)) }
    {
        let front = here.len();
        for code in codes {
            self.add_and_pass(here, found, Part::Code(role, code))?;
        }
        here.back(front);
        Ok(())
    }
}
