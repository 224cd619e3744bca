// The entries in expressions.

ghost use Rattle.std.specs.Prelude.{◌≡◌, ◌++◌, OnOk};
ghost use Rattle.es_codes.specs.CodeView.{code_of, codes_of, target_of};
ghost use Rattle.es_code_entries.specs.Found.{Reaches, seen};
ghost use Rattle.es_code_entries.specs.Walked as walked;

use crate::walk::Walk;
use es_by_number::numbered::Numbered;
use es_code_environments::here::Here;
use es_code_environments::part::{CodeRole, CodesRole, Part};
use es_codes::code::{Code, Target};
use es_entries::entry::Entry;
use es_evaluator::fault::Fault;

impl<'a> Walk<'a> {
    /// `t = e`
    #[cycle(walk)]
    pub(crate) fn add_assigned(
        &self,
        here: &mut Here,
        found: &mut Vec<Numbered<Entry>>,
        to: &Target,
        right: &Code,
    ) -> Result<(), Fault>
        ensures here { OnOk result (here.new ≡ here.old) }
        ensures found { Reaches result (seen found.old.items) (seen found.new.items) (walked.target_entries self.now.terms here.old (target_of to.now) ++ walked.entries self.now.terms (walked.behind_target self.now.terms here.old (target_of to.now)) (code_of right.now) ++ walked.pattern_entries self.now.terms (walked.behind_code self.now.terms (walked.behind_target self.now.terms here.old (target_of to.now)) (code_of right.now)) (target_of to.now)) }
    {
        let front = here.len();
        self.add_and_pass(here, found, Part::Target(to))?;
        self.add_and_pass(here, found, Part::Code(CodeRole::Value, right))?;
        self.add_pattern(here, found, to)?;
        here.back(front);
        Ok(())
    }

    /// `f(a)` of an operation with parts that have lists of their own
    #[cycle(walk)]
    pub(crate) fn add_operation(
        &self,
        here: &mut Here,
        found: &mut Vec<Numbered<Entry>>,
        operands: &[Code],
        held: &[Code],
    ) -> Result<(), Fault>
        ensures here { OnOk result (here.new ≡ here.old) }
        ensures found { Reaches result (seen found.old.items) (seen found.new.items) (walked.all_entries self.now.terms here.old (codes_of operands.now) ++ walked.held_entries self.now.terms (walked.behind_all self.now.terms here.old (codes_of operands.now)) (codes_of held.now)) }
    {
        let front = here.len();
        self.add_and_pass(here, found, Part::Codes(CodesRole::All, operands))?;
        self.add_held(here, found, held)?;
        here.back(front);
        Ok(())
    }

    /// Parts with lists of their own.
    #[cycle(walk)]
    fn add_held(
        &self,
        here: &mut Here,
        found: &mut Vec<Numbered<Entry>>,
        all: &[Code],
    ) -> Result<(), Fault>
        ensures here { OnOk result (here.new ≡ here.old) }
        ensures found { Reaches result (seen found.old.items) (seen found.new.items) (walked.held_entries self.now.terms here.old (codes_of all.now)) }
    {
        for code in all {
            self.add_entries(here, found, code)?;
        }
        Ok(())
    }

    /// `o?.p`: behind the object that is tested, what is read again, and the rest
    #[cycle(walk)]
    pub(crate) fn add_tested(
        &self,
        here: &mut Here,
        found: &mut Vec<Numbered<Entry>>,
        object: &Code,
        again: &[Code],
        rest: Part<'_>,
    ) -> Result<(), Fault>
        ensures here { OnOk result (here.new ≡ here.old) }
        ensures found { Reaches result (seen found.old.items) (seen found.new.items) (walked.entries self.now.terms here.old (code_of object.now) ++ walked.all_entries self.now.terms (walked.behind_code self.now.terms here.old (code_of object.now)) (codes_of again.now) ++ walked.part_entries self.now.terms (walked.behind_code self.now.terms here.old (code_of object.now)) rest.entry) }
    {
        let front = here.len();
        self.add_and_pass(here, found, Part::Code(CodeRole::Value, object))?;
        self.add_each(here, found, CodeRole::Value, again)?;
        self.add_part(here, found, rest)?;
        here.back(front);
        Ok(())
    }
}
