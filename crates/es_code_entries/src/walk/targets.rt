// The entries in targets and patterns.

ghost use Rattle.std.specs.Prelude.{◌≡◌, ◌++◌, OnOk};
ghost use Rattle.es_codes.specs.CodeView.{code_of, codes_of, target_of};
ghost use Rattle.es_code_entries.specs.Found.{Reaches, seen};
ghost use Rattle.es_code_entries.specs.Walked as walked;

use crate::walk::Walk;
use es_by_number::numbered::Numbered;
use es_code_environments::here::Here;
use es_code_environments::part::{CodeRole, CodesRole, Part};
use es_codes::code::{Code, Target};
use es_entries::entry::Entry;
use es_evaluator::fault::Fault;

impl<'a> Walk<'a> {
    /// What stands in a target, in front of what it is given.
    #[cycle(walk)]
    #[tactic(auto, using(crate::proofs::Reached::nothing_reached, es_codes::proofs::Forms::to_name_is, es_codes::proofs::Forms::to_member_is, es_codes::proofs::Forms::to_private_is, es_codes::proofs::Forms::to_super_is, es_codes::proofs::Forms::to_setter_is, es_codes::proofs::Forms::to_pattern_is, es_codes::proofs::Forms::to_default_is, es_codes::proofs::Forms::no_target_is))]
    pub(crate) fn add_target(
        &self,
        here: &mut Here,
        found: &mut Vec<Numbered<Entry>>,
        to: &Target,
    ) -> Result<(), Fault>
        ensures here { OnOk result (here.new ≡ here.old) }
        ensures found { Reaches result (seen found.old.items) (seen found.new.items) (walked.target_entries self.now.terms here.old (target_of to.now)) }
    {
        match to {
            Target::ToName { .. } => Ok(()),
            Target::ToMember { object, key, .. } => self.add_two(
                here,
                found,
                object.get(),
                key.get(),
            ),
            Target::ToPrivate { object, .. } => self.add_entries(here, found, object.get()),
            Target::ToSuper { key, .. } => self.add_entries(here, found, key.get()),
            Target::ToSetter { object, .. } => self.add_entries(here, found, object.get()),
            Target::ToPattern { .. } => Ok(()),
            Target::ToDefault { to, .. } => self.add_target(here, found, to.get()),
            Target::NoTarget => Ok(()),
        }
    }

    /// What stands in a target, behind what it is given.
    #[cycle(walk)]
    #[tactic(auto, using(crate::proofs::Reached::nothing_reached, es_codes::proofs::Forms::to_name_is, es_codes::proofs::Forms::to_member_is, es_codes::proofs::Forms::to_private_is, es_codes::proofs::Forms::to_super_is, es_codes::proofs::Forms::to_setter_is, es_codes::proofs::Forms::to_pattern_is, es_codes::proofs::Forms::to_default_is, es_codes::proofs::Forms::no_target_is))]
    pub(crate) fn add_pattern(
        &self,
        here: &mut Here,
        found: &mut Vec<Numbered<Entry>>,
        to: &Target,
    ) -> Result<(), Fault>
        ensures here { OnOk result (here.new ≡ here.old) }
        ensures found { Reaches result (seen found.old.items) (seen found.new.items) (walked.pattern_entries self.now.terms here.old (target_of to.now)) }
    {
        match to {
            Target::ToName { .. } => Ok(()),
            Target::ToMember { .. } => Ok(()),
            Target::ToPrivate { .. } => Ok(()),
            Target::ToSuper { .. } => Ok(()),
            Target::ToSetter { .. } => Ok(()),
            Target::ToPattern { members, .. } => {
                self.add_each(here, found, CodeRole::Member, members.as_slice())
            }
            Target::ToDefault { to, default, .. } => self.add_default(
                here,
                found,
                to.get(),
                default.get(),
            ),
            Target::NoTarget => Ok(()),
        }
    }

    /// A target that is given a value which is there.
    #[cycle(walk)]
    pub(crate) fn add_given(
        &self,
        here: &mut Here,
        found: &mut Vec<Numbered<Entry>>,
        to: &Target,
    ) -> Result<(), Fault>
        ensures here { OnOk result (here.new ≡ here.old) }
        ensures found { Reaches result (seen found.old.items) (seen found.new.items) (walked.given_entries self.now.terms here.old (target_of to.now)) }
    {
        self.add_target(here, found, to)?;
        self.add_pattern(here, found, to)
    }

    /// `t = e` in a pattern: a default value is a part with a list of its own.
    #[cycle(walk)]
    fn add_default(
        &self,
        here: &mut Here,
        found: &mut Vec<Numbered<Entry>>,
        to: &Target,
        default: &Code,
    ) -> Result<(), Fault>
        ensures here { OnOk result (here.new ≡ here.old) }
        ensures found { Reaches result (seen found.old.items) (seen found.new.items) (walked.entries self.now.terms here.old (code_of default.now) ++ walked.pattern_entries self.now.terms here.old (target_of to.now)) }
    {
        self.add_entries(here, found, default)?;
        self.add_pattern(here, found, to)
    }

    /// A member of a pattern.
    #[cycle(walk)]
    #[tactic(auto, using(es_codes::proofs::Forms::takes_is, crate::proofs::Others::no_take, crate::proofs::Reached::nothing_reached))]
    pub(crate) fn add_take(
        &self,
        here: &mut Here,
        found: &mut Vec<Numbered<Entry>>,
        member: &Code,
    ) -> Result<(), Fault>
        ensures here { OnOk result (here.new ≡ here.old) }
        ensures found { Reaches result (seen found.old.items) (seen found.new.items) (walked.take_entries self.now.terms here.old (code_of member.now)) }
    {
        match member {
            // [k]: t
            Code::Takes { key, to, .. } => self.add_takes(here, found, key.as_slice(), to.get()),
            _ => Ok(()),
        }
    }

    /// `[k]: t`
    #[cycle(walk)]
    fn add_takes(
        &self,
        here: &mut Here,
        found: &mut Vec<Numbered<Entry>>,
        key: &[Code],
        to: &Target,
    ) -> Result<(), Fault>
        ensures here { OnOk result (here.new ≡ here.old) }
        ensures found { Reaches result (seen found.old.items) (seen found.new.items) (walked.all_entries self.now.terms here.old (codes_of key.now) ++ walked.target_entries self.now.terms (walked.behind_all self.now.terms here.old (codes_of key.now)) (target_of to.now) ++ walked.pattern_entries self.now.terms (walked.behind_target self.now.terms (walked.behind_all self.now.terms here.old (codes_of key.now)) (target_of to.now)) (target_of to.now)) }
    {
        let front = here.len();
        self.add_and_pass(here, found, Part::Codes(CodesRole::All, key))?;
        self.add_and_pass(here, found, Part::Target(to))?;
        self.add_pattern(here, found, to)?;
        here.back(front);
        Ok(())
    }
}
