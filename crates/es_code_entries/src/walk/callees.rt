// The entries in callees.

ghost use Rattle.std.specs.Prelude.{◌≡◌, OnOk};
ghost use Rattle.es_codes.specs.CodeView.{callee_of};
ghost use Rattle.es_code_entries.specs.Found.{Reaches, seen};
ghost use Rattle.es_code_entries.specs.Walked as walked;

use crate::walk::Walk;
use es_by_number::numbered::Numbered;
use es_code_environments::here::Here;
use es_code_environments::part::Part;
use es_codes::code::Callee;
use es_entries::entry::Entry;
use es_evaluator::fault::Fault;

impl<'a> Walk<'a> {
    /// What is called.
    #[cycle(walk)]
    #[tactic(auto, using(es_codes::proofs::Forms::plain_is, es_codes::proofs::Forms::on_member_is, es_codes::proofs::Forms::on_private_is, es_codes::proofs::Forms::on_super_is, es_codes::proofs::Forms::with_receiver_is, es_codes::proofs::Forms::checked_is, es_codes::proofs::Forms::on_chain_is, es_codes::proofs::Forms::behind_test_is))]
    pub(crate) fn add_callee(
        &self,
        here: &mut Here,
        found: &mut Vec<Numbered<Entry>>,
        callee: &Callee,
    ) -> Result<(), Fault>
        ensures here { OnOk result (here.new ≡ here.old) }
        ensures found { Reaches result (seen found.old.items) (seen found.new.items) (walked.callee_entries self.now.terms here.old (callee_of callee.now)) }
    {
        match callee {
            Callee::Plain { expression } => self.add_entries(here, found, expression.get()),
            Callee::OnMember { object, key, .. } => self.add_two(
                here,
                found,
                object.get(),
                key.get(),
            ),
            Callee::OnPrivate { object, .. } => self.add_entries(here, found, object.get()),
            Callee::OnSuper { key, .. } => self.add_entries(here, found, key.get()),
            Callee::WithReceiver { function, object } => {
                self.add_two(here, found, function.get(), object.get())
            }
            Callee::Checked { callee } => self.add_callee(here, found, callee.get()),
            Callee::OnChain { callee, .. } => self.add_callee(here, found, callee.get()),
            Callee::BehindTest {
                object,
                again,
                callee,
            } => self.add_tested(
                here,
                found,
                object.get(),
                again.as_slice(),
                Part::Callee(callee.get()),
            ),
        }
    }
}
