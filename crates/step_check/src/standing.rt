// What stands in a program.

ghost use Rattle.std.specs.Prelude.{◌≡◌, ℕ, List, Some};
ghost use Rattle.es_by_number.specs.Numbered.{pairs};
ghost use Rattle.es_code_contexts.specs.Terms.{program_of, terms_of};
ghost use Rattle.es_codes.specs.CodeView.{code_of};
ghost use Rattle.es_meanings.specs.Finding.{Finds};
ghost use Rattle.es_member_entries.specs.Entries.{entries_in};
ghost use Rattle.es_steps.specs.Meaning as spec;
ghost use Rattle.es_steps.specs.Meaning.{member_entries};
ghost use Rattle.step_check.specs.Evaluated.{IsStanding};

use crate::parts::members;
use es_by_number::numbered::Numbered;
use es_code_reading::context::Terms;
use es_codes::code::Code;
use es_definitions::private_functions::private_functions;
use es_evaluator::fault::Fault;
use es_member_entries::entry::MemberEntry;
use es_program_meaning::tables::{Tables, tables_of};
use std::alloc::Global;

/// What stands in a program: what no evaluation finds.
#[derive(Drop)]
pub struct Standing<'a> {
    pub members: Vec<Numbered<MemberEntry>>,
    pub tables: Tables<'a>,
}

/// What stands in the program of these terms, whose code this is. No meaning where a private member that is no field has no
/// function.
pub fn standing_in<'a>(alloc: Global, terms: &Terms<'a>, code: &Code) -> Result<Standing<'a>, Fault>
    ensures { Finds result (member_entries (spec.private_functions (code_of code.now)) (terms_of terms.now).members) (IsStanding (terms_of terms.now) (program_of terms.now) (spec.private_functions (code_of code.now))) }
{
    match private_functions(alloc, code) {
        Ok(functions) => standing_among(alloc, terms, functions.as_slice()),
        Err(_) => Err(Fault::NoMemory),
    }
}

/// The same, where these are the functions of private members.
fn standing_among<'a>(
    alloc: Global,
    terms: &Terms<'a>,
    functions: &[Numbered<u32>],
) -> Result<Standing<'a>, Fault>
    ensures { Finds result (member_entries (pairs functions.now) (terms_of terms.now).members) (IsStanding (terms_of terms.now) (program_of terms.now) (pairs functions.now)) }
{
    match members(alloc, terms, functions) {
        Ok(members) => standing_beside(alloc, terms, functions, members),
        Err(fault) => Err(fault),
    }
}

/// The same, where these are the private members.
fn standing_beside<'a>(
    alloc: Global,
    terms: &Terms<'a>,
    functions: &[Numbered<u32>],
    members: Vec<Numbered<MemberEntry>>,
) -> Result<Standing<'a>, Fault>
    ensures { (ms : List (ℕ × spec.MemberEntry)) → entries_in members.items ≡ spec.by_number ms → Finds result (Some ms) (IsStanding (terms_of terms.now) (program_of terms.now) (pairs functions.now)) }
{
    match tables_of(alloc, terms, functions) {
        Ok(tables) => Ok(Standing { members, tables }),
        Err(_) => {
            drop(members);
            Err(Fault::NoMemory)
        }
    }
}
