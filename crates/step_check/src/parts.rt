// The parts of a meaning that an evaluation finds.

ghost use Rattle.std.specs.Prelude.{◌≡◌, ℕ, List, [], map, Some};
ghost use Rattle.es_by_number.specs.Numbered.{pairs};
ghost use Rattle.es_code_rules.specs.Elsewhere.{definition_of};
ghost use Rattle.es_codes.specs.CodeView.{code_of};
ghost use Rattle.es_evaluator.specs.Running.{state_of};
ghost use Rattle.es_exports.specs.Exports.{exports_of};
ghost use Rattle.es_meanings.specs.Finding.{Finds};
ghost use Rattle.es_meanings.specs.Means.{AreEntries};
ghost use Rattle.es_member_entries.specs.Entries.{entries_in};
ghost use Rattle.es_code_contexts.specs.Terms.{program_of, terms_of};
ghost use Rattle.es_steps.specs.Entries as spec;
ghost use Rattle.es_steps.specs.Meaning as meaning;
ghost use Rattle.es_steps.specs.Modules.{exports_in};
ghost use Rattle.es_steps.specs.Opening.{opening};

use es_base::list::List;
use es_by_number::numbered::{Numbered, sort_by_number};
use es_code_entries::entries::entries;
use es_code_reading::context::Terms;
use es_code_rules::definition::Definition;
use es_codes::code::Code;
use es_entries::entry::Entry;
use es_evaluator::fault::Fault;
use es_evaluator::state::State;
use es_exports::export::{Export, are_whole};
use es_member_entries::entries::member_entries;
use es_member_entries::entry::MemberEntry;
use es_program_meaning::exported::exported;
use std::alloc::Global;

/// What the functions and classes in a code do, by number.
pub fn entries_by_number(
    alloc: Global,
    definitions: &List<Definition>,
    limit: usize,
    code: &Code,
) -> Result<Vec<Numbered<Entry>>, Fault>
    ensures { (first_new : ℕ) → Finds result (meaning.whole (spec.entries (opening (map definition_of definitions.now)) first_new [] [] (code_of code.now))) (λ xs es. AreEntries xs.items (meaning.by_number es)) }
{
    match entries(alloc, definitions, limit, &[], code) {
        Ok(entries) => sorted(entries),
        Err(fault) => Err(fault),
    }
}

/// These entries by number. Fails on allocation failure alone.
fn sorted(entries: Vec<Numbered<Entry>>) -> Result<Vec<Numbered<Entry>>, Fault>
    ensures { (es : List (ℕ × spec.Entry)) → AreEntries entries.items es → Finds result (Some es) (λ xs fs. AreEntries xs.items (meaning.by_number fs)) }
{
    let mut entries = entries;
    match sort_by_number(&mut entries) {
        Ok(()) => Ok(entries),
        Err(_) => {
            drop(entries);
            Err(Fault::NoMemory)
        }
    }
}

/// What the private members of these terms are, by number; `functions` are their functions. No meaning where one that is no field
/// has none.
pub fn members(
    alloc: Global,
    terms: &Terms,
    functions: &[Numbered<u32>],
) -> Result<Vec<Numbered<MemberEntry>>, Fault>
    ensures { Finds result (meaning.member_entries (pairs functions.now) (terms_of terms.now).members) (λ xs es. entries_in xs.items ≡ meaning.by_number es) }
{
    match member_entries(alloc, functions, terms.members)? {
        Some(members) => Ok(members),
        None => Err(Fault::NoMeaning),
    }
}

/// What the program exports of its own, where this is the state behind it. No meaning where an export means nothing.
pub fn whole_exports<'a>(
    alloc: Global,
    terms: &Terms<'a>,
    state: &mut State,
) -> Result<Vec<Export<'a>>, Fault>
    ensures { Finds result (meaning.all_exports (exports_in (meaning.in_body (meaning.start (terms_of terms.now) (program_of terms.now)) (program_of terms.now)) (state_of state.old).names (meaning.body_of (program_of terms.now)))) (λ xs es. meaning.all_exports (exports_of xs.items) ≡ Some es) }
{
    match exported(alloc, terms, state) {
        Ok(exports) => if_whole(exports),
        Err(_) => Err(Fault::NoMemory),
    }
}

/// These exports, if each means something.
fn if_whole<'a>(exports: Vec<Export<'a>>) -> Result<Vec<Export<'a>>, Fault>
    ensures { Finds result (meaning.all_exports (exports_of exports.entry.items)) (λ xs es. meaning.all_exports (exports_of xs.items) ≡ Some es) }
{
    if are_whole(exports.as_slice()) {
        Ok(exports)
    } else {
        drop(exports);
        Err(Fault::NoMeaning)
    }
}
