// The entries of a code.

ghost use Rattle.std.specs.Prelude.{ℕ, [], map};
ghost use Rattle.es_code_rules.specs.Elsewhere.{definition_of};
ghost use Rattle.es_codes.specs.CodeView.{code_of};
ghost use Rattle.es_steps.specs.Entries as spec;
ghost use Rattle.es_steps.specs.Meaning.{whole};
ghost use Rattle.es_steps.specs.Opening.{opening};
ghost use Rattle.es_meanings.specs.Finding.{Finds};
ghost use Rattle.es_meanings.specs.Means.{AreEntries};

use crate::walk::Walk;
use es_base::list::List;
use es_by_number::numbered::Numbered;
use es_code_environments::here::Here;
use es_code_environments::terms::Terms;
use es_code_rules::definition::Definition;
use es_codes::code::Code;
use es_entries::entry::Entry;
use es_evaluator::fault::Fault;
use std::alloc::Global;

/// The entries of the functions and the classes in a code, in the order in which they stand; `late` are the classes whose
/// parameters come before their fields. No meaning where one has no entry; refused where codes stand in codes `limit` times or
/// more. (ECMA-262, 10.2 and 15.7; entries are our own.)
#[tactic(auto, using(crate::proofs::Listed::all_found, crate::proofs::Listed::none_found, es_code_environments::proofs::Copies::no_names))]
pub fn entries(
    alloc: Global,
    definitions: &List<Definition>,
    limit: usize,
    late: &[u32],
    code: &Code,
) -> Result<Vec<Numbered<Entry>>, Fault>
    ensures { (first_new : ℕ) → Finds result (whole (spec.entries (opening (map definition_of definitions.now)) first_new late.now [] (code_of code.now))) (λ xs es. AreEntries xs.items es) }
{
    let walk = Walk {
        terms: Terms::new(alloc, definitions, limit, late)?,
    };
    let mut here = Here::new(Vec::new(alloc));
    let mut found = Vec::new(alloc);
    walk.add_entries(&mut here, &mut found, code)?;
    Ok(found)
}
