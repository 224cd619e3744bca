// The entries that were found.

ghost use Rattle.std.specs.Prelude.{◌≡◌, ◌∷◌, ◌++◌, [], IfOk, OnOk};
ghost use Rattle.es_codes.specs.CodeView.{code_of, codes_of, form_of};
ghost use Rattle.es_code_environments.specs.Classes.{start_of};
ghost use Rattle.es_code_environments.specs.FlatEntries.{entry_in};
ghost use Rattle.es_code_entries.specs.Found.{Reaches, seen};
ghost use Rattle.es_code_entries.specs.Own.{class_own, function_own, function_start};

use es_by_number::numbered::Numbered;
use es_code_environments::class::{class_entry, class_start};
use es_code_environments::function::{function_entry, function_start};
use es_code_environments::here::Here;
use es_code_environments::terms::Terms;
use es_codes::code::{Code, FunctionForm};
use es_entries::entry::Entry;
use es_evaluator::fault::Fault;
use std::alloc::AllocError;

/// Adds the entry of a node. Fails on allocation failure alone.
pub fn push_entry(
    found: &mut Vec<Numbered<Entry>>,
    node: u32,
    entry: Entry,
) -> Result<(), AllocError>
    ensures { OnOk result (seen found.new.items ≡ seen found.old.items ++ (node, entry_in entry) ∷ []) }
{
    found.push(Numbered {
        number: node,
        value: entry,
    })?;
    Ok(())
}

/// Adds the entry of a function that stands here; gives where it is read.
#[tactic(auto, using(crate::proofs::Reached::entry_reached, crate::proofs::Reached::entry_refused, crate::proofs::Reached::out_of_memory))]
pub fn add_function_entry(
    terms: &Terms<'_>,
    here: &Here,
    found: &mut Vec<Numbered<Entry>>,
    node: u32,
    form: FunctionForm,
    own_name: Option<u32>,
    parameters: &[Code],
    body: &Code,
) -> Result<Here, Fault>
    ensures start { IfOk result (λ h. h ≡ function_start here.now (codes_of parameters.now) (code_of body.now)) }
    ensures found { Reaches result (seen found.old.items) (seen found.new.items) (function_own terms.now here.now node (form_of form) own_name (codes_of parameters.now) (code_of body.now)) }
{
    let mut start = function_start(terms.among.alloc, here, parameters, body)?;
    let entry = function_entry(terms, &mut start, form, own_name, parameters, body)?;
    push_entry(found, node, entry)?;
    Ok(start)
}

/// Adds the entry of a class that stands here; gives where its construction starts.
#[tactic(auto, using(crate::proofs::Reached::entry_reached, crate::proofs::Reached::entry_refused, crate::proofs::Reached::refused_anyway, crate::proofs::Reached::out_of_memory))]
pub fn add_class_entry(
    terms: &Terms<'_>,
    here: &mut Here,
    found: &mut Vec<Numbered<Entry>>,
    node: u32,
    declared: Option<u32>,
    heritage: &[Code],
    elements: &[Code],
) -> Result<Here, Fault>
    ensures start { IfOk result (λ h. h ≡ start_of terms.now node here.old (codes_of heritage.now) (codes_of elements.now)) }
    ensures here { OnOk result (here.new ≡ here.old) }
    ensures found { Reaches result (seen found.old.items) (seen found.new.items) (class_own terms.now here.old node declared (codes_of heritage.now) (codes_of elements.now)) }
{
    let mut start = class_start(terms, here, node, heritage, elements)?;
    let entry = class_entry(terms, here, &mut start, node, declared, heritage, elements)?;
    push_entry(found, node, entry)?;
    Ok(start)
}
