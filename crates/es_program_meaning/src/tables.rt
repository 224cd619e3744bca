// What a program declares and imports, and where it stands: what no evaluation finds.

ghost use Rattle.std.specs.Prelude.{◌≡◌, IfOk};
ghost use Rattle.es_by_number.specs.Numbered.{pairs};
ghost use Rattle.es_program_meaning.specs.Tables.{AreTables};
ghost use Rattle.es_code_contexts.specs.Terms.{program_of, terms_of};
ghost use Rattle.es_steps.specs.Meaning as spec;
ghost use Rattle.es_steps.specs.Repeated.{all_places};

use es_branches::branches::branches;
use es_by_number::numbered::Numbered;
use es_code_reading::context::Terms;
use es_declarations::bindings::bindings;
use es_declarations::functions::declared_functions;
use es_declarations::globals::globals;
use es_declarations::kind::Binding;
use es_modules::link::ModuleLink;
use es_modules::links::links;
use es_places::places::{Terms as PlaceTerms, places_by_number};
use es_shared_names::shared::shared_bindings;
use std::alloc::{AllocError, Global};

/// What a program declares and imports, and where it stands: all but imports by number.
#[derive(Drop)]
pub struct Tables<'a> {
    pub functions: Vec<Numbered<u32>>,
    pub bindings: Vec<Numbered<Binding>>,
    pub globals: Vec<Numbered<&'a str>>,
    pub shared: Vec<Numbered<u32>>,
    pub places: Vec<Numbered<u32>>,
    pub branches: Vec<Numbered<u32>>,
    pub links: Vec<ModuleLink<'a>>,
}

/// The values of these. Fails on allocation failure alone.
fn values(alloc: Global, list: &[Numbered<u32>]) -> Result<Vec<u32>, AllocError>
    ensures { IfOk result (λ r. r.items ≡ spec.second_numbers (pairs list.now)) }
{
    let mut values = Vec::new(alloc);
    for item in list {
        values.push(item.value)?;
    }
    Ok(values)
}

/// Where functions, classes and declarations stand; `functions` are those of the private members. Fails on allocation failure alone.
fn places(
    alloc: Global,
    terms: &Terms,
    functions: &[Numbered<u32>],
) -> Result<Vec<Numbered<u32>>, AllocError>
    ensures { IfOk result (λ r. pairs r.items ≡ spec.by_number (all_places terms.now.first_new terms.now.ledger.now (spec.second_numbers (pairs functions.now)) (program_of terms.now))) }
{
    let private_functions = values(alloc, functions)?;
    let place_terms = PlaceTerms {
        first_new: terms.first_new,
        ledger: terms.ledger,
        private_functions: private_functions.as_slice(),
    };
    places_by_number(alloc, &place_terms, terms.names.program)
}

/// The tables of a program; `functions` are those of the private members. Fails on allocation failure alone.
pub fn tables_of<'a>(
    alloc: Global,
    terms: &Terms<'a>,
    functions: &[Numbered<u32>],
) -> Result<Tables<'a>, AllocError>
    ensures { IfOk result (λ t. AreTables t (terms_of terms.now) (program_of terms.now) (pairs functions.now)) }
{
    let program = terms.names.program;
    let places = places(alloc, terms, functions)?;
    let functions = declared_functions(alloc, terms.ledger, program)?;
    let bindings = bindings(alloc, terms.first_new, program)?;
    let globals = globals(alloc, terms.first_new, program)?;
    let shared = shared_bindings(alloc, program)?;
    let branches = branches(alloc, program)?;
    let links = links(alloc, program)?;
    Ok(Tables {
        functions,
        bindings,
        globals,
        shared,
        places,
        branches,
        links,
    })
}
