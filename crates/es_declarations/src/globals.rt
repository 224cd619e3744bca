// The names that a script gives to other scripts.

ghost use Rattle.std.specs.Prelude.{◌≡◌, bytes_eq, IfOk};
ghost use Rattle.std.specs.Str.{chars};
ghost use Rattle.es_binding_faults.specs.Named.{named};
ghost use Rattle.es_steps.specs.Meaning as spec;
ghost use Rattle.es_steps.specs.Meaning.{by_number};
ghost use Rattle.es_steps.specs.SameMeanings as same;
ghost use Rattle.es_declarations.specs.Globals.{names_in};

use es_base::strings::spells;
use es_binding_faults::bound::Declared;
use es_binding_faults::scopes::add_body_at;
use es_by_number::numbered::{Numbered, sort_by_number};
use es_by_number::same::same_numbered;
use es_generated::numbers::is_new;
use es_node::node::Node;
use es_seen_names::parts::string_at;
use std::alloc::{AllocError, Global};

/// `script` or `module`, as a program has it.
#[tactic(auto, using(crate::proofs::ScriptNames::type_node))]
pub fn source_type(program: &Node) -> &str
    ensures { chars result.now ≡ spec.source_type_of program.now }
{
    string_at(program.parts(), 0)
}

/// The names of the own scope of a script, by number, but those whose numbers are not below `first` (ECMA-262, 16.1.7). Fails on
/// allocation failure alone.
#[tactic(auto, using(crate::proofs::ScriptNames::globals_node, crate::proofs::ScriptNames::plain_names, es_by_number::proofs::Sorting::sorted_viewed))]
pub fn globals<'a>(
    alloc: Global,
    first: u32,
    program: &'a Node,
) -> Result<Vec<Numbered<&'a str>>, AllocError>
    ensures { IfOk result (λ names. names_in names.items ≡ by_number (spec.globals first program.now)) }
{
    if !spells(source_type(program), "script") {
        return Ok(Vec::new(alloc));
    }
    let mut declared = Vec::new(alloc);
    add_body_at(program.parts(), 1, &mut declared)?;
    let mut names = old_names(alloc, first, declared.as_slice())?;
    sort_by_number(&mut names)?;
    Ok(names)
}

/// Those of these names that are not new. Fails on allocation failure alone.
fn old_names<'a>(
    alloc: Global,
    first: u32,
    declared: &[Declared<'a>],
) -> Result<Vec<Numbered<&'a str>>, AllocError>
    ensures { IfOk result (λ names. names_in names.items ≡ spec.old_names first (named declared.now)) }
{
    let mut names = Vec::new(alloc);
    for declaration in declared {
        if !is_new(first, declaration.node.0) {
            names.push(Numbered {
                number: declaration.node.0,
                value: declaration.name,
            })?;
        }
    }
    Ok(names)
}

/// Whether two lists have the same numbers with the same names.
pub fn same_names(left: &[Numbered<&str>], right: &[Numbered<&str>]) -> bool
    ensures { result ≡ same.same_list (same.same_numbered bytes_eq) (names_in left.now) (names_in right.now) }
{
    same_numbered(left, right)
}
