// Where two meanings differ first.

ghost use Rattle.std.specs.Prelude.{◌≡◌, ◌&&◌, ◌↔◌, IsTrue};
ghost use Rattle.es_meanings.specs.Differences.{AreCompared, AreModulesAlike, AreNamedAlike, ArePlacedAlike};
ghost use Rattle.es_meanings.specs.Means.{IsMeaning};
ghost use Rattle.es_steps.specs.Meaning as spec;

use crate::entries::first_other_entry;
use crate::meaning::Meaning;
use es_base::strings::is_word;
use es_by_number::same::same_numbered;
use es_declarations::globals::same_names;
use es_declarations::kind::same_bindings;
use es_entries::listed::same_listed;
use es_exports::export::same_exports;
use es_member_entries::entry::same_members;
use es_modules::link::same_links;

/// A part of a meaning that differs; the number is that of a node.
#[derive(Debug, Clone, Copy, PartialEq, Eq)]
pub enum Difference {
    /// What the program does itself.
    Program,
    /// What the function or the class of this number does: the least that does not do the same.
    Entry(u32),
    /// What the private members are.
    Private,
    /// What is declared.
    Declaration,
    /// The type of the source, what is imported or exported.
    Export,
}

fn all(first: bool, second: bool, third: bool) -> bool
    ensures { result ≡ (first && (second && third)) }
{
    first && second && third
}

/// Whether the same functions, bindings and names of scripts are declared.
fn same_declared(left: &Meaning, right: &Meaning) -> bool
    ensures { (a b : spec.Meaning) → IsMeaning left.now a → IsMeaning right.now b → IsTrue result ↔ AreNamedAlike a b }
{
    let functions = same_numbered(left.functions.as_slice(), right.functions.as_slice());
    let bindings = same_bindings(left.bindings.as_slice(), right.bindings.as_slice());
    let globals = same_names(left.globals.as_slice(), right.globals.as_slice());
    all(functions, bindings, globals)
}

/// Whether the same declarations share bindings, stand in the same places and have the same names around them.
fn same_places(left: &Meaning, right: &Meaning) -> bool
    ensures { (a b : spec.Meaning) → IsMeaning left.now a → IsMeaning right.now b → IsTrue result ↔ ArePlacedAlike a b }
{
    let shared = same_numbered(left.shared.as_slice(), right.shared.as_slice());
    let places = same_numbered(left.places.as_slice(), right.places.as_slice());
    let branches = same_numbered(left.branches.as_slice(), right.branches.as_slice());
    all(shared, places, branches)
}

/// Whether the types of the sources, imports and exports are the same.
fn same_modules(left: &Meaning, right: &Meaning) -> bool
    ensures { (a b : spec.Meaning) → IsMeaning left.now a → IsMeaning right.now b → IsTrue result ↔ AreModulesAlike a b }
{
    let source_type = is_word(right.source_type, left.source_type);
    let links = same_links(left.links.as_slice(), right.links.as_slice());
    let exports = same_exports(left.exports.as_slice(), right.exports.as_slice());
    all(source_type, links, exports)
}

/// Where two meanings differ first, in the order of the parts; none exactly where they are one.
pub fn first_difference(left: &Meaning, right: &Meaning) -> Option<Difference>
    ensures { (a b : spec.Meaning) → IsMeaning left.now a → IsMeaning right.now b → AreCompared result a b }
{
    if !same_listed(&left.program, &right.program) {
        return Some(Difference::Program);
    }
    if let Some(number) = first_other_entry(left.entries.as_slice(), right.entries.as_slice()) {
        return Some(Difference::Entry(number));
    }
    if !same_members(left.members.as_slice(), right.members.as_slice()) {
        return Some(Difference::Private);
    }
    if !same_declared(left, right) {
        return Some(Difference::Declaration);
    }
    if !same_places(left, right) {
        return Some(Difference::Declaration);
    }
    if !same_modules(left, right) {
        return Some(Difference::Export);
    }
    None
}
