// What a program means.

use es_by_number::numbered::Numbered;
use es_declarations::kind::Binding;
use es_entries::entry::Entry;
use es_entries::listed::Listed;
use es_exports::export::Export;
use es_member_entries::entry::MemberEntry;
use es_modules::link::ModuleLink;

/// What a program means (docs/MEANING.md): what it does, what its functions and classes do, and what it declares, imports and
/// exports. All but imports and exports is by number.
#[derive(Drop)]
pub struct Meaning<'a> {
    pub source_type: &'a str,
    /// What the program does itself.
    pub program: Listed,
    /// What its functions and classes do.
    pub entries: Vec<Numbered<Entry>>,
    pub members: Vec<Numbered<MemberEntry>>,
    /// The functions that are declared, by the identifiers that declare them.
    pub functions: Vec<Numbered<u32>>,
    pub bindings: Vec<Numbered<Binding>>,
    /// The names that a script gives to other scripts (ECMA-262, 16.1.7).
    pub globals: Vec<Numbered<&'a str>>,
    /// Declaring identifiers of one binding.
    pub shared: Vec<Numbered<u32>>,
    /// Where functions, classes, declaring identifiers and declarations that a `for` begins with stand.
    pub places: Vec<Numbered<u32>>,
    /// The names around the functions that are branches of an `if`.
    pub branches: Vec<Numbered<u32>>,
    pub links: Vec<ModuleLink<'a>>,
    pub exports: Vec<Export<'a>>,
}
