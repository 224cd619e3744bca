// Imports, and exports from other modules.

ghost use Rattle.std.specs.Prelude.{◌≡◌};
ghost use Rattle.es_steps.specs.SameMeanings as spec;
ghost use Rattle.es_steps.specs.SameValues.{same_nullable_string};
ghost use Rattle.es_modules.specs.Links.{link_in, links_of, specifier_in, specifiers_in, spelling_of};

use es_base::strings::is_word;
use es_by_number::same::{Same, same_list};

/// A specifier of an import, or of an export from another module.
#[derive(Debug, Clone, Copy)]
pub enum Specifier<'a> {
    /// A name of the other module, and the identifier that it has here.
    Imported { name: &'a str, binding: u32 },
    /// The identifier of a default import.
    ImportedDefault(u32),
    /// That of all names of the other module.
    ImportedNamespace(u32),
    /// A name of the other module, and the one that it is exported by.
    Reexported { name: &'a str, as_name: &'a str },
    /// All names, by themselves or as one.
    ReexportedAll(Option<&'a str>),
}

/// What one statement imports or exports from another module.
#[derive(Debug, Drop)]
pub struct ModuleLink<'a> {
    pub number: u32,
    pub source: &'a str,
    pub specifiers: Vec<Specifier<'a>>,
}

// ---- comparison

impl Same for Specifier<'_> {
    ghost same = { λ a b. spec.same_specifier (specifier_in a) (specifier_in b) };

    fn is_same(&self, other: &Self) -> bool {
        match *self {
            Specifier::Imported { name, binding } => match *other {
                Specifier::Imported {
                    name: s,
                    binding: b,
                } => is_word(s, name) && binding == b,
                _ => false,
            },
            Specifier::ImportedDefault(binding) => {
                matches!(*other, Specifier::ImportedDefault(b) if binding == b)
            }
            Specifier::ImportedNamespace(binding) => {
                matches!(*other, Specifier::ImportedNamespace(b) if binding == b)
            }
            Specifier::Reexported { name, as_name } => match *other {
                Specifier::Reexported {
                    name: s,
                    as_name: x,
                } => { is_word(s, name) && is_word(x, as_name) }
                _ => false,
            },
            Specifier::ReexportedAll(as_name) => match *other {
                Specifier::ReexportedAll(x) => is_same_name(as_name, x),
                _ => false,
            },
        }
    }
}

/// Whether both are absent, or are one name.
fn is_same_name(name: Option<&str>, other: Option<&str>) -> bool
    ensures { result ≡ same_nullable_string (spelling_of name.entry) (spelling_of other.entry) }
{
    match name {
        Some(name) => match other {
            Some(other) => is_word(other, name),
            None => false,
        },
        None => other.is_none(),
    }
}

impl Same for ModuleLink<'_> {
    ghost same = { λ a b. spec.same_link (link_in a) (link_in b) };

    fn is_same(&self, other: &Self) -> bool {
        self.number == other.number
            && is_word(other.source, self.source)
            && same_specifiers(self.specifiers.as_slice(), other.specifiers.as_slice())
    }
}

fn same_specifiers(left: &[Specifier], right: &[Specifier]) -> bool
    ensures { result ≡ spec.same_list spec.same_specifier (specifiers_in left.now) (specifiers_in right.now) }
{
    same_list(left, right)
}

/// Whether two lists of links are one.
pub fn same_links(left: &[ModuleLink], right: &[ModuleLink]) -> bool
    ensures { result ≡ spec.same_list spec.same_link (links_of left.now) (links_of right.now) }
{
    same_list(left, right)
}
