// What declaring identifiers declare.

ghost use Rattle.std.specs.Prelude.{◌≡◌, bytes_eq};
ghost use Rattle.std.specs.Str.{chars};
ghost use Rattle.es_base.specs.Words.{variable_declaration_kind_string};
ghost use Rattle.es_steps.specs.Meaning as meaning;
ghost use Rattle.es_steps.specs.SameMeanings as spec;
ghost use Rattle.es_declarations.specs.Kinds.{binding_in, bindings_in, kind_in};

use es_base::operator::VariableDeclarationKind;
use es_base::strings::spells;
use es_by_number::numbered::Numbered;
use es_by_number::same::{Same, same_numbered};

/// What an identifier declares.
#[derive(Debug, Clone, Copy)]
pub enum DeclarationKind {
    Variable(VariableDeclarationKind),
    FunctionName,
    ParameterName,
    CaughtName,
    ImportName,
    Class,
}

/// What an identifier declares, and whether it spells `arguments`, which a function may have by itself (ECMA-262, 10.2.11).
#[derive(Debug, Clone, Copy)]
pub struct Binding {
    pub kind: DeclarationKind,
    pub spells_arguments: bool,
}

impl Binding {
    /// An identifier of this name that declares so.
    pub fn named(name: &str, kind: DeclarationKind) -> Binding
        ensures { binding_in result ≡ meaning.declared_as (chars name.now) (kind_in kind) }
    {
        Binding {
            kind,
            spells_arguments: spells(name, "arguments"),
        }
    }

    /// Whether it is the name of a class.
    pub fn names_class(&self) -> bool
        ensures { result ≡ meaning.names_class (binding_in self.now) }
    {
        matches!(self.kind, DeclarationKind::Class)
    }
}

// ---- comparison

impl Same for Binding {
    ghost same = { λ a b. spec.same_declaration (binding_in a) (binding_in b) };

    fn is_same(&self, other: &Binding) -> bool {
        if self.spells_arguments == other.spells_arguments {
            same_kind(self.kind, other.kind)
        } else {
            false
        }
    }
}

fn same_kind(kind: DeclarationKind, other: DeclarationKind) -> bool
    ensures { result ≡ spec.same_declaration (kind_in kind) (kind_in other) }
{
    match kind {
        DeclarationKind::Variable(word) => match other {
            DeclarationKind::Variable(other) => same_word(word, other),
            _ => false,
        },
        DeclarationKind::FunctionName => matches!(other, DeclarationKind::FunctionName),
        DeclarationKind::ParameterName => matches!(other, DeclarationKind::ParameterName),
        DeclarationKind::CaughtName => matches!(other, DeclarationKind::CaughtName),
        DeclarationKind::ImportName => matches!(other, DeclarationKind::ImportName),
        DeclarationKind::Class => matches!(other, DeclarationKind::Class),
    }
}

fn same_word(word: VariableDeclarationKind, other: VariableDeclarationKind) -> bool
    ensures { result ≡ bytes_eq (variable_declaration_kind_string word) (variable_declaration_kind_string other) }
{
    match word {
        VariableDeclarationKind::Var => matches!(other, VariableDeclarationKind::Var),
        VariableDeclarationKind::Let => matches!(other, VariableDeclarationKind::Let),
        VariableDeclarationKind::Const => matches!(other, VariableDeclarationKind::Const),
    }
}

/// Whether two lists have the same numbers with the same bindings.
pub fn same_bindings(left: &[Numbered<Binding>], right: &[Numbered<Binding>]) -> bool
    ensures { result ≡ spec.same_list (spec.same_numbered spec.same_declaration) (bindings_in left.now) (bindings_in right.now) }
{
    same_numbered(left, right)
}
