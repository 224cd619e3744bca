// Exported names and what they mean.

ghost use Rattle.std.specs.Prelude.{◌≡◌, List, Some, IfOk, is_some, option_map};
ghost use Rattle.es_codes.specs.Constants.{origin_of};
ghost use Rattle.es_codes.specs.View.{kind_of, referent_of};
ghost use Rattle.es_steps.specs.Context as context;
ghost use Rattle.es_steps.specs.Meaning.{all_exports};
ghost use Rattle.es_steps.specs.Modules as spec;
ghost use Rattle.es_steps.specs.SameMeanings as same;
ghost use Rattle.es_steps.specs.Values.{String};
ghost use Rattle.es_exports.specs.Exports.{class_in, export_in, exported_in, exports_of, meaning_in, same_meaning, same_meant};

use es_base::ledger::GeneratedKind;
use es_base::name::Name;
use es_base::strings::is_word;
use es_by_number::same::{Same, same_list};
use es_codes::name::{NameKind, Referent};
use es_codes::value::{Origin, Value};
use std::alloc::{AllocError, Global};

/// What an exported name means.
#[derive(Drop)]
pub enum Exported {
    Class(u32),
    /// A binding, by its first declaring identifier.
    Binding(u32),
    /// A name that nothing declares.
    Free(Name),
    Value(Value),
}

/// An exported name. It means nothing where what it names can't be exported.
#[derive(Drop)]
pub struct Export<'a> {
    pub name: &'a str,
    pub means: Option<Exported>,
}

/// What a name means that is exported.
pub fn exported_as(kind: NameKind) -> Option<Exported>
    ensures { meaning_in result ≡ spec.exported_as (kind_of kind) }
{
    match kind {
        NameKind::Fixed(binding) => Some(Exported::Binding(binding)),
        NameKind::Changing(referent) => Some(exported_referent(referent)),
        NameKind::MeansClass { class, .. } => Some(Exported::Class(class)),
        NameKind::Generated(kind) => exported_temporary(kind),
        NameKind::StaticMethod { .. } => None,
    }
}

fn exported_referent(referent: Referent) -> Exported
    ensures { Some (exported_in result) ≡ spec.exported_referent (referent_of referent) }
{
    match referent {
        Referent::Bound(binding) => Exported::Binding(binding),
        Referent::Free(name) => Exported::Free(name),
    }
}

/// The temporary of a class stands for the class.
fn exported_temporary(kind: GeneratedKind) -> Option<Exported>
    ensures { meaning_in result ≡ spec.exported_as (context.Generated kind) }
{
    match kind {
        GeneratedKind::ClassTemp(class) => Some(Exported::Class(class.0)),
        _ => None,
    }
}

/// What a value is that is exported. Fails on allocation failure alone.
#[tactic(auto, using(crate::proofs::Exporting::class_value, crate::proofs::Exporting::other_value))]
pub fn exported_value(alloc: Global, value: Option<&Value>) -> Result<Option<Exported>, AllocError>
    ensures { IfOk result (λ x. meaning_in x ≡ spec.exported_value (option_map (λ v. v.now) value.entry)) }
{
    let Some(value) = value else {
        return Ok(None);
    };
    match class_in(value) {
        Some(class) => Ok(Some(Exported::Class(class))),
        None => Ok(Some(Exported::Value(value.try_clone(alloc)?))),
    }
}

/// The class that a value is.
#[tactic(auto, using(crate::proofs::Exporting::key_class))]
fn class_in(value: &Value) -> Option<u32>
    ensures { result ≡ class_in value.now }
{
    match value.origin() {
        Some(origin) => class_of(origin),
        None => None,
    }
}

fn class_of(origin: &Origin) -> Option<u32>
    ensures { result ≡ class_in (origin_of origin.now) }
{
    match origin {
        Origin::ClassOf(class) => Some(*class),
        _ => None,
    }
}

// ---- comparison

/// Whether each of these names means something.
#[tactic(auto, using(crate::proofs::Exporting::whole_more))]
pub fn are_whole(exports: &[Export]) -> bool
    ensures { result ≡ is_some (all_exports (exports_of exports.now)) }
{
    for export in exports {
        if export.means.is_none() {
            return false;
        }
    }
    true
}

/// Whether two lists have the same names, each with the same meaning, where each name means something.
pub fn same_exports(left: &[Export], right: &[Export]) -> bool
    ensures { (xs ys : List (String × spec.Exported)) → all_exports (exports_of left.now) ≡ Some xs → all_exports (exports_of right.now) ≡ Some ys → result ≡ same.same_list same.same_export xs ys }
{
    same_list(left, right)
}

impl Same for Export<'_> {
    ghost same = { λ a b. same_meant (export_in a) (export_in b) };

    fn is_same(&self, other: &Self) -> bool {
        is_word(other.name, self.name) && is_same_meaning(&self.means, &other.means)
    }
}

fn is_same_meaning(means: &Option<Exported>, other: &Option<Exported>) -> bool
    ensures { result ≡ same_meaning (meaning_in means.now) (meaning_in other.now) }
{
    match means {
        Some(means) => match other {
            Some(other) => is_same_exported(means, other),
            None => false,
        },
        None => false,
    }
}

fn is_same_exported(exported: &Exported, other: &Exported) -> bool
    ensures { result ≡ same.same_exported (exported_in exported.now) (exported_in other.now) }
{
    match exported {
        Exported::Class(class) => matches!(other, Exported::Class(n) if *class == *n),
        Exported::Binding(binding) => matches!(other, Exported::Binding(b) if *binding == *b),
        Exported::Free(name) => match other {
            Exported::Free(other) => is_word(other.as_str(), name.as_str()),
            _ => false,
        },
        Exported::Value(value) => match other {
            Exported::Value(other) => value.is_same(other),
            _ => false,
        },
    }
}
