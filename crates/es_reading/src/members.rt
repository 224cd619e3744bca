// Whether the members of a value are those of its kind, but for the nodes below.

ghost use Rattle.std.specs.Prelude.{◌≡◌, ℕ, List, map, option_map};
ghost use Rattle.es_base.specs.Table.{field_of, words_of};
ghost use Rattle.es_base.specs.declared.table.Place.{Place};
ghost use Rattle.es_base.specs.declared.table.Sort.{Sort};
ghost use Rattle.es_reading.specs.Members.{is_word, is_false, is_of_sort, are_of_sorts, counts_agree, are_good, is_one_more, count_at};
ghost use Rattle.borrowed_json.specs.View.{view};

use crate::literal::form_in;
use crate::look::{array_at, boolean_at, string_at};
use crate::strings::is_empty_string;
use borrowed_json::value::Value;
use es_base::kind::Kind;
use es_base::strings::word_of;
use es_base::table::{Member, Sort, Words, members};

/// Whether the members of a value are those of its kind, but for the nodes below.
pub fn are_good(kind: Kind, value: &Value<'_>) -> bool
    ensures { result ≡ are_good kind (view value.now) }
{
    are_of_sorts(value, members(kind)) && counts_agree(kind, value)
}

fn are_of_sorts(value: &Value<'_>, members: &[Member]) -> bool
    ensures { result ≡ are_of_sorts (view value.now) (map field_of members.now) }
{
    for member in members {
        if !is_of_sort(value, member.name, member.sort) {
            return false;
        }
    }
    true
}

/// Whether what stands at the member of this name is of this sort.
fn is_of_sort(value: &Value<'_>, name: &str, sort: Sort) -> bool
    ensures { result ≡ is_of_sort (view value.now) name.now sort }
{
    match sort {
        Sort::Child(_) | Sort::Key(_) => value.get(name).is_some(),
        Sort::Nullable(_) => true,
        Sort::List(_) | Sort::ListWithHoles(_) => array_at(value, name).is_some(),
        Sort::NonEmptyList(_) => is_list_of_some(value, name),
        Sort::Name => is_name(value, name),
        Sort::NullableString => value.get(name).is_none() || string_at(value, name).is_some(),
        Sort::Boolean => value.get(name).is_none() || boolean_at(value, name).is_some(),
        Sort::False => value.get(name).is_none() || is_false(boolean_at(value, name)),
        Sort::Word(words) => is_word(words, string_at(value, name)),
        Sort::Literal => form_in(value).is_some(),
        Sort::Raw => is_raw(value),
        Sort::Cooked => is_cooked(value),
        Sort::Type => string_at(value, name).is_some(),
    }
}

fn is_list_of_some(value: &Value<'_>, name: &str) -> bool
    ensures { (place : Place) → result ≡ is_of_sort (view value.now) name.now (Sort.NonEmptyList place) }
{
    match array_at(value, name) {
        None => false,
        Some(items) => !items.as_slice().is_empty(),
    }
}

fn is_name(value: &Value<'_>, name: &str) -> bool
    ensures { result ≡ is_of_sort (view value.now) name.now Sort.Name }
{
    match string_at(value, name) {
        None => false,
        Some(string) => !is_empty_string(string),
    }
}

fn is_false(boolean: Option<bool>) -> bool
    ensures { result ≡ is_false boolean }
{
    match boolean {
        None => false,
        Some(boolean) => !boolean,
    }
}

fn is_word(words: Words, string: Option<&str>) -> bool
    ensures { result ≡ is_word (words_of words) (option_map (λ s. s.now) string.entry) }
{
    match string {
        None => false,
        Some(string) => word_of(string, words).is_some(),
    }
}

/// Whether the object `value` has a string `raw` (ESTree's `TemplateElement`).
fn is_raw(value: &Value<'_>) -> bool
    ensures { (name : List ℕ) → result ≡ is_of_sort (view value.now) name Sort.Raw }
{
    match value.get("value") {
        None => false,
        Some(strings) => string_at(strings, "raw").is_some(),
    }
}

/// Whether the object `value` has a string or null as `cooked` (ESTree's `TemplateElement`).
fn is_cooked(value: &Value<'_>) -> bool
    ensures { (name : List ℕ) → result ≡ is_of_sort (view value.now) name Sort.Cooked }
{
    match value.get("value") {
        None => false,
        Some(strings) => match strings.get("cooked") {
            None => false,
            Some(cooked) => cooked.is_null() || cooked.is_string(),
        },
    }
}

/// Whether a template has one string more than expressions.
fn counts_agree(kind: Kind, value: &Value<'_>) -> bool
    ensures { result ≡ counts_agree kind (view value.now) }
{
    match kind {
        Kind::TemplateLiteral => {
            is_one_more(count_at(value, "quasis"), count_at(value, "expressions"))
        }
        _ => true,
    }
}

fn count_at(value: &Value<'_>, name: &str) -> Option<usize>
    ensures { result ≡ count_at name.now (view value.now) }
{
    match array_at(value, name) {
        None => None,
        Some(items) => Some(items.as_slice().len()),
    }
}

fn is_one_more(more: Option<usize>, less: Option<usize>) -> bool
    ensures { result ≡ is_one_more more less }
{
    match more {
        None => true,
        Some(more) => match less {
            None => true,
            Some(less) => more > 0 && more - 1 == less,
        },
    }
}
