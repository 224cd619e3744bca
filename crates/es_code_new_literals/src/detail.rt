// What the details of a literal say.

ghost use Rattle.std.specs.Prelude.{◌≡◌, option_map, true};
ghost use Rattle.es_base.specs.Ascii.{is_ascii};
ghost use Rattle.es_codes.specs.Constants.{constant_of};
ghost use Rattle.es_codes.specs.View.{detail_of, details_of};
ghost use Rattle.es_steps.specs.Events as events;
ghost use Rattle.es_code_new_literals.specs.Details as spec;

use es_base::name::Name;
use es_base::strings::spells;
use es_codes::event::Detail;
use es_codes::value::Constant;

/// Whether an operand stands here.
pub fn is_operand(detail: &Detail) -> bool
    ensures { result ≡ spec.is_operand (detail_of detail.now) }
{
    matches!(detail, Detail::Operand)
}

/// Whether a list begins here.
pub fn is_opening(detail: &Detail) -> bool
    ensures { result ≡ spec.is_opening (detail_of detail.now) }
{
    matches!(detail, Detail::Opens)
}

/// Whether a list ends here.
pub fn is_closing(detail: &Detail) -> bool
    ensures { result ≡ spec.is_closing (detail_of detail.now) }
{
    matches!(detail, Detail::Closes)
}

fn is_plain_kind(kind: &Name, is_method: &Detail) -> bool
    ensures { result ≡ spec.is_plain (events.Spelled kind.now) (detail_of is_method.now) }
{
    match is_method {
        Detail::Flag(flag) => spells(kind.as_str(), "init") && !*flag,
        _ => false,
    }
}

/// Whether a property of this kind is `k: v`: no getter, setter or method.
pub fn is_plain(kind: &Detail, is_method: &Detail) -> bool
    ensures { result ≡ spec.is_plain (detail_of kind.now) (detail_of is_method.now) }
{
    match kind {
        Detail::Spelled(kind) => is_plain_kind(kind, is_method),
        _ => false,
    }
}

fn is_string(string: &str, constant: &Constant) -> bool
    requires { is_ascii string.now ≡ true }
    ensures { result ≡ spec.is_string string.now (constant_of constant.now) }
{
    match constant {
        Constant::StringOf(name) => spells(name.as_str(), string),
        _ => false,
    }
}

fn is_key(string: &str, detail: &Detail) -> bool
    requires { is_ascii string.now ≡ true }
    ensures { result ≡ spec.is_key string.now (detail_of detail.now) }
{
    match detail {
        Detail::Key(constant) => is_string(string, constant),
        _ => false,
    }
}

/// Whether these are the details of a property `string: v`.
#[tactic(auto, using(crate::proofs::DetailForms::four_of_property))]
fn is_property(
    string: &str,
    key: &Detail,
    value: &Detail,
    kind: &Detail,
    is_method: &Detail,
) -> bool
    requires { is_ascii string.now ≡ true }
    ensures { result ≡ spec.is_property string.now (detail_of key.now) (detail_of value.now) (detail_of kind.now) (detail_of is_method.now) }
{
    is_key(string, key) && is_operand(value) && is_plain(kind, is_method)
}

/// Whether a list ends here, and nothing stands behind its end.
#[tactic(auto, using(crate::proofs::DetailForms::one_end, crate::proofs::DetailForms::more_than_an_end))]
pub fn is_end(details: &[Detail]) -> bool
    ensures { result ≡ spec.is_end (details_of details.now) }
{
    match details {
        [end] => is_closing(end),
        _ => false,
    }
}

/// The details behind a property `string: v`.
#[tactic(auto, using(crate::proofs::DetailForms::nothing_behind))]
pub fn behind_property<'a>(string: &str, details: &'a [Detail]) -> Option<&'a [Detail]>
    requires { is_ascii string.now ≡ true }
    ensures { option_map (λ ds. details_of ds.now) result ≡ spec.behind_property string.now (details_of details.now) }
{
    match details {
        [key, value, kind, is_method, rest @ ..] => {
            if is_property(string, key, value, kind, is_method) {
                Some(rest)
            } else {
                None
            }
        }
        _ => None,
    }
}
