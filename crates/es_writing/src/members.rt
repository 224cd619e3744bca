// Members of an object, as text: a name, and what stands there.

ghost use Rattle.std.specs.Prelude.{◌≡◌, ◌++◌, OnOk, Some, codes, option_map};
ghost use Rattle.es_base.specs.Carried.{span_of};
ghost use Rattle.es_base.specs.Words.{word_string};
ghost use Rattle.es_writing.specs.Slots.{member_tokens};
ghost use Rattle.es_writing.specs.Writing.{number_of, string_of};
ghost use Rattle.serde_json.specs.Data.{null, boolean as json_boolean, string as json_string};

use es_base::ids::Span;
use es_base::name::Name;
use es_base::operator::Word;
use es_base::word::word_str;
use json::Writer;
use std::alloc::AllocError;

/// Writes null at this name. Fails on allocation failure alone.
pub fn write_null(out: &mut Writer, name: &str) -> Result<(), AllocError>
    ensures ok { OnOk result (out.new.tokens ≡ out.old.tokens ++ member_tokens name.now (Some null)) }
    ensures before { out.new.before ≡ out.old.before }
{
    out.key(name)?;
    out.null()
}

/// Writes a boolean at this name. Fails on allocation failure alone.
pub fn write_boolean(out: &mut Writer, name: &str, boolean: bool) -> Result<(), AllocError>
    ensures ok { OnOk result (out.new.tokens ≡ out.old.tokens ++ member_tokens name.now (Some (json_boolean boolean))) }
    ensures before { out.new.before ≡ out.old.before }
{
    out.key(name)?;
    out.boolean(boolean)
}

/// Writes a number at this name. Fails on allocation failure alone.
pub fn write_number(out: &mut Writer, name: &str, number: u32) -> Result<(), AllocError>
    ensures ok { OnOk result (out.new.tokens ≡ out.old.tokens ++ member_tokens name.now (Some (number_of number))) }
    ensures before { out.new.before ≡ out.old.before }
{
    out.key(name)?;
    out.u64(u64::from(number))
}

/// Writes a string at this name. Fails on allocation failure alone.
pub fn write_str(out: &mut Writer, name: &str, string: &str) -> Result<(), AllocError>
    ensures ok { OnOk result (out.new.tokens ≡ out.old.tokens ++ member_tokens name.now (Some (json_string string.now))) }
    ensures before { out.new.before ≡ out.old.before }
{
    out.key(name)?;
    out.string(string)
}

/// Writes a string of a tree at this name. Fails on allocation failure alone.
#[tactic(auto, using(crate::proofs::Keeping::encodes))]
pub fn write_string(out: &mut Writer, name: &str, string: &Name) -> Result<(), AllocError>
    ensures ok { OnOk result (out.new.tokens ≡ out.old.tokens ++ member_tokens name.now (Some (string_of string.now))) }
    ensures before { out.new.before ≡ out.old.before }
{
    write_str(out, name, string.as_str())
}

/// Writes a word of the table at this name. Fails on allocation failure alone.
#[tactic(auto, using(crate::proofs::Keeping::word_encodes))]
pub fn write_word(out: &mut Writer, name: &str, word: Word) -> Result<(), AllocError>
    ensures ok { OnOk result (out.new.tokens ≡ out.old.tokens ++ member_tokens name.now (Some (string_of (word_string word)))) }
    ensures before { out.new.before ≡ out.old.before }
{
    write_str(out, name, word_str(word))
}

/// Writes a number at this name, where there is one. Fails on allocation failure alone.
pub fn write_nullable_number(
    out: &mut Writer,
    name: &str,
    number: Option<u32>,
) -> Result<(), AllocError>
    ensures ok { OnOk result (out.new.tokens ≡ out.old.tokens ++ member_tokens name.now (option_map number_of number)) }
    ensures before { out.new.before ≡ out.old.before }
{
    match number {
        None => Ok(()),
        Some(number) => write_number(out, name, number),
    }
}

/// Writes where a node starts in its source, if it stands there. Fails on allocation failure alone.
pub fn write_start(out: &mut Writer, span: Option<Span>) -> Result<(), AllocError>
    ensures ok { OnOk result (out.new.tokens ≡ out.old.tokens ++ member_tokens (codes "start") (option_map (λ s. number_of s.0) (span_of span))) }
    ensures before { out.new.before ≡ out.old.before }
{
    match span {
        None => Ok(()),
        Some(span) => write_number(out, "start", span.start),
    }
}

/// Writes where a node ends in its source, if it stands there. Fails on allocation failure alone.
pub fn write_end(out: &mut Writer, span: Option<Span>) -> Result<(), AllocError>
    ensures ok { OnOk result (out.new.tokens ≡ out.old.tokens ++ member_tokens (codes "end") (option_map (λ s. number_of s.1) (span_of span))) }
    ensures before { out.new.before ≡ out.old.before }
{
    match span {
        None => Ok(()),
        Some(span) => write_number(out, "end", span.end),
    }
}
