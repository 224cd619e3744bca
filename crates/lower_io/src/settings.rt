// The arguments of the command line.

ghost use Rattle.std.specs.Prelude.{◌≡◌, IfOk, IfErr, Some, None, map, option_map, string_bytes};
ghost use Rattle.lower_io.specs.Settings.{settings_of, words_from, no_words, with_flag, with_assumptions, assumptions_of, assumed, options_in, options_if};
ghost use Rattle.lower_io.specs.declared.settings.WordsError.{WordsError};

use es_base::strings::is_word;
use es_options::assumptions::FromValue;
use es_steps::options::{ClassPropertiesOptions, CompilerAssumptions, ES2022Options, Options};
use serde_json::Value;
use std::alloc::{AllocError, Global};
use thiserror::Error;

/// What the arguments ask for.
#[derive(Debug, Clone, Copy, PartialEq, Eq)]
pub struct Settings {
    pub options: Options,
}

/// Why arguments give no settings.
#[derive(Debug, Drop, Error)]
pub enum WordsError {
    /// There was not enough memory.
    #[error("out of memory")]
    NoMemory,
    /// They are not in the grammar.
    #[error("bad words")]
    BadWords,
}

impl From<AllocError> for WordsError {
    ghost use Rattle.lower_io.specs.declared.settings.WordsError.{WordsError};

    ghost from_gives = { λ e r. r ≡ WordsError.NoMemory };

    fn from(_: AllocError) -> WordsError {
        WordsError::NoMemory
    }
}

/// What was read of the arguments so far.
#[derive(Debug, Clone, Copy, PartialEq, Eq)]
struct Words {
    class_properties: bool,
    loose: bool,
    static_block: bool,
    await_warnings: bool,
    remove_fields: bool,
    assumptions: Option<CompilerAssumptions>,
}

/// The settings that these arguments give: the flags `--class-properties`, `--loose`, which needs the
/// first, `--static-block`, `--await-warnings` and `--remove-fields`, each as often as one likes, and
/// once at most `--assume` with an argument behind it, JSON as `{"setPublicClassFields":true}`. All
/// others are `BadWords`; `NoMemory` comes on allocation failure alone.
pub fn read_settings(alloc: Global, arguments: &[String]) -> Result<Settings, WordsError>
    ensures ok { IfOk result (λ s. settings_of (map string_bytes arguments.now) ≡ Some s.options) }
    ensures err { IfErr result (λ e. e ≡ WordsError.BadWords → settings_of (map string_bytes arguments.now) ≡ None) }
{
    let words = words_of(alloc, arguments)?;
    if words.loose && !words.class_properties {
        return Err(WordsError::BadWords);
    }
    Ok(Settings {
        options: words.options(),
    })
}

/// What the arguments ask for, `--loose` without `--class-properties` too.
fn words_of(alloc: Global, arguments: &[String]) -> Result<Words, WordsError>
    ensures ok { IfOk result (λ w. words_from no_words (map string_bytes arguments.now) ≡ Some w) }
    ensures err { IfErr result (λ e. e ≡ WordsError.BadWords → words_from no_words (map string_bytes arguments.now) ≡ None) }
{
    let mut words = Words::none();
    let mut is_assuming = false;
    for argument in arguments {
        if is_assuming {
            words = words.with_assumptions(alloc, argument.as_str())?;
            is_assuming = false;
        } else if is_word(argument.as_str(), "--assume") {
            is_assuming = true;
        } else {
            words = words.with_flag(argument.as_str())?;
        }
    }
    if is_assuming {
        return Err(WordsError::BadWords);
    }
    Ok(words)
}

impl Words {
    /// Nothing is asked for.
    fn none() -> Words
        ensures { result ≡ no_words }
    {
        Words {
            class_properties: false,
            loose: false,
            static_block: false,
            await_warnings: false,
            remove_fields: false,
            assumptions: None,
        }
    }

    /// The same, and this flag.
    fn with_flag(self, argument: &str) -> Result<Words, WordsError>
        ensures ok { IfOk result (λ w. with_flag self argument.now ≡ Some w) }
        ensures err { IfErr result (λ e. e ≡ WordsError.BadWords → with_flag self argument.now ≡ None) }
    {
        let mut words = self;
        if is_word(argument, "--class-properties") {
            words.class_properties = true;
        } else if is_word(argument, "--loose") {
            words.loose = true;
        } else if is_word(argument, "--static-block") {
            words.static_block = true;
        } else if is_word(argument, "--await-warnings") {
            words.await_warnings = true;
        } else if is_word(argument, "--remove-fields") {
            words.remove_fields = true;
        } else {
            return Err(WordsError::BadWords);
        }
        Ok(words)
    }

    /// The same, and the argument behind `--assume`.
    fn with_assumptions(self, alloc: Global, argument: &str) -> Result<Words, WordsError>
        ensures ok { IfOk result (λ w. with_assumptions self argument.now ≡ Some w) }
        ensures err { IfErr result (λ e. e ≡ WordsError.BadWords → with_assumptions self argument.now ≡ None) }
    {
        if self.assumptions.is_some() {
            return Err(WordsError::BadWords);
        }
        let mut words = self;
        words.assumptions = Some(assumptions_of(alloc, argument)?);
        Ok(words)
    }

    /// The options that are asked for.
    fn options(self) -> Options
        ensures { result ≡ options_in self }
    {
        let class_properties = if self.class_properties {
            Some(ClassPropertiesOptions { loose: self.loose })
        } else {
            None
        };
        Options {
            es2022: ES2022Options {
                class_static_block: self.static_block,
                class_properties,
                top_level_await: self.await_warnings,
            },
            assumptions: assumed(self.assumptions),
            remove_class_fields_without_initializer: self.remove_fields,
        }
    }
}

/// The assumptions that a JSON text holds.
fn assumptions_of(alloc: Global, text: &str) -> Result<CompilerAssumptions, WordsError>
    ensures ok { IfOk result (λ a. assumptions_of text.now ≡ Some a) }
    ensures err { IfErr result (λ e. e ≡ WordsError.BadWords → assumptions_of text.now ≡ None) }
{
    match Value::from_str(alloc, text) {
        Ok(value) => CompilerAssumptions::from_value(&value).map_err(|_| WordsError::BadWords),
        Err(error) if error.is_memory() => Err(WordsError::NoMemory),
        Err(_) => Err(WordsError::BadWords),
    }
}

/// These assumptions; where there are none, nothing is assumed.
fn assumed(assumptions: Option<CompilerAssumptions>) -> CompilerAssumptions
    ensures { result ≡ assumed assumptions }
{
    match assumptions {
        Some(assumptions) => assumptions,
        None => CompilerAssumptions::default(),
    }
}
