// Which words are reserved at a place (ECMA-262, 12.7.2, 13.1.1, 15.7.1).

ghost use Rattle.std.specs.Prelude.{◌≡◌, ◌∷◌, [], codes};
ghost use Rattle.std.specs.Str.{chars};
ghost use Rattle.es_base.specs.Conforms.{is_among};
ghost use Rattle.es_base.specs.declared.kind.Kind.{Kind};
ghost use Rattle.es_node.specs.View.{kind_of, parts_in, parts_of};
ghost use Rattle.es_steps.specs.Reserved as spec;
ghost use Rattle.es_steps.specs.Reserved.{arrow_words, declaration_words, field_words, function_words, is_reserved_word, strict_words};
ghost use Rattle.es_owed_printable.specs.Words.{words_of};

use es_base::kind::Kind;
use es_base::strings::{is_among, spells};
use es_node::node::{Node, Part};
use es_seen_names::parts::{is_true_at, string_at};

/// What reserves words around a name.
#[derive(Debug, Clone, Copy, PartialEq, Eq)]
pub struct Words {
    pub in_strict: bool,
    pub in_module: bool,
    /// In a static block, or in the parameters of an arrow there.
    pub in_block: bool,
    /// In the value of a field, too, where no `arguments` is.
    pub in_element: bool,
    pub in_async: bool,
    pub in_generator: bool,
}

/// Where nothing reserves more words.
pub fn no_words() -> Words
    ensures { words_of result ≡ spec.no_words }
{
    Words {
        in_strict: false,
        in_module: false,
        in_block: false,
        in_element: false,
        in_async: false,
        in_generator: false,
    }
}

// ---- names

/// Whether the node is a name that is reserved here.
#[tactic(auto, using(crate::proofs::Places::reference_word, crate::proofs::Places::binding_word, crate::proofs::Places::no_word))]
pub fn is_reserved(words: Words, node: &Node) -> bool
    ensures { result ≡ spec.is_reserved (words_of words) (kind_of node.now) (parts_in node.now) }
{
    let name = string_at(node.parts(), 0);
    match node.kind() {
        // a
        Kind::IdentifierReference => {
            is_reserved_word(words, name) || (words.in_element && spells(name, "arguments"))
        }
        // var a;
        Kind::BindingIdentifier => {
            is_reserved_word(words, name) || (words.in_strict && is_eval_or_arguments(name))
        }
        _ => false,
    }
}

fn is_reserved_word(words: Words, name: &str) -> bool
    ensures { result ≡ is_reserved_word (words_of words) (chars name.now) }
{
    (words.in_strict && is_strict_word(name))
        || (((words.in_module || (words.in_block || words.in_async)) && spells(name, "await"))
            || (words.in_generator && spells(name, "yield")))
}

fn is_strict_word(name: &str) -> bool
    ensures { result ≡ is_among (chars name.now) strict_words }
{
    is_among(
        name,
        &[
            "implements",
            "interface",
            "let",
            "package",
            "private",
            "protected",
            "public",
            "static",
            "yield",
        ],
    )
}

fn is_eval_or_arguments(name: &str) -> bool
    ensures { result ≡ is_among (chars name.now) (codes "eval" ∷ codes "arguments" ∷ []) }
{
    is_among(name, &["eval", "arguments"])
}

// ---- places

/// The same where a node makes its code strict or does not.
pub fn strict_if(strict: bool, words: Words) -> Words
    ensures { words_of result ≡ spec.strict_if strict (words_of words) }
{
    Words {
        in_strict: strict || words.in_strict,
        ..words
    }
}

/// What reserves words in the part of a node at this place, where these are reserved around.
#[tactic(auto, using(crate::proofs::Places::program_words, crate::proofs::Places::declaration_node, crate::proofs::Places::function_node, crate::proofs::Places::arrow_node, crate::proofs::Places::field_node, crate::proofs::Places::block_node, crate::proofs::Places::no_words_inside))]
pub fn words_inside(words: Words, node: &Node, i: usize) -> Words
    ensures { words_of result ≡ spec.words_inside (words_of words) (kind_of node.now) (parts_in node.now) i }
{
    match node.kind() {
        Kind::Program => Words {
            in_module: spells(string_at(node.parts(), 0), "module"),
            ..words
        },
        // function f() {}
        Kind::FunctionDeclaration => declaration_words(words, node.parts(), i),
        Kind::FunctionExpression => function_words(words, node.parts()),
        // () => {}
        Kind::ArrowFunctionExpression => arrow_words(words, node.parts(), i),
        // class A { a = 1; }
        Kind::PropertyDefinition => field_words(words, i),
        // class A { static {} }
        Kind::StaticBlock => Words {
            in_block: true,
            in_element: true,
            in_async: false,
            in_generator: false,
            ..words
        },
        _ => words,
    }
}

/// The name of a declaration stands around its function.
#[tactic(auto, using(crate::proofs::Places::declaration_place))]
fn declaration_words(words: Words, parts: &[Part], i: usize) -> Words
    ensures { words_of result ≡ declaration_words (words_of words) (parts_of parts.now) i }
{
    if i == 0 {
        words
    } else {
        function_words(words, parts)
    }
}

fn function_words(words: Words, parts: &[Part]) -> Words
    ensures { words_of result ≡ function_words (words_of words) (parts_of parts.now) }
{
    Words {
        in_block: false,
        in_element: false,
        in_async: is_true_at(parts, 3),
        in_generator: is_true_at(parts, 4),
        ..words
    }
}

/// The parameters of an arrow stand around its body.
#[tactic(auto, using(crate::proofs::Places::arrow_place))]
fn arrow_words(words: Words, parts: &[Part], i: usize) -> Words
    ensures { words_of result ≡ arrow_words (words_of words) (parts_of parts.now) i }
{
    let is_async = is_true_at(parts, 2);
    if i == 0 {
        Words {
            in_async: words.in_async || is_async,
            ..words
        }
    } else {
        Words {
            in_block: false,
            in_async: is_async,
            in_generator: false,
            ..words
        }
    }
}

#[tactic(auto, using(crate::proofs::Places::field_place))]
fn field_words(words: Words, i: usize) -> Words
    ensures { words_of result ≡ field_words (words_of words) i }
{
    if i == 0 {
        words
    } else {
        Words {
            in_block: false,
            in_element: true,
            in_async: false,
            in_generator: false,
            ..words
        }
    }
}
