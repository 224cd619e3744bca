// The characters of names.

ghost use Rattle.std.specs.Prelude.{◌≡◌, ◌||◌, ℕ, [], nat_eq, IfOk, OnOk};
ghost use Rattle.std.specs.Str.{chars};
ghost use Rattle.es_binding_faults.specs.Seen.{seen};
ghost use Rattle.es_steps.specs.References.{has_number};
ghost use Rattle.es_lowered.specs.Texts as spec;
ghost use Rattle.es_lowered.specs.Texts.{begins_with, is_beginning_among, is_character_among};
ghost use Rattle.es_owed_texts.specs.Written.{is_beginning_of, is_character_of};

use es_base::kind::Kind;
use es_lexical::text::split_first;
use es_node::node::Node;
use es_seen_names::parts::string_at;
use indexmap::IndexSet;
use std::alloc::{AllocError, Global};
use std::marker::Model;

/// Characters, each once.
#[derive(Drop)]
pub struct Characters {
    characters: IndexSet<u32>,
}

impl Model for Characters {
    ghost use Rattle.std.specs.Prelude.{List, ℕ};

    ghost Value = { List ℕ };

    ghost view = { λ n. n.characters.keys };
}

impl Characters {
    /// No characters. Takes no memory.
    fn new(alloc: Global) -> Characters
        ensures { result ≡ [] }
    {
        Characters {
            characters: IndexSet::new(alloc),
        }
    }

    /// Whether the character is there.
    pub fn has(&self, character: char) -> bool
        ensures { result ≡ has_number character self.now }
    {
        self.characters.contains(&(character as u32))
    }

    /// Adds a character. Fails on allocation failure alone.
    fn insert(&mut self, character: char) -> Result<(), AllocError>
        ensures { OnOk result ((c : ℕ) → has_number c self.new ≡ (nat_eq c character || has_number c self.old)) }
    {
        self.characters.insert(character as u32)?;
        Ok(())
    }

    /// Those of the names among these nodes. Fails on allocation failure alone.
    pub fn of(alloc: Global, nodes: &[&Node]) -> Result<Characters, AllocError>
        ensures { IfOk result (λ r. (c : ℕ) → has_number c r ≡ is_character_among c (seen nodes.now)) }
    {
        let mut characters = Characters::new(alloc);
        for node in nodes {
            add_name(node, &mut characters)?;
        }
        Ok(characters)
    }

    /// Those that names among these nodes begin with. Fails on allocation failure alone.
    pub fn beginnings_of(alloc: Global, nodes: &[&Node]) -> Result<Characters, AllocError>
        ensures { IfOk result (λ r. (c : ℕ) → has_number c r ≡ is_beginning_among c (seen nodes.now)) }
    {
        let mut characters = Characters::new(alloc);
        for node in nodes {
            add_beginning(node, &mut characters)?;
        }
        Ok(characters)
    }
}

/// Adds those of a name. Fails on allocation failure alone.
#[tactic(auto, using(crate::proofs::WrittenNodes::character_node))]
fn add_name(node: &Node, characters: &mut Characters) -> Result<(), AllocError>
    ensures { OnOk result ((c : ℕ) → has_number c characters.new ≡ (has_number c characters.old || is_character_of c node.now)) }
{
    if has_name(node.kind()) {
        add_text(string_at(node.parts(), 0), characters)
    } else {
        Ok(())
    }
}

/// Adds those of a string. Fails on allocation failure alone.
fn add_text(text: &str, characters: &mut Characters) -> Result<(), AllocError>
    ensures { OnOk result ((c : ℕ) → has_number c characters.new ≡ (has_number c characters.old || has_number c (chars text.now))) }
{
    let mut rest = text;
    while let Some((first, behind)) = split_first(rest) {
        characters.insert(first)?;
        rest = behind;
    }
    Ok(())
}

/// Adds the one that a name begins with. Fails on allocation failure alone.
#[tactic(auto, using(crate::proofs::WrittenNodes::beginning_node))]
fn add_beginning(node: &Node, characters: &mut Characters) -> Result<(), AllocError>
    ensures { OnOk result ((c : ℕ) → has_number c characters.new ≡ (has_number c characters.old || is_beginning_of c node.now)) }
{
    if has_name(node.kind()) {
        add_first(string_at(node.parts(), 0), characters)
    } else {
        Ok(())
    }
}

/// Adds the first of a string. Fails on allocation failure alone.
#[tactic(auto, using(crate::proofs::NameCharacters::first_character, crate::proofs::NameCharacters::no_character))]
fn add_first(text: &str, characters: &mut Characters) -> Result<(), AllocError>
    ensures { OnOk result ((c : ℕ) → has_number c characters.new ≡ (has_number c characters.old || begins_with c (chars text.now))) }
{
    if let Some((first, _)) = split_first(text) {
        characters.insert(first)?;
    }
    Ok(())
}

/// Whether a node of this kind is a name.
pub fn has_name(kind: Kind) -> bool
    ensures { result ≡ spec.has_name kind }
{
    matches!(
        kind,
        Kind::IdentifierReference
            | Kind::BindingIdentifier
            | Kind::IdentifierName
            | Kind::PrivateIdentifier
    )
}
