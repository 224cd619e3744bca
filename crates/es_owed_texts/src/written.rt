// A source, with what is written in it to be looked up.

ghost use Rattle.std.specs.Prelude.{◌≡◌, ℕ, IfOk};
ghost use Rattle.es_binding_faults.specs.Seen.{seen};
ghost use Rattle.es_grouped.specs.Groups.{group, having};
ghost use Rattle.es_node.specs.View.{parts_of};
ghost use Rattle.es_steps.specs.KeptNodes.{stands_equal};
ghost use Rattle.es_steps.specs.References.{has_number};
ghost use Rattle.es_lowered.specs.Texts.{is_beginning_among, is_character_among, is_literal_among, is_string_among};
ghost use Rattle.es_owed_texts.specs.TextNumbers.{numbered_texts};

use crate::by_text::{by_text, text_at, texts};
use crate::characters::Characters;
use crate::literals::{is_literal_among, is_string_among};
use es_binding_faults::leasts::Leasts;
use es_generated::spellings::spelling_number;
use es_grouped::Grouped;
use es_node::node::{Node, Part};
use es_owed::free::stands_equal;
use es_owed::listed::Listed;
use std::alloc::{AllocError, Global};

/// A source, with its literals and strings of templates by their texts, the characters of its names, and those that these begin
/// with.
#[derive(Drop)]
pub struct Written<'r, 'a> {
    pub listed: &'r Listed<'a>,
    /// A number for each text of a literal or a string of a template.
    pub texts: Leasts<'a>,
    /// These nodes by the numbers of their texts.
    pub by_text: Grouped<&'a Node>,
    pub characters: Characters,
    pub beginnings: Characters,

    ghost are_by_text: { (m : ℕ) → group m by_text ≡ having m (numbered_texts texts listed.now.nodes.items) },
    ghost are_its: { (c : ℕ) → has_number c characters ≡ is_character_among c (seen listed.now.nodes.items) },
    ghost are_beginnings: { (c : ℕ) → has_number c beginnings ≡ is_beginning_among c (seen listed.now.nodes.items) },
}

impl<'r, 'a> Written<'r, 'a> {
    /// This source. Fails on allocation failure alone.
    pub fn of(alloc: Global, listed: &'r Listed<'a>) -> Result<Written<'r, 'a>, AllocError>
        ensures { IfOk result (λ w. w.listed.now ≡ listed.now) }
    {
        let nodes = listed.nodes.as_slice();
        let texts = texts(alloc, nodes)?;
        let by_text = by_text(alloc, &texts, nodes)?;
        let characters = Characters::of(alloc, nodes)?;
        let beginnings = Characters::beginnings_of(alloc, nodes)?;
        Ok(Written {
            listed,
            texts,
            by_text,
            characters,
            beginnings,
        })
    }

    /// Nodes among which are all literals and strings of templates with these members.
    fn like(&self, parts: &[Part]) -> &[&'a Node]
        ensures literal { is_literal_among (parts_of parts.now) (seen result.now) ≡ is_literal_among (parts_of parts.now) (seen self.now.listed.now.nodes.items) }
        ensures string { is_string_among (parts_of parts.now) (seen result.now) ≡ is_string_among (parts_of parts.now) (seen self.now.listed.now.nodes.items) }
    {
        self.by_text
            .get(spelling_number(text_at(parts), &self.texts))
    }

    /// Whether a literal of the source has these members.
    pub fn has_literal(&self, parts: &[Part]) -> bool
        ensures { result ≡ is_literal_among (parts_of parts.now) (seen self.now.listed.now.nodes.items) }
    {
        is_literal_among(parts, self.like(parts))
    }

    /// Whether a string of a template of the source has these members.
    pub fn has_string(&self, parts: &[Part]) -> bool
        ensures { result ≡ is_string_among (parts_of parts.now) (seen self.now.listed.now.nodes.items) }
    {
        is_string_among(parts, self.like(parts))
    }

    /// Whether the node is equal to one of the source.
    #[tactic(auto, using(es_owed::proofs::NumberedNodes::equal_numbered))]
    pub fn stands_equal(&self, node: &Node) -> bool
        ensures { result ≡ stands_equal node.now (seen self.now.listed.now.nodes.items) }
    {
        stands_equal(node, self.listed.numbered(node.node_id().0))
    }
}
