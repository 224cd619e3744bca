// Parts of a node in which no node stands.

ghost use Rattle.std.specs.Prelude.{◌≡◌, IfOk};
ghost use Rattle.es_base.specs.Tree.{string};
ghost use Rattle.es_base.specs.Words.{word_string};
ghost use Rattle.es_node.specs.View.{part_of};
ghost use Rattle.es_code_members.specs.MembersView.{member_of};
ghost use Rattle.es_tree_codes.specs.Leaves.{leaf_of};

use es_base::name::Name;
use es_base::operator::Word;
use es_base::word::word_str;
use es_code_members::member::Member;
use es_node::node::Part;
use std::alloc::{AllocError, Global};

/// The string that a word is written as. Fails on allocation failure alone.
#[tactic(auto, using(es_base::proofs::Spelling::chars_of_word))]
fn written(alloc: Global, word: Word) -> Result<Member, AllocError>
    ensures { IfOk result (λ m. member_of m ≡ leaf_of (string (word_string word))) }
{
    let name = Name::new(alloc, word_str(word))?;
    Ok(Member::String(name))
}

/// What stands at a member where no node can stand. Fails on allocation failure alone.
pub fn leaf(alloc: Global, part: &Part) -> Result<Member, AllocError>
    ensures { IfOk result (λ m. member_of m ≡ leaf_of (part_of part.now)) }
{
    Ok(match part {
        Part::Child(_) | Part::List(_) | Part::Holes(_) | Part::Absent => Member::Absent,
        Part::String(string) => Member::String(string.try_clone(alloc)?),
        Part::NoString => Member::NoString,
        Part::Word(word) => written(alloc, *word)?,
        Part::Boolean(boolean) => Member::Boolean(*boolean),
        Part::Literal(value) => Member::Literal(value.try_clone(alloc)?),
    })
}
