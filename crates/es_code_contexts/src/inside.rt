// What is known in a part of a node.

ghost use Rattle.std.specs.Prelude.{◌≡◌, ℕ, cond, IfOk};
ghost use Rattle.es_code_reading.specs.Contexts.{context_of};
ghost use Rattle.es_node.specs.View.{kind_of, number_in, parts_in};
ghost use Rattle.es_seen_names.specs.Frames.{names_in};
ghost use Rattle.es_steps.specs.Context as spec;
ghost use Rattle.es_steps.specs.References.{takes_vars};
ghost use Rattle.es_code_contexts.specs.Inside.{IsInside};

use crate::seen::{names_within, privates_within};
use es_code_reading::context::{Around, Context};
use es_code_reading::inside::{around_inside, block_inside, names_around};
use es_node::node::Node;
use es_seen_names::frame::Frame;
use es_seen_names::names::Names;
use es_seen_names::private_member::{PrivateMember, members_seen};
use es_seen_names::scope::names_seen;
use std::alloc::{AllocError, Global};

/// What a part of a node declares, and what is known there.
#[derive(Drop)]
pub struct Inside<'a> {
    names: Frame<'a>,
    members: Vec<PrivateMember<'a>>,
    /// Those of the names that no catch declares as a name.
    names_around: Frame<'a>,
    around: Around<'a>,
}

impl<'a> Inside<'a> {
    /// That of the i-th part of a node. Fails on allocation failure alone.
    pub fn of(
        alloc: Global,
        c: &Context<'_, 'a>,
        node: &'a Node,
        i: usize,
    ) -> Result<Inside<'a>, AllocError>
        ensures { IfOk result (λ s. IsInside s c.now node.now i) }
    {
        let names = Frame::of(alloc, names_seen(alloc, c.around.is_body, node, i)?)?;
        let members = members_seen(alloc, node, i)?;
        let names_around = Frame::of(alloc, names_around(alloc, c.around.is_body, node, i)?)?;
        let around = around_inside(alloc, c, node, i)?;
        Ok(Inside {
            names,
            members,
            names_around,
            around,
        })
    }

    /// The context in that part of a node; `uncaught` are those of the names around the node that no catch in the function
    /// around its parts declares as a name.
    #[tactic(auto, using(crate::proofs::Inner::context_inside))]
    pub fn context<'r>(
        &'r self,
        c: &'r Context<'r, 'a>,
        uncaught: &'r Names<'r, 'a>,
        node: &Node,
    ) -> Context<'r, 'a>
        ensures { (i : ℕ) → IsInside self.now c.now node.now i → names_in uncaught.now ≡ cond (takes_vars (kind_of node.now)) (names_in c.now.names) (names_in c.now.uncaught)
            → context_of result ≡ spec.inside (context_of c.now) (kind_of node.now) (number_in node.now) (parts_in node.now) i }
    {
        Context {
            terms: c.terms,
            names: names_within(&self.names, &c.names),
            privates: privates_within(self.members.as_slice(), &c.privates),
            uncaught: names_within(&self.names_around, uncaught),
            block: block_inside(c, node.kind()),
            around: self.around,
        }
    }
}
