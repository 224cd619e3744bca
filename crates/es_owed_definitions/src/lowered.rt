// What a program was lowered to, as its definitions are read.

ghost use Rattle.std.specs.Prelude.{◌≡◌, ℕ, IfOk};
ghost use Rattle.es_base.specs.Preorder.{preorder};
ghost use Rattle.es_binding_faults.specs.Seen.{seen};
ghost use Rattle.es_grouped.specs.Groups.{group};
ghost use Rattle.es_lowered.specs.Definitions as spec;
ghost use Rattle.es_seen_names.specs.PrivateMembers.{private_members_of};
ghost use Rattle.es_owed_definitions.specs.Fields.{HasStatics};
ghost use Rattle.es_owed_definitions.specs.SuperNames.{supers_of};
ghost use Rattle.es_owed_definitions.specs.Views.{definition_views};

use crate::definition::FieldDefinition;
use crate::forms::add_definitions_at;
use crate::found::definitions_on_this;
use crate::statics::definitions_by_class;
use crate::super_names::nodes_by_class;
use crate::terms::Terms;
use es_generated::ledger::Ledger;
use es_grouped::Grouped;
use es_node::node::Node;
use es_owed::listed::Listed;
use es_owed_initialized::identifiers::class_identifiers;
use es_seen_names::private_member::PrivateMember;
use std::alloc::{AllocError, Global};

/// What a program was lowered to.
#[derive(Drop)]
pub struct LoweredProgram<'a> {
    pub terms: Terms<'a>,
    pub listed: &'a Listed<'a>,
    /// The private members of its source.
    pub members: &'a [PrivateMember<'a>],
    /// Of each class the identifiers that declare it.
    pub identifiers: Grouped<u32>,
    /// Of each class the nodes that give a value to a name which stands for `super(..)` of it.
    pub supers: Grouped<&'a Node>,
    /// Of each class the definitions on a name of it, or of one of its static private fields.
    pub statics: Grouped<FieldDefinition<'a>>,

    ghost identifiers_are: { (n : ℕ) → group n identifiers ≡ spec.class_identifiers terms.first n (preorder listed.now.program.now) },
    ghost supers_are: { (n : ℕ) → seen (group n supers) ≡ supers_of terms.ledger.now n (preorder listed.now.program.now) },
}

impl<'a> LoweredProgram<'a> {
    /// This program, lowered under these terms from a source with these private members. Fails on allocation failure alone.
    pub fn of(
        alloc: Global,
        terms: Terms<'a>,
        members: &'a [PrivateMember<'a>],
        listed: &'a Listed<'a>,
    ) -> Result<LoweredProgram<'a>, AllocError>
        ensures terms { IfOk result (λ l. l.terms ≡ terms.entry) }
        ensures members { IfOk result (λ l. l.members.now ≡ members.now) }
        ensures program { IfOk result (λ l. l.listed.now.program.now ≡ listed.now.program.now) }
        ensures statics { IfOk result (λ l. HasStatics l.terms (private_members_of l.members.now) l.listed.now.program.now l.statics) }
    {
        let identifiers = identifiers_by_class(alloc, terms.first, listed)?;
        let supers = supers_by_class(alloc, terms.ledger, listed)?;
        let statics = statics_by_class(alloc, &terms, members, listed)?;
        Ok(LoweredProgram {
            terms,
            listed,
            members,
            identifiers,
            supers,
            statics,
        })
    }

    /// Its nodes in preorder.
    pub fn nodes(&self) -> &[&'a Node]
        ensures { seen result.now ≡ preorder self.now.listed.now.program.now }
    {
        self.listed.nodes.as_slice()
    }

    /// The identifiers that declare this class.
    pub fn identifiers_of(&self, class: u32) -> &[u32]
        ensures { result.now ≡ spec.class_identifiers self.now.terms.first class (preorder self.now.listed.now.program.now) }
    {
        self.identifiers.get(class)
    }

    /// The definitions on a name of this class, or of one of its static private fields.
    pub fn static_definitions(&self, class: u32) -> &[FieldDefinition<'a>]
        requires { HasStatics self.now.terms (private_members_of self.now.members.now) self.now.listed.now.program.now self.now.statics }
        ensures { definition_views result.now ≡ spec.static_definitions self.now.terms.first self.now.terms.options.now self.now.terms.ledger.now (private_members_of self.now.members.now) self.now.listed.now.program.now class }
    {
        self.statics.get(class)
    }

    /// The definitions on the instances of this class. Fails on allocation failure alone.
    pub fn instance_definitions(
        &self,
        alloc: Global,
        class: u32,
    ) -> Result<Vec<FieldDefinition<'a>>, AllocError>
        ensures { IfOk result (λ r. definition_views r.items ≡ spec.instance_definitions self.now.terms.first self.now.terms.options.now self.now.terms.ledger.now self.now.listed.now.program.now class) }
    {
        definitions_on_this(
            alloc,
            &self.terms,
            class,
            self.supers_of(class),
            self.listed.numbered(class),
        )
    }

    /// The nodes that give a value to a name which stands for `super(..)` of this class.
    fn supers_of(&self, class: u32) -> &[&'a Node]
        ensures { seen result.now ≡ supers_of self.now.terms.ledger.now class (preorder self.now.listed.now.program.now) }
    {
        self.supers.get(class)
    }
}

/// Of each class the identifiers that declare it in this program. Fails on allocation failure alone.
fn identifiers_by_class(
    alloc: Global,
    first: u32,
    listed: &Listed,
) -> Result<Grouped<u32>, AllocError>
    ensures { IfOk result (λ g. (n : ℕ) → group n g ≡ spec.class_identifiers first n (preorder listed.now.program.now)) }
{
    class_identifiers(alloc, first, listed.nodes.as_slice())
}

/// Of each class the nodes that give a value to a name which stands for `super(..)` of it. Fails on allocation failure alone.
fn supers_by_class<'a>(
    alloc: Global,
    ledger: &Ledger,
    listed: &Listed<'a>,
) -> Result<Grouped<&'a Node>, AllocError>
    ensures { IfOk result (λ g. (n : ℕ) → seen (group n g) ≡ supers_of ledger.now n (preorder listed.now.program.now)) }
{
    nodes_by_class(alloc, ledger, listed.nodes.as_slice())
}

/// Of each class the definitions on a name of it, or of one of its static private fields. Fails on allocation failure alone.
fn statics_by_class<'a>(
    alloc: Global,
    terms: &Terms,
    members: &[PrivateMember],
    listed: &Listed<'a>,
) -> Result<Grouped<FieldDefinition<'a>>, AllocError>
    ensures { IfOk result (λ g. HasStatics terms.now (private_members_of members.now) listed.now.program.now g) }
{
    let definitions = all_definitions(alloc, terms, listed.nodes.as_slice())?;
    definitions_by_class(
        alloc,
        terms,
        members,
        &listed.references,
        listed.nodes.as_slice(),
        definitions.as_slice(),
    )
}

/// The definitions that these nodes are by themselves. Fails on allocation failure alone.
#[tactic(auto, using(crate::proofs::FoundDefinitions::all_more))]
fn all_definitions<'a>(
    alloc: Global,
    terms: &Terms,
    nodes: &[&'a Node],
) -> Result<Vec<FieldDefinition<'a>>, AllocError>
    ensures { IfOk result (λ r. definition_views r.items ≡ spec.all_definitions terms.now.first terms.now.options.now terms.now.ledger.now (seen nodes.now)) }
{
    let mut definitions = Vec::new(alloc);
    for node in nodes {
        add_definitions_at(terms, node, &mut definitions)?;
    }
    Ok(definitions)
}
