// What the names of a program mean.

ghost use Rattle.std.specs.Prelude.{◌≡◌, ◌||◌, [], ℕ, codes, false, IfOk};
ghost use Rattle.es_shapes.specs.Names.{bound_number};
ghost use Rattle.es_steps.specs.LoweredClasses.{referent_of};
ghost use Rattle.es_steps.specs.References.{has_number, resolve, written_by_all, changing_in, caught_again_in, given_around, changes_free, writes_free};
ghost use Rattle.es_steps.specs.References as spec;
ghost use Rattle.es_base.specs.Preorder.{preorder};
ghost use Rattle.es_binding_faults.specs.Seen.{seen};
ghost use Rattle.es_outside.specs.Bindings.{binding_in};
ghost use Rattle.es_outside.specs.InnerFunctions.{give_name};
ghost use Rattle.es_references.specs.References.{references_of};

use crate::bindings::Bindings;
use crate::changing;
use crate::given::given;
use crate::inner_functions::give_arguments;
use es_base::ids::NodeId;
use es_binding_faults::numbers::Numbers;
use es_binding_faults::preorder::preorder;
use es_node::node::Node;
use es_references::references::{Reference, references};
use es_shapes::facts::NameFacts;
use std::alloc::{AllocError, Global};

/// The names of a program, and what each means.
#[derive(Drop)]
pub struct ProgramNames<'a> {
    pub program: &'a Node,
    bindings: Bindings,
    /// Those that a reference writes.
    assigned: Numbers,
    /// Those that are declared again, and those of `var` in the head of a for-in or for-of.
    redeclared: Numbers,
    unwritten: Unwritten<'a>,

    ghost bindings_are: { (m : ℕ) → binding_in m bindings ≡ bound_number (referent_of m (resolve program.now)) },
    ghost assigned_are: { (n : ℕ) → has_number n assigned ≡ has_number n (spec.assigned (resolve program.now)) },
    ghost redeclared_are: { (n : ℕ) → has_number n redeclared ≡ has_number n (written_by_all (preorder program.now)) },
    ghost unwritten_are: { unwritten.program.now ≡ program.now },
}

/// What of a program's names changes without a write.
#[derive(Drop)]
struct Unwritten<'a> {
    program: &'a Node,
    /// Those of imports, and those named `arguments`.
    changing: Numbers,
    /// Those of a catch that a `var` declares again.
    caught_again: Numbers,
    /// Those that a function in a block gives a value to.
    given: Numbers,
    /// Whether a free name `arguments` is given a value: by a reference, or by a function in a block.
    arguments: bool,

    ghost changing_are: { (n : ℕ) → has_number n changing ≡ has_number n (changing_in (preorder program.now)) },
    ghost caught_again_are: { (n : ℕ) → has_number n caught_again ≡ has_number n (caught_again_in (preorder program.now)) },
    ghost given_are: { (n : ℕ) → has_number n given ≡ has_number n (given_around [] [] false program.now) },
    ghost arguments_are: { arguments ≡ changes_free (codes "arguments") program.now },
}

impl<'a> Unwritten<'a> {
    /// Those of this program, which has these references and nodes. Fails on allocation failure alone.
    #[tactic(auto, using(crate::proofs::InnerNames::gives_alike))]
    fn of(
        alloc: Global,
        program: &'a Node,
        references: &[Reference],
        nodes: &[&Node],
    ) -> Result<Unwritten<'a>, AllocError>
        requires references { references_of references.now ≡ resolve program.now }
        requires nodes { seen nodes.now ≡ preorder program.now }
        ensures { IfOk result (λ u. u.program.now ≡ program.now) }
    {
        let changing = changing_numbers(alloc, nodes)?;
        let caught_again = caught_again(alloc, nodes)?;
        let given = given_numbers(alloc, program)?;
        let arguments = change_arguments(alloc, references, nodes)?;
        Ok(Unwritten {
            program,
            changing,
            caught_again,
            given,
            arguments,
        })
    }

    /// Whether the binding changes without a write.
    #[tactic(auto, using(crate::proofs::DeclaredNames::either_number))]
    fn has(&self, binding: NodeId) -> bool
        ensures { result ≡ has_number binding.0 (spec.changed_otherwise self.now.program.now) }
    {
        self.changing.has(binding) || self.caught_again.has(binding) || self.given.has(binding)
    }
}

impl<'a> ProgramNames<'a> {
    /// The names of this program. Fails on allocation failure alone.
    pub fn of(alloc: Global, program: &'a Node) -> Result<ProgramNames<'a>, AllocError>
        ensures { IfOk result (λ n. n.program.now ≡ program.now) }
    {
        let references = references(alloc, program)?;
        let nodes = preorder(alloc, program)?;
        ProgramNames::from_references(alloc, program, references.as_slice(), nodes.as_slice())
    }

    /// The names of this program, which has these references and nodes. Fails on allocation failure alone.
    #[tactic(auto, using(crate::proofs::BoundNames::bound_first))]
    pub fn from_references(
        alloc: Global,
        program: &'a Node,
        references: &[Reference],
        nodes: &[&Node],
    ) -> Result<ProgramNames<'a>, AllocError>
        requires references { references_of references.now ≡ resolve program.now }
        requires nodes { seen nodes.now ≡ preorder program.now }
        ensures { IfOk result (λ n. n.program.now ≡ program.now) }
    {
        let assigned = changing::assigned(alloc, references)?;
        let redeclared = changing::redeclared(alloc, nodes)?;
        let unwritten = Unwritten::of(alloc, program, references, nodes)?;
        let bindings = Bindings::of(alloc, references)?;
        let assigned = Numbers::of(alloc, assigned.as_slice())?;
        let redeclared = Numbers::of(alloc, redeclared.as_slice())?;
        Ok(ProgramNames {
            program,
            bindings,
            assigned,
            redeclared,
            unwritten,
        })
    }
}

/// The names that change by themselves: those of imports, and those named `arguments`. Fails on allocation failure alone.
fn changing_numbers(alloc: Global, nodes: &[&Node]) -> Result<Numbers, AllocError>
    ensures { IfOk result (λ r. (n : ℕ) → has_number n r ≡ has_number n (changing_in (seen nodes.now))) }
{
    let bindings = changing::changing(alloc, nodes)?;
    Numbers::of(alloc, bindings.as_slice())
}

/// The names of catches that a `var` declares again. Fails on allocation failure alone.
fn caught_again(alloc: Global, nodes: &[&Node]) -> Result<Numbers, AllocError>
    ensures { IfOk result (λ r. (n : ℕ) → has_number n r ≡ has_number n (caught_again_in (seen nodes.now))) }
{
    let bindings = changing::caught_again(alloc, nodes)?;
    Numbers::of(alloc, bindings.as_slice())
}

/// The bindings that functions in blocks give a value to. Fails on allocation failure alone.
fn given_numbers(alloc: Global, program: &Node) -> Result<Numbers, AllocError>
    ensures { IfOk result (λ r. (n : ℕ) → has_number n r ≡ has_number n (given_around [] [] false program.now)) }
{
    let bindings = given(alloc, program)?;
    Numbers::of(alloc, bindings.as_slice())
}

/// Whether a free name `arguments` is given a value. Fails on allocation failure alone.
fn change_arguments(
    alloc: Global,
    references: &[Reference],
    nodes: &[&Node],
) -> Result<bool, AllocError>
    ensures { IfOk result (λ b. b ≡ (writes_free (codes "arguments") (references_of references.now) || give_name (codes "arguments") (seen nodes.now))) }
{
    if changing::write_arguments(references) {
        Ok(true)
    } else {
        give_arguments(alloc, nodes)
    }
}

impl<'a> NameFacts for ProgramNames<'a> {
    ghost program = { λ k. k.program.now };

    fn binding_of(&self, reference: NodeId) -> Option<NodeId> {
        self.bindings.get(reference)
    }

    #[tactic(auto, using(crate::proofs::DeclaredNames::either_number))]
    fn is_written(&self, binding: NodeId) -> bool {
        self.assigned.has(binding) || self.redeclared.has(binding)
    }

    fn changes_otherwise(&self, binding: NodeId) -> bool {
        self.unwritten.has(binding)
    }

    #[tactic(auto, using(crate::proofs::DeclaredNames::either_number))]
    fn is_varying(&self, binding: NodeId) -> bool {
        self.is_written(binding) || self.unwritten.has(binding)
    }

    fn is_assigned(&self, binding: NodeId) -> bool {
        self.assigned.has(binding)
    }

    fn changes_arguments(&self) -> bool {
        self.unwritten.arguments
    }
}
