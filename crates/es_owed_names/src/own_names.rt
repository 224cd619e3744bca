// The own names of classes that a lowering may give.

ghost use Rattle.std.specs.Prelude.{◌≡◌, ◌++◌, ◌∷◌, [], ℕ, cond, not, IfOk, OnOk};
ghost use Rattle.std.specs.Str.{chars};
ghost use Rattle.es_base.specs.Conforms.{is_among};
ghost use Rattle.es_binding_faults.specs.Seen.{seen};
ghost use Rattle.es_lowered.specs.OwnNames.{are_none, class_name_at, declares_class, own_name_number, own_name_numbers, references_to};
ghost use Rattle.es_owed_names.specs.OwnNames.{bound_numbers, named_class, own_number};
ghost use Rattle.es_references.specs.References.{references_of};
ghost use Rattle.es_steps.specs.References.{has_number};

use es_base::ids::NodeId;
use es_base::kind::Kind;
use es_base::strings::is_word;
use es_binding_faults::numbers::Numbers;
use es_node::node::Node;
use es_owed::listed::Listed;
use es_owed::numbers::set_of;
use es_references::references::Reference;
use es_seen_names::parts::string_at;
use es_tree::class::{ClassDeclarationRef, ClassExpressionRef};
use std::alloc::{AllocError, Global};

/// The identifiers that are own names of class expressions among these nodes, where the source declares that class by that
/// name, or where none of these references means them. Fails on allocation failure alone.
pub fn own_name_numbers(
    alloc: Global,
    source: &Listed,
    references: &[Reference],
    nodes: &[&Node],
) -> Result<Vec<u32>, AllocError>
    ensures { IfOk result (λ numbers. numbers.items ≡ own_name_numbers source.now.program.now (references_of references.now) (seen nodes.now)) }
{
    let meant = Meant::of(alloc, references)?;
    own_names_among(alloc, source, &meant, nodes)
}

fn own_names_among(
    alloc: Global,
    source: &Listed,
    meant: &Meant,
    nodes: &[&Node],
) -> Result<Vec<u32>, AllocError>
    ensures { IfOk result (λ numbers. numbers.items ≡ own_name_numbers source.now.program.now (references_of meant.now.references.now) (seen nodes.now)) }
{
    let mut numbers = Vec::new(alloc);
    for node in nodes {
        add_own_name(source, meant, node, &mut numbers)?;
    }
    Ok(numbers)
}

/// Adds the own name of a class expression, if it may have that. Fails on allocation failure alone.
#[tactic(auto, using(crate::proofs::OwnClassNames::no_class, crate::proofs::OwnClassNames::no_name, crate::proofs::OwnClassNames::own_node))]
fn add_own_name(
    source: &Listed,
    meant: &Meant,
    node: &Node,
    numbers: &mut Vec<u32>,
) -> Result<(), AllocError>
    ensures { OnOk result (numbers.new.items ≡ numbers.old.items ++ own_name_number source.now.program.now (references_of meant.now.references.now) node.now) }
{
    match node.kind() {
        // (class A {})
        Kind::ClassExpression => {
            let class = ClassExpressionRef::from_node(node);
            match class.id {
                Some(id) => add_if_own(source, meant, class.node_id.0, id, numbers),
                None => Ok(()),
            }
        }
        _ => Ok(()),
    }
}

#[tactic(auto, using(crate::proofs::OwnClassNames::declares_numbered))]
fn add_if_own(
    source: &Listed,
    meant: &Meant,
    class: u32,
    id: &Node,
    numbers: &mut Vec<u32>,
) -> Result<(), AllocError>
    ensures { OnOk result (numbers.new.items ≡ numbers.old.items ++ own_number source.now.program.now (references_of meant.now.references.now) class id.now) }
{
    let name = string_at(id.parts(), 0);
    let is_own = declares_class(class, name, source.numbered(class)) || !meant.has(id.node_id());
    add_if(is_own, id.node_id().0, numbers)
}

fn add_if(is_own: bool, number: u32, numbers: &mut Vec<u32>) -> Result<(), AllocError>
    ensures { OnOk result (numbers.new.items ≡ numbers.old.items ++ cond is_own (number ∷ []) []) }
{
    if is_own {
        numbers.push(number)?;
    }
    Ok(())
}

/// Whether one of these nodes declares this class by this name.
fn declares_class(class: u32, name: &str, nodes: &[&Node]) -> bool
    ensures { result ≡ declares_class class (chars name.now) (seen nodes.now) }
{
    for node in nodes {
        if is_class_of_name(class, name, node) {
            return true;
        }
    }
    false
}

#[tactic(auto, using(crate::proofs::OwnClassNames::no_declaration, crate::proofs::OwnClassNames::unnamed, crate::proofs::OwnClassNames::named_node))]
fn is_class_of_name(class: u32, name: &str, node: &Node) -> bool
    ensures { result ≡ is_among (chars name.now) (class_name_at class node.now) }
{
    match node.kind() {
        // class A {}
        Kind::ClassDeclaration => {
            let declaration = ClassDeclarationRef::from_node(node);
            match declaration.id {
                Some(id) => is_named(class == declaration.node_id.0, name, id),
                None => false,
            }
        }
        _ => false,
    }
}

fn is_named(is_class: bool, name: &str, id: &Node) -> bool
    ensures { result ≡ named_class is_class (chars name.now) id.now }
{
    is_class && is_word(name, string_at(id.parts(), 0))
}

// ---- what is meant

/// References, with the set of the identifiers that they mean.
#[derive(Drop)]
pub struct Meant<'r, 'a> {
    pub references: &'r [Reference<'a>],
    pub identifiers: Numbers,

    ghost are_theirs: { (b : ℕ) → are_none (references_to (b ∷ []) (references_of references.now)) ≡ not (has_number b identifiers) },
}

impl<'r, 'a> Meant<'r, 'a> {
    /// These references. Fails on allocation failure alone.
    #[tactic(auto, using(crate::proofs::OwnClassNames::none_bound))]
    fn of(alloc: Global, references: &'r [Reference<'a>]) -> Result<Meant<'r, 'a>, AllocError>
        ensures { IfOk result (λ m. m.references.now ≡ references.now) }
    {
        let numbers = bound_numbers(alloc, references)?;
        let identifiers = set_of(alloc, numbers.as_slice())?;
        Ok(Meant {
            references,
            identifiers,
        })
    }

    /// Whether one of the references means the identifier.
    fn has(&self, identifier: NodeId) -> bool
        ensures { not result ≡ are_none (references_to (identifier.0 ∷ []) (references_of self.now.references.now)) }
    {
        self.identifiers.has(identifier)
    }
}

/// The identifiers that references mean. Fails on allocation failure alone.
fn bound_numbers(alloc: Global, references: &[Reference]) -> Result<Vec<u32>, AllocError>
    ensures { IfOk result (λ numbers. numbers.items ≡ bound_numbers references.now) }
{
    let mut numbers = Vec::new(alloc);
    for reference in references {
        if let Some(binding) = reference.binding {
            numbers.push(binding.0)?;
        }
    }
    Ok(numbers)
}
