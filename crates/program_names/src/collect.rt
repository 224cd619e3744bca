// The names that a program spells.

ghost use Rattle.std.specs.Prelude.{◌≡◌, [], IfOk, OnOk};
ghost use Rattle.es_base.specs.Preorder.{preorder, preorder_of, preorder_of_part};
ghost use Rattle.es_base.specs.Tree.{trees, nullable, nullable_trees};
ghost use Rattle.es_node.specs.View.{part_of, parts_of};
ghost use Rattle.program_names.specs.Spelled.{own_spelling, spellings_of, spelled};
ghost use Rattle.es_names.specs.Taken.{with_string, with_strings};

use es_base::kind::Kind;
use es_base::name::Name;
use es_expression::identifier::{BindingIdentifierRef, IdentifierReferenceRef};
use es_names::spellings::Spellings;
use es_node::node::{Node, Part};
use std::alloc::{AllocError, Global};

/// The names of the declaring identifiers and of the references, each once, in preorder. Fails on
/// allocation failure alone.
pub fn spellings_of(alloc: Global, program: &Node) -> Result<Spellings, AllocError>
    ensures { IfOk result (λ s. s ≡ with_strings [] (spelled program.now)) }
{
    let mut taken = Spellings::new(alloc);
    collect_node(alloc, program, &mut taken)?;
    Ok(taken)
}

#[cycle(collect)]
fn collect_node(alloc: Global, node: &Node, taken: &mut Spellings) -> Result<(), AllocError>
    ensures { OnOk result (taken.new ≡ with_strings taken.old (spellings_of (preorder node.now))) }
{
    collect_own(alloc, node, taken)?;
    collect_parts(alloc, node.parts(), taken)
}

/// The name of this node alone, if it is such an identifier.
fn collect_own(alloc: Global, node: &Node, taken: &mut Spellings) -> Result<(), AllocError>
    ensures { OnOk result (taken.new ≡ with_strings taken.old (own_spelling node.now)) }
{
    match node.kind() {
        Kind::BindingIdentifier => insert(alloc, BindingIdentifierRef::from_node(node).name, taken),
        Kind::IdentifierReference => {
            insert(alloc, IdentifierReferenceRef::from_node(node).name, taken)
        }
        _ => Ok(()),
    }
}

#[cycle(collect)]
fn collect_parts(alloc: Global, parts: &[Part], taken: &mut Spellings) -> Result<(), AllocError>
    ensures { OnOk result (taken.new ≡ with_strings taken.old (spellings_of (preorder_of (parts_of parts.now)))) }
{
    for part in parts {
        collect_part(alloc, part, taken)?;
    }
    Ok(())
}

#[cycle(collect)]
fn collect_part(alloc: Global, part: &Part, taken: &mut Spellings) -> Result<(), AllocError>
    ensures { OnOk result (taken.new ≡ with_strings taken.old (spellings_of (preorder_of_part (part_of part.now)))) }
{
    match part {
        Part::Child(node) => collect_node(alloc, node, taken),
        Part::List(nodes) => collect_list(alloc, nodes.as_slice(), taken),
        Part::Holes(nodes) => collect_list_with_holes(alloc, nodes.as_slice(), taken),
        _ => Ok(()),
    }
}

#[cycle(collect)]
fn collect_list(alloc: Global, nodes: &[Node], taken: &mut Spellings) -> Result<(), AllocError>
    ensures { OnOk result (taken.new ≡ with_strings taken.old (spellings_of (preorder_of (trees nodes.now)))) }
{
    for node in nodes {
        collect_node(alloc, node, taken)?;
    }
    Ok(())
}

#[cycle(collect)]
fn collect_list_with_holes(
    alloc: Global,
    nodes: &[Option<Node>],
    taken: &mut Spellings,
) -> Result<(), AllocError>
    ensures { OnOk result (taken.new ≡ with_strings taken.old (spellings_of (preorder_of (nullable_trees nodes.now)))) }
{
    for node in nodes {
        collect_hole(alloc, node, taken)?;
    }
    Ok(())
}

#[cycle(collect)]
fn collect_hole(alloc: Global, node: &Option<Node>, taken: &mut Spellings) -> Result<(), AllocError>
    ensures { OnOk result (taken.new ≡ with_strings taken.old (spellings_of (preorder_of_part (nullable node.now)))) }
{
    match node {
        Some(node) => collect_node(alloc, node, taken),
        None => Ok(()),
    }
}

fn insert(alloc: Global, name: &Name, taken: &mut Spellings) -> Result<(), AllocError>
    ensures { OnOk result (taken.new ≡ with_string taken.old name.now) }
{
    taken.insert(String::from_str(alloc, name.as_str())?)
}

#[cfg(test)]
mod tests {
    use super::*;
    use es_base::list::List;
    use es_expression::expression::make_sequence_expression;
    use es_expression::identifier::{
        make_binding_identifier, make_identifier_name, make_identifier_reference,
    };
    use std::test::Fail;

    /// Identifiers of each sort, one name twice.
    fn identifiers(alloc: Global) -> Result<Node, AllocError> {
        let mut nodes = List::new(alloc);
        nodes.push(make_binding_identifier(alloc, Name::new(alloc, "a")?)?)?;
        nodes.push(make_identifier_reference(alloc, Name::new(alloc, "b")?)?)?;
        nodes.push(make_identifier_name(alloc, Name::new(alloc, "c")?)?)?;
        nodes.push(make_identifier_reference(alloc, Name::new(alloc, "a")?)?)?;
        make_sequence_expression(alloc, nodes)
    }

    #[test]
    fn names_are_collected_once(rt: HostRuntime) -> Result<(), Fail> {
        let alloc = rt.alloc();
        let taken = spellings_of(alloc, &identifiers(alloc)?)?;
        assert!(rt; taken.len() == 2);
        assert!(rt; taken.contains("a") && taken.contains("b") && !taken.contains("c"));
        Ok(())
    }
}
