// Numbers of spellings.
//
// Each spelling of an identifier that declares has the least of the numbers of these identifiers.

use es_binding_faults::bound::is_binding_identifier;
use es_binding_faults::leasts::Leasts;
use es_node::node::Node;
use es_seen_names::parts::string_at;
use std::alloc::{AllocError, Global};

/// A number for the spelling of each identifier that declares among these nodes. Fails on allocation failure alone.
pub fn spellings<'a>(alloc: Global, nodes: &[&'a Node]) -> Result<Leasts<'a>, AllocError> {
    let mut spellings = Leasts::new(alloc);
    for node in nodes {
        add_spelling(node, &mut spellings)?;
    }
    Ok(spellings)
}

fn add_spelling<'a>(node: &'a Node, spellings: &mut Leasts<'a>) -> Result<(), AllocError> {
    if is_binding_identifier(node) {
        spellings.add(string_at(node.parts(), 0), node.node_id().0)?;
    }
    Ok(())
}
