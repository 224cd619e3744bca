// Names of a constructor that the initializers which go into it would meet.

use crate::names::Naming;
use crate::rewrite::{Rewriter, rewrite_expression};
use es_base::ids::{ReferenceId, ScopeId, SymbolId};
use es_base::kind::Kind;
use es_base::list::List;
use es_base::name::Name;
use es_node::node::Node;
use es_tree::identifier::{
    BindingIdentifier, BindingIdentifierRef, IdentifierReference, IdentifierReferenceRef,
};
use std::alloc::AllocError;

/// A symbol of a constructor, and its new name.
#[derive(Drop)]
struct Renamed {
    symbol: SymbolId,
    name: Name,
}

/// `constructor(y) { this.z = y; }`, into which `y` of an initializer goes, becomes `constructor(_y) { this.z = _y; }`
/// (oxc_transformer, `ConstructorSymbolRenamer`). The initializers are not changed.
pub fn rename_clashing_symbols(
    names: &mut Naming,
    constructor: Node,
    scope: Option<ScopeId>,
    inits: &mut List<Node>,
) -> Result<Node, AllocError> {
    let Some(scope) = scope else {
        return Ok(constructor);
    };
    let alloc = names.alloc;
    let mut search = ClashSearch {
        names: &mut *names,
        scope,
        renamed: List::new(alloc),
    };
    for init in inits.as_mut_slice() {
        rewrite_expression(&mut search, init)?;
    }
    let renamed = search.renamed;
    if renamed.is_empty() {
        return Ok(constructor);
    }
    let mut constructor = constructor;
    rewrite_expression(
        &mut SymbolRenamer {
            names: &*names,
            renamed,
        },
        &mut constructor,
    )?;
    Ok(constructor)
}

/// The new name of a symbol, if it has one.
fn name_of(renamed: &[Renamed], symbol: SymbolId) -> Option<&Name> {
    for one in renamed {
        if one.symbol == symbol {
            return Some(&one.name);
        }
    }
    None
}

/// Looks for names in initializers that the scope of a constructor binds to something else.
#[derive(Drop)]
struct ClashSearch<'a, 'b> {
    names: &'a mut Naming<'b>,
    scope: ScopeId,
    renamed: List<Renamed>,
}

impl Rewriter for ClashSearch<'_, '_> {
    fn goes_into(&mut self, _node: &Node) -> Result<bool, AllocError> {
        Ok(true)
    }

    fn rewrite_expression(&mut self, _node: &mut Node) -> Result<(), AllocError> {
        Ok(())
    }

    fn rewrite_reference(&mut self, node: &mut Node) -> Result<(), AllocError> {
        if node.kind() != Kind::IdentifierReference {
            return Ok(());
        }
        let reference = IdentifierReferenceRef::from_node(node);
        let Some(symbol) = self.names.binding_in(self.scope, reference.name.as_str()) else {
            return Ok(());
        };
        if self.names.means(reference.reference_id, symbol)
            || name_of(self.renamed.as_slice(), symbol).is_some()
        {
            return Ok(());
        }
        let name = self.names.generate_name(reference.name.as_str())?;
        self.renamed.push(Renamed { symbol, name })
    }

    fn rewrite_binding(&mut self, _node: &mut Node) -> Result<(), AllocError> {
        Ok(())
    }
}

/// Gives symbols their new names.
#[derive(Drop)]
struct SymbolRenamer<'a, 'b> {
    names: &'a Naming<'b>,
    renamed: List<Renamed>,
}

impl SymbolRenamer<'_, '_> {
    /// The new name of what a reference means, if it has one.
    fn name_of_reference(&self, reference: Option<ReferenceId>) -> Option<&Name> {
        for one in self.renamed.as_slice() {
            if self.names.means(reference, one.symbol) {
                return Some(&one.name);
            }
        }
        None
    }
}

impl Rewriter for SymbolRenamer<'_, '_> {
    fn goes_into(&mut self, _node: &Node) -> Result<bool, AllocError> {
        Ok(true)
    }

    fn rewrite_expression(&mut self, _node: &mut Node) -> Result<(), AllocError> {
        Ok(())
    }

    fn rewrite_reference(&mut self, node: &mut Node) -> Result<(), AllocError> {
        if node.kind() != Kind::IdentifierReference {
            return Ok(());
        }
        let reference = IdentifierReferenceRef::from_node(node).reference_id;
        if let Some(name) = self.name_of_reference(reference) {
            let name = name.try_clone(self.names.alloc)?;
            let mut reference = IdentifierReference::from_node(node.take());
            reference.name = name;
            *node = reference.into_node();
        }
        Ok(())
    }

    fn rewrite_binding(&mut self, node: &mut Node) -> Result<(), AllocError> {
        if node.kind() != Kind::BindingIdentifier {
            return Ok(());
        }
        let Some(symbol) = BindingIdentifierRef::from_node(node).symbol_id else {
            return Ok(());
        };
        if let Some(name) = name_of(self.renamed.as_slice(), symbol) {
            let mut binding = BindingIdentifier::from_node(node.take());
            binding.name = name.try_clone(self.names.alloc)?;
            *node = binding.into_node();
        }
        Ok(())
    }
}
