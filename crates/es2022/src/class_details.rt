// What is known of a class that the walk is in.

use es_base::ids::{NodeId, SymbolId};
use es_base::kind::Kind;
use es_base::list::List;
use es_base::name::Name;
use es_node::node::Node;
use es_tree::identifier::BindingIdentifierRef;
use std::alloc::{AllocError, Global};

/// The head of a class.
#[derive(Drop)]
pub struct ClassHead {
    pub number: NodeId,
    pub is_declaration: bool,
    pub has_super_class: bool,
    /// Its own name, and the symbol that the name declares.
    pub name: Option<Name>,
    pub symbol: Option<SymbolId>,
}

impl ClassHead {
    /// The head of a class of this number and with this own name.
    pub fn new(
        alloc: Global,
        number: NodeId,
        is_declaration: bool,
        id: Option<&Node>,
        super_class: Option<&Node>,
    ) -> Result<ClassHead, AllocError> {
        let (name, symbol) = name_of(alloc, id)?;
        Ok(ClassHead {
            number,
            is_declaration,
            has_super_class: super_class.is_some(),
            name,
            symbol,
        })
    }

    /// What a name for the class begins from.
    pub fn base(&self) -> &str {
        match &self.name {
            Some(name) => name.as_str(),
            None => "Class",
        }
    }
}

/// The name that an identifier declares, and its symbol.
fn name_of(
    alloc: Global,
    id: Option<&Node>,
) -> Result<(Option<Name>, Option<SymbolId>), AllocError> {
    let Some(id) = id else {
        return Ok((None, None));
    };
    match id.kind() {
        Kind::BindingIdentifier => {
            let id = BindingIdentifierRef::from_node(id);
            Ok((Some(id.name.try_clone(alloc)?), id.symbol_id))
        }
        _ => Ok((None, None)),
    }
}

/// What stands for `super(..)` outside of a class: its name, and what defines the instance fields in it.
#[derive(Drop)]
pub struct OutsideSuper {
    pub name: Name,
    pub inits: List<Node>,
}

/// A class that the walk is in (oxc_transformer, `ClassDetails`).
#[derive(Drop)]
pub struct ClassDetails {
    pub head: ClassHead,
    /// Whether something of it is lowered.
    pub is_transform_required: bool,
    /// Whether the list of statements around it is in strict code, which is told as the class is left.
    pub is_in_strict_list: bool,
    /// Whether its constructor calls `super` in its parameters, and has instance fields to define behind that. They stay in the class
    /// until it is left.
    pub has_outside_super: bool,
    /// What stands for `super(..)` outside of it, as the class is left.
    pub outside_super: Option<OutsideSuper>,
    /// The temporary that holds the class, and whether it is declared.
    pub temp: Option<Name>,
    pub temp_is_declared: bool,
    /// Expressions that are evaluated in front of the class, and behind it.
    pub before: List<Node>,
    pub after: List<Node>,
}
