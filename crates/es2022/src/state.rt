// What the transform carries along.

use crate::builders::create_declarator;
use crate::class_details::ClassDetails;
use es_base::ids::NodeId;
use es_base::list::List;
use es_base::name::Name;
use es_node::node::Node;
use es_steps::options::Options;
use std::alloc::{AllocError, Global};
use std::mem;

/// How classes are lowered.
#[derive(Debug, Clone, Copy)]
pub struct Settings {
    /// Public fields are set, and not defined.
    pub set_public_class_fields: bool,
    /// Fields without an initializer are left out where fields are set.
    pub remove_class_fields_without_initializer: bool,
    pub transform_static_blocks: bool,
}

impl Settings {
    /// The settings that options ask for.
    pub fn of(options: &Options) -> Settings {
        let loose = match options.es2022.class_properties {
            Some(fields) => fields.loose,
            None => false,
        };
        Settings {
            set_public_class_fields: loose || options.assumptions.set_public_class_fields,
            remove_class_fields_without_initializer: options.remove_class_fields_without_initializer,
            transform_static_blocks: options.es2022.class_static_block,
        }
    }

    /// Whether a field without initializer is left out.
    pub fn removes_empty_fields(&self) -> bool {
        self.set_public_class_fields && self.remove_class_fields_without_initializer
    }
}

/// What is put beside the statement at hand, and declared in the list around it.
#[derive(Drop)]
pub struct Insertions {
    pub vars: List<Node>,
    pub lets: List<Node>,
    pub before: List<Node>,
    pub after: List<Node>,
}

impl Insertions {
    /// Nothing.
    pub fn new(alloc: Global) -> Insertions {
        Insertions {
            vars: List::new(alloc),
            lets: List::new(alloc),
            before: List::new(alloc),
            after: List::new(alloc),
        }
    }
}

/// What the transform carries along, but for the room that it has, and what is in the context of the walk.
#[derive(Drop)]
pub struct State {
    pub alloc: Global,
    pub settings: Settings,
    /// The classes around, the innermost last.
    pub classes: List<ClassDetails>,
    pub insertions: Insertions,
    /// The first node that is in the way.
    pub declined: Option<NodeId>,
}

impl State {
    /// The state in front of a program.
    pub fn new(alloc: Global, settings: Settings) -> State {
        State {
            alloc,
            settings,
            classes: List::new(alloc),
            insertions: Insertions::new(alloc),
            declined: None,
        }
    }

    /// Tells that this node is in the way.
    pub fn decline(&mut self, node: NodeId) {
        if self.declined.is_none() {
            self.declined = Some(node);
        }
    }

    // var name;
    pub fn insert_var(&mut self, name: &Name) -> Result<(), AllocError> {
        let declarator = create_declarator(self.alloc, name, None)?;
        self.insertions.vars.push(declarator)
    }

    // let name;
    pub fn insert_let(&mut self, name: &Name) -> Result<(), AllocError> {
        let declarator = create_declarator(self.alloc, name, None)?;
        self.insertions.lets.push(declarator)
    }

    /// What is to be inserted, which is then nothing any more.
    pub fn take_insertions(&mut self) -> Insertions {
        let alloc = self.alloc;
        mem::replace(&mut self.insertions, Insertions::new(alloc))
    }
}
