// What is known at a node from what stands around it.

use crate::jumps::Jumps;

/// The nearest function that is no arrow, field value, static block or program around a node. Keys and heritage of a class
/// belong to the owner outside the class.
#[derive(Debug, Clone, Copy, PartialEq, Eq)]
pub enum Owner {
    /// No function.
    Program,
    /// A function that is no method.
    Function,
    /// The constructor of a class.
    Constructor {
        has_heritage: bool,
    },
    /// Any other method, getter or setter of a class or an object.
    Method {
        is_private: bool,
    },
    /// The value of a field, of a class whose constructor has `super()` in its parameters or not.
    FieldValue {
        is_static: bool,
        super_in_parameters: bool,
    },
    /// A static block.
    StaticBlock,
}

/// What is asked of the nearest class whose body is around a node.
#[derive(Debug, Clone, Copy, PartialEq, Eq)]
pub struct ClassAround {
    pub has_heritage: bool,
    /// Its constructor has `super()` in its parameters.
    pub super_in_parameters: bool,
}

/// How a node stands in its parent, as far as a rule asks.
#[derive(Debug, Clone, Copy, PartialEq, Eq)]
pub enum Position {
    /// In another way.
    Other,
    /// In the body of a module.
    ModuleItem,
    /// As the declaration of `export default`.
    DefaultExport,
    /// As the body of an `if`, a loop, a label or a `with`.
    Body,
    /// In the spine of a chain.
    Spine,
    /// As a tag.
    Tag,
    /// As the target of an assignment or an update.
    Target,
    /// As a target in a pattern, or in the head of a for-in or for-of.
    PatternTarget,
    /// As the function of a method, which owns what is in it.
    MethodValue { owner: Owner },
}

/// What is known at a node from what stands around it.
#[derive(Clone, Copy)]
pub struct Around<'a> {
    pub owner: Owner,
    /// The nearest class whose body is around.
    pub class: ClassAround,
    pub position: Position,
    /// Whether `await` may stand here.
    pub awaits: bool,
    /// Whether `yield` may stand here.
    pub yields: bool,
    pub jumps: Jumps<'a>,
}
