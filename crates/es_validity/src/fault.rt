// Why a program is not valid, and where.

use es_base::ids::NodeId;

/// A rule that a tree breaks, an early error of ECMA-262 or a form that ESTree does not have.
#[derive(Debug, Clone, Copy, PartialEq, Eq)]
pub enum TreeRule {
    /// A second constructor in a class.
    TwoConstructors,
    /// An element of a class whose kind, name and function do not go together.
    ConstructorForm,
    /// The private name `#constructor`.
    PrivateConstructor,
    /// `super(..)` outside a constructor of a class with a heritage.
    SuperCall,
    /// `super.x` outside methods, constructors, field values and static blocks.
    SuperMember,
    /// `super.#x`.
    SuperPrivate,
    /// `delete` of a private member.
    DeletePrivate,
    /// A second declaration of a name in one scope, where one of both is by `let`, `const`, `class` or `import`.
    RepeatedName,
    /// `break`, `continue` or `return` without what it leaves.
    StrayJump,
    /// `arguments` in a field value or a static block.
    OwnArguments,
    /// `await` or `yield` where no async function or generator is around.
    AwaitYield,
    /// A class or function declaration without a name.
    NoName,
    /// `?.` outside a chain, or a chain without one.
    ChainForm,
    /// A class, `let` or `const` as the body of another statement.
    DeclarationPlace,
    /// An import or export outside the body of a module.
    ModuleItem,
}

/// A form that is valid and not supported.
#[derive(Debug, Clone, Copy, PartialEq, Eq)]
pub enum LeftOut {
    /// A node of TypeScript, JSX, a decorator or an accessor property, or one with such a member.
    Foreign,
    /// A `with` statement.
    With,
    /// A call of the free name `eval`.
    Eval,
    /// A name that a lowered program uses is declared or written.
    HelperName,
    /// A private method where private members are kept as properties.
    LooseMethod,
    /// `#x in o` where private members are kept as properties.
    LooseIn,
    /// A member of `super` in code that moves, in a form that cannot move.
    SuperForm,
    /// A member of `super` in a field of a class whose constructor has `super()` in its parameters.
    SuperInInitializer,
}

/// What is wrong with a node.
#[derive(Debug, Clone, Copy, PartialEq, Eq)]
pub enum Cause {
    /// It breaks a rule.
    BadTree(TreeRule),
    /// It declares a private name of its class again, and completes no getter or setter.
    DuplicatePrivate,
    /// It is a private name that no class around declares.
    UndeclaredPrivate,
    /// It is not supported.
    Unsupported(LeftOut),
}

/// What is wrong, and the node.
#[derive(Debug, Clone, Copy, PartialEq, Eq)]
pub struct Fault {
    pub node: NodeId,
    pub cause: Cause,
}
