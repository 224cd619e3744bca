// Printed by tools/tree.py from tools/kinds.py.
// Operators, and the other small sets of words that members hold.

/// What a program is: a script or a module (ESTree, `sourceType`).
#[derive(Debug, Clone, Copy, PartialEq, Eq)]
pub enum SourceType {
    /// `script`
    Script,
    /// `module`
    Module,
}

/// The keyword of a variable declaration (ECMA-262, 14.3).
#[derive(Debug, Clone, Copy, PartialEq, Eq)]
pub enum VariableDeclarationKind {
    /// `var`
    Var,
    /// `let`
    Let,
    /// `const`
    Const,
}

/// What a method of a class is (ECMA-262, 15.4 and 15.7).
#[derive(Debug, Clone, Copy, PartialEq, Eq)]
pub enum MethodDefinitionKind {
    /// `constructor`
    Constructor,
    /// `method`
    Method,
    /// `get`
    Get,
    /// `set`
    Set,
}

/// What a property of an object literal is (ECMA-262, 13.2.5).
#[derive(Debug, Clone, Copy, PartialEq, Eq)]
pub enum PropertyKind {
    /// `init`
    Init,
    /// `get`
    Get,
    /// `set`
    Set,
}

/// The operators of ECMA-262, 13.5.
#[derive(Debug, Clone, Copy, PartialEq, Eq)]
pub enum UnaryOperator {
    /// `-`
    Minus,
    /// `+`
    Plus,
    /// `!`
    Not,
    /// `~`
    BitNot,
    /// `typeof`
    Typeof,
    /// `void`
    Void,
    /// `delete`
    Delete,
}

/// The operators of ECMA-262, 13.4.
#[derive(Debug, Clone, Copy, PartialEq, Eq)]
pub enum UpdateOperator {
    /// `++`
    Increment,
    /// `--`
    Decrement,
}

/// The operators of ECMA-262, 13.6 to 13.12.
#[derive(Debug, Clone, Copy, PartialEq, Eq)]
pub enum BinaryOperator {
    /// `==`
    Equality,
    /// `!=`
    Inequality,
    /// `===`
    StrictEquality,
    /// `!==`
    StrictInequality,
    /// `<`
    LessThan,
    /// `<=`
    LessEqualThan,
    /// `>`
    GreaterThan,
    /// `>=`
    GreaterEqualThan,
    /// `<<`
    ShiftLeft,
    /// `>>`
    ShiftRight,
    /// `>>>`
    ShiftRightZeroFill,
    /// `+`
    Addition,
    /// `-`
    Subtraction,
    /// `*`
    Multiplication,
    /// `/`
    Division,
    /// `%`
    Remainder,
    /// `**`
    Exponential,
    /// `|`
    BitwiseOr,
    /// `^`
    BitwiseXor,
    /// `&`
    BitwiseAnd,
    /// `in`
    In,
    /// `instanceof`
    Instanceof,
}

/// The operators of ECMA-262, 13.13.
#[derive(Debug, Clone, Copy, PartialEq, Eq)]
pub enum LogicalOperator {
    /// `||`
    Or,
    /// `&&`
    And,
    /// `??`
    Coalesce,
}

/// The operators of ECMA-262, 13.15.
#[derive(Debug, Clone, Copy, PartialEq, Eq)]
pub enum AssignmentOperator {
    /// `=`
    Assign,
    /// `+=`
    Addition,
    /// `-=`
    Subtraction,
    /// `*=`
    Multiplication,
    /// `/=`
    Division,
    /// `%=`
    Remainder,
    /// `**=`
    Exponential,
    /// `<<=`
    ShiftLeft,
    /// `>>=`
    ShiftRight,
    /// `>>>=`
    ShiftRightZeroFill,
    /// `|=`
    BitwiseOr,
    /// `^=`
    BitwiseXor,
    /// `&=`
    BitwiseAnd,
    /// `||=`
    LogicalOr,
    /// `&&=`
    LogicalAnd,
    /// `??=`
    LogicalNullish,
}

/// A word of the table, in its set.
#[derive(Debug, Clone, Copy, PartialEq, Eq)]
pub enum Word {
    SourceType(SourceType),
    VariableDeclarationKind(VariableDeclarationKind),
    MethodDefinitionKind(MethodDefinitionKind),
    PropertyKind(PropertyKind),
    UnaryOperator(UnaryOperator),
    UpdateOperator(UpdateOperator),
    BinaryOperator(BinaryOperator),
    LogicalOperator(LogicalOperator),
    AssignmentOperator(AssignmentOperator),
    /// `in`, the one word of its set
    In,
    /// `init`, the one word of its set
    Init,
}
