// Printed by tools/tree.py from tools/kinds.py.
// The table of kinds, as data: reading, writing and conformity are read off it.

ghost use Rattle.std.specs.Prelude.{◌≡◌, map};
ghost use Rattle.es_base.specs.Table.{name_of, members_of, field_of, stands_in, is_statement, is_expression, is_pattern, is_target, kinds};

use crate::kind::Kind;

/// Where a node stands.
#[derive(Debug, Clone, Copy, PartialEq, Eq)]
pub enum Place {
    /// The root.
    Program,
    /// A statement, a declaration, an import or an export.
    Statement,
    /// An expression.
    Expression,
    /// A pattern that declares.
    Pattern,
    /// The target of an update.
    SimpleAssignmentTarget,
    /// The target of an assignment or a loop.
    AssignmentTarget,
    /// A target inside a pattern, which may have a default value.
    AssignmentTargetMaybeDefault,
    /// An element of an array that is assigned to.
    TargetOrRest,
    /// A member of an object that is assigned to.
    TargetMember,
    /// A parameter, or an element of an array pattern.
    PatternOrRest,
    /// A member of an object pattern.
    PatternMember,
    /// An object or a callee.
    ExpressionOrSuper,
    /// An argument, or an element of an array.
    ExpressionOrSpread,
    /// A member of an object literal.
    ObjectMember,
    /// The outermost member or call of a chain.
    ChainElement,
    /// The body of an arrow.
    ArrowBody,
    /// The head of a `for` loop.
    ForInit,
    /// The left side of a for-in or for-of loop.
    ForLeft,
    /// The body of a function, or a block of `try`.
    Block,
    /// A case of a `switch`.
    SwitchCase,
    /// The handler of a `try`.
    CatchClause,
    /// A declarator.
    VariableDeclarator,
    /// The body of a class.
    ClassBody,
    /// An element of a class.
    ClassElement,
    /// The value of a method.
    FunctionValue,
    /// The key of a property that is not computed.
    PropertyKey,
    /// The key of a class element that is not computed.
    ClassKey,
    /// The property of a member that is not computed.
    MemberProperty,
    /// A label, or a part of a meta property.
    IdentifierName,
    /// The name of a function, a class or an import.
    BindingIdentifier,
    /// A private name.
    PrivateIdentifier,
    /// The source of an import or export.
    Literal,
    /// The template behind a tag.
    TemplateLiteral,
    /// A string of a template.
    TemplateElement,
    /// What an import binds.
    ImportMember,
    /// A name that a module imports or exports.
    ModuleName,
    /// A specifier of an export.
    ExportSpecifier,
    /// What a specifier of an export names.
    ExportLocal,
    /// What is exported by default.
    ExportDefault,
}

/// A set of words.
#[derive(Debug, Clone, Copy, PartialEq, Eq)]
pub enum Words {
    SourceType,
    VariableDeclarationKind,
    MethodDefinitionKind,
    PropertyKind,
    UnaryOperator,
    UpdateOperator,
    BinaryOperator,
    LogicalOperator,
    AssignmentOperator,
    In,
    Init,
}

/// What a member holds.
#[derive(Debug, Clone, Copy, PartialEq, Eq)]
pub enum Sort {
    /// A node.
    Child(Place),
    /// A node or null.
    Nullable(Place),
    /// A node of this place, or an expression where `computed` is true.
    Key(Place),
    /// A list of nodes.
    List(Place),
    /// A list of at least one node.
    NonEmptyList(Place),
    /// A list of nodes and nulls.
    ListWithHoles(Place),
    /// A string that is not empty.
    Name,
    /// A string or nothing.
    NullableString,
    /// A boolean, false where it is absent.
    Boolean,
    /// A boolean that is false.
    False,
    /// One of a set of words.
    Word(Words),
    /// The value of a literal, which other members of the node decide too.
    Literal,
    /// The string `raw` of the object `value`.
    Raw,
    /// The string `cooked` of the object `value`, or null.
    Cooked,
    /// The string of `type`.
    Type,
}

/// A member of a node: its name in ESTree, and what it holds.
#[derive(Debug, Clone, Copy)]
pub struct Member {
    pub name: &'static str,
    pub sort: Sort,
}

/// The string of a node's `type` (ESTree); empty for a foreign node, which keeps its own.
pub fn estree_name(kind: Kind) -> &'static str
    ensures { result.now ≡ name_of kind }
{
    match kind {
        Kind::Program => "Program",
        Kind::ExpressionStatement => "ExpressionStatement",
        Kind::BlockStatement => "BlockStatement",
        Kind::EmptyStatement => "EmptyStatement",
        Kind::DebuggerStatement => "DebuggerStatement",
        Kind::WithStatement => "WithStatement",
        Kind::ReturnStatement => "ReturnStatement",
        Kind::ThrowStatement => "ThrowStatement",
        Kind::LabeledStatement => "LabeledStatement",
        Kind::BreakStatement => "BreakStatement",
        Kind::ContinueStatement => "ContinueStatement",
        Kind::IfStatement => "IfStatement",
        Kind::SwitchStatement => "SwitchStatement",
        Kind::SwitchCase => "SwitchCase",
        Kind::TryStatement => "TryStatement",
        Kind::CatchClause => "CatchClause",
        Kind::WhileStatement => "WhileStatement",
        Kind::DoWhileStatement => "DoWhileStatement",
        Kind::ForStatement => "ForStatement",
        Kind::ForInStatement => "ForInStatement",
        Kind::ForOfStatement => "ForOfStatement",
        Kind::FunctionDeclaration => "FunctionDeclaration",
        Kind::FunctionExpression => "FunctionExpression",
        Kind::ArrowFunctionExpression => "ArrowFunctionExpression",
        Kind::VariableDeclaration => "VariableDeclaration",
        Kind::VariableDeclarator => "VariableDeclarator",
        Kind::ClassDeclaration => "ClassDeclaration",
        Kind::ClassExpression => "ClassExpression",
        Kind::ClassBody => "ClassBody",
        Kind::MethodDefinition => "MethodDefinition",
        Kind::PropertyDefinition => "PropertyDefinition",
        Kind::StaticBlock => "StaticBlock",
        Kind::PrivateIdentifier => "PrivateIdentifier",
        Kind::IdentifierReference => "Identifier",
        Kind::BindingIdentifier => "Identifier",
        Kind::IdentifierName => "Identifier",
        Kind::Literal => "Literal",
        Kind::ThisExpression => "ThisExpression",
        Kind::Super => "Super",
        Kind::ArrayExpression => "ArrayExpression",
        Kind::ObjectExpression => "ObjectExpression",
        Kind::Property => "Property",
        Kind::SpreadElement => "SpreadElement",
        Kind::TemplateLiteral => "TemplateLiteral",
        Kind::TemplateElement => "TemplateElement",
        Kind::TaggedTemplateExpression => "TaggedTemplateExpression",
        Kind::MemberExpression => "MemberExpression",
        Kind::PrivateField => "MemberExpression",
        Kind::UnaryExpression => "UnaryExpression",
        Kind::UpdateExpression => "UpdateExpression",
        Kind::BinaryExpression => "BinaryExpression",
        Kind::PrivateIn => "BinaryExpression",
        Kind::LogicalExpression => "LogicalExpression",
        Kind::AssignmentExpression => "AssignmentExpression",
        Kind::ConditionalExpression => "ConditionalExpression",
        Kind::CallExpression => "CallExpression",
        Kind::NewExpression => "NewExpression",
        Kind::SequenceExpression => "SequenceExpression",
        Kind::YieldExpression => "YieldExpression",
        Kind::AwaitExpression => "AwaitExpression",
        Kind::ImportExpression => "ImportExpression",
        Kind::MetaProperty => "MetaProperty",
        Kind::ChainExpression => "ChainExpression",
        Kind::ObjectPattern => "ObjectPattern",
        Kind::BindingProperty => "Property",
        Kind::ArrayPattern => "ArrayPattern",
        Kind::AssignmentPattern => "AssignmentPattern",
        Kind::RestElement => "RestElement",
        Kind::ObjectAssignmentTarget => "ObjectPattern",
        Kind::AssignmentTargetProperty => "Property",
        Kind::ArrayAssignmentTarget => "ArrayPattern",
        Kind::AssignmentTargetWithDefault => "AssignmentPattern",
        Kind::AssignmentTargetRest => "RestElement",
        Kind::ImportDeclaration => "ImportDeclaration",
        Kind::ImportSpecifier => "ImportSpecifier",
        Kind::ImportDefaultSpecifier => "ImportDefaultSpecifier",
        Kind::ImportNamespaceSpecifier => "ImportNamespaceSpecifier",
        Kind::ExportNamedDeclaration => "ExportNamedDeclaration",
        Kind::ExportSpecifier => "ExportSpecifier",
        Kind::ExportDefaultDeclaration => "ExportDefaultDeclaration",
        Kind::ExportAllDeclaration => "ExportAllDeclaration",
        Kind::Foreign => "",
    }
}

/// The members of a node in preorder (ESTree; the order is our own).
pub fn members(kind: Kind) -> &'static [Member]
    ensures { map field_of result.now ≡ members_of kind }
{
    match kind {
        Kind::Program => &[
            Member {
                name: "sourceType",
                sort: Sort::Word(Words::SourceType),
            },
            Member {
                name: "body",
                sort: Sort::List(Place::Statement),
            },
        ],
        Kind::ExpressionStatement => &[
            Member {
                name: "expression",
                sort: Sort::Child(Place::Expression),
            },
            Member {
                name: "directive",
                sort: Sort::NullableString,
            },
        ],
        Kind::BlockStatement => &[Member {
            name: "body",
            sort: Sort::List(Place::Statement),
        }],
        Kind::EmptyStatement => &[],
        Kind::DebuggerStatement => &[],
        Kind::WithStatement => &[
            Member {
                name: "object",
                sort: Sort::Child(Place::Expression),
            },
            Member {
                name: "body",
                sort: Sort::Child(Place::Statement),
            },
        ],
        Kind::ReturnStatement => &[Member {
            name: "argument",
            sort: Sort::Nullable(Place::Expression),
        }],
        Kind::ThrowStatement => &[Member {
            name: "argument",
            sort: Sort::Child(Place::Expression),
        }],
        Kind::LabeledStatement => &[
            Member {
                name: "label",
                sort: Sort::Child(Place::IdentifierName),
            },
            Member {
                name: "body",
                sort: Sort::Child(Place::Statement),
            },
        ],
        Kind::BreakStatement => &[Member {
            name: "label",
            sort: Sort::Nullable(Place::IdentifierName),
        }],
        Kind::ContinueStatement => &[Member {
            name: "label",
            sort: Sort::Nullable(Place::IdentifierName),
        }],
        Kind::IfStatement => &[
            Member {
                name: "test",
                sort: Sort::Child(Place::Expression),
            },
            Member {
                name: "consequent",
                sort: Sort::Child(Place::Statement),
            },
            Member {
                name: "alternate",
                sort: Sort::Nullable(Place::Statement),
            },
        ],
        Kind::SwitchStatement => &[
            Member {
                name: "discriminant",
                sort: Sort::Child(Place::Expression),
            },
            Member {
                name: "cases",
                sort: Sort::List(Place::SwitchCase),
            },
        ],
        Kind::SwitchCase => &[
            Member {
                name: "test",
                sort: Sort::Nullable(Place::Expression),
            },
            Member {
                name: "consequent",
                sort: Sort::List(Place::Statement),
            },
        ],
        Kind::TryStatement => &[
            Member {
                name: "block",
                sort: Sort::Child(Place::Block),
            },
            Member {
                name: "handler",
                sort: Sort::Nullable(Place::CatchClause),
            },
            Member {
                name: "finalizer",
                sort: Sort::Nullable(Place::Block),
            },
        ],
        Kind::CatchClause => &[
            Member {
                name: "param",
                sort: Sort::Nullable(Place::Pattern),
            },
            Member {
                name: "body",
                sort: Sort::Child(Place::Block),
            },
        ],
        Kind::WhileStatement => &[
            Member {
                name: "test",
                sort: Sort::Child(Place::Expression),
            },
            Member {
                name: "body",
                sort: Sort::Child(Place::Statement),
            },
        ],
        Kind::DoWhileStatement => &[
            Member {
                name: "body",
                sort: Sort::Child(Place::Statement),
            },
            Member {
                name: "test",
                sort: Sort::Child(Place::Expression),
            },
        ],
        Kind::ForStatement => &[
            Member {
                name: "init",
                sort: Sort::Nullable(Place::ForInit),
            },
            Member {
                name: "test",
                sort: Sort::Nullable(Place::Expression),
            },
            Member {
                name: "update",
                sort: Sort::Nullable(Place::Expression),
            },
            Member {
                name: "body",
                sort: Sort::Child(Place::Statement),
            },
        ],
        Kind::ForInStatement => &[
            Member {
                name: "left",
                sort: Sort::Child(Place::ForLeft),
            },
            Member {
                name: "right",
                sort: Sort::Child(Place::Expression),
            },
            Member {
                name: "body",
                sort: Sort::Child(Place::Statement),
            },
        ],
        Kind::ForOfStatement => &[
            Member {
                name: "left",
                sort: Sort::Child(Place::ForLeft),
            },
            Member {
                name: "right",
                sort: Sort::Child(Place::Expression),
            },
            Member {
                name: "body",
                sort: Sort::Child(Place::Statement),
            },
            Member {
                name: "await",
                sort: Sort::Boolean,
            },
        ],
        Kind::FunctionDeclaration => &[
            Member {
                name: "id",
                sort: Sort::Nullable(Place::BindingIdentifier),
            },
            Member {
                name: "params",
                sort: Sort::List(Place::PatternOrRest),
            },
            Member {
                name: "body",
                sort: Sort::Child(Place::Block),
            },
            Member {
                name: "async",
                sort: Sort::Boolean,
            },
            Member {
                name: "generator",
                sort: Sort::Boolean,
            },
        ],
        Kind::FunctionExpression => &[
            Member {
                name: "id",
                sort: Sort::Nullable(Place::BindingIdentifier),
            },
            Member {
                name: "params",
                sort: Sort::List(Place::PatternOrRest),
            },
            Member {
                name: "body",
                sort: Sort::Child(Place::Block),
            },
            Member {
                name: "async",
                sort: Sort::Boolean,
            },
            Member {
                name: "generator",
                sort: Sort::Boolean,
            },
        ],
        Kind::ArrowFunctionExpression => &[
            Member {
                name: "params",
                sort: Sort::List(Place::PatternOrRest),
            },
            Member {
                name: "body",
                sort: Sort::Child(Place::ArrowBody),
            },
            Member {
                name: "async",
                sort: Sort::Boolean,
            },
        ],
        Kind::VariableDeclaration => &[
            Member {
                name: "kind",
                sort: Sort::Word(Words::VariableDeclarationKind),
            },
            Member {
                name: "declarations",
                sort: Sort::List(Place::VariableDeclarator),
            },
        ],
        Kind::VariableDeclarator => &[
            Member {
                name: "id",
                sort: Sort::Child(Place::Pattern),
            },
            Member {
                name: "init",
                sort: Sort::Nullable(Place::Expression),
            },
        ],
        Kind::ClassDeclaration => &[
            Member {
                name: "id",
                sort: Sort::Nullable(Place::BindingIdentifier),
            },
            Member {
                name: "superClass",
                sort: Sort::Nullable(Place::Expression),
            },
            Member {
                name: "body",
                sort: Sort::Child(Place::ClassBody),
            },
        ],
        Kind::ClassExpression => &[
            Member {
                name: "id",
                sort: Sort::Nullable(Place::BindingIdentifier),
            },
            Member {
                name: "superClass",
                sort: Sort::Nullable(Place::Expression),
            },
            Member {
                name: "body",
                sort: Sort::Child(Place::ClassBody),
            },
        ],
        Kind::ClassBody => &[Member {
            name: "body",
            sort: Sort::List(Place::ClassElement),
        }],
        Kind::MethodDefinition => &[
            Member {
                name: "key",
                sort: Sort::Key(Place::ClassKey),
            },
            Member {
                name: "value",
                sort: Sort::Child(Place::FunctionValue),
            },
            Member {
                name: "kind",
                sort: Sort::Word(Words::MethodDefinitionKind),
            },
            Member {
                name: "computed",
                sort: Sort::Boolean,
            },
            Member {
                name: "static",
                sort: Sort::Boolean,
            },
        ],
        Kind::PropertyDefinition => &[
            Member {
                name: "key",
                sort: Sort::Key(Place::ClassKey),
            },
            Member {
                name: "value",
                sort: Sort::Nullable(Place::Expression),
            },
            Member {
                name: "computed",
                sort: Sort::Boolean,
            },
            Member {
                name: "static",
                sort: Sort::Boolean,
            },
        ],
        Kind::StaticBlock => &[Member {
            name: "body",
            sort: Sort::List(Place::Statement),
        }],
        Kind::PrivateIdentifier => &[Member {
            name: "name",
            sort: Sort::Name,
        }],
        Kind::IdentifierReference => &[Member {
            name: "name",
            sort: Sort::Name,
        }],
        Kind::BindingIdentifier => &[Member {
            name: "name",
            sort: Sort::Name,
        }],
        Kind::IdentifierName => &[Member {
            name: "name",
            sort: Sort::Name,
        }],
        Kind::Literal => &[Member {
            name: "value",
            sort: Sort::Literal,
        }],
        Kind::ThisExpression => &[],
        Kind::Super => &[],
        Kind::ArrayExpression => &[Member {
            name: "elements",
            sort: Sort::ListWithHoles(Place::ExpressionOrSpread),
        }],
        Kind::ObjectExpression => &[Member {
            name: "properties",
            sort: Sort::List(Place::ObjectMember),
        }],
        Kind::Property => &[
            Member {
                name: "key",
                sort: Sort::Key(Place::PropertyKey),
            },
            Member {
                name: "value",
                sort: Sort::Child(Place::Expression),
            },
            Member {
                name: "kind",
                sort: Sort::Word(Words::PropertyKind),
            },
            Member {
                name: "method",
                sort: Sort::Boolean,
            },
            Member {
                name: "shorthand",
                sort: Sort::Boolean,
            },
            Member {
                name: "computed",
                sort: Sort::Boolean,
            },
        ],
        Kind::SpreadElement => &[Member {
            name: "argument",
            sort: Sort::Child(Place::Expression),
        }],
        Kind::TemplateLiteral => &[
            Member {
                name: "quasis",
                sort: Sort::List(Place::TemplateElement),
            },
            Member {
                name: "expressions",
                sort: Sort::List(Place::Expression),
            },
        ],
        Kind::TemplateElement => &[
            Member {
                name: "raw",
                sort: Sort::Raw,
            },
            Member {
                name: "cooked",
                sort: Sort::Cooked,
            },
            Member {
                name: "tail",
                sort: Sort::Boolean,
            },
        ],
        Kind::TaggedTemplateExpression => &[
            Member {
                name: "tag",
                sort: Sort::Child(Place::Expression),
            },
            Member {
                name: "quasi",
                sort: Sort::Child(Place::TemplateLiteral),
            },
        ],
        Kind::MemberExpression => &[
            Member {
                name: "object",
                sort: Sort::Child(Place::ExpressionOrSuper),
            },
            Member {
                name: "property",
                sort: Sort::Key(Place::MemberProperty),
            },
            Member {
                name: "computed",
                sort: Sort::Boolean,
            },
            Member {
                name: "optional",
                sort: Sort::Boolean,
            },
        ],
        Kind::PrivateField => &[
            Member {
                name: "object",
                sort: Sort::Child(Place::ExpressionOrSuper),
            },
            Member {
                name: "property",
                sort: Sort::Child(Place::PrivateIdentifier),
            },
            Member {
                name: "computed",
                sort: Sort::False,
            },
            Member {
                name: "optional",
                sort: Sort::Boolean,
            },
        ],
        Kind::UnaryExpression => &[
            Member {
                name: "operator",
                sort: Sort::Word(Words::UnaryOperator),
            },
            Member {
                name: "argument",
                sort: Sort::Child(Place::Expression),
            },
        ],
        Kind::UpdateExpression => &[
            Member {
                name: "operator",
                sort: Sort::Word(Words::UpdateOperator),
            },
            Member {
                name: "argument",
                sort: Sort::Child(Place::SimpleAssignmentTarget),
            },
            Member {
                name: "prefix",
                sort: Sort::Boolean,
            },
        ],
        Kind::BinaryExpression => &[
            Member {
                name: "operator",
                sort: Sort::Word(Words::BinaryOperator),
            },
            Member {
                name: "left",
                sort: Sort::Child(Place::Expression),
            },
            Member {
                name: "right",
                sort: Sort::Child(Place::Expression),
            },
        ],
        Kind::PrivateIn => &[
            Member {
                name: "operator",
                sort: Sort::Word(Words::In),
            },
            Member {
                name: "left",
                sort: Sort::Child(Place::PrivateIdentifier),
            },
            Member {
                name: "right",
                sort: Sort::Child(Place::Expression),
            },
        ],
        Kind::LogicalExpression => &[
            Member {
                name: "operator",
                sort: Sort::Word(Words::LogicalOperator),
            },
            Member {
                name: "left",
                sort: Sort::Child(Place::Expression),
            },
            Member {
                name: "right",
                sort: Sort::Child(Place::Expression),
            },
        ],
        Kind::AssignmentExpression => &[
            Member {
                name: "operator",
                sort: Sort::Word(Words::AssignmentOperator),
            },
            Member {
                name: "left",
                sort: Sort::Child(Place::AssignmentTarget),
            },
            Member {
                name: "right",
                sort: Sort::Child(Place::Expression),
            },
        ],
        Kind::ConditionalExpression => &[
            Member {
                name: "test",
                sort: Sort::Child(Place::Expression),
            },
            Member {
                name: "consequent",
                sort: Sort::Child(Place::Expression),
            },
            Member {
                name: "alternate",
                sort: Sort::Child(Place::Expression),
            },
        ],
        Kind::CallExpression => &[
            Member {
                name: "callee",
                sort: Sort::Child(Place::ExpressionOrSuper),
            },
            Member {
                name: "arguments",
                sort: Sort::List(Place::ExpressionOrSpread),
            },
            Member {
                name: "optional",
                sort: Sort::Boolean,
            },
        ],
        Kind::NewExpression => &[
            Member {
                name: "callee",
                sort: Sort::Child(Place::Expression),
            },
            Member {
                name: "arguments",
                sort: Sort::List(Place::ExpressionOrSpread),
            },
        ],
        Kind::SequenceExpression => &[Member {
            name: "expressions",
            sort: Sort::NonEmptyList(Place::Expression),
        }],
        Kind::YieldExpression => &[
            Member {
                name: "argument",
                sort: Sort::Nullable(Place::Expression),
            },
            Member {
                name: "delegate",
                sort: Sort::Boolean,
            },
        ],
        Kind::AwaitExpression => &[Member {
            name: "argument",
            sort: Sort::Child(Place::Expression),
        }],
        Kind::ImportExpression => &[Member {
            name: "source",
            sort: Sort::Child(Place::Expression),
        }],
        Kind::MetaProperty => &[
            Member {
                name: "meta",
                sort: Sort::Child(Place::IdentifierName),
            },
            Member {
                name: "property",
                sort: Sort::Child(Place::IdentifierName),
            },
        ],
        Kind::ChainExpression => &[Member {
            name: "expression",
            sort: Sort::Child(Place::ChainElement),
        }],
        Kind::ObjectPattern => &[Member {
            name: "properties",
            sort: Sort::List(Place::PatternMember),
        }],
        Kind::BindingProperty => &[
            Member {
                name: "key",
                sort: Sort::Key(Place::PropertyKey),
            },
            Member {
                name: "value",
                sort: Sort::Child(Place::Pattern),
            },
            Member {
                name: "kind",
                sort: Sort::Word(Words::Init),
            },
            Member {
                name: "method",
                sort: Sort::False,
            },
            Member {
                name: "shorthand",
                sort: Sort::Boolean,
            },
            Member {
                name: "computed",
                sort: Sort::Boolean,
            },
        ],
        Kind::ArrayPattern => &[Member {
            name: "elements",
            sort: Sort::ListWithHoles(Place::PatternOrRest),
        }],
        Kind::AssignmentPattern => &[
            Member {
                name: "left",
                sort: Sort::Child(Place::Pattern),
            },
            Member {
                name: "right",
                sort: Sort::Child(Place::Expression),
            },
        ],
        Kind::RestElement => &[Member {
            name: "argument",
            sort: Sort::Child(Place::Pattern),
        }],
        Kind::ObjectAssignmentTarget => &[Member {
            name: "properties",
            sort: Sort::List(Place::TargetMember),
        }],
        Kind::AssignmentTargetProperty => &[
            Member {
                name: "key",
                sort: Sort::Key(Place::PropertyKey),
            },
            Member {
                name: "value",
                sort: Sort::Child(Place::AssignmentTargetMaybeDefault),
            },
            Member {
                name: "kind",
                sort: Sort::Word(Words::Init),
            },
            Member {
                name: "method",
                sort: Sort::False,
            },
            Member {
                name: "shorthand",
                sort: Sort::Boolean,
            },
            Member {
                name: "computed",
                sort: Sort::Boolean,
            },
        ],
        Kind::ArrayAssignmentTarget => &[Member {
            name: "elements",
            sort: Sort::ListWithHoles(Place::TargetOrRest),
        }],
        Kind::AssignmentTargetWithDefault => &[
            Member {
                name: "left",
                sort: Sort::Child(Place::AssignmentTargetMaybeDefault),
            },
            Member {
                name: "right",
                sort: Sort::Child(Place::Expression),
            },
        ],
        Kind::AssignmentTargetRest => &[Member {
            name: "argument",
            sort: Sort::Child(Place::AssignmentTargetMaybeDefault),
        }],
        Kind::ImportDeclaration => &[
            Member {
                name: "specifiers",
                sort: Sort::List(Place::ImportMember),
            },
            Member {
                name: "source",
                sort: Sort::Child(Place::Literal),
            },
        ],
        Kind::ImportSpecifier => &[
            Member {
                name: "imported",
                sort: Sort::Child(Place::ModuleName),
            },
            Member {
                name: "local",
                sort: Sort::Child(Place::BindingIdentifier),
            },
        ],
        Kind::ImportDefaultSpecifier => &[Member {
            name: "local",
            sort: Sort::Child(Place::BindingIdentifier),
        }],
        Kind::ImportNamespaceSpecifier => &[Member {
            name: "local",
            sort: Sort::Child(Place::BindingIdentifier),
        }],
        Kind::ExportNamedDeclaration => &[
            Member {
                name: "declaration",
                sort: Sort::Nullable(Place::Statement),
            },
            Member {
                name: "specifiers",
                sort: Sort::List(Place::ExportSpecifier),
            },
            Member {
                name: "source",
                sort: Sort::Nullable(Place::Literal),
            },
        ],
        Kind::ExportSpecifier => &[
            Member {
                name: "local",
                sort: Sort::Child(Place::ExportLocal),
            },
            Member {
                name: "exported",
                sort: Sort::Child(Place::ModuleName),
            },
        ],
        Kind::ExportDefaultDeclaration => &[Member {
            name: "declaration",
            sort: Sort::Child(Place::ExportDefault),
        }],
        Kind::ExportAllDeclaration => &[
            Member {
                name: "exported",
                sort: Sort::Nullable(Place::ModuleName),
            },
            Member {
                name: "source",
                sort: Sort::Child(Place::Literal),
            },
        ],
        Kind::Foreign => &[Member {
            name: "type",
            sort: Sort::Type,
        }],
    }
}

/// Whether a node of this kind may stand at the place (ECMA-262, over ESTree's kinds).
pub fn fits(place: Place, kind: Kind) -> bool
    ensures { result ≡ stands_in place kind }
{
    match place {
        Place::Program => matches!(kind, Kind::Program),
        Place::Statement => fits_statement(kind),
        Place::Expression => fits_expression(kind),
        Place::Pattern => fits_pattern(kind),
        Place::SimpleAssignmentTarget => matches!(
            kind,
            Kind::IdentifierReference | Kind::MemberExpression | Kind::PrivateField
        ),
        Place::AssignmentTarget => fits_target(kind),
        Place::AssignmentTargetMaybeDefault => fits_target(kind)
            || matches!(kind, Kind::AssignmentTargetWithDefault),
        Place::TargetOrRest => fits_target(kind)
            || matches!(kind, Kind::AssignmentTargetWithDefault)
            || matches!(kind, Kind::AssignmentTargetRest),
        Place::TargetMember => matches!(
            kind,
            Kind::AssignmentTargetProperty | Kind::AssignmentTargetRest
        ),
        Place::PatternOrRest => fits_pattern(kind) || matches!(kind, Kind::RestElement),
        Place::PatternMember => matches!(kind, Kind::BindingProperty | Kind::RestElement),
        Place::ExpressionOrSuper => fits_expression(kind) || matches!(kind, Kind::Super),
        Place::ExpressionOrSpread => fits_expression(kind) || matches!(kind, Kind::SpreadElement),
        Place::ObjectMember => matches!(kind, Kind::Property | Kind::SpreadElement),
        Place::ChainElement => matches!(
            kind,
            Kind::MemberExpression | Kind::PrivateField | Kind::CallExpression
        ),
        Place::ArrowBody => fits_expression(kind) || matches!(kind, Kind::BlockStatement),
        Place::ForInit => fits_expression(kind) || matches!(kind, Kind::VariableDeclaration),
        Place::ForLeft => fits_target(kind) || matches!(kind, Kind::VariableDeclaration),
        Place::Block => matches!(kind, Kind::BlockStatement),
        Place::SwitchCase => matches!(kind, Kind::SwitchCase),
        Place::CatchClause => matches!(kind, Kind::CatchClause),
        Place::VariableDeclarator => matches!(kind, Kind::VariableDeclarator),
        Place::ClassBody => matches!(kind, Kind::ClassBody),
        Place::ClassElement => matches!(
            kind,
            Kind::MethodDefinition | Kind::PropertyDefinition | Kind::StaticBlock | Kind::Foreign
        ),
        Place::FunctionValue => matches!(kind, Kind::FunctionExpression),
        Place::PropertyKey => matches!(kind, Kind::IdentifierName | Kind::Literal),
        Place::ClassKey => matches!(kind, Kind::IdentifierName | Kind::Literal)
            || matches!(kind, Kind::PrivateIdentifier),
        Place::MemberProperty => matches!(kind, Kind::IdentifierName),
        Place::IdentifierName => matches!(kind, Kind::IdentifierName),
        Place::BindingIdentifier => matches!(kind, Kind::BindingIdentifier),
        Place::PrivateIdentifier => matches!(kind, Kind::PrivateIdentifier),
        Place::Literal => matches!(kind, Kind::Literal),
        Place::TemplateLiteral => matches!(kind, Kind::TemplateLiteral),
        Place::TemplateElement => matches!(kind, Kind::TemplateElement),
        Place::ImportMember => matches!(
            kind,
            Kind::ImportSpecifier | Kind::ImportDefaultSpecifier | Kind::ImportNamespaceSpecifier
        ),
        Place::ModuleName => matches!(kind, Kind::IdentifierName | Kind::Literal),
        Place::ExportSpecifier => matches!(kind, Kind::ExportSpecifier),
        Place::ExportLocal => matches!(
            kind,
            Kind::IdentifierReference | Kind::IdentifierName | Kind::Literal
        ),
        Place::ExportDefault => fits_expression(kind)
            || matches!(kind, Kind::FunctionDeclaration | Kind::ClassDeclaration),
    }
}

fn fits_statement(kind: Kind) -> bool
    ensures { result ≡ is_statement kind }
{
    match kind {
        Kind::ExpressionStatement
        | Kind::BlockStatement
        | Kind::EmptyStatement
        | Kind::DebuggerStatement
        | Kind::WithStatement
        | Kind::ReturnStatement
        | Kind::ThrowStatement
        | Kind::LabeledStatement
        | Kind::BreakStatement
        | Kind::ContinueStatement
        | Kind::IfStatement
        | Kind::SwitchStatement
        | Kind::TryStatement
        | Kind::WhileStatement => true,
        Kind::DoWhileStatement
        | Kind::ForStatement
        | Kind::ForInStatement
        | Kind::ForOfStatement
        | Kind::FunctionDeclaration
        | Kind::VariableDeclaration
        | Kind::ClassDeclaration
        | Kind::ImportDeclaration
        | Kind::ExportNamedDeclaration
        | Kind::ExportDefaultDeclaration
        | Kind::ExportAllDeclaration
        | Kind::Foreign => true,
        _ => false,
    }
}

fn fits_expression(kind: Kind) -> bool
    ensures { result ≡ is_expression kind }
{
    match kind {
        Kind::ThisExpression
        | Kind::IdentifierReference
        | Kind::Literal
        | Kind::ArrayExpression
        | Kind::ObjectExpression
        | Kind::FunctionExpression
        | Kind::ArrowFunctionExpression
        | Kind::ClassExpression
        | Kind::TemplateLiteral
        | Kind::TaggedTemplateExpression
        | Kind::MemberExpression
        | Kind::PrivateField
        | Kind::UnaryExpression
        | Kind::UpdateExpression => true,
        Kind::BinaryExpression
        | Kind::PrivateIn
        | Kind::LogicalExpression
        | Kind::AssignmentExpression
        | Kind::ConditionalExpression
        | Kind::CallExpression
        | Kind::NewExpression
        | Kind::SequenceExpression
        | Kind::YieldExpression
        | Kind::AwaitExpression
        | Kind::ImportExpression
        | Kind::MetaProperty
        | Kind::ChainExpression
        | Kind::Foreign => true,
        _ => false,
    }
}

fn fits_pattern(kind: Kind) -> bool
    ensures { result ≡ is_pattern kind }
{
    match kind {
        Kind::BindingIdentifier
        | Kind::ObjectPattern
        | Kind::ArrayPattern
        | Kind::AssignmentPattern
        | Kind::Foreign => true,
        _ => false,
    }
}

fn fits_target(kind: Kind) -> bool
    ensures { result ≡ is_target kind }
{
    match kind {
        Kind::IdentifierReference
        | Kind::MemberExpression
        | Kind::PrivateField
        | Kind::ObjectAssignmentTarget
        | Kind::ArrayAssignmentTarget => true,
        _ => false,
    }
}

/// Every kind, once.
pub fn all_kinds() -> &'static [Kind]
    ensures { result.now ≡ kinds }
{
    &[
        Kind::Program,
        Kind::ExpressionStatement,
        Kind::BlockStatement,
        Kind::EmptyStatement,
        Kind::DebuggerStatement,
        Kind::WithStatement,
        Kind::ReturnStatement,
        Kind::ThrowStatement,
        Kind::LabeledStatement,
        Kind::BreakStatement,
        Kind::ContinueStatement,
        Kind::IfStatement,
        Kind::SwitchStatement,
        Kind::SwitchCase,
        Kind::TryStatement,
        Kind::CatchClause,
        Kind::WhileStatement,
        Kind::DoWhileStatement,
        Kind::ForStatement,
        Kind::ForInStatement,
        Kind::ForOfStatement,
        Kind::FunctionDeclaration,
        Kind::FunctionExpression,
        Kind::ArrowFunctionExpression,
        Kind::VariableDeclaration,
        Kind::VariableDeclarator,
        Kind::ClassDeclaration,
        Kind::ClassExpression,
        Kind::ClassBody,
        Kind::MethodDefinition,
        Kind::PropertyDefinition,
        Kind::StaticBlock,
        Kind::PrivateIdentifier,
        Kind::IdentifierReference,
        Kind::BindingIdentifier,
        Kind::IdentifierName,
        Kind::Literal,
        Kind::ThisExpression,
        Kind::Super,
        Kind::ArrayExpression,
        Kind::ObjectExpression,
        Kind::Property,
        Kind::SpreadElement,
        Kind::TemplateLiteral,
        Kind::TemplateElement,
        Kind::TaggedTemplateExpression,
        Kind::MemberExpression,
        Kind::PrivateField,
        Kind::UnaryExpression,
        Kind::UpdateExpression,
        Kind::BinaryExpression,
        Kind::PrivateIn,
        Kind::LogicalExpression,
        Kind::AssignmentExpression,
        Kind::ConditionalExpression,
        Kind::CallExpression,
        Kind::NewExpression,
        Kind::SequenceExpression,
        Kind::YieldExpression,
        Kind::AwaitExpression,
        Kind::ImportExpression,
        Kind::MetaProperty,
        Kind::ChainExpression,
        Kind::ObjectPattern,
        Kind::BindingProperty,
        Kind::ArrayPattern,
        Kind::AssignmentPattern,
        Kind::RestElement,
        Kind::ObjectAssignmentTarget,
        Kind::AssignmentTargetProperty,
        Kind::ArrayAssignmentTarget,
        Kind::AssignmentTargetWithDefault,
        Kind::AssignmentTargetRest,
        Kind::ImportDeclaration,
        Kind::ImportSpecifier,
        Kind::ImportDefaultSpecifier,
        Kind::ImportNamespaceSpecifier,
        Kind::ExportNamedDeclaration,
        Kind::ExportSpecifier,
        Kind::ExportDefaultDeclaration,
        Kind::ExportAllDeclaration,
        Kind::Foreign,
    ]
}
