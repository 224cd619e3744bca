// The kinds by the length of their names.

ghost use Rattle.std.specs.Prelude.{◌≡◌, ◌⊎◌, filter};
ghost use Rattle.es_base.specs.Table.{kinds};
ghost use Rattle.es_reading.specs.Kinds.{could_be};

use es_base::kind::Kind;
use es_base::table::all_kinds;

/// The kinds whose names in ESTree have this length, in bytes, and the foreign kind; all kinds for a
/// length that no name has.
pub fn kinds_of_length(length: usize) -> &'static [Kind]
    ensures { (result.now ≡ filter (could_be length) kinds) ⊎ (result.now ≡ kinds) }
{
    match length {
        5 => &[Kind::Super, Kind::Foreign],
        7 => &[Kind::Program, Kind::Literal, Kind::Foreign],
        8 => &[
            Kind::Property,
            Kind::BindingProperty,
            Kind::AssignmentTargetProperty,
            Kind::Foreign,
        ],
        9 => &[Kind::ClassBody, Kind::Foreign],
        10 => &[
            Kind::SwitchCase,
            Kind::IdentifierReference,
            Kind::BindingIdentifier,
            Kind::IdentifierName,
            Kind::Foreign,
        ],
        11 => &[
            Kind::IfStatement,
            Kind::CatchClause,
            Kind::StaticBlock,
            Kind::RestElement,
            Kind::AssignmentTargetRest,
            Kind::Foreign,
        ],
        12 => &[
            Kind::TryStatement,
            Kind::ForStatement,
            Kind::MetaProperty,
            Kind::ArrayPattern,
            Kind::ArrayAssignmentTarget,
            Kind::Foreign,
        ],
        13 => &[
            Kind::WithStatement,
            Kind::SpreadElement,
            Kind::NewExpression,
            Kind::ObjectPattern,
            Kind::ObjectAssignmentTarget,
            Kind::Foreign,
        ],
        14 => &[
            Kind::BlockStatement,
            Kind::EmptyStatement,
            Kind::ThrowStatement,
            Kind::BreakStatement,
            Kind::WhileStatement,
            Kind::ForInStatement,
            Kind::ForOfStatement,
            Kind::ThisExpression,
            Kind::CallExpression,
            Kind::Foreign,
        ],
        15 => &[
            Kind::ReturnStatement,
            Kind::SwitchStatement,
            Kind::ClassExpression,
            Kind::ArrayExpression,
            Kind::TemplateLiteral,
            Kind::TemplateElement,
            Kind::UnaryExpression,
            Kind::YieldExpression,
            Kind::AwaitExpression,
            Kind::ChainExpression,
            Kind::ImportSpecifier,
            Kind::ExportSpecifier,
            Kind::Foreign,
        ],
        16 => &[
            Kind::LabeledStatement,
            Kind::DoWhileStatement,
            Kind::ClassDeclaration,
            Kind::MethodDefinition,
            Kind::ObjectExpression,
            Kind::MemberExpression,
            Kind::PrivateField,
            Kind::UpdateExpression,
            Kind::BinaryExpression,
            Kind::PrivateIn,
            Kind::ImportExpression,
            Kind::Foreign,
        ],
        17 => &[
            Kind::DebuggerStatement,
            Kind::ContinueStatement,
            Kind::PrivateIdentifier,
            Kind::LogicalExpression,
            Kind::AssignmentPattern,
            Kind::AssignmentTargetWithDefault,
            Kind::ImportDeclaration,
            Kind::Foreign,
        ],
        18 => &[
            Kind::FunctionExpression,
            Kind::VariableDeclarator,
            Kind::PropertyDefinition,
            Kind::SequenceExpression,
            Kind::Foreign,
        ],
        19 => &[
            Kind::ExpressionStatement,
            Kind::FunctionDeclaration,
            Kind::VariableDeclaration,
            Kind::Foreign,
        ],
        20 => &[
            Kind::AssignmentExpression,
            Kind::ExportAllDeclaration,
            Kind::Foreign,
        ],
        21 => &[Kind::ConditionalExpression, Kind::Foreign],
        22 => &[
            Kind::ImportDefaultSpecifier,
            Kind::ExportNamedDeclaration,
            Kind::Foreign,
        ],
        23 => &[Kind::ArrowFunctionExpression, Kind::Foreign],
        24 => &[
            Kind::TaggedTemplateExpression,
            Kind::ImportNamespaceSpecifier,
            Kind::ExportDefaultDeclaration,
            Kind::Foreign,
        ],
        _ => all_kinds(),
    }
}
