// Printed by tools/tree.py from tools/kinds.py.
// The strings of words, and the words of strings.

ghost use Rattle.std.specs.Prelude.{◌≡◌, map};
ghost use Rattle.es_base.specs.Words.{word_string, all_of_set, is_of_set, source_type_string, variable_declaration_kind_string, method_definition_kind_string, property_kind_string, unary_operator_string, update_operator_string, binary_operator_string, logical_operator_string, assignment_operator_string};

use crate::operator::{
    AssignmentOperator, BinaryOperator, LogicalOperator, MethodDefinitionKind, PropertyKind,
    SourceType, UnaryOperator, UpdateOperator, VariableDeclarationKind, Word,
};
use crate::table::Words;

fn source_type_str(word: SourceType) -> &'static str
    ensures { result.now ≡ source_type_string word }
{
    match word {
        SourceType::Script => "script",
        SourceType::Module => "module",
    }
}

fn variable_declaration_kind_str(word: VariableDeclarationKind) -> &'static str
    ensures { result.now ≡ variable_declaration_kind_string word }
{
    match word {
        VariableDeclarationKind::Var => "var",
        VariableDeclarationKind::Let => "let",
        VariableDeclarationKind::Const => "const",
    }
}

fn method_definition_kind_str(word: MethodDefinitionKind) -> &'static str
    ensures { result.now ≡ method_definition_kind_string word }
{
    match word {
        MethodDefinitionKind::Constructor => "constructor",
        MethodDefinitionKind::Method => "method",
        MethodDefinitionKind::Get => "get",
        MethodDefinitionKind::Set => "set",
    }
}

fn property_kind_str(word: PropertyKind) -> &'static str
    ensures { result.now ≡ property_kind_string word }
{
    match word {
        PropertyKind::Init => "init",
        PropertyKind::Get => "get",
        PropertyKind::Set => "set",
    }
}

fn unary_operator_str(word: UnaryOperator) -> &'static str
    ensures { result.now ≡ unary_operator_string word }
{
    match word {
        UnaryOperator::Minus => "-",
        UnaryOperator::Plus => "+",
        UnaryOperator::Not => "!",
        UnaryOperator::BitNot => "~",
        UnaryOperator::Typeof => "typeof",
        UnaryOperator::Void => "void",
        UnaryOperator::Delete => "delete",
    }
}

fn update_operator_str(word: UpdateOperator) -> &'static str
    ensures { result.now ≡ update_operator_string word }
{
    match word {
        UpdateOperator::Increment => "++",
        UpdateOperator::Decrement => "--",
    }
}

fn binary_operator_str(word: BinaryOperator) -> &'static str
    ensures { result.now ≡ binary_operator_string word }
{
    match word {
        BinaryOperator::Equality => "==",
        BinaryOperator::Inequality => "!=",
        BinaryOperator::StrictEquality => "===",
        BinaryOperator::StrictInequality => "!==",
        BinaryOperator::LessThan => "<",
        BinaryOperator::LessEqualThan => "<=",
        BinaryOperator::GreaterThan => ">",
        BinaryOperator::GreaterEqualThan => ">=",
        BinaryOperator::ShiftLeft => "<<",
        BinaryOperator::ShiftRight => ">>",
        BinaryOperator::ShiftRightZeroFill => ">>>",
        BinaryOperator::Addition => "+",
        BinaryOperator::Subtraction => "-",
        BinaryOperator::Multiplication => "*",
        BinaryOperator::Division => "/",
        BinaryOperator::Remainder => "%",
        BinaryOperator::Exponential => "**",
        BinaryOperator::BitwiseOr => "|",
        BinaryOperator::BitwiseXor => "^",
        BinaryOperator::BitwiseAnd => "&",
        BinaryOperator::In => "in",
        BinaryOperator::Instanceof => "instanceof",
    }
}

fn logical_operator_str(word: LogicalOperator) -> &'static str
    ensures { result.now ≡ logical_operator_string word }
{
    match word {
        LogicalOperator::Or => "||",
        LogicalOperator::And => "&&",
        LogicalOperator::Coalesce => "??",
    }
}

fn assignment_operator_str(word: AssignmentOperator) -> &'static str
    ensures { result.now ≡ assignment_operator_string word }
{
    match word {
        AssignmentOperator::Assign => "=",
        AssignmentOperator::Addition => "+=",
        AssignmentOperator::Subtraction => "-=",
        AssignmentOperator::Multiplication => "*=",
        AssignmentOperator::Division => "/=",
        AssignmentOperator::Remainder => "%=",
        AssignmentOperator::Exponential => "**=",
        AssignmentOperator::ShiftLeft => "<<=",
        AssignmentOperator::ShiftRight => ">>=",
        AssignmentOperator::ShiftRightZeroFill => ">>>=",
        AssignmentOperator::BitwiseOr => "|=",
        AssignmentOperator::BitwiseXor => "^=",
        AssignmentOperator::BitwiseAnd => "&=",
        AssignmentOperator::LogicalOr => "||=",
        AssignmentOperator::LogicalAnd => "&&=",
        AssignmentOperator::LogicalNullish => "??=",
    }
}

/// The string that a word is written as.
pub fn word_str(word: Word) -> &'static str
    ensures { result.now ≡ word_string word }
{
    match word {
        Word::SourceType(word) => source_type_str(word),
        Word::VariableDeclarationKind(word) => variable_declaration_kind_str(word),
        Word::MethodDefinitionKind(word) => method_definition_kind_str(word),
        Word::PropertyKind(word) => property_kind_str(word),
        Word::UnaryOperator(word) => unary_operator_str(word),
        Word::UpdateOperator(word) => update_operator_str(word),
        Word::BinaryOperator(word) => binary_operator_str(word),
        Word::LogicalOperator(word) => logical_operator_str(word),
        Word::AssignmentOperator(word) => assignment_operator_str(word),
        Word::In => "in",
        Word::Init => "init",
    }
}

/// The words of a set.
pub fn all_of_set(set: Words) -> &'static [Word]
    ensures { result.now ≡ all_of_set set }
{
    match set {
        Words::SourceType => &[
            Word::SourceType(SourceType::Script),
            Word::SourceType(SourceType::Module),
        ],
        Words::VariableDeclarationKind => &[
            Word::VariableDeclarationKind(VariableDeclarationKind::Var),
            Word::VariableDeclarationKind(VariableDeclarationKind::Let),
            Word::VariableDeclarationKind(VariableDeclarationKind::Const),
        ],
        Words::MethodDefinitionKind => &[
            Word::MethodDefinitionKind(MethodDefinitionKind::Constructor),
            Word::MethodDefinitionKind(MethodDefinitionKind::Method),
            Word::MethodDefinitionKind(MethodDefinitionKind::Get),
            Word::MethodDefinitionKind(MethodDefinitionKind::Set),
        ],
        Words::PropertyKind => &[
            Word::PropertyKind(PropertyKind::Init),
            Word::PropertyKind(PropertyKind::Get),
            Word::PropertyKind(PropertyKind::Set),
        ],
        Words::UnaryOperator => &[
            Word::UnaryOperator(UnaryOperator::Minus),
            Word::UnaryOperator(UnaryOperator::Plus),
            Word::UnaryOperator(UnaryOperator::Not),
            Word::UnaryOperator(UnaryOperator::BitNot),
            Word::UnaryOperator(UnaryOperator::Typeof),
            Word::UnaryOperator(UnaryOperator::Void),
            Word::UnaryOperator(UnaryOperator::Delete),
        ],
        Words::UpdateOperator => &[
            Word::UpdateOperator(UpdateOperator::Increment),
            Word::UpdateOperator(UpdateOperator::Decrement),
        ],
        Words::BinaryOperator => &[
            Word::BinaryOperator(BinaryOperator::Equality),
            Word::BinaryOperator(BinaryOperator::Inequality),
            Word::BinaryOperator(BinaryOperator::StrictEquality),
            Word::BinaryOperator(BinaryOperator::StrictInequality),
            Word::BinaryOperator(BinaryOperator::LessThan),
            Word::BinaryOperator(BinaryOperator::LessEqualThan),
            Word::BinaryOperator(BinaryOperator::GreaterThan),
            Word::BinaryOperator(BinaryOperator::GreaterEqualThan),
            Word::BinaryOperator(BinaryOperator::ShiftLeft),
            Word::BinaryOperator(BinaryOperator::ShiftRight),
            Word::BinaryOperator(BinaryOperator::ShiftRightZeroFill),
            Word::BinaryOperator(BinaryOperator::Addition),
            Word::BinaryOperator(BinaryOperator::Subtraction),
            Word::BinaryOperator(BinaryOperator::Multiplication),
            Word::BinaryOperator(BinaryOperator::Division),
            Word::BinaryOperator(BinaryOperator::Remainder),
            Word::BinaryOperator(BinaryOperator::Exponential),
            Word::BinaryOperator(BinaryOperator::BitwiseOr),
            Word::BinaryOperator(BinaryOperator::BitwiseXor),
            Word::BinaryOperator(BinaryOperator::BitwiseAnd),
            Word::BinaryOperator(BinaryOperator::In),
            Word::BinaryOperator(BinaryOperator::Instanceof),
        ],
        Words::LogicalOperator => &[
            Word::LogicalOperator(LogicalOperator::Or),
            Word::LogicalOperator(LogicalOperator::And),
            Word::LogicalOperator(LogicalOperator::Coalesce),
        ],
        Words::AssignmentOperator => &[
            Word::AssignmentOperator(AssignmentOperator::Assign),
            Word::AssignmentOperator(AssignmentOperator::Addition),
            Word::AssignmentOperator(AssignmentOperator::Subtraction),
            Word::AssignmentOperator(AssignmentOperator::Multiplication),
            Word::AssignmentOperator(AssignmentOperator::Division),
            Word::AssignmentOperator(AssignmentOperator::Remainder),
            Word::AssignmentOperator(AssignmentOperator::Exponential),
            Word::AssignmentOperator(AssignmentOperator::ShiftLeft),
            Word::AssignmentOperator(AssignmentOperator::ShiftRight),
            Word::AssignmentOperator(AssignmentOperator::ShiftRightZeroFill),
            Word::AssignmentOperator(AssignmentOperator::BitwiseOr),
            Word::AssignmentOperator(AssignmentOperator::BitwiseXor),
            Word::AssignmentOperator(AssignmentOperator::BitwiseAnd),
            Word::AssignmentOperator(AssignmentOperator::LogicalOr),
            Word::AssignmentOperator(AssignmentOperator::LogicalAnd),
            Word::AssignmentOperator(AssignmentOperator::LogicalNullish),
        ],
        Words::In => &[Word::In],
        Words::Init => &[Word::Init],
    }
}
