// Printed by tools/tree.py from tools/kinds.py.
// Reading parts, taking them apart, and making them.

ghost use Rattle.std.specs.Prelude.{◌≡◌, IsTrue, option_map, false, codes};
ghost use Rattle.es_base.specs.Tree.{child, list, string, boolean, literal, trees, nullable_trees, nullable, nullable_string};
ghost use Rattle.es_base.specs.Words.{source_type_string, variable_declaration_kind_string, method_definition_kind_string, property_kind_string, unary_operator_string, update_operator_string, binary_operator_string, logical_operator_string, assignment_operator_string};
ghost use Rattle.es_base.specs.declared.table.Words.{Words};
ghost use Rattle.es_node.specs.View.{is_child, is_nullable, is_list, is_list_with_holes, is_string, is_nullable_string, is_word, is_boolean, is_false, is_literal, part_of};

use crate::node::{Node, Part};
use es_base::list::List;
use es_base::literal::LiteralValue;
use es_base::name::Name;
use es_base::operator::{
    AssignmentOperator, BinaryOperator, LogicalOperator, MethodDefinitionKind, PropertyKind,
    SourceType, UnaryOperator, UpdateOperator, VariableDeclarationKind, Word,
};

impl Part {
    /// The node.
    pub fn as_child(&self) -> &Node
        requires { IsTrue (is_child self.now) }
        ensures { part_of self.now ≡ child result.now }
    {
        match self {
            Part::Child(node) => node,
            _ => unreachable!(),
        }
    }

    /// The node.
    pub fn into_child(self) -> Node
        requires { IsTrue (is_child self) }
        ensures { part_of self ≡ child result }
    {
        match self {
            Part::Child(node) => node,
            _ => unreachable!(),
        }
    }

    /// The node, if there is one.
    pub fn as_nullable(&self) -> Option<&Node>
        requires { IsTrue (is_nullable self.now) }
        ensures { part_of self.now ≡ nullable (option_map (λ x. x.now) result) }
    {
        match self {
            Part::Child(node) => Some(node),
            Part::Absent => None,
            _ => unreachable!(),
        }
    }

    /// The node, if there is one.
    pub fn into_nullable(self) -> Option<Node>
        requires { IsTrue (is_nullable self) }
        ensures { part_of self ≡ nullable result }
    {
        match self {
            Part::Child(node) => Some(node),
            Part::Absent => None,
            _ => unreachable!(),
        }
    }

    /// The nodes of a list.
    pub fn as_list(&self) -> &[Node]
        requires { IsTrue (is_list self.now) }
        ensures { part_of self.now ≡ list (trees result.now) }
    {
        match self {
            Part::List(nodes) => nodes.as_slice(),
            _ => unreachable!(),
        }
    }

    /// The nodes of a list.
    pub fn into_list(self) -> List<Node>
        requires { IsTrue (is_list self) }
        ensures { part_of self ≡ list (trees result) }
    {
        match self {
            Part::List(nodes) => nodes,
            _ => unreachable!(),
        }
    }

    /// The nodes of a list that may have holes.
    pub fn as_list_with_holes(&self) -> &[Option<Node>]
        requires { IsTrue (is_list_with_holes self.now) }
        ensures { part_of self.now ≡ list (nullable_trees result.now) }
    {
        match self {
            Part::Holes(nodes) => nodes.as_slice(),
            _ => unreachable!(),
        }
    }

    /// The nodes of a list that may have holes.
    pub fn into_list_with_holes(self) -> List<Option<Node>>
        requires { IsTrue (is_list_with_holes self) }
        ensures { part_of self ≡ list (nullable_trees result) }
    {
        match self {
            Part::Holes(nodes) => nodes,
            _ => unreachable!(),
        }
    }

    /// The string.
    pub fn as_string(&self) -> &Name
        requires { IsTrue (is_string self.now) }
        ensures { part_of self.now ≡ string result.now }
    {
        match self {
            Part::String(name) => name,
            _ => unreachable!(),
        }
    }

    /// The string.
    pub fn into_string(self) -> Name
        requires { IsTrue (is_string self) }
        ensures { part_of self ≡ string result }
    {
        match self {
            Part::String(name) => name,
            _ => unreachable!(),
        }
    }

    /// The string, if there is one.
    pub fn as_nullable_string(&self) -> Option<&Name>
        requires { IsTrue (is_nullable_string self.now) }
        ensures { part_of self.now ≡ nullable_string (option_map (λ x. x.now) result) }
    {
        match self {
            Part::String(name) => Some(name),
            Part::NoString => None,
            _ => unreachable!(),
        }
    }

    /// The string, if there is one.
    pub fn into_nullable_string(self) -> Option<Name>
        requires { IsTrue (is_nullable_string self) }
        ensures { part_of self ≡ nullable_string result }
    {
        match self {
            Part::String(name) => Some(name),
            Part::NoString => None,
            _ => unreachable!(),
        }
    }

    /// The boolean.
    pub fn as_boolean(&self) -> bool
        requires { IsTrue (is_boolean self.now) }
        ensures { part_of self.now ≡ boolean result }
    {
        match self {
            Part::Boolean(value) => *value,
            _ => unreachable!(),
        }
    }

    /// The boolean.
    pub fn into_boolean(self) -> bool
        requires { IsTrue (is_boolean self) }
        ensures { part_of self ≡ boolean result }
    {
        match self {
            Part::Boolean(value) => value,
            _ => unreachable!(),
        }
    }

    /// The value of a literal.
    pub fn as_literal(&self) -> &LiteralValue
        requires { IsTrue (is_literal self.now) }
        ensures { part_of self.now ≡ literal result.now }
    {
        match self {
            Part::Literal(value) => value,
            _ => unreachable!(),
        }
    }

    /// The value of a literal.
    pub fn into_literal(self) -> LiteralValue
        requires { IsTrue (is_literal self) }
        ensures { part_of self ≡ literal result }
    {
        match self {
            Part::Literal(value) => value,
            _ => unreachable!(),
        }
    }

    /// The word of this set.
    pub fn as_source_type(&self) -> SourceType
        requires { IsTrue (is_word Words.SourceType self.now) }
        ensures { part_of self.now ≡ string (source_type_string result) }
    {
        match self {
            Part::Word(Word::SourceType(word)) => *word,
            _ => unreachable!(),
        }
    }

    /// The word of this set.
    pub fn into_source_type(self) -> SourceType
        requires { IsTrue (is_word Words.SourceType self) }
        ensures { part_of self ≡ string (source_type_string result) }
    {
        match self {
            Part::Word(Word::SourceType(word)) => word,
            _ => unreachable!(),
        }
    }

    /// The word of this set.
    pub fn as_variable_declaration_kind(&self) -> VariableDeclarationKind
        requires { IsTrue (is_word Words.VariableDeclarationKind self.now) }
        ensures { part_of self.now ≡ string (variable_declaration_kind_string result) }
    {
        match self {
            Part::Word(Word::VariableDeclarationKind(word)) => *word,
            _ => unreachable!(),
        }
    }

    /// The word of this set.
    pub fn into_variable_declaration_kind(self) -> VariableDeclarationKind
        requires { IsTrue (is_word Words.VariableDeclarationKind self) }
        ensures { part_of self ≡ string (variable_declaration_kind_string result) }
    {
        match self {
            Part::Word(Word::VariableDeclarationKind(word)) => word,
            _ => unreachable!(),
        }
    }

    /// The word of this set.
    pub fn as_method_definition_kind(&self) -> MethodDefinitionKind
        requires { IsTrue (is_word Words.MethodDefinitionKind self.now) }
        ensures { part_of self.now ≡ string (method_definition_kind_string result) }
    {
        match self {
            Part::Word(Word::MethodDefinitionKind(word)) => *word,
            _ => unreachable!(),
        }
    }

    /// The word of this set.
    pub fn into_method_definition_kind(self) -> MethodDefinitionKind
        requires { IsTrue (is_word Words.MethodDefinitionKind self) }
        ensures { part_of self ≡ string (method_definition_kind_string result) }
    {
        match self {
            Part::Word(Word::MethodDefinitionKind(word)) => word,
            _ => unreachable!(),
        }
    }

    /// The word of this set.
    pub fn as_property_kind(&self) -> PropertyKind
        requires { IsTrue (is_word Words.PropertyKind self.now) }
        ensures { part_of self.now ≡ string (property_kind_string result) }
    {
        match self {
            Part::Word(Word::PropertyKind(word)) => *word,
            _ => unreachable!(),
        }
    }

    /// The word of this set.
    pub fn into_property_kind(self) -> PropertyKind
        requires { IsTrue (is_word Words.PropertyKind self) }
        ensures { part_of self ≡ string (property_kind_string result) }
    {
        match self {
            Part::Word(Word::PropertyKind(word)) => word,
            _ => unreachable!(),
        }
    }

    /// The word of this set.
    pub fn as_unary_operator(&self) -> UnaryOperator
        requires { IsTrue (is_word Words.UnaryOperator self.now) }
        ensures { part_of self.now ≡ string (unary_operator_string result) }
    {
        match self {
            Part::Word(Word::UnaryOperator(word)) => *word,
            _ => unreachable!(),
        }
    }

    /// The word of this set.
    pub fn into_unary_operator(self) -> UnaryOperator
        requires { IsTrue (is_word Words.UnaryOperator self) }
        ensures { part_of self ≡ string (unary_operator_string result) }
    {
        match self {
            Part::Word(Word::UnaryOperator(word)) => word,
            _ => unreachable!(),
        }
    }

    /// The word of this set.
    pub fn as_update_operator(&self) -> UpdateOperator
        requires { IsTrue (is_word Words.UpdateOperator self.now) }
        ensures { part_of self.now ≡ string (update_operator_string result) }
    {
        match self {
            Part::Word(Word::UpdateOperator(word)) => *word,
            _ => unreachable!(),
        }
    }

    /// The word of this set.
    pub fn into_update_operator(self) -> UpdateOperator
        requires { IsTrue (is_word Words.UpdateOperator self) }
        ensures { part_of self ≡ string (update_operator_string result) }
    {
        match self {
            Part::Word(Word::UpdateOperator(word)) => word,
            _ => unreachable!(),
        }
    }

    /// The word of this set.
    pub fn as_binary_operator(&self) -> BinaryOperator
        requires { IsTrue (is_word Words.BinaryOperator self.now) }
        ensures { part_of self.now ≡ string (binary_operator_string result) }
    {
        match self {
            Part::Word(Word::BinaryOperator(word)) => *word,
            _ => unreachable!(),
        }
    }

    /// The word of this set.
    pub fn into_binary_operator(self) -> BinaryOperator
        requires { IsTrue (is_word Words.BinaryOperator self) }
        ensures { part_of self ≡ string (binary_operator_string result) }
    {
        match self {
            Part::Word(Word::BinaryOperator(word)) => word,
            _ => unreachable!(),
        }
    }

    /// The word of this set.
    pub fn as_logical_operator(&self) -> LogicalOperator
        requires { IsTrue (is_word Words.LogicalOperator self.now) }
        ensures { part_of self.now ≡ string (logical_operator_string result) }
    {
        match self {
            Part::Word(Word::LogicalOperator(word)) => *word,
            _ => unreachable!(),
        }
    }

    /// The word of this set.
    pub fn into_logical_operator(self) -> LogicalOperator
        requires { IsTrue (is_word Words.LogicalOperator self) }
        ensures { part_of self ≡ string (logical_operator_string result) }
    {
        match self {
            Part::Word(Word::LogicalOperator(word)) => word,
            _ => unreachable!(),
        }
    }

    /// The word of this set.
    pub fn as_assignment_operator(&self) -> AssignmentOperator
        requires { IsTrue (is_word Words.AssignmentOperator self.now) }
        ensures { part_of self.now ≡ string (assignment_operator_string result) }
    {
        match self {
            Part::Word(Word::AssignmentOperator(word)) => *word,
            _ => unreachable!(),
        }
    }

    /// The word of this set.
    pub fn into_assignment_operator(self) -> AssignmentOperator
        requires { IsTrue (is_word Words.AssignmentOperator self) }
        ensures { part_of self ≡ string (assignment_operator_string result) }
    {
        match self {
            Part::Word(Word::AssignmentOperator(word)) => word,
            _ => unreachable!(),
        }
    }

    /// Nothing: it is the word `in`.
    pub fn as_in(&self)
        requires { IsTrue (is_word Words.In self.now) }
        ensures { part_of self.now ≡ string (codes "in") }
    {
        match self {
            Part::Word(Word::In) => (),
            _ => unreachable!(),
        }
    }

    /// Nothing: it is the word `in`.
    pub fn into_in(self)
        requires { IsTrue (is_word Words.In self) }
        ensures { part_of self ≡ string (codes "in") }
    {
        match self {
            Part::Word(Word::In) => (),
            _ => unreachable!(),
        }
    }

    /// Nothing: it is the word `init`.
    pub fn as_init(&self)
        requires { IsTrue (is_word Words.Init self.now) }
        ensures { part_of self.now ≡ string (codes "init") }
    {
        match self {
            Part::Word(Word::Init) => (),
            _ => unreachable!(),
        }
    }

    /// Nothing: it is the word `init`.
    pub fn into_init(self)
        requires { IsTrue (is_word Words.Init self) }
        ensures { part_of self ≡ string (codes "init") }
    {
        match self {
            Part::Word(Word::Init) => (),
            _ => unreachable!(),
        }
    }

    /// Nothing: it is `false`.
    pub fn as_false(&self)
        requires { IsTrue (is_false self.now) }
        ensures { part_of self.now ≡ boolean false }
    {
        match self {
            Part::Boolean(false) => (),
            _ => unreachable!(),
        }
    }

    /// Nothing: it is `false`.
    pub fn into_false(self)
        requires { IsTrue (is_false self) }
        ensures { part_of self ≡ boolean false }
    {
        match self {
            Part::Boolean(false) => (),
            _ => unreachable!(),
        }
    }
}

/// The part of a node that may be absent.
pub fn nullable_part(node: Option<Node>) -> Part
    ensures shape { IsTrue (is_nullable result) }
    ensures value { part_of result ≡ nullable node }
{
    match node {
        Some(node) => Part::Child(node),
        None => Part::Absent,
    }
}

/// The part of a string that may be absent.
pub fn nullable_string_part(name: Option<Name>) -> Part
    ensures shape { IsTrue (is_nullable_string result) }
    ensures value { part_of result ≡ nullable_string name }
{
    match name {
        Some(name) => Part::String(name),
        None => Part::NoString,
    }
}
