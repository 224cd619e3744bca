// The typed layer over `Node`: for each kind of node a struct of that name with its members as fields, as
// `expression::CallExpression`, the same borrowed, as `expression::CallExpressionRef`, and a maker, as
// `expression::make_call_expression`. Contracts see each as a tree by its members, as `call_expression` of
// specs/Expression.antt. Most kinds stand in crates below, so that each is checked in a few minutes; all
// are found here.
#![tactic(auto)]

pub use es_declaration::{class, function, module, pattern};
pub use es_expression::{expression, identifier, literal};
pub use es_statement::statement;

pub mod foreign;
pub mod program;
