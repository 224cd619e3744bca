// What every crate of trees speaks of: strings, lists, numbers, the kinds of nodes and their table, and
// in specs/ the tree.
#![tactic(auto)]

pub mod declaration_kind;
pub mod diagnostic;
pub mod ids;
pub mod kind;
pub mod ledger;
pub mod list;
pub mod literal;
pub mod name;
pub mod operator;
pub mod places;
pub mod shape;
pub mod strings;
pub mod table;
pub mod word;
