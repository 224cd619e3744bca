// The typed layer of what declares: classes, functions, patterns, imports and exports. Import it through
// `es_tree`, of which this is one part: the layer stands in several crates so that each is checked in a
// few minutes.
#![tactic(auto)]

pub mod class;
pub mod function;
pub mod module;
pub mod pattern;
