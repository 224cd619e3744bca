// The typed layer of statements. Import it through `es_tree`, of which this is one part: the layer stands
// in several crates so that each is checked in a few minutes.
#![tactic(auto)]

pub mod statement;
