// Tests of the tree and of its JSON: each public call once, on values that were worked out by hand from docs/TREE.md and
// docs/JSON.md.
#![tactic(auto)]

#[cfg(test)]
mod base;
#[cfg(test)]
mod build;
#[cfg(test)]
mod json;
#[cfg(test)]
mod layer;
#[cfg(test)]
mod programs;
#[cfg(test)]
mod readme;
#[cfg(test)]
mod scopes;
#[cfg(test)]
mod shapes;
#[cfg(test)]
mod sources;
