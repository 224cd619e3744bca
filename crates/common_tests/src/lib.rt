// Tests of what all lowerings share: the keys of private names, the classes around a place, generated names, and
// expressions that are read more than once.
#![tactic(auto)]

#[cfg(test)]
mod classes;
#[cfg(test)]
mod duplicates;
#[cfg(test)]
mod keys;
#[cfg(test)]
mod tables;
#[cfg(test)]
mod uids;
