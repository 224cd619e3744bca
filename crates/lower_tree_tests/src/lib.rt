// Tests of lowered trees with their scope tables. Expected values were written out by hand.
#![tactic(auto)]

#[cfg(test)]
mod scopes;
