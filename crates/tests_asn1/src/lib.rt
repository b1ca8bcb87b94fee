//! Tests of the crates of values: what rows of octets don't tell. They stand apart, since a check of tests proves its library again.
#![tactic(auto)]

#[cfg(test)]
mod tests;
