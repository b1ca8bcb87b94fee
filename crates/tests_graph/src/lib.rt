//! Tests of graphs of certificates and of the search over them. They stand apart, since a check of tests proves its library again.
#![tactic(auto)]

#[cfg(test)]
mod tests;
