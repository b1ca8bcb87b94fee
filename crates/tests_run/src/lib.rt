//! Tests of framing, of the program's engine, and of whole runs over devices. They stand apart, since a check of tests proves its library again.
#![tactic(auto)]

#[cfg(test)]
mod tests;
