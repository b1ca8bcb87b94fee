//! Tests of trees and of the readers of objects: what rows of octets don't tell. They stand apart, since a check of tests proves its library again.
#![tactic(auto)]

#[cfg(test)]
mod tests;
