//! Tests of the arguments of the command line.
#![tactic(auto)]

#[cfg(test)]
mod words;
