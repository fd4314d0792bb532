//! Tests of the words of commands: what no run of the program shows of them, and those that `clap` takes.
//!
//! They stand beside the crate that they call, since a crate with tests is proved twice, and alone, since `clap` is large.
#![tactic(auto)]

#[cfg(test)]
mod words_tests;
