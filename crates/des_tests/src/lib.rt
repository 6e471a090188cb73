//! Tests of the libraries, and nothing else. `known_answers.txt` beside this folder has values for
//! runs of programs and for tests in C.
#![tactic(auto)]

#[cfg(test)]
mod libraries;
