//! Tests of both programs as functions of their arguments: words, both outputs, exit codes and help texts.
#![tactic(auto)]

#[cfg(test)]
mod balancing;
#[cfg(test)]
mod checking;
