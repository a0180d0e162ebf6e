//! Tests of costs, graphs, checks, and of the solver on small networks, whose least costs were found by a search over all
//! circulations.
#![tactic(auto)]

#[cfg(test)]
mod checks;
#[cfg(test)]
mod costs;
#[cfg(test)]
mod graphs;
#[cfg(test)]
mod solves;
#[cfg(test)]
mod spans;
