//! Tests of the separate check over a shelf and a sink in memory, alone and after whole runs.
#![tactic(auto)]

#[cfg(test)]
mod after_runs;
#[cfg(test)]
mod cuts;
#[cfg(test)]
mod devices;
#[cfg(test)]
mod lines;
#[cfg(test)]
mod made;
#[cfg(test)]
mod potentials;
#[cfg(test)]
mod realistic;
#[cfg(test)]
mod written;
