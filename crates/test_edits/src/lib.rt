//! Tests of sessions, and of whole runs of edits over a shelf and a sink in memory. The separate check goes over what they
//! wrote.
#![tactic(auto)]

#[cfg(test)]
mod devices;
#[cfg(test)]
mod example;
#[cfg(test)]
mod near;
#[cfg(test)]
mod printed;
#[cfg(test)]
mod refused;
#[cfg(test)]
mod reviewed;
#[cfg(test)]
mod sessions;
#[cfg(test)]
mod written;
#[cfg(test)]
mod years;
