//! Tests of whole runs over a shelf and a sink in memory, and of reviewers, in runs and alone.
#![tactic(auto)]

#[cfg(test)]
mod balanced;
#[cfg(test)]
mod cuts;
#[cfg(test)]
mod devices;
#[cfg(test)]
mod dismissals;
#[cfg(test)]
mod files;
#[cfg(test)]
mod limits;
#[cfg(test)]
mod lines;
#[cfg(test)]
mod made;
#[cfg(test)]
mod migrated;
#[cfg(test)]
mod odd_value;
#[cfg(test)]
mod refused;
#[cfg(test)]
mod reviews;
#[cfg(test)]
mod years;
