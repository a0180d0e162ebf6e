//! Tests of the readers of a year's files, of edits, of asks, of dismissals, of a series, and of what is printed.
#![tactic(auto)]

#[cfg(test)]
mod asks;
#[cfg(test)]
mod classes;
#[cfg(test)]
mod dismissals;
#[cfg(test)]
mod edit_faults;
#[cfg(test)]
mod edit_files;
#[cfg(test)]
mod edit_lines;
#[cfg(test)]
mod made;
#[cfg(test)]
mod prints;
#[cfg(test)]
mod records;
#[cfg(test)]
mod series;
#[cfg(test)]
mod settings;
#[cfg(test)]
mod sources;
#[cfg(test)]
mod texts;
