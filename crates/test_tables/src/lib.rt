//! Tests of tables: breaks, costs, GDP, totals, live lists, changes of a problem, names; certificates, verdicts, tables
//! read back, written texts and small balances.
#![tactic(auto)]

#[cfg(test)]
mod balances;
#[cfg(test)]
mod calls;
#[cfg(test)]
mod certificates;
#[cfg(test)]
mod names;
#[cfg(test)]
mod readback;
#[cfg(test)]
mod realistic;
#[cfg(test)]
mod small_year;
#[cfg(test)]
mod texts;
#[cfg(test)]
mod verdicts;
#[cfg(test)]
mod worked;
#[cfg(test)]
mod years;
