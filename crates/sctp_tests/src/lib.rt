//! Tests of what no row can show: slow and failing readers and writers, failing allocations, and lists in blocks. They have a crate of their own,
//! since a crate with tests is proved twice.
#![tactic(auto)]

#[cfg(test)]
mod fakes;
#[cfg(test)]
mod lines;
#[cfg(test)]
mod packets;
#[cfg(test)]
mod sequences;
#[cfg(test)]
mod statuses;
#[cfg(test)]
mod streams;
#[cfg(test)]
mod threads;
#[cfg(test)]
mod writing;
