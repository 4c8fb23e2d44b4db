//! What the calls of the crates below give on small inputs.
//!
//! A crate with tests is proved twice, once with them. Here stand the tests of crates below, so
//! that each of those is proved once.
#![tactic(auto)]

#[cfg(test)]
mod bindings;
#[cfg(test)]
mod bytes;
#[cfg(test)]
mod check;
#[cfg(test)]
mod data;
#[cfg(test)]
mod features;
#[cfg(test)]
mod files;
#[cfg(test)]
mod generated;
#[cfg(test)]
mod layout;
#[cfg(test)]
mod lists;
#[cfg(test)]
mod live;
#[cfg(test)]
mod load;
#[cfg(test)]
mod module;
#[cfg(test)]
mod plan;
#[cfg(test)]
mod reach;
#[cfg(test)]
mod samples;
#[cfg(test)]
mod search_steps;
#[cfg(test)]
mod sections;
#[cfg(test)]
mod session;
#[cfg(test)]
mod steps;
#[cfg(test)]
mod why;
#[cfg(test)]
mod words;
