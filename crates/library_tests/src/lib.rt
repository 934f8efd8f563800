//! Tests of the calls of the library for C that take memory and that no command makes. The crate has nothing else.
#![tactic(auto)]

#[cfg(test)]
mod calls;
#[cfg(test)]
mod deep;
#[cfg(test)]
mod placed;
