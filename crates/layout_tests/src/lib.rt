//! The tests of mappings, of views and of what stands on them that no clause says and no script reaches. The crate has nothing else.
#![tactic(auto)]

#[cfg(test)]
mod bit_fields;
#[cfg(test)]
mod copies;
#[cfg(test)]
mod deep_expressions;
#[cfg(test)]
mod deep_records;
#[cfg(test)]
mod edges;
#[cfg(test)]
mod kernels;
#[cfg(test)]
mod mappings;
#[cfg(test)]
mod tables;
