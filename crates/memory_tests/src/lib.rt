//! Tests of memories: random births, deaths, writes, reads, joins and releases beside plain bytes that stand in two layouts, and what rows and the test for one
//! content say of them.
#![tactic(auto)]

#[cfg(test)]
mod bytes;
#[cfg(test)]
mod checks;
#[cfg(test)]
mod places;
#[cfg(test)]
mod runs;
#[cfg(test)]
mod steps;
