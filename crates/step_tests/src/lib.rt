//! Tests of the meaning of programs: typed programs, as words, are stepped through from their start to their end.
#![tactic(auto)]

#[cfg(test)]
mod calls;
#[cfg(test)]
mod memory;
#[cfg(test)]
mod operators;
#[cfg(test)]
mod runs;
#[cfg(test)]
mod statements;
#[cfg(test)]
mod undefined;
