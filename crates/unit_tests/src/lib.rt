//! Tests of the parser of declarations, statements and units, in a crate of their own so that these are proved once.
#![tactic(auto)]

#[cfg(test)]
mod cases;
#[cfg(test)]
mod declarations;
#[cfg(test)]
mod large;
#[cfg(test)]
mod shown;
