//! Tests of typed programs: types, their sizes, places of members, compatible types; expressions and what they count.
#![tactic(auto)]

#[cfg(test)]
mod compatible;
#[cfg(test)]
mod reading;
#[cfg(test)]
mod sizes;
