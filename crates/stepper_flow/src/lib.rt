//! The steps of statements: they begin, loops turn, jumps lead on, and objects of blocks are born and die (C11 6.8).
#![tactic(auto)]

pub mod blocks;
pub mod initialisers;
pub mod jumps;
pub mod loops;
pub mod statements;
pub mod switches;
pub mod truths;
