//! Trees of C's expressions and of what their type names reach (C11 6.5.1 to 6.5.17, 6.6 and 6.7.2 to 6.7.7): which words a tree
//! spells, and how deep it is. `specs/` says which trees are well formed.
#![tactic(auto)]

pub mod depth;
pub mod operator;
pub mod plain_words;
pub mod tree;
pub mod type_words;
pub mod words;
