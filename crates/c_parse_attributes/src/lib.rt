//! Reads attributes, and the words in the brackets of an array and behind the star of a pointer (C11 6.7.6), at the front of tokens.
#![tactic(auto)]

mod attributes;

pub use attributes::{array_words_at, attribute_behind, attributes_at, first_span, pointers_at};
