//! Where a run of a program is: the calls in progress and the statement of the innermost function (`specs/Places.antt`).
#![tactic(auto)]

pub mod laws;

pub use laws::{
    always_lives_in_scopes, enters_once, has_places, is_ranked, owns_places, sites_tell_functions,
};
