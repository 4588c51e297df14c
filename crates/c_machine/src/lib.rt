//! The meaning of C programs by a machine over a list of work (`specs/Machine.antt`), and what holds of all of its runs.
#![tactic(auto)]

pub mod laws;

pub use laws::{
    goes_on, has_layout, has_start, is_deterministic, lives_in_scopes, loads_stored, one_base_fits,
    stores_within,
};
