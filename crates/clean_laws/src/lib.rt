//! What ties sheets that are cleaned to a desk, over the definitions alone.
#![tactic(auto)]

pub mod sessions;
