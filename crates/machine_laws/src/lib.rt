//! What holds of the session machine, over its definitions alone.
#![tactic(auto)]

pub mod batches;
pub mod carrying;
pub mod causes;
pub mod checking;
pub mod contradicting;
pub mod derivations;
pub mod explaining;
pub mod isolation;
pub mod publishing;
pub mod questions;
pub mod repeats;
pub mod reports;
pub mod steps;
pub mod validity;
