//! What clerks write: the deed of each command, as its definition in `machine_core` states it.
#![tactic(auto)]

mod clerk;

pub use clerk::{
    abandon_deed, batch_deed, carry_deed, commit_deed, confirm_deed, confirm_row, deed_of,
    enter_deed, withdraw_deed,
};
