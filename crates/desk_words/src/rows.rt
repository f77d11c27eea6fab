//! The rows of the nine tables. A row names another by its place in that row's table, counted from 0; but a record
//! names its session, a session its batch, and a batch its first session by a number, counted from 1.
pub mod act;
pub mod batch;
pub mod clerk;
pub mod edition;
pub mod record;
pub mod region;
pub mod rulebook;
pub mod session;
pub mod text;
