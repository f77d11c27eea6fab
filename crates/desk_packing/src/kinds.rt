//! Which kind of row each table's rows are.

/// The row that says which version the others are of.
pub const VERSION: u32 = 0;

pub const CLERKS: u32 = 1;

pub const SCHEMAS: u32 = 2;

pub const MASTERS: u32 = 3;

pub const RULEBOOKS: u32 = 4;

pub const EDITIONS: u32 = 5;

pub const REGIONS: u32 = 6;

pub const SESSIONS: u32 = 7;

pub const RECORDS: u32 = 8;

pub const BATCHES: u32 = 9;
