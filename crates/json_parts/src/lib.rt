//! Parts of JSON values, where they have the form that is wanted, and JSON texts, written token by token.
//!
//! A clause sees a JSON value as what `serde_json` says of it, and a text that is written as its tokens.
//! `specs/Parts.antt` says which value bytes write and what stands in a value; `specs/Shapes.antt` of which shapes the
//! values are that are printed, and `specs/Writing.antt` which tokens they have.
#![tactic(auto)]

mod fault;
mod parts;
mod writing;

pub use fault::PartFault;
pub use parts::{Part, has_keys, items, json_of, number, read_field, short_str};
pub use writing::JsonText;
