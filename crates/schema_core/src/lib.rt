//! Schemas: the name and the attributes of the records that a desk keeps, and how they are read.
//!
//! A clause sees a `Schema` as its name and the list of its attributes, each as bytes.
//! `specs/Schemas.antt` says what a schema is, `specs/Reading.antt` what a text reads as, and `specs/Causes.antt` what
//! each refusal means.
#![tactic(auto)]

mod fault;
pub mod laws;
mod reading;
mod schema;

pub use fault::SchemaFault;
pub use reading::is_known_key;
pub use schema::Schema;
