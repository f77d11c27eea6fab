//! The language in which stewards write editing rules: how a rulebook is read, printed and bound to
//! masters.
//!
//! A clause sees a `Rulebook` as its lines, each with names, attributes by their number in the schema,
//! and texts as bytes. `specs/Tokens.antt` says how tokens are spelled, `specs/Grammar.antt` in which
//! order they come, `specs/Reading.antt` what a text reads as, `specs/Printing.antt` how a rulebook is
//! printed, and `specs/Binding.antt` what it binds to.
#![tactic(auto)]

mod binding;
mod draft;
mod fault;
mod grammar;
pub mod laws;
mod names;
mod patterns;
mod place;
mod printing;
mod reading;
mod rulebook;
mod token;
mod tokenizer;

pub use binding::{BindFault, bind, master_named};
pub use fault::RuleFault;
pub use grammar::{Expected, next};
pub use names::{names_in, rule_names};
pub use place::Place;
pub use printing::print;
pub use reading::read;
pub use rulebook::{RuleLine, Rulebook};
pub use token::{Mark, Piece, Token, piece_at};
