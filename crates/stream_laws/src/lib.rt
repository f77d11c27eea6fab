//! What holds of the requests of a stream: the laws of the session machine, said of the bytes that clerks send.
//!
//! `specs/Requests.antt` says what the answered requests of a stream (`http_desk`) are to the session machine:
//! requests one after another, of which `machine_laws` has its laws.
#![tactic(auto)]

pub mod laws;
