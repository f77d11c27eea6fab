//! What a body reads as, a file a command.
pub mod abandon;
pub mod add_clerk;
pub mod add_derived;
pub mod add_edition;
pub mod add_region;
pub mod carry;
pub mod commit;
pub mod confirm;
pub mod desk_derive;
pub mod enter;
pub mod passed_on;
pub mod withdraw;
