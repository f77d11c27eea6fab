//! What the steward writes, one command a file: the tests in their order, and the row that is made.
mod add_clerk;
mod add_derived;
mod add_edition;
mod add_master;
mod add_region;
mod add_rulebook;
mod add_schema;

pub use add_clerk::clerk_row;
pub use add_derived::derived_region;
pub use add_edition::edition_row;
pub(crate) use add_edition::{edition_entries, master_name};
pub use add_master::master_row;
pub use add_region::{region_count, region_on};
pub use add_rulebook::rulebook_row;
pub use add_schema::schema_row;
