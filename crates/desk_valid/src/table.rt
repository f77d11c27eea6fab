//! The tables by name.
ghost use Rattle.std.specs.Prelude.{◌≡◌};
ghost use Rattle.desk_valid.specs.Damage.{number_of};

/// A table of the desk. Tables are numbered from 1 in this order.
#[derive(Clone, Copy, Debug, PartialEq, Eq)]
pub(crate) enum Table {
    Clerks,
    Schemas,
    Masters,
    Rulebooks,
    Editions,
    Regions,
    Sessions,
    Records,
    Batches,
}

/// The tables in their order.
pub(crate) const TABLES: [Table; 9] = [
    Table::Clerks,
    Table::Schemas,
    Table::Masters,
    Table::Rulebooks,
    Table::Editions,
    Table::Regions,
    Table::Sessions,
    Table::Records,
    Table::Batches,
];

impl Table {
    /// The number of the table, 1 to 9.
    pub(crate) fn number(self) -> u8
        ensures { result ≡ number_of self }
    {
        match self {
            Table::Clerks => 1,
            Table::Schemas => 2,
            Table::Masters => 3,
            Table::Rulebooks => 4,
            Table::Editions => 5,
            Table::Regions => 6,
            Table::Sessions => 7,
            Table::Records => 8,
            Table::Batches => 9,
        }
    }
}
