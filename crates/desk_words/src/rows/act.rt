//! What an accepted request did.
ghost use Rattle.std.specs.Prelude.{◌≡◌};
ghost use Rattle.desk_words.specs.Words.{act_word};

/// What a caller's last accepted request did. The row that it is about stands in the table of the same name, but
/// for `Opened` and `Changed`, which are about a session, `Committed` about a record and `Batched` about a batch.
#[derive(Clone, Copy, Debug, PartialEq, Eq)]
pub enum Act {
    /// No request was accepted yet.
    Nothing,
    Clerk,
    Schema,
    Master,
    Rulebook,
    Edition,
    Region,
    Opened,
    Changed,
    Committed,
    Batched,
}

impl Act {
    /// Its word.
    pub fn word(self) -> &'static str
        ensures { result.now ≡ act_word self }
    {
        match self {
            Act::Nothing => "nothing",
            Act::Clerk => "clerk",
            Act::Schema => "schema",
            Act::Master => "master",
            Act::Rulebook => "rulebook",
            Act::Edition => "edition",
            Act::Region => "region",
            Act::Opened => "opened",
            Act::Changed => "changed",
            Act::Committed => "committed",
            Act::Batched => "batched",
        }
    }
}
