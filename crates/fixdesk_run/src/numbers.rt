//! The numbers of the limits, as they are written: definitions take them from constants, and nothing else says which
//! numbers these are.
ghost use Rattle.std.specs.Prelude.{◌≡◌};
ghost use Rattle.desk_base.specs.declared.limits.TheConstants.{MAX_TEXT, MAX_WORD, MAX_COLUMN, MAX_ATTRIBUTES};
ghost use Rattle.desk_base.specs.declared.limits.TheConstants.{MAX_RULES, MAX_KEYS, MAX_CONDITIONS, MAX_SET};
ghost use Rattle.desk_base.specs.declared.limits.TheConstants.{MAX_COLUMNS, MAX_ROWS, MAX_MASTERS, MAX_VERSIONS};
ghost use Rattle.desk_base.specs.declared.limits.TheConstants.{MAX_MASTER_CELLS, MAX_EDITIONS, MAX_ENTRIES};
ghost use Rattle.desk_base.specs.declared.limits.TheConstants.{MAX_REGIONS, MAX_REGION_ROWS, MAX_CLERKS};
ghost use Rattle.desk_base.specs.declared.limits.TheConstants.{MAX_ACTIVE_SESSIONS, MAX_SESSIONS, MAX_BATCHES};
ghost use Rattle.desk_base.specs.declared.limits.TheConstants.{MAX_TEXT_BYTES, MAX_BATCH_ROWS, MAX_REQUEST, MAX_HEAD};
ghost use Rattle.desk_base.specs.declared.limits.TheConstants.{MAX_FIELDS, MAX_LONG_BODY, MAX_BATCH_BODY, MAX_BODY};
ghost use Rattle.desk_base.specs.declared.limits.TheConstants.{MAX_INPUT};
ghost use Rattle.fixdesk_run.specs.declared.task.TheConstants.{USUAL_LIMIT, MAX_LIMIT, MAX_MADE_SESSIONS, MAX_START};
ghost use Rattle.fixdesk_run.specs.declared.plan.TheConstants.{MAX_COUNT};

/// The limits of what is published, keyed and asked (docs/api.md, *Refusals*, says what each counts).
pub fn the_limits_are()
    ensures text { MAX_TEXT ≡ 200 }
    ensures word { MAX_WORD ≡ 32 }
    ensures column { MAX_COLUMN ≡ 64 }
    ensures attributes { MAX_ATTRIBUTES ≡ 48 }
    ensures rules { MAX_RULES ≡ 200 }
    ensures keys { MAX_KEYS ≡ 8 }
    ensures conditions { MAX_CONDITIONS ≡ 8 }
    ensures set_texts { MAX_SET ≡ 64 }
    ensures columns { MAX_COLUMNS ≡ 48 }
    ensures rows { MAX_ROWS ≡ 20_000 }
    ensures masters { MAX_MASTERS ≡ 8 }
    ensures versions { MAX_VERSIONS ≡ 128 }
    ensures master_cells { MAX_MASTER_CELLS ≡ 4_000_000 }
    ensures editions { MAX_EDITIONS ≡ 64 }
    ensures entries { MAX_ENTRIES ≡ 2_000_000 }
    ensures regions { MAX_REGIONS ≡ 8 }
    ensures region_rows { MAX_REGION_ROWS ≡ 200 }
    ensures clerks { MAX_CLERKS ≡ 32 }
    ensures active_sessions { MAX_ACTIVE_SESSIONS ≡ 5_000 }
    ensures sessions { MAX_SESSIONS ≡ 20_000 }
    ensures batches { MAX_BATCHES ≡ 20_000 }
    ensures text_bytes { MAX_TEXT_BYTES ≡ 33_554_432 }
    ensures batch_rows { MAX_BATCH_ROWS ≡ 2_000 }
    ensures request { MAX_REQUEST ≡ 999_999_999_999 }
    ensures head { MAX_HEAD ≡ 16_384 }
    ensures fields { MAX_FIELDS ≡ 64 }
    ensures long_body { MAX_LONG_BODY ≡ 4_194_304 }
    ensures batch_body { MAX_BATCH_BODY ≡ 1_048_576 }
    ensures body { MAX_BODY ≡ 262_144 }
    ensures input { MAX_INPUT ≡ 1_048_576 }
{}

/// The limits of the words of the programs (docs/formats.md, *Statuses of `fixdesk`* and *of `fixdeskd`*).
pub fn the_limits_of_words_are()
    ensures usual_limit { USUAL_LIMIT ≡ 100_000 }
    ensures most_limit { MAX_LIMIT ≡ 1_000_000 }
    ensures made_sessions { MAX_MADE_SESSIONS ≡ 5_000 }
    ensures start { MAX_START ≡ 2_147_483_647 }
    ensures links { MAX_COUNT ≡ 1_000_000 }
{}
