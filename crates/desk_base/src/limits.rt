//! The limits of the desk, each once. Definitions of every crate take these constants.

/// The most bytes of a cell.
pub const MAX_TEXT: usize = 200;

/// The most bytes of a name or a word.
pub const MAX_WORD: usize = 32;

/// The most bytes of a column.
pub const MAX_COLUMN: usize = 64;

/// The most attributes of a schema, which has at least one.
pub const MAX_ATTRIBUTES: usize = 48;

/// The most rules of a rulebook.
pub const MAX_RULES: usize = 200;

/// The most keys of a rule, which has at least one.
pub const MAX_KEYS: usize = 8;

/// The most conditions of a rule.
pub const MAX_CONDITIONS: usize = 8;

/// The most texts in the set of a condition.
pub const MAX_SET: usize = 64;

/// The most columns of a master or a batch.
pub const MAX_COLUMNS: usize = 48;

/// The most rows of a master that a desk keeps, without its header.
pub const MAX_ROWS: u32 = 20_000;

/// The most rows of any master, without its header.
pub const MAX_SHEET_ROWS: u32 = 2_000_000;

/// The most masters of an edition.
pub const MAX_MASTERS: usize = 8;

/// The most versions of schemas, of masters and of rulebooks, each.
pub const MAX_VERSIONS: usize = 128;

/// The most cells of masters, over all versions.
pub const MAX_MASTER_CELLS: u64 = 4_000_000;

/// The most editions.
pub const MAX_EDITIONS: usize = 64;

/// The most entries of the indexes of an edition.
pub const MAX_ENTRIES: u64 = 2_000_000;

/// The most regions of an edition.
pub const MAX_REGIONS: usize = 8;

/// The most rows of a region.
pub const MAX_REGION_ROWS: usize = 200;

/// The most clerks, without the steward.
pub const MAX_CLERKS: usize = 32;

/// The most active sessions of a clerk.
pub const MAX_ACTIVE_SESSIONS: usize = 5_000;

/// The most sessions of a clerk, of any stage.
pub const MAX_SESSIONS: usize = 20_000;

/// The most batches of a clerk.
pub const MAX_BATCHES: usize = 20_000;

/// The most bytes of a clerk's texts: those typed in the sessions, and those of the records.
pub const MAX_TEXT_BYTES: u64 = 33_554_432;

/// The most rows of a batch, without its header.
pub const MAX_BATCH_ROWS: usize = 2_000;

/// The greatest number of a request, which is at least 1.
pub const MAX_REQUEST: u64 = 999_999_999_999;

/// The most bytes of a request's head, with its empty line.
pub const MAX_HEAD: usize = 16_384;

/// The most fields of a head.
pub const MAX_FIELDS: usize = 64;

/// The most bytes of a body that holds a master or a region.
pub const MAX_LONG_BODY: usize = 4_194_304;

/// The most bytes of a body that holds a batch.
pub const MAX_BATCH_BODY: usize = 1_048_576;

/// The most bytes of any other body.
pub const MAX_BODY: usize = 262_144;

/// The most bytes of the input of `once`.
pub const MAX_INPUT: usize = 1_048_576;
