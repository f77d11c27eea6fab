//! How much is done.

/// So many rules, 1 to 200, over a master of so many rows, 1 to 20,000, so many records, 1 to 1,000,000, and so many
/// sessions, 1 to 5,000.
#[derive(Clone, Copy)]
pub struct Sizes {
    pub rules: u32,
    pub rows: u32,
    pub records: u32,
    pub sessions: u32,
}

impl Sizes {
    /// The sizes that four words name, where each is in its range.
    pub fn of_words(words: &[String]) -> Option<Sizes> {
        let [rules, rows, records, sessions] = words else {
            return None;
        };
        Some(Sizes {
            rules: number(rules, 200)?,
            rows: number(rows, 20_000)?,
            records: number(records, 1_000_000)?,
            sessions: number(sessions, 5_000)?,
        })
    }
}

/// A number from 1 up to the greatest.
fn number(word: &String, greatest: u32) -> Option<u32> {
    let number = word.as_str().parse::<u32>().ok()?;
    if 1 <= number && number <= greatest {
        Some(number)
    } else {
        None
    }
}
