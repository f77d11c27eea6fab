//! What the places of a kit are called.
use desk_base::{Duplicate, List, NoMemory, Text};

/// The names of the attributes, the rules and the masters of a kit, each in the order of their places.
#[derive(Debug, Drop)]
pub struct Names {
    pub attributes: List<Text>,
    pub rules: List<Text>,
    pub masters: List<Text>,
}

impl Duplicate for Names {
    fn copy(&self) -> Result<Names, NoMemory> {
        Ok(Names {
            attributes: self.attributes.copy()?,
            rules: self.rules.copy()?,
            masters: self.masters.copy()?,
        })
    }
}
