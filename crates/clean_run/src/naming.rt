//! Names as they are shown: as JSON shows strings.
use serde_json::Value;
use std::alloc::{AllocError, Global};

/// A name between quotes, with escapes where JSON needs them.
pub(crate) fn shown(alloc: Global, name: &str) -> Result<String, AllocError> {
    let value = Value::try_from_str(alloc, name)?;
    value.to_string(alloc)
}
