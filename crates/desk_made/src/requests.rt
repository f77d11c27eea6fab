//! The bytes of requests.
ghost use Rattle.std.specs.Prelude.{◌≡◌, ◌++◌, [], OnOk};
ghost use Rattle.desk_made.specs.Requests.{length_line, post, request_bytes, request_line};

use desk_base::NoMemory;

/// Puts the request that posts a body to a target after these bytes (RFC 9112, sections 2 and 3).
#[tactic(auto, unfolding(crate::specs::Requests::request_bytes))]
pub fn push_post(bytes: &mut Vec<u8>, target: &str, body: &[u8]) -> Result<(), NoMemory>
    ensures { OnOk result (bytes.new.items ≡ bytes.old.items ++ request_bytes (post target.now body.now)) }
{
    push_target(bytes, target)?;
    push_length(bytes, body)?;
    bytes.extend_from_slice(b"\r\n")?;
    bytes.extend_from_slice(body)?;
    Ok(())
}

/// Puts the line that posts to a target after these bytes.
fn push_target(bytes: &mut Vec<u8>, target: &str) -> Result<(), NoMemory>
    ensures { OnOk result (bytes.new.items ≡ bytes.old.items ++ request_line (post target.now [])) }
{
    bytes.extend_from_slice(b"POST ")?;
    bytes.extend_from_slice(target.as_bytes())?;
    bytes.extend_from_slice(b" HTTP/1.1\r\n")?;
    Ok(())
}

/// Puts the line that says how many bytes a body has after these bytes.
fn push_length(bytes: &mut Vec<u8>, body: &[u8]) -> Result<(), NoMemory>
    ensures { OnOk result (bytes.new.items ≡ bytes.old.items ++ length_line body.now) }
{
    let count = body.len().to_string(*bytes.allocator())?;
    bytes.extend_from_slice(b"Content-Length: ")?;
    bytes.extend_from_slice(count.as_bytes())?;
    bytes.extend_from_slice(b"\r\n")?;
    Ok(())
}
