//! The digest by which a request that is sent again is known.
ghost use Rattle.std.specs.Prelude.{◌≡◌, ◌++◌, ◌∷◌};
ghost use Rattle.sha2.specs.Sha256.{sha256};

use desk_words::Digest as RequestDigest;
use sha2::{Digest, Sha256};

/// The SHA-256 (FIPS 180-4) of the target, a zero byte and the body.
pub(crate) fn digest_of(target: &[u8], body: &[u8]) -> RequestDigest
    ensures { result.bytes ≡ sha256 (target.now ++ 0 ∷ body.now) }
{
    let mut hasher = Sha256::new();
    hasher.update(target);
    hasher.update([0u8]);
    hasher.update(body);
    RequestDigest {
        bytes: hasher.finalize(),
    }
}
