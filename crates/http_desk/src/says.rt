//! What is said to a person of a body that does not propose an edition.
ghost use Rattle.std.specs.Prelude.{◌≡◌, IfOk};
ghost use Rattle.http_desk.specs.Says.{fault_sentence};

use desk_base::NoMemory;
use desk_json::JsonFault;
use fault_sentences::{
    Sentence, key_form_sentence, no_json_sentence, no_key_sentence, no_object_sentence,
    other_key_sentence,
};
use std::alloc::Global;

/// The sentence on the fault of the body that proposes an edition.
pub fn fault_sentence(alloc: Global, fault: &JsonFault) -> Result<Sentence, NoMemory>
    ensures { IfOk result (λ sentence. sentence ≡ fault_sentence fault.now) }
{
    match fault {
        JsonFault::NotJson => no_json_sentence(alloc),
        JsonFault::Missing(key) => no_key_sentence(alloc, key.as_str()),
        JsonFault::WrongKind(key) if key.as_str().is_empty() => no_object_sentence(alloc),
        JsonFault::WrongKind(key) => key_form_sentence(alloc, key.as_str()),
        JsonFault::Unknown(key) => other_key_sentence(alloc, key.as_str()),
        JsonFault::NoMemory => Err(NoMemory),
    }
}
