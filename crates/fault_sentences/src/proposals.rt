//! The sentences on the JSON body that proposes an edition.
ghost use Rattle.std.specs.Prelude.{◌≡◌, ◌++◌, IfOk, OnOk};
ghost use Rattle.fault_sentences.specs.Proposals.{key_form, key_form_sentence, no_json_sentence, no_key_sentence};
ghost use Rattle.fault_sentences.specs.Proposals.{no_object_sentence, other_key_sentence, proposal_form};

use crate::sentence::Sentence;
use desk_base::NoMemory;
use std::alloc::Global;

impl Sentence {
    /// Adds how an edition is proposed.
    fn proposal_form(&mut self) -> Result<(), NoMemory>
        ensures { OnOk result (self.new ≡ self.old ++ proposal_form) }
    {
        self.words(
            "; propose an edition as {\"masters\":[[\"post\",1]],\"rulebook\":[\"postal\",1]}",
        )
    }
}

/// What stands at a key of the body, after a semicolon; nothing where it has no such key.
#[tactic(auto, unfolding(crate::specs::Proposals::key_form))]
fn key_form(key: &str) -> &'static str
    ensures { result.now ≡ key_form key.now }
{
    if key == "masters" {
        "; masters is a list of names, each with a version from 1 on, as [[\"post\",1]]"
    } else if key == "rulebook" {
        "; rulebook is a name with a version from 1 on, as [\"postal\",1]"
    } else if key == "folded" {
        "; folded is a list of attributes, as [\"city\"]"
    } else {
        ""
    }
}

/// Says that the body is no JSON.
#[tactic(auto, unfolding(crate::specs::Proposals::no_json_sentence))]
pub fn no_json_sentence(alloc: Global) -> Result<Sentence, NoMemory>
    ensures { IfOk result (λ sentence. sentence ≡ no_json_sentence) }
{
    let mut out = Sentence::new(alloc);
    out.words("the body is no JSON")?;
    out.proposal_form()?;
    Ok(out)
}

/// Says that the body is another value than an object.
#[tactic(auto, unfolding(crate::specs::Proposals::no_object_sentence))]
pub fn no_object_sentence(alloc: Global) -> Result<Sentence, NoMemory>
    ensures { IfOk result (λ sentence. sentence ≡ no_object_sentence) }
{
    let mut out = Sentence::new(alloc);
    out.words("the body is no object")?;
    out.proposal_form()?;
    Ok(out)
}

/// Says that a key is not there.
#[tactic(auto, unfolding(crate::specs::Proposals::no_key_sentence))]
pub fn no_key_sentence(alloc: Global, key: &str) -> Result<Sentence, NoMemory>
    ensures { IfOk result (λ sentence. sentence ≡ no_key_sentence key.now) }
{
    let mut out = Sentence::new(alloc);
    out.words("the key ")?;
    out.shown(key.as_bytes())?;
    out.words(" is missing")?;
    out.words(key_form(key))?;
    Ok(out)
}

/// Says that the value of a key is of another form than is wanted.
#[tactic(auto, unfolding(crate::specs::Proposals::key_form_sentence))]
pub fn key_form_sentence(alloc: Global, key: &str) -> Result<Sentence, NoMemory>
    ensures { IfOk result (λ sentence. sentence ≡ key_form_sentence key.now) }
{
    let mut out = Sentence::new(alloc);
    out.words("the value of ")?;
    out.shown(key.as_bytes())?;
    out.words(" is of another form")?;
    out.words(key_form(key))?;
    Ok(out)
}

/// Says that the body has a key that it may not have.
#[tactic(auto, unfolding(crate::specs::Proposals::other_key_sentence))]
pub fn other_key_sentence(alloc: Global, key: &str) -> Result<Sentence, NoMemory>
    ensures { IfOk result (λ sentence. sentence ≡ other_key_sentence key.now) }
{
    let mut out = Sentence::new(alloc);
    out.words("the key ")?;
    out.shown(key.as_bytes())?;
    out.words(
        " is none of an edition, which has masters, rulebook and folded alone; rename it, or take it out",
    )?;
    Ok(out)
}
