//! How an answer differs from what is wanted.
ghost use Rattle.std.specs.Prelude.{◌≡◌, ◌≢◌, ◌↔◌, ◌++◌, [], map, None, Some, IsTrue, IfOk, OnOk};
ghost use Rattle.std.specs.List.{position};
ghost use Rattle.desk_cases.specs.Judging.{AddsIfApart, HasContent, IsAsWanted, IsCompared, TakesNamed, is_named};

use crate::case::Part;
use desk_base::NoMemory;
use std::alloc::Global;

/// A part that is wanted and was answered otherwise or not at all, or that was answered and is not wanted. Neither side
/// has a part where nothing is wanted and nothing was answered.
#[derive(Debug, Drop)]
pub struct Difference<'p> {
    pub wanted: Option<&'p Part>,
    pub got: Option<Part>,
}

impl Difference<'_> {
    /// The name of the part.
    pub fn name(&self) -> &str {
        match (self.wanted, &self.got) {
            (Some(part), _) => part.name.as_str(),
            (None, Some(part)) => part.name.as_str(),
            (None, None) => "no answer",
        }
    }
}

/// How an answer differs. Each wanted part takes the next one of its name out of the answer, and differs where there is
/// none or its content is another. What is left then differs, and so does an answer without parts of which nothing is
/// wanted. There is no difference exactly where the answer is as it is wanted.
pub fn differences<'p>(
    alloc: Global,
    wanted: &[&'p Part],
    mut answer: Vec<Part>,
) -> Result<Vec<Difference<'p>>, NoMemory>
    ensures none { IfOk result (λ found. (found.items ≡ [])
        ↔ IsAsWanted (map (λ part. part.now) wanted.now) answer.items) }
{
    if is_nothing(wanted, answer.as_slice()) {
        return no_answer(alloc);
    }
    let mut found = Vec::new(alloc);
    add_wanted(&mut found, wanted, &mut answer)?;
    add_rest(&mut found, answer)?;
    Ok(found)
}

/// Whether nothing is wanted and nothing was answered.
fn is_nothing(wanted: &[&Part], answer: &[Part]) -> bool
    ensures { IsTrue result ↔ ((wanted.now ≡ []) × (answer.now ≡ [])) }
{
    wanted.is_empty() && answer.is_empty()
}

/// What differs where nothing is wanted and nothing was answered.
fn no_answer<'p>(alloc: Global) -> Result<Vec<Difference<'p>>, NoMemory>
    ensures { IfOk result (λ found. found.items ≢ []) }
{
    let mut found = Vec::new(alloc);
    found.push(Difference {
        wanted: None,
        got: None,
    })?;
    Ok(found)
}

/// Takes the wanted parts out of an answer, and adds those that differ.
fn add_wanted<'p>(
    found: &mut Vec<Difference<'p>>,
    wanted: &[&'p Part],
    answer: &mut Vec<Part>,
) -> Result<(), NoMemory>
    requires { found.old.items ≡ [] }
    ensures { OnOk result (let parts = map (λ part. part.now) wanted.now in
        IsCompared found.new.items parts parts answer.old.items answer.new.items) }
{
    'wanted: for part in wanted {
        let got = take_named(answer, part.name.as_str());
        add_unless_same(found, part, got)?;
    }
    Ok(())
}

/// Adds a wanted part that was answered otherwise or not at all.
fn add_unless_same<'p>(
    found: &mut Vec<Difference<'p>>,
    wanted: &'p Part,
    got: Option<Part>,
) -> Result<(), NoMemory>
    ensures { OnOk result (AddsIfApart found.old.items found.new.items
        (HasContent wanted.now.content.items got)) }
{
    if !is_same(wanted, &got) {
        found.push(Difference {
            wanted: Some(wanted),
            got,
        })?;
    }
    Ok(())
}

/// Takes the first part of this name out of others.
fn take_named(parts: &mut Vec<Part>, name: &str) -> Option<Part>
    ensures { TakesNamed name.now parts.old.items parts.new.items result }
{
    let place = place_of(parts.as_slice(), name)?;
    Some(parts.remove(place))
}

/// The place of the first part of this name, counted from 0.
fn place_of(parts: &[Part], name: &str) -> Option<usize>
    ensures { result ≡ position (is_named name.now) parts.now }
{
    parts.iter().position(|part| part.name.as_str() == name)
}

/// Whether a part was answered with this content.
fn is_same(wanted: &Part, got: &Option<Part>) -> bool
    ensures { IsTrue result ↔ HasContent wanted.now.content.items got.now }
{
    match got {
        Some(part) => part.content.as_slice() == wanted.content.as_slice(),
        None => false,
    }
}

/// Adds each part that is not wanted.
fn add_rest(found: &mut Vec<Difference<'_>>, rest: Vec<Part>) -> Result<(), NoMemory>
    ensures { OnOk result (found.new.items ≡ found.old.items
        ++ map (λ part. record { wanted = None; got = Some part }) rest.items) }
{
    'rest: for part in rest {
        found.push(Difference {
            wanted: None,
            got: Some(part),
        })?;
    }
    Ok(())
}
