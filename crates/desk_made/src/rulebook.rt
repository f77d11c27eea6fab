//! The rulebook `b`.
ghost use Rattle.std.specs.Prelude.{◌≡◌, ◌<◌, ◌≤◌, ◌∷◌, [], codes, IfOk};
ghost use Rattle.rule_text.specs.Rulebooks.{IsRulebook};
ghost use Rattle.desk_made.specs.Rulebook.{dissenting, leading, leading_lines, rulebook};
ghost use Rattle.desk_made.specs.Schema.{big};

use crate::master::numbered;
use desk_base::{List, NoMemory, Text};
use fix_model::Pat;
use rule_text::{RuleLine, Rulebook};
use std::alloc::Global;

/// The rulebook `b`.
pub fn rulebook(alloc: Global) -> Result<Rulebook, NoMemory>
    ensures rulebook { IfOk result (λ made. made ≡ rulebook) }
    ensures sound { IfOk result (IsRulebook big) }
{
    let mut lines = leading_lines(alloc, 199)?;
    lines.push(dissenting(alloc)?)?;
    Ok(Rulebook { lines })
}

/// The rules at the places from 0 on, so many.
#[tactic(auto, unfolding(crate::specs::Rulebook::leading_lines))]
fn leading_lines(alloc: Global, count: u32) -> Result<List<RuleLine>, NoMemory>
    requires { count < 200 }
    ensures { IfOk result (λ lines. lines ≡ leading_lines count) }
{
    let mut lines = List::new(alloc);
    'places: for place in 0..count {
        lines.push(leading(alloc, place)?)?;
    }
    Ok(lines)
}

/// The rule at a place before the last.
fn leading(alloc: Global, place: u32) -> Result<RuleLine, NoMemory>
    requires { place < 200 }
    ensures { IfOk result (λ line. line ≡ leading place) }
{
    let key = (place % 46) as u16;
    Ok(RuleLine {
        name: numbered(alloc, "r", place + 1)?,
        master: Text::of(alloc, "m")?,
        keys: key_of(alloc, key)?,
        head: key + 1,
        from: Text::of(alloc, "c2")?,
        conds: List::new(alloc),
    })
}

/// The last rule.
fn dissenting(alloc: Global) -> Result<RuleLine, NoMemory>
    ensures { IfOk result (λ line. line ≡ dissenting) }
{
    let mut conds = List::new(alloc);
    conds.push((47, Pat::Is(Text::of(alloc, "on")?)))?;
    Ok(RuleLine {
        name: numbered(alloc, "r", 200)?,
        master: Text::of(alloc, "m")?,
        keys: key_of(alloc, 0)?,
        head: 46,
        from: Text::of(alloc, "c3")?,
        conds,
    })
}

/// An attribute that is compared with the first column.
fn key_of(alloc: Global, attribute: u16) -> Result<List<(u16, Text)>, NoMemory>
    ensures { IfOk result (λ keys. keys ≡ (attribute, codes "c1") ∷ []) }
{
    let mut keys = List::new(alloc);
    keys.push((attribute, Text::of(alloc, "c1")?))?;
    Ok(keys)
}
