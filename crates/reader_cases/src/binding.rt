//! Rulebooks over two masters: what they bind to, and what is said of those that do not bind.
ghost use Rattle.std.specs.Prelude.{IfOk};
ghost use Rattle.desk_base.specs.declared.limits.TheConstants.{MAX_SHEET_ROWS};
ghost use Rattle.schema_core.specs.Schemas.{IsSchema};
ghost use Rattle.master_rows.specs.Master.{IsMasterWithin};
ghost use Rattle.rule_text.specs.Binding.{AreMasters};

use crate::schemas::{ADDRESS, says};
use desk_base::{MAX_SHEET_ROWS, Text};
use desk_cases::{Answer, Case};
use fault_sentences::{Over, bind_sentence};
use fix_model::{Kit, Rule};
use master_rows::Master;
use rule_text::{BindFault, Rulebook, bind, read};
use schema_core::Schema;
use std::alloc::{AllocError, Global};
use std::test::Fail;

/// What is told of rules that are bound.
#[derive(Clone, Copy, Debug, PartialEq, Eq)]
enum Telling {
    /// The kit, or the fault.
    Kit,
    /// The sentence on the fault.
    Sentence,
}

/// A master by its name and its sheet.
struct Sheet {
    name: &'static [u8],
    text: &'static [u8],
}

/// A schema, two masters, and what is told of rules that are bound over them.
struct Registry {
    schema: &'static [u8],
    one: Sheet,
    other: Sheet,
    telling: Telling,
}

const PERSONS: Registry = Registry {
    schema: b"name = \"person\"\nattributes = [\"zip\", \"town\", \"kind\"]\n",
    one: Sheet {
        name: b"towns",
        text: b"code,town,sort\nEH7,Edi,x\n",
    },
    other: Sheet {
        name: b"streets",
        text: b"\"the zip code\",\"say \"\"so\"\"\",code\n1,2,3\n4,5,6\n",
    },
    telling: Telling::Kit,
};

const ADDRESSES: Registry = Registry {
    schema: ADDRESS,
    one: Sheet {
        name: b"post",
        text: b"code,town,area\nEH7,Edinburgh,Lothian\n",
    },
    other: Sheet {
        name: b"areas",
        text: b"area,nation,c,d,e,f,g,the 8th,i,j\nLothian,Scotland,,,,,,,,\n",
    },
    telling: Telling::Sentence,
};

/// What the rules of a case bind to, with the first and the third attribute folded: a kit, or a fault.
pub fn bound(case: &Case, answer: &mut Answer) -> Result<(), Fail> {
    told(&PERSONS, case, answer)
}

/// What is said of rules that do not bind.
pub fn bound_said(case: &Case, answer: &mut Answer) -> Result<(), Fail> {
    told(&ADDRESSES, case, answer)
}

fn told(registry: &Registry, case: &Case, answer: &mut Answer) -> Result<(), Fail> {
    let schema = Schema::read(answer.alloc(), registry.schema)?;
    told_over(registry, &schema, case, answer)
}

/// Tells what the rules of a case bind to over a schema.
#[tactic(auto, using(crate::proofs::Folding::AreFolded_ends))]
fn told_over(
    registry: &Registry,
    schema: &Schema,
    case: &Case,
    answer: &mut Answer,
) -> Result<(), Fail>
    requires { IsSchema schema.now }
{
    if schema.attributes.len() < 3 {
        return Err(Fail::new("there are not three attributes"));
    }
    let alloc = answer.alloc();
    let rulebook = read(alloc, case.bytes("text")?, schema)?;
    let masters = masters_of(alloc, registry)?;
    match bind(alloc, &rulebook, schema, &masters, &[0, 2]) {
        Ok(kit) => add_bound(registry.telling, &kit, answer),
        Err(fault) => match registry.telling {
            Telling::Kit => answer.shown("wanted", &fault),
            Telling::Sentence => add_sentence(fault, case, &rulebook, &masters, answer),
        },
    }
}

/// The masters of a registry, with their names.
fn masters_of(alloc: Global, registry: &Registry) -> Result<[(Text, Master); 2], Fail>
    ensures { IfOk result AreMasters }
{
    let one = master_of(alloc, &registry.one)?;
    let other = master_of(alloc, &registry.other)?;
    if one.0.as_str() == other.0.as_str() {
        return Err(Fail::new("the masters have one name"));
    }
    Ok([one, other])
}

fn master_of(alloc: Global, sheet: &Sheet) -> Result<(Text, Master), Fail>
    ensures { IfOk result (λ named. IsMasterWithin MAX_SHEET_ROWS named.1) }
{
    let master = Master::read_within(alloc, MAX_SHEET_ROWS, sheet.text)?;
    Ok((Text::new(alloc, sheet.name)?, master))
}

/// Tells a kit, or that there is one.
fn add_bound(telling: Telling, kit: &Kit, answer: &mut Answer) -> Result<(), Fail> {
    match telling {
        Telling::Kit => add_kit(kit, answer),
        Telling::Sentence => answer.text("says", "a kit"),
    }
}

/// What is said of rules that do not bind.
fn add_sentence(
    fault: BindFault,
    case: &Case,
    rulebook: &Rulebook,
    masters: &[(Text, Master)],
    answer: &mut Answer,
) -> Result<(), Fail> {
    let sentence = bind_sentence(answer.alloc(), fault, over(case), rulebook, masters)?;
    says(&sentence, answer)
}

/// What the rules are bound over: the masters of an edition, where a case says nothing else.
fn over(case: &Case) -> Over {
    match case.text("over") {
        Some("given") => Over::Given,
        _ => Over::Edition,
    }
}

/// The parts that tell a kit.
fn add_kit(kit: &Kit, answer: &mut Answer) -> Result<(), Fail> {
    answer.number("width", u64::from(kit.width))?;
    add_flags(kit, answer)?;
    add_rows(kit, answer)?;
    for rule in kit.rules.as_slice() {
        add_rule(rule, answer)?;
    }
    Ok(())
}

fn add_flags(kit: &Kit, answer: &mut Answer) -> Result<(), Fail> {
    let mut flags = String::new(answer.alloc());
    for flag in kit.folded.as_slice() {
        let between = between(flags.as_str());
        write!(flags, "{between}{flag}")?;
    }
    answer.text("flags", flags.as_str())
}

fn add_rows(kit: &Kit, answer: &mut Answer) -> Result<(), Fail> {
    let mut rows = String::new(answer.alloc());
    for master in kit.masters.as_slice() {
        let (between, count) = (between(rows.as_str()), master.rows());
        write!(rows, "{between}{count}")?;
    }
    answer.text("rows", rows.as_str())
}

fn add_rule(rule: &Rule, answer: &mut Answer) -> Result<(), Fail> {
    let mut text = String::new(answer.alloc());
    tell(&mut text, rule)?;
    answer.text("rule", text.as_str())
}

fn tell(text: &mut String, rule: &Rule) -> Result<(), AllocError> {
    write!(text, "master {}, keys", rule.master)?;
    for (attribute, column) in rule.keys.as_slice() {
        write!(text, " ({attribute},{column})")?;
    }
    let count = rule.conds.len();
    write!(
        text,
        ", head {}, from {}, {count} conditions",
        rule.head, rule.from
    )
}

/// What stands between words and the next one: a blank, where there are words.
fn between(words: &str) -> &'static str {
    if words.is_empty() { "" } else { " " }
}
