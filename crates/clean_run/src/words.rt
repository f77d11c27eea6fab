//! The words of the command line.
ghost use Rattle.std.specs.Prelude.{◌≡◌, ◌≢◌, ◌<◌, ◌≤◌, ◌++◌, ◌∷◌, [], All, IfErr, IfOk, IfSome, OnOk, false, true, length};
ghost use Rattle.std.specs.Prelude.{map};
ghost use Rattle.std.specs.Prelude.{option_map};
ghost use Rattle.clap.specs.Words.{first_value, found_of};
ghost use Rattle.desk_base.specs.Texts.{bytes_of};
ghost use Rattle.desk_base.specs.Words.{is_name};
ghost use Rattle.sheet_blocks.specs.Sheets.{IsDelimiter};
ghost use Rattle.clean_run.specs.Words.{AreFit, AreOf, AreSheets, IsByteOf, IsFit, IsUnfit, IsVerdictName};
ghost use Rattle.clean_run.specs.Words.{files_written, is_given, is_read, is_sheet, names_in, names_of, sheet_word, values_of};

use crate::ended::{Ended, Status};
use crate::naming::shown;
use clap::error::ErrorKind;
use clap::{Arg, ArgAction, ArgMatches, Command, Error};
use desk_base::{List, MAX_COLUMN, MAX_MASTERS, Text, is_name};
use sheet_clean::begins_with_mark;
use std::alloc::{AllocError, Global};

/// What the words ask for.
#[derive(Debug, Drop)]
pub struct Words<'a> {
    /// The name of the file with the schema.
    pub schema: &'a str,
    /// The name of the file with the rules.
    pub rules: &'a str,
    /// The masters.
    pub sheets: List<SheetWord<'a>>,
    /// The names that stand after `--known`.
    pub known: List<&'a str>,
    /// Those after `--folded`; none where it does not stand.
    pub folded: List<&'a str>,
    /// The byte between fields.
    pub delimiter: u8,
    /// The name of the file for the sheet of changes, where one is wanted.
    pub changes: Option<&'a str>,
    /// The name of a last column of the clean sheet, where one is wanted.
    pub verdict: Option<Text>,
}

/// A master's name, and the name of the file with its sheet.
#[derive(Debug, Drop)]
pub struct SheetWord<'a> {
    pub name: Text,
    pub file: &'a str,
}

/// What the words come to.
#[derive(Debug, Drop)]
pub enum Wanted<'a> {
    /// To clean a sheet.
    Clean(Words<'a>),
    /// To show this text.
    Show(String),
}

const ABOUT: &str =
    "Cleans a sheet on standard input by rules over masters, and writes it to standard output.";

const EXAMPLE: &str = "Example:
  fixdesk_clean --known zip,street --changes changes.csv --verdict verdict \\
      schema.toml rules.txt post=post.csv areas=areas.csv < dirty.csv > clean.csv

The schema, the rules and the masters are files as they are published on a desk. Each NAME is a master's name in the
rules. With --changes FILE, FILE lists each cell that was changed, FILE.conflicts what the rules contradict themselves
about, and FILE.dissents the known cells that a rule would have changed.

It ends with 0, or with 1 for words that it does not know, 2 and 3 where reading and writing fail, 4 for a file that
can't be read, 5 where there is no memory, and 7 for a file or a sheet that is refused.";

/// What these words ask for, which are without the program's name.
pub(crate) fn asked<'a>(alloc: Global, words: &'a [&'a str]) -> Result<Wanted<'a>, Ended>
    ensures fit { IfOk result AreFit }
    ensures unfit { IfErr result IsUnfit }
{
    let mut command = command(alloc)?;
    match command.try_get_matches_from_mut(words) {
        Ok(matches) => Ok(Wanted::Clean(words_of(alloc, &matches)?)),
        Err(error) => told(alloc, &error),
    }
}

/// The command line.
fn command<'a>(alloc: Global) -> Result<Command<'a>, AllocError> {
    let known = option(
        alloc,
        "known",
        "A,B",
        "The attributes whose cells are known to be right",
    )
    .required(true);
    let folded = option(
        alloc,
        "folded",
        "A,B",
        "The attributes that are compared without regard to ASCII case",
    );
    let delimiter = option(
        alloc,
        "delimiter",
        "C",
        "The character between fields, for input and output [default: ,]",
    );
    let changes = option(
        alloc,
        "changes",
        "FILE",
        "Writes what was changed to FILE, FILE.conflicts and FILE.dissents",
    );
    let verdict = option(
        alloc,
        "verdict",
        "NAME",
        "Adds a last column: certain, partial or conflict",
    );
    let schema = Arg::new(alloc, "SCHEMA")
        .required(true)
        .help("A file with the schema");
    let rules = Arg::new(alloc, "RULES")
        .required(true)
        .help("A file with the rules");
    let sheets = Arg::new(alloc, "NAME=SHEET")
        .required(true)
        .action(ArgAction::Append)
        .num_args(1..)
        .help("A master's name, and a file with its rows");
    Command::new(alloc, "fixdesk_clean")
        .version("1.0")
        .about(ABOUT)
        .after_help(EXAMPLE)
        .no_binary_name(true)
        .arg(known)?
        .arg(folded)?
        .arg(delimiter)?
        .arg(changes)?
        .arg(verdict)?
        .arg(schema)?
        .arg(rules)?
        .arg(sheets)
}

/// An option with a value.
fn option<'a>(alloc: Global, name: &'a str, value: &'a str, help: &'a str) -> Arg<'a> {
    Arg::new(alloc, name)
        .long(name)
        .value_name(value)
        .help(help)
        .action(ArgAction::Set)
}

/// What an error of `clap` comes to: a text that was asked for, or a fault of words.
fn told<'a>(alloc: Global, error: &Error) -> Result<Wanted<'a>, Ended>
    ensures fit { IfOk result AreFit }
    ensures unfit { IfErr result IsUnfit }
{
    match error.kind() {
        ErrorKind::DisplayHelp | ErrorKind::DisplayVersion => Ok(Wanted::Show(error.to_string(
            alloc,
        )?)),
        ErrorKind::OutOfMemory => Err(Ended::no_memory()),
        _ => Err(Ended::because(Status::Words, one_line(alloc, error)?)),
    }
}

/// The first lines of an error's text, up to the empty one, in one line, and without the word before them.
fn one_line(alloc: Global, error: &Error) -> Result<String, AllocError> {
    let text = error.to_string(alloc)?;
    let mut line = String::from_str(alloc, "the words do not fit:")?;
    for piece in text.lines().take_while(|piece| !piece.is_empty()) {
        let piece = piece.trim();
        line.push_str(" ")?;
        line.push_str(piece.strip_prefix("error: ").unwrap_or(piece))?;
    }
    Ok(line)
}

/// What the values of the words come to, where they fit.
fn words_of<'a>(alloc: Global, matches: &ArgMatches<'a>) -> Result<Words<'a>, Ended>
    ensures values { IfOk result (AreOf (first_value (found_of matches.now)) (values_of (found_of matches.now))) }
    ensures fit { IfOk result IsFit }
    ensures unfit { IfErr result IsUnfit }
{
    let words = Words {
        schema: matches.get_str("SCHEMA").unwrap_or(""),
        rules: matches.get_str("RULES").unwrap_or(""),
        sheets: sheets_of(alloc, matches.get_strs("NAME=SHEET").unwrap_or(&[]))?,
        known: List::from_vec(names_in(alloc, matches.get_str("known").unwrap_or(""))?),
        folded: List::from_vec(names_of(alloc, matches.get_str("folded"))?),
        delimiter: delimiter_of(alloc, matches.get_str("delimiter"))?,
        changes: matches.get_str("changes"),
        verdict: verdict_of(alloc, matches.get_str("verdict"))?,
    };
    test_files(alloc, &words)?;
    Ok(words)
}

/// The names in a text, between commas.
fn names_in<'a>(alloc: Global, text: &'a str) -> Result<Vec<&'a str>, AllocError>
    ensures { IfOk result (λ names. bytes_of names.items ≡ names_in text.now) }
{
    text.split(',').collect(alloc)
}

/// The same, or none where there is no text.
fn names_of<'a>(alloc: Global, text: Option<&'a str>) -> Result<Vec<&'a str>, AllocError>
    ensures { IfOk result (λ names. bytes_of names.items ≡ names_of (option_map (λ text. text.now) text.entry)) }
{
    match text {
        Some(text) => names_in(alloc, text),
        None => Ok(Vec::new(alloc)),
    }
}

fn fault(alloc: Global, why: &str) -> Result<Ended, AllocError>
    ensures { IfOk result (λ ended. ended.status ≡ Status.Words) }
{
    Ok(Ended::because(Status::Words, String::from_str(alloc, why)?))
}

/// The byte between fields.
fn delimiter_of(alloc: Global, text: Option<&str>) -> Result<u8, Ended>
    ensures byte { IfOk result (IsByteOf (option_map (λ text. text.now) text.entry)) }
    ensures delimits { IfOk result IsDelimiter }
    ensures ascii { IfOk result (λ byte. byte < 128) }
    ensures unfit { IfErr result IsUnfit }
{
    let Some(text) = text else {
        return Ok(b',');
    };
    match text.as_bytes() {
        [byte] if byte.is_ascii() && *byte != b'"' && *byte != b'\r' && *byte != b'\n' => Ok(*byte),
        _ => Err(fault(
            alloc,
            "--delimiter wants one ASCII character that is no quote and no line end",
        )?),
    }
}

/// The name of the last column.
fn verdict_of(alloc: Global, text: Option<&str>) -> Result<Option<Text>, Ended>
    ensures name { IfOk result (λ name. name ≡ option_map (λ text. text.now) text.entry) }
    ensures fits { IfOk result (λ name. IfSome name IsVerdictName) }
    ensures unfit { IfErr result IsUnfit }
{
    let Some(name) = text else {
        return Ok(None);
    };
    if name.is_empty() || name.len() > MAX_COLUMN || begins_with_mark(name.as_bytes()) {
        return Err(fault(
            alloc,
            "--verdict wants a name of 1 to 64 bytes that begins with no byte order mark",
        )?);
    }
    Ok(Some(Text::of(alloc, name)?))
}

/// The masters' names and files.
fn sheets_of<'a>(alloc: Global, words: &[&'a str]) -> Result<List<SheetWord<'a>>, Ended>
    ensures words { IfOk result (λ sheets. map sheet_word sheets ≡ bytes_of words.now) }
    ensures sheets { IfOk result AreSheets }
    ensures unfit { IfErr result IsUnfit }
{
    let mut sheets = List::new(alloc);
    'words: for word in words {
        add_sheet(alloc, &mut sheets, word)?;
    }
    Ok(sheets)
}

/// Adds the master that a word names, if it is another than those that are there, and these are not too many.
fn add_sheet<'a>(
    alloc: Global,
    sheets: &mut List<SheetWord<'a>>,
    word: &'a str,
) -> Result<(), Ended>
    requires { AreSheets sheets.old }
    ensures words { OnOk result (map sheet_word sheets.new ≡ map sheet_word sheets.old ++ word.now ∷ []) }
    ensures sheets { OnOk result (AreSheets sheets.new) }
    ensures unfit { IfErr result IsUnfit }
{
    let sheet = sheet_of(alloc, word)?;
    test_sheet(alloc, sheets.as_slice(), &sheet.name)?;
    sheets.push(sheet)?;
    Ok(())
}

/// A master of this name can be added to these.
fn test_sheet(alloc: Global, sheets: &[SheetWord<'_>], name: &Text) -> Result<(), Ended>
    ensures apart { OnOk result (is_given sheets.now name.now ≡ false) }
    ensures few { OnOk result (length sheets.now ≢ MAX_MASTERS) }
    ensures unfit { IfErr result IsUnfit }
{
    if is_given(sheets, name.as_str()) {
        let name = name.as_str();
        let why = format!(in alloc; "master {name} is given twice")?;
        return Err(Ended::because(Status::Words, why));
    }
    if sheets.len() == MAX_MASTERS {
        return Err(fault(alloc, "there are more than 8 masters")?);
    }
    Ok(())
}

/// Whether a master of this name is among these.
fn is_given(sheets: &[SheetWord<'_>], name: &str) -> bool
    ensures { result ≡ is_given sheets.now name.now }
{
    sheets.iter().any(|sheet| name == sheet.name.as_str())
}

/// A master's name and its file.
fn sheet_of<'a>(alloc: Global, word: &'a str) -> Result<SheetWord<'a>, Ended>
    ensures word { IfOk result (λ sheet. sheet_word sheet ≡ word.now) }
    ensures named { IfOk result (λ sheet. is_name sheet.name ≡ true) }
    ensures unfit { IfErr result IsUnfit }
{
    match word.split_once('=') {
        Some((name, file)) if is_name(name.as_bytes()) => Ok(SheetWord {
            name: Text::of(alloc, name)?,
            file,
        }),
        Some(_) | None => {
            let word = shown(alloc, word)?;
            let why = format!(in alloc;
                "{} is not NAME=SHEET with a master's name",
                word.as_str()
            )?;
            Err(Ended::because(Status::Words, why))
        }
    }
}

/// The files of changes have a name, and are none of those that are read.
fn test_files(alloc: Global, words: &Words<'_>) -> Result<(), Ended>
    ensures named { OnOk result (IfSome words.now.changes (λ file. file.now ≢ [])) }
    ensures unread { OnOk result
        (All (λ file. is_read words.now file ≡ false) (files_written words.now.changes)) }
    ensures unfit { IfErr result IsUnfit }
{
    let Some(file) = words.changes else {
        return Ok(());
    };
    if file.is_empty() {
        return Err(fault(alloc, "--changes wants the name of a file")?);
    }
    test_file(alloc, words, file)?;
    test_beside(alloc, words, file, ".conflicts")?;
    test_beside(alloc, words, file, ".dissents")
}

/// The file of this name and ending is none of those that are read.
fn test_beside(alloc: Global, words: &Words<'_>, file: &str, ending: &str) -> Result<(), Ended>
    ensures unread { OnOk result (is_read words.now (file.now ++ ending.now) ≡ false) }
    ensures unfit { IfErr result IsUnfit }
{
    let name = format!(in alloc; "{file}{ending}")?;
    test_file(alloc, words, name.as_str())
}

/// This file is none of those that are read.
fn test_file(alloc: Global, words: &Words<'_>, file: &str) -> Result<(), Ended>
    ensures unread { OnOk result (is_read words.now file.now ≡ false) }
    ensures unfit { IfErr result IsUnfit }
{
    if !is_read(words, file) {
        return Ok(());
    }
    let name = shown(alloc, file)?;
    let why = format!(in alloc; "{} would be written, and is read", name.as_str())?;
    Err(Ended::because(Status::Words, why))
}

/// Whether this file is one of those that are read.
fn is_read(words: &Words<'_>, file: &str) -> bool
    ensures { result ≡ is_read words.now file.now }
{
    file == words.schema || file == words.rules || is_sheet(words.sheets.as_slice(), file)
}

/// Whether a master's sheet is in this file.
fn is_sheet(sheets: &[SheetWord<'_>], file: &str) -> bool
    ensures { result ≡ is_sheet sheets.now file.now }
{
    sheets.iter().any(|sheet| file == sheet.file)
}
