//! The command line of `canister_test`.
//!
//! The words are read by `clap`: they are taken where its definition for the command of `specs/Command` takes them, and the
//! options are what it matches (`specs/Options`). Options are before, between or after the names of files; after `--` all
//! words are names of files.
#![tactic(auto)]

mod words;

ghost use Rattle.std.specs.Prelude.{◌≡◌, IfOk, IfSome, [], false, map, option_map, string_bytes};
ghost use Rattle.clap.specs.Words.{app_of, groups_of, rule_of};
ghost use Rattle.clap.specs.declared.builder.command.Command.TheViews.{out-Command};
ghost use Rattle.ct_words.specs.Command.{command, files_rule, flag_rule, text_rule};
ghost use Rattle.ct_words.specs.Options.{HasBounds, choice_of, given_options, is_set, options_of, usage_text};

use clap::error::ErrorKind;
use clap::{Arg, ArgAction, Command};
use ic_base::NoMemory;
use ic_options::number_or;
use ic_principal::Text;
use std::alloc::{AllocError, Global};
use std::marker::Model;
pub use words::words_of;

/// Which tests are run, or that a script is printed.
#[derive(Drop)]
pub enum Choice {
    All,
    /// `--only`: those whose name has this text.
    Only(Text),
    /// `--script`: none; what the first of this name does is printed.
    Script(Text),
    /// `--picture`: none; the order of the first of this name is drawn.
    Picture(Text),
}

/// Names of files. Contracts see the list.
#[derive(Drop)]
pub struct FileNames {
    pub items: Vec<Text>,
}

impl Model for FileNames {
    ghost use Rattle.std.specs.Prelude.{List, ℕ};

    ghost Value = { List (List ℕ) };

    ghost view = { λ f. f.items.items };
}

/// What the words of the command line ask for.
#[derive(Drop)]
pub struct TestOptions {
    /// `--limit`: the most instructions that one execution may use, 1 to 1,000,000,000,000; without it 50,000,000.
    pub limit: u64,
    /// `--price`: the cycles that an instruction costs, at most 1,000,000; without it 0.
    pub price: u64,
    /// `--states`: the most states that one interleave may meet, 1 to 1,000,000; without it 20,000.
    pub states: u32,
    /// `--trace`: what each test did is told.
    pub trace: bool,
    pub choice: Choice,
    /// The names of the test files.
    pub files: FileNames,
}

fn text(alloc: Global, word: &str) -> Result<Text, NoMemory>
    ensures { IfOk result (λ text. text ≡ word.now) }
{
    Ok(Text {
        items: String::from_str(alloc, word)?,
    })
}

// Which tests are wanted; `None`: `--only`, `--script` and `--picture` exclude each other.
fn choice_of(
    alloc: Global,
    only: Option<&str>,
    script: Option<&str>,
    picture: Option<&str>,
) -> Result<Option<Choice>, NoMemory>
    ensures { IfOk result (λ choice. choice ≡ choice_of (option_map (λ part. part.now) only.entry) (option_map (λ name. name.now) script.entry) (option_map (λ name. name.now) picture.entry)) }
{
    match (only, script, picture) {
        (None, None, None) => Ok(Some(Choice::All)),
        (Some(part), None, None) => Ok(Some(Choice::Only(text(alloc, part)?))),
        (None, Some(name), None) => Ok(Some(Choice::Script(text(alloc, name)?))),
        (None, None, Some(name)) => Ok(Some(Choice::Picture(text(alloc, name)?))),
        _ => Ok(None),
    }
}

fn names_of(alloc: Global, words: &[&str]) -> Result<FileNames, NoMemory>
    ensures { IfOk result (λ names. names ≡ map (λ word. word.now) words.now) }
{
    let mut items = Vec::with_capacity(alloc, words.len())?;
    for word in words {
        items.push(text(alloc, word)?)?;
    }
    Ok(FileNames { items })
}

fn files_of(alloc: Global, words: Option<&[&str]>) -> Result<Option<FileNames>, NoMemory>
    ensures { IfOk result (λ files. files ≡ option_map (λ words. map (λ word. word.now) words.now) words.entry) }
{
    match words {
        None => Ok(None),
        Some(words) => Ok(Some(names_of(alloc, words)?)),
    }
}

// Whether a flag is set, by its text.
fn is_set(text: Option<&str>) -> bool
    ensures { result ≡ is_set (option_map (λ text. text.now) text.entry) }
{
    match text {
        None => false,
        Some(text) => text == "true",
    }
}

// The options, where a choice can be made and files are named.
fn given(
    limit: u64,
    price: u64,
    states: u32,
    trace: bool,
    choice: Option<Choice>,
    files: Option<FileNames>,
) -> Option<TestOptions>
    ensures value { result ≡ given_options limit price states trace choice files }
    ensures numbers { IfSome result (λ options. (options.limit ≡ limit) × (options.price ≡ price) × (options.states ≡ states)) }
{
    match (choice, files) {
        (Some(choice), Some(files)) => Some(TestOptions {
            limit,
            price,
            states,
            trace,
            choice,
            files,
        }),
        _ => None,
    }
}

impl TestOptions {
    /// The options that the words give, of which the first is the program's name; `None` where they
    /// are refused.
    pub fn read(alloc: Global, words: &[String]) -> Result<Option<TestOptions>, NoMemory>
        ensures value { IfOk result (λ options. options ≡ options_of (map string_bytes words.now)) }
        ensures bounds { IfOk result (λ options. IfSome options HasBounds) }
    {
        match describe(alloc)?.try_get_matches_from(words) {
            Ok(matches) => {
                let limit_given = matches.get_one::<u64>("limit");
                let price_given = matches.get_one::<u64>("price");
                let states_given = matches.get_one::<u32>("states");
                let only = matches.get_str("only");
                let script = matches.get_str("script");
                let picture = matches.get_str("picture");
                let traced = matches.get_str("trace");
                let names = matches.get_strs("files");
                let limit = limit_given.unwrap_or(50_000_000);
                let price = price_given.unwrap_or(0);
                let states = states_given.unwrap_or(20_000);
                let trace = is_set(traced);
                let choice = choice_of(alloc, only, script, picture)?;
                let files = files_of(alloc, names)?;
                Ok(given(limit, price, states, trace, choice, files))
            }
            Err(error) => {
                if error.kind() == ErrorKind::OutOfMemory {
                    Err(AllocError)
                } else {
                    Ok(None)
                }
            }
        }
    }
}

/// What is printed for refused words.
#[tactic(auto, unfolding(crate::specs::Options::usage_text))]
pub fn usage() -> &'static str
    ensures { result.now ≡ usage_text }
{
    "usage: canister_test [--limit N] [--price N] [--states N] [--trace] [--only TEXT | --script NAME | --picture NAME] FILE..\n"
}

// The command, before it is built.
fn describe<'a>(alloc: Global) -> Result<Command<'a>, NoMemory>
    ensures app { IfOk result (λ made. app_of made ≡ command) }
    ensures plain { IfOk result (λ made. groups_of made ≡ []) }
    ensures local { IfOk result (λ made. (out-Command made).has_globals ≡ false) }
{
    let limit = number_or(alloc, "limit", 1, 1_000_000_000_000, "50000000");
    let price = number_or(alloc, "price", 0, 1_000_000, "0");
    let states = number_or(alloc, "states", 1, 1_000_000, "20000");
    let only = text_option(alloc, "only");
    let script = text_option(alloc, "script");
    let picture = text_option(alloc, "picture");
    let trace = flag(alloc, "trace");
    let files = files(alloc);
    Command::new(alloc, "canister_test")
        .arg(limit)?
        .arg(price)?
        .arg(states)?
        .arg(only)?
        .arg(script)?
        .arg(picture)?
        .arg(trace)?
        .arg(files)
}

// The words that are no options.
fn files<'a>(alloc: Global) -> Arg<'a>
    ensures rule { rule_of result ≡ files_rule }
    ensures local { result.global ≡ false }
{
    Arg::new(alloc, "files").num_args(1..).required(true)
}

// An option that takes a text.
fn text_option<'a>(alloc: Global, name: &'a str) -> Arg<'a>
    ensures rule { rule_of result ≡ text_rule name.entry.now }
    ensures local { result.global ≡ false }
{
    Arg::new(alloc, name).long(name)
}

// An option that is there or not.
fn flag<'a>(alloc: Global, name: &'a str) -> Arg<'a>
    ensures rule { rule_of result ≡ flag_rule name.entry.now }
    ensures local { result.global ≡ false }
{
    Arg::new(alloc, name).long(name).action(ArgAction::SetTrue)
}
