//! The command line of `replica`.
//!
//! The words are read by `clap`: they are taken exactly where its definition for the command of
//! `specs/Command` takes them, and the options are what it matches (`specs/Options`). So an option
//! and its value are one word with `=` or two words, each option comes once, a number may have a `+`
//! or zeros before its digits, and `--` may end the options; there are no other words, and a word
//! that asks for help is refused.
#![tactic(auto)]

mod words;

ghost use Rattle.std.specs.Prelude.{◌≡◌, IfOk, IfSome, [], false, map, string_bytes};
ghost use Rattle.clap.specs.Words.{app_of, groups_of, rule_of};
ghost use Rattle.clap.specs.declared.builder.command.Command.TheViews.{out-Command};
ghost use Rattle.ic_options.specs.Command.{command, default_rule, number_rule};
ghost use Rattle.ic_options.specs.Options.{HasBounds, options_of, usage_text};

use clap::builder::ValueParser;
use clap::error::ErrorKind;
use clap::{Arg, Command};
use ic_base::NoMemory;
use std::alloc::{AllocError, Global};
pub use words::{given_words, words_of};

/// What the words of the command line ask for.
#[derive(Clone, Copy, Debug)]
pub struct Options {
    /// `--limit`: the most instructions that one execution may use, 1 to 1,000,000,000,000; without
    /// it 50,000,000.
    pub limit: u64,
    /// `--rounds`: the most rounds that a `drain` line, and the end of the script, make: 1 to
    /// 1,000,000; without it 100,000.
    pub rounds: u32,
    /// `--workers`: the most workers of a round, 1 to 64; without it 1.
    pub workers: u32,
    /// `--price`: the cycles that an instruction costs, at most 1,000,000; without it 0.
    pub price: u64,
    /// `--generate`: the number of the script that is made and run in place of one that is read, at
    /// most 10,000.
    pub generate: Option<u32>,
}

impl Options {
    /// The options that the words give, of which the first is the program's name; `None` where they
    /// are refused.
    pub fn read(alloc: Global, words: &[String]) -> Result<Option<Options>, NoMemory>
        ensures value { IfOk result (λ options. options ≡ options_of (map string_bytes words.now)) }
        ensures bounds { IfOk result (λ options. IfSome options HasBounds) }
    {
        match describe(alloc)?.try_get_matches_from(words) {
            Ok(matches) => {
                let limit_given = matches.get_one::<u64>("limit");
                let rounds_given = matches.get_one::<u32>("rounds");
                let workers_given = matches.get_one::<u32>("workers");
                let price_given = matches.get_one::<u64>("price");
                let generate = matches.get_one::<u32>("generate");
                let limit = limit_given.unwrap_or(50_000_000);
                let rounds = rounds_given.unwrap_or(100_000);
                let workers = workers_given.unwrap_or(1);
                let price = price_given.unwrap_or(0);
                Ok(Some(Options {
                    limit,
                    rounds,
                    workers,
                    price,
                    generate,
                }))
            }
            Err(error) => {
                if error.kind() == ErrorKind::OutOfMemory {
                    Err(AllocError)
                } else {
                    Ok(None)
                }
            }
        }
    }
}

/// What is printed for refused words.
#[tactic(auto, unfolding(crate::specs::Options::usage_text))]
pub fn usage() -> &'static str
    ensures { result.now ≡ usage_text }
{
    "usage: replica [--workers 1..64] [--limit N] [--rounds N] [--generate N] [--price N]\n"
}

// The command, before it is built.
fn describe<'a>(alloc: Global) -> Result<Command<'a>, NoMemory>
    ensures app { IfOk result (λ made. app_of made ≡ command) }
    ensures plain { IfOk result (λ made. groups_of made ≡ []) }
    ensures local { IfOk result (λ made. (out-Command made).has_globals ≡ false) }
{
    let workers = number_or(alloc, "workers", 1, 64, "1");
    let limit = number_or(alloc, "limit", 1, 1_000_000_000_000, "50000000");
    let rounds = number_or(alloc, "rounds", 1, 1_000_000, "100000");
    let generate = number(alloc, "generate", 0, 10_000);
    let price = number_or(alloc, "price", 0, 1_000_000, "0");
    Command::new(alloc, "replica")
        .arg(workers)?
        .arg(limit)?
        .arg(rounds)?
        .arg(generate)?
        .arg(price)
}

/// An option of this name that takes a number from `low` to `high`, with the text that stands for it where it is left out.
pub fn number_or<'a>(alloc: Global, name: &'a str, low: u64, high: u64, default: &'a str) -> Arg<'a>
    ensures rule { rule_of result ≡ default_rule name.entry.now low high default.entry.now }
    ensures local { result.global ≡ false }
{
    number(alloc, name, low, high).default_value(default)
}

// An option that takes a number.
fn number<'a>(alloc: Global, name: &'a str, low: u64, high: u64) -> Arg<'a>
    ensures rule { rule_of result ≡ number_rule name.entry.now low high }
    ensures local { result.global ≡ false }
{
    Arg::new(alloc, name)
        .long(name)
        .value_parser(ValueParser::unsigned(low, high))
}
