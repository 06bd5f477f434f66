ghost use Rattle.std.specs.Prelude.{◌≡◌, ◌≢◌, ◌≤◌, ◌<◌, ◌^◌, ℕ, List, length, Ok, Err, option_copied};
ghost use Rattle.ic_script.specs.Line.{Agrees, command_of, says_nothing};
ghost use Rattle.ic_script.specs.Words.{words_left};
ghost use Rattle.ic_script.specs.Command.{ask_of, run_command, pick_command, alone, time_command, bytes_pair, witness_command, principal_word, bytes_word, number_word};

use crate::command::{Ask, Command};
use crate::line_cause::LineError;
use crate::paths::{are_few, paths};
use crate::words::{first_word, four_words, is_numeral, one_word, two_words, well_formed};
use hex::FromHexError;
use ic_principal::{Bytes, Principal, Text};
use std::alloc::Global;

const LONGEST_METHOD: usize = 20_000;

const MOST_BYTES: usize = 2_097_152;

const MOST_ROUNDS: u64 = 1_000_000;

const LARGEST_PLACE: u64 = 1_000_000;

const LATEST_TIME: u64 = 9_223_372_036_854_775_807;

/// The command that a line spells, or why it spells none. `bytes` is the line without its line
/// feed. Memory is taken for a method and for bytes alone.
#[tactic(auto, unfolding(crate::specs::Line::command_of, crate::specs::Command::command_of_words))]
pub fn parse_line(alloc: Global, bytes: &[u8]) -> Result<Command, LineError>
    ensures line { Agrees result (command_of bytes.now) }
    ensures time { (time : ℕ) → command_of bytes.now ≡ Ok (Command.Time time) → time ≤ 9223372036854775807 }
    ensures size { (from to : List ℕ) → command_of bytes.now ≡ Ok (Command.Upgradable from to)
        → (length from ≤ 2097152) × (length to ≤ 2097152) }
{
    if says_nothing(bytes) {
        return Ok(Command::Nothing);
    }
    let Some(line) = well_formed(bytes) else {
        return Err(LineError::Form);
    };
    let (verb, operands) = first_word(line);
    match verb {
        "call" => Ok(Command::Call(parse_ask(alloc, operands)?)),
        "query" => Ok(Command::Query(parse_ask(alloc, operands)?)),
        "run" => parse_run(operands),
        "drain" => parse_alone(operands, Command::Drain),
        "time" => parse_time(operands),
        "state" => parse_alone(operands, Command::State),
        "decode" => {
            let (expected, bytes) = parse_pair(alloc, operands)?;
            Ok(Command::Decode { expected, bytes })
        }
        "show" => {
            let (expected, bytes) = parse_pair(alloc, operands)?;
            Ok(Command::Show { expected, bytes })
        }
        "encode" => {
            let (expected, text) = parse_pair(alloc, operands)?;
            Ok(Command::Encode { expected, text })
        }
        "upgradable" => {
            let (from, to) = parse_pair(alloc, operands)?;
            Ok(Command::Upgradable { from, to })
        }
        "witness" => parse_witness(alloc, operands),
        "pick" => parse_pick(operands),
        _ => Err(LineError::Form),
    }
}

/// Whether a line is empty or a comment.
fn says_nothing(line: &[u8]) -> bool
    ensures { result ≡ says_nothing line.now }
{
    match line {
        [] => true,
        [first, ..] => *first == b'#',
    }
}

/// A request in four words: sender, callee, method, argument.
#[tactic(auto, unfolding(crate::specs::Command::ask_of))]
fn parse_ask(alloc: Global, operands: Option<&str>) -> Result<Ask, LineError>
    ensures { Agrees result (ask_of (words_left (option_copied operands.entry))) }
{
    let Some((sender, callee, method, arg)) = four_words(operands) else {
        return Err(LineError::Form);
    };
    if method.len() > LONGEST_METHOD {
        return Err(LineError::Form);
    }
    let sender = principal(sender)?;
    let callee = principal(callee)?;
    let arg = hex_bytes(alloc, arg)?;
    let method = Text {
        items: String::from_str(alloc, method)?,
    };
    Ok(Ask {
        sender,
        callee,
        method,
        arg,
    })
}

/// A number of rounds in one word.
#[tactic(auto, unfolding(crate::specs::Command::run_command))]
fn parse_run(operands: Option<&str>) -> Result<Command, LineError>
    ensures { Agrees result (run_command (words_left (option_copied operands.entry))) }
{
    let Some(count) = one_word(operands) else {
        return Err(LineError::Form);
    };
    Ok(Command::Run(number(count, MOST_ROUNDS)? as u32))
}

/// A place of the list of messages in one word.
#[tactic(auto, unfolding(crate::specs::Command::pick_command))]
fn parse_pick(operands: Option<&str>) -> Result<Command, LineError>
    ensures { Agrees result (pick_command (words_left (option_copied operands.entry))) }
{
    let Some(place) = one_word(operands) else {
        return Err(LineError::Form);
    };
    Ok(Command::Pick(number(place, LARGEST_PLACE)? as u32))
}

/// Paths in one word.
#[tactic(auto, unfolding(crate::specs::Command::witness_command))]
fn parse_witness(alloc: Global, operands: Option<&str>) -> Result<Command, LineError>
    ensures { Agrees result (witness_command (words_left (option_copied operands.entry))) }
{
    let Some(word) = one_word(operands) else {
        return Err(LineError::Form);
    };
    if !are_few(word) {
        return Err(LineError::Form);
    }
    Ok(Command::Witness(paths(alloc, word)?))
}

/// A command without further words.
fn parse_alone(operands: Option<&str>, command: Command) -> Result<Command, LineError>
    ensures { Agrees result (alone command (words_left (option_copied operands.entry))) }
{
    match operands {
        None => Ok(command),
        Some(_) => Err(LineError::Form),
    }
}

/// A time in one word.
#[tactic(auto, unfolding(crate::specs::Command::time_command))]
fn parse_time(operands: Option<&str>) -> Result<Command, LineError>
    ensures { Agrees result (time_command (words_left (option_copied operands.entry))) }
{
    let Some(time) = one_word(operands) else {
        return Err(LineError::Form);
    };
    Ok(Command::Time(number(time, LATEST_TIME)?))
}

/// Bytes in two words.
#[tactic(auto, unfolding(crate::specs::Command::bytes_pair))]
fn parse_pair(alloc: Global, operands: Option<&str>) -> Result<(Bytes, Bytes), LineError>
    ensures { Agrees result (bytes_pair (words_left (option_copied operands.entry))) }
{
    let Some((first, second)) = two_words(operands) else {
        return Err(LineError::Form);
    };
    let first = hex_bytes(alloc, first)?;
    let second = hex_bytes(alloc, second)?;
    Ok((first, second))
}

/// The principal that a word names.
fn principal(word: &str) -> Result<Principal, LineError>
    ensures word { Agrees result (principal_word word.now) }
    ensures no_memory_taken { result ≢ Err LineError.NoMemory }
{
    match Principal::from_text(word) {
        Ok(principal) => Ok(principal),
        Err(_) => Err(LineError::Principal),
    }
}

/// The bytes that a word spells: none for a dash, else those of its hexadecimal digits.
fn hex_bytes(alloc: Global, word: &str) -> Result<Bytes, LineError>
    ensures { Agrees result (bytes_word word.now) }
{
    if word == "-" {
        return Ok(Bytes {
            items: Vec::new(alloc),
        });
    }
    match hex::decode(alloc, word) {
        Ok(items) if items.len() > MOST_BYTES => Err(LineError::Size),
        Ok(items) => Ok(Bytes { items }),
        Err(FromHexError::OutOfMemory) => Err(LineError::NoMemory),
        Err(_) => Err(LineError::Hex),
    }
}

/// The number that a word spells in decimal, where it is at most so large.
fn number(word: &str, most: u64) -> Result<u64, LineError>
    ensures word { Agrees result (number_word most word.now) }
    ensures no_memory_taken { result ≢ Err LineError.NoMemory }
{
    if !is_numeral(word) {
        return Err(LineError::Number);
    }
    match word.parse::<u64>() {
        Ok(number) if number <= most => Ok(number),
        _ => Err(LineError::Number),
    }
}
