ghost use Rattle.std.specs.Prelude.{◌≡◌, ◌++◌, IfOk, codes, string_bytes};
ghost use Rattle.ct_report.specs.Told.{BeginsWith, Tells, reject_front};

use crate::naming::with_names;
use cd_codec::{Expected, Values};
use cd_coerce::{DidlFault, decode};
use cd_names::names_of;
use cd_plain::{print, print_named};
use ct_outcomes::{At, Came, Named};
use ct_sources::{Sources, quoted};
use ic_base::{NoMemory, ReadError};
use ic_principal::{Bytes, Text};
use std::alloc::{AllocError, Global};

/// A text as bytes.
pub(crate) fn fixed(alloc: Global, text: &str) -> Result<Bytes, NoMemory>
    ensures { IfOk result (λ bytes. bytes ≡ text.now) }
{
    Ok(Bytes {
        items: String::from_str(alloc, text)?.into_bytes(),
    })
}

// A text after another.
fn joined(first: String, second: &[u8]) -> Result<Bytes, NoMemory>
    ensures { IfOk result (λ told. told ≡ string_bytes first ++ second.now) }
{
    let mut items = first.into_bytes();
    items.extend_from_slice(second)?;
    Ok(Bytes { items })
}

// The begin of the text of a reject, after other words.
#[tactic(auto, unfolding(crate::specs::Told::reject_front))]
fn reject_front(alloc: Global, before: &str, code: u32) -> Result<String, NoMemory>
    ensures { IfOk result (λ told. string_bytes told ≡ before.now ++ reject_front code) }
{
    format!(in alloc; "{before}rejects {code} ")
}

/// A reject, after other words.
pub(crate) fn reject_text(
    alloc: Global,
    before: &str,
    code: u32,
    text: &Text,
) -> Result<Bytes, NoMemory>
    ensures { IfOk result (λ told. BeginsWith (before.now ++ reject_front code) told) }
{
    let front = reject_front(alloc, before, code)?;
    let text = quoted(alloc, text.items.as_str())?;
    joined(front, text.as_bytes())
}

fn fault_name(alloc: Global, fault: DidlFault) -> Result<String, NoMemory> {
    match fault {
        DidlFault::NotHeader => String::from_str(alloc, "NotHeader"),
        DidlFault::Float => String::from_str(alloc, "Float"),
        DidlFault::NotSubtype { argument } => format!(in alloc; "NotSubtype {argument}"),
        DidlFault::BadValue => String::from_str(alloc, "BadValue"),
        DidlFault::NoMemory => Err(AllocError),
    }
}

// Bytes as Candid's texts escape them, and why they are not read at their types.
fn unread(alloc: Global, bytes: &Bytes, fault: DidlFault) -> Result<String, NoMemory> {
    let mut text = String::new(alloc);
    for byte in &bytes.items {
        write!(text, "\\{byte:02x}")?;
    }
    let name = fault_name(alloc, fault)?;
    write!(text, "\", not of its types: {name}")?;
    Ok(text)
}

// Bytes that are not read at their types.
fn unread_text(alloc: Global, bytes: &Bytes, fault: DidlFault) -> Result<Bytes, NoMemory>
    ensures { IfOk result (λ told. BeginsWith (codes "replies") told) }
{
    let front = String::from_str(alloc, "replies blob \"")?;
    joined(front, unread(alloc, bytes, fault)?.as_bytes())
}

// Values with the labels of the interface file that their types come from.
fn labelled(
    alloc: Global,
    sources: &Sources,
    at: At<'_>,
    part: &Expected,
    values: &Values,
) -> Result<Bytes, NoMemory> {
    let text = sources.interface_text(at.id());
    match names_of(alloc, at.table(), text) {
        Ok(names) => print_named(alloc, part.table(), part.types(), &values.items, &names),
        Err(ReadError::Refused) => print(alloc, part.table(), part.types(), &values.items),
        Err(ReadError::NoMemory) => Err(AllocError),
    }
}

/// Values in parentheses, with names for labels and principals; or why the bytes cannot be read at the part of a table
/// that their types need.
pub(crate) fn values_text(
    alloc: Global,
    sources: &Sources,
    at: At<'_>,
    part: &Expected,
    names: &[Named],
    bytes: &Bytes,
) -> Result<Result<Bytes, DidlFault>, NoMemory> {
    match decode(alloc, part, &bytes.items) {
        Ok(values) => {
            let printed = labelled(alloc, sources, at, part, &values)?;
            Ok(Ok(with_names(alloc, names, &printed.items)?))
        }
        Err(fault) => Ok(Err(fault)),
    }
}

// A reply that is read at these types.
fn reply_text(
    alloc: Global,
    sources: &Sources,
    at: At<'_>,
    names: &[Named],
    bytes: &Bytes,
) -> Result<Bytes, NoMemory>
    ensures { IfOk result (λ told. BeginsWith (codes "replies") told) }
{
    let Some(part) = at.needed(alloc)? else {
        return fixed(alloc, "replies");
    };
    match values_text(alloc, sources, at, &part, names, bytes)? {
        Ok(shown) => joined(String::from_str(alloc, "replies ")?, &shown.items),
        Err(fault) => unread_text(alloc, bytes, fault),
    }
}

fn no_principal_text(alloc: Global, name: &Bytes) -> Result<Bytes, NoMemory>
    ensures { IfOk result (λ told. told ≡ codes "'" ++ name.now ++ codes "' is no principal") }
{
    let mut items = String::from_str(alloc, "'")?.into_bytes();
    items.extend_from_slice(&name.items)?;
    items.extend_from_slice(b"' is no principal")?;
    Ok(Bytes { items })
}

/// What came of a statement, as it is told.
pub fn came_text(
    alloc: Global,
    sources: &Sources,
    at: Option<At<'_>>,
    names: &[Named],
    came: &Came,
) -> Result<Bytes, NoMemory>
    ensures { IfOk result (λ told. Tells came.now told) }
{
    match came {
        Came::Replied(bytes) => match at {
            None => fixed(alloc, "replies"),
            Some(at) => reply_text(alloc, sources, at, names, bytes),
        },
        Came::Rejected { code, text } => reject_text(alloc, "", *code, text),
        Came::Refused => fixed(alloc, "refused"),
        Came::NotValues => fixed(alloc, "arguments that are no values of their types"),
        Came::ArgumentTooLong => fixed(alloc, "argument too long"),
        Came::TooManyCalls => fixed(alloc, "too many calls"),
        Came::RoundsWithoutEnd => fixed(alloc, "rounds without end"),
        Came::NoAnswer => fixed(alloc, "no answer"),
        Came::NotMade { code, text } => reject_text(alloc, "no canister made: ", *code, text),
        Came::NotUpgradable => fixed(alloc, "not upgradable"),
        Came::NotPrincipal(name) => no_principal_text(alloc, name),
    }
}
