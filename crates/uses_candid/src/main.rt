//! Encodes the argument of a method from text, by an interface file, and shows the values of an answer.
#![tactic(auto)]

mod ledger;
mod types;

use anyhow::{Context, anyhow};
use cd_codec::{Expected, Values, encode};
use cd_coerce::decode;
use cd_did::{Interface, names_of};
use cd_text::{TextFault, fault_place, print_named, read};
use ic_principal::Bytes;
use ledger::{ANSWER, FILE};
use std::alloc::Global;
use types::{Side, expected_of, interface_of};

/// Why a text says no values, and where.
fn text_error(
    alloc: Global,
    expected: &Expected,
    text: &str,
    fault: TextFault,
) -> anyhow::Result<anyhow::Error> {
    match fault_place(alloc, expected, text.as_bytes())? {
        Some(place) => Ok(anyhow!("{fault:?} at byte {place}")),
        None => Ok(anyhow!("{fault:?}")),
    }
}

/// The message of the arguments that a text says.
fn message_of(alloc: Global, expected: &Expected, text: &str) -> anyhow::Result<Bytes> {
    match read(alloc, expected, text.as_bytes()) {
        Ok(values) => encode(alloc, expected.table(), expected.types(), &values.items).context(
            "out of memory",
        ),
        Err(fault) => Err(text_error(alloc, expected, text, fault)?),
    }
}

/// Prints the message of arguments, or why the text says none.
fn show_message(
    rt: &impl Print,
    alloc: Global,
    expected: &Expected,
    text: &str,
) -> anyhow::Result<()> {
    match message_of(alloc, expected, text) {
        Ok(message) => println!(rt; "{}", hex::encode(alloc, &message.items)?)?,
        Err(error) => println!(rt; "refused: {error}")?,
    }
    Ok(())
}

/// Prints values, with the names that the file has for their fields.
fn show_values(
    rt: &impl Print,
    alloc: Global,
    expected: &Expected,
    values: &Values,
) -> anyhow::Result<()> {
    match names_of(alloc, expected.table(), FILE.as_bytes()) {
        Ok(names) => {
            let (table, types) = (expected.table(), expected.types());
            let text = print_named(alloc, table, types, &values.items, &names)?;
            println!(rt; "{}", str::from_utf8(&text.items)?)?;
            Ok(())
        }
        Err(error) => Err(anyhow!("{error:?}")),
    }
}

/// Prints the values of an answer.
fn show_answer(
    rt: &impl Print,
    alloc: Global,
    expected: &Expected,
    answer: &[u8],
) -> anyhow::Result<()> {
    match decode(alloc, expected, answer) {
        Ok(values) => show_values(rt, alloc, expected, &values),
        Err(fault) => Err(anyhow!("{fault:?}")),
    }
}

fn show(rt: &impl Print, alloc: Global, interface: &Interface) -> anyhow::Result<()> {
    let arguments = expected_of(alloc, interface, "transfer", Side::Arguments)?;
    show_message(
        rt,
        alloc,
        &arguments,
        r#"(record { to = "bob"; amount = 5 })"#,
    )?;
    show_message(rt, alloc, &arguments, r#"(record { to = "bob" })"#)?;
    let results = expected_of(alloc, interface, "transfer", Side::Results)?;
    show_answer(rt, alloc, &results, ANSWER)
}

fn main(rt: HostRuntime) -> anyhow::Result<()> {
    match interface_of(rt.alloc(), FILE) {
        Ok(interface) => show(&rt, rt.alloc(), &interface),
        Err(error) => Err(error),
    }
}
