ghost use Rattle.std.specs.Prelude.{◌≡◌, ◌≢◌, IfOk};
ghost use Rattle.cd_codec.specs.AreValues.{HasTypes};
ghost use Rattle.cd_codec.specs.Answers.{contents};
ghost use Rattle.cd_coerce.specs.Decoded.{decoded};
ghost use Rattle.ic_candid_lines.specs.Decoding.{types_of, refused_text, decoded_text, message_text, answer_text, decode_text, shown_text, show_text, bad_expected_text};

use cd_codec::{HeaderFault, Values, encode, read_header};
use cd_coerce::{DidlFault, Expected, decode};
use cd_plain::print;
use ic_base::NoMemory;
use ic_principal::Bytes;
use std::alloc::{AllocError, Global};

/// What is printed for a Candid message, read at the types of the header that `expected` is.
#[tactic(auto, unfolding(crate::specs::Decoding::decode_text))]
pub fn decode_text(alloc: Global, expected: &[u8], message: &[u8]) -> Result<Bytes, NoMemory>
    ensures { IfOk result (λ text. text ≡ decode_text expected.now message.now) }
{
    match types_of(alloc, expected)? {
        Some(expected) => decoded_answer(alloc, &expected, message),
        None => bad_expected_text(alloc),
    }
}

/// What is printed for a Candid message whose values are shown, read as by `decode_text`.
#[tactic(auto, unfolding(crate::specs::Decoding::show_text))]
pub fn show_text(alloc: Global, expected: &[u8], message: &[u8]) -> Result<Bytes, NoMemory>
    ensures { IfOk result (λ text. text ≡ show_text expected.now message.now) }
{
    match types_of(alloc, expected)? {
        Some(expected) => shown_answer(alloc, &expected, message),
        None => bad_expected_text(alloc),
    }
}

/// The expected types that the bytes give, where they are a header with nothing after it.
#[tactic(auto, unfolding(crate::specs::Decoding::types_of))]
pub(crate) fn types_of(alloc: Global, bytes: &[u8]) -> Result<Option<Expected>, NoMemory>
    ensures { IfOk result (λ found. found ≡ types_of bytes.now) }
{
    match read_header(alloc, bytes) {
        Ok(header) => {
            if header.length < bytes.len() {
                return Ok(None);
            }
            Ok(Some(Expected::of(header.table, header.types.items)))
        }
        Err(HeaderFault::NoMemory) => Err(AllocError),
        Err(HeaderFault::NotHeader) => Ok(None),
        Err(HeaderFault::Float) => Ok(None),
    }
}

fn decoded_answer(alloc: Global, expected: &Expected, message: &[u8]) -> Result<Bytes, NoMemory>
    ensures { IfOk result (λ text. text ≡ answer_text decoded_text expected.now (decoded expected.now message.now)) }
{
    match decode(alloc, expected, message) {
        Ok(values) => message_text(alloc, "decoded", expected, &values),
        Err(fault) => refused_text(alloc, fault),
    }
}

/// A word, and the message that the values are at the expected types, in hexadecimal.
#[tactic(auto, unfolding(crate::specs::Decoding::message_text))]
pub(crate) fn message_text(
    alloc: Global,
    word: &str,
    expected: &Expected,
    values: &Values,
) -> Result<Bytes, NoMemory>
    requires { HasTypes expected.now.0 expected.now.1 (contents values.now) }
    ensures { IfOk result (λ text. text ≡ message_text word.now expected.now (contents values.now)) }
{
    let bytes = encode(alloc, expected.table(), expected.types(), &values.items)?;
    let digits = hex::encode(alloc, &bytes.items)?;
    Ok(Bytes {
        items: format!(in alloc; "{word} {digits}\n")?.into_bytes(),
    })
}

fn shown_answer(alloc: Global, expected: &Expected, message: &[u8]) -> Result<Bytes, NoMemory>
    ensures { IfOk result (λ text. text ≡ answer_text shown_text expected.now (decoded expected.now message.now)) }
{
    match decode(alloc, expected, message) {
        Ok(values) => shown_text(alloc, expected, &values),
        Err(fault) => refused_text(alloc, fault),
    }
}

#[tactic(auto, unfolding(crate::specs::Decoding::shown_text))]
fn shown_text(alloc: Global, expected: &Expected, values: &Values) -> Result<Bytes, NoMemory>
    ensures { IfOk result (λ text. text ≡ shown_text expected.now (contents values.now)) }
{
    let mut items = Vec::new(alloc);
    items.extend_from_slice(b"shown ")?;
    let text = print(alloc, expected.table(), expected.types(), &values.items)?;
    items.extend_from_slice(&text.items)?;
    items.push(b'\n')?;
    Ok(Bytes { items })
}

/// For a message that is not read. Out of memory is an error here too.
#[tactic(auto, unfolding(crate::specs::Decoding::refused_text))]
fn refused_text(alloc: Global, fault: DidlFault) -> Result<Bytes, NoMemory>
    ensures { IfOk result (λ text. (text ≡ refused_text fault) × (fault ≢ DidlFault.NoMemory)) }
{
    let text = match fault {
        DidlFault::NotHeader => String::from_str(alloc, "refused NotHeader\n")?,
        DidlFault::Float => String::from_str(alloc, "refused Float\n")?,
        DidlFault::NotSubtype { argument } => {
            format!(in alloc; "refused NotSubtype {argument}\n")?
        }
        DidlFault::BadValue => String::from_str(alloc, "refused BadValue\n")?,
        DidlFault::NoMemory => return Err(AllocError),
    };
    Ok(Bytes {
        items: text.into_bytes(),
    })
}

#[tactic(auto, unfolding(crate::specs::Decoding::bad_expected_text))]
pub(crate) fn bad_expected_text(alloc: Global) -> Result<Bytes, NoMemory>
    ensures { IfOk result (λ text. text ≡ bad_expected_text) }
{
    Ok(Bytes {
        items: String::from_str(alloc, "bad expected\n")?.into_bytes(),
    })
}
