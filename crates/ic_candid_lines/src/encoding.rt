ghost use Rattle.std.specs.Prelude.{◌≡◌, IfOk};
ghost use Rattle.cd_text.specs.ReadText.{values_of};
ghost use Rattle.ic_candid_lines.specs.Encoding.{not_text, said_text, encode_text};

use crate::decoding::{bad_expected_text, message_text, types_of};
use cd_codec::Expected;
use cd_text::{TextFault, read};
use ic_base::NoMemory;
use ic_principal::Bytes;
use std::alloc::{AllocError, Global};

/// What is printed for a text of Candid values, read at the types of the header that `expected` is.
#[tactic(auto, unfolding(crate::specs::Encoding::encode_text))]
pub fn encode_text(alloc: Global, expected: &[u8], text: &[u8]) -> Result<Bytes, NoMemory>
    ensures { IfOk result (λ printed. printed ≡ encode_text expected.now text.now) }
{
    match types_of(alloc, expected)? {
        Some(expected) => said_text(alloc, &expected, text),
        None => bad_expected_text(alloc),
    }
}

fn said_text(alloc: Global, expected: &Expected, text: &[u8]) -> Result<Bytes, NoMemory>
    ensures { IfOk result (λ printed. printed ≡ said_text expected.now (values_of expected.now.0 expected.now.1 text.now)) }
{
    let _entries = expected.table().len();
    match read(alloc, expected, text) {
        Ok(values) => message_text(alloc, "encoded", expected, &values),
        Err(TextFault::NotText) => not_text(alloc),
        Err(TextFault::NoMemory) => Err(AllocError),
    }
}

#[tactic(auto, unfolding(crate::specs::Encoding::not_text))]
fn not_text(alloc: Global) -> Result<Bytes, NoMemory>
    ensures { IfOk result (λ printed. printed ≡ not_text) }
{
    Ok(Bytes {
        items: String::from_str(alloc, "refused NotText\n")?.into_bytes(),
    })
}
