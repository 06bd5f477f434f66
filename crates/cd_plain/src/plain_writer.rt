ghost use Rattle.std.specs.Prelude.{◌≡◌, ◌++◌, ◌∷◌, [], ◌<◌, OnOk, codes};
ghost use Rattle.std.specs.Char.{digit_char};
ghost use Rattle.std.specs.Fmt.{decimal, signed_decimal};
ghost use Rattle.std.specs.List.{flat_map};
ghost use Rattle.ic_principal.specs.Text.{text_of as principal_text};
ghost use Rattle.cd_plain.specs.Printed.{hex_escape, escape, quoted, name_text, bool_text};

use cd_tokens::is_name;
use ic_base::NoMemory;
use ic_principal::{Principal, Text};
use std::alloc::Global;

pub(crate) fn write_bool(value: bool, out: &mut Vec<u8>) -> Result<(), NoMemory>
    ensures { OnOk result (out.new.items ≡ out.old.items ++ bool_text value) }
{
    if value {
        out.extend_from_slice(b"true")
    } else {
        out.extend_from_slice(b"false")
    }
}

pub(crate) fn write_natural(alloc: Global, n: u128, out: &mut Vec<u8>) -> Result<(), NoMemory>
    ensures { OnOk result (out.new.items ≡ out.old.items ++ decimal n) }
{
    let digits = format!(in alloc; "{n}")?;
    out.extend_from_slice(digits.as_bytes())
}

pub(crate) fn write_integer(alloc: Global, z: i128, out: &mut Vec<u8>) -> Result<(), NoMemory>
    ensures { OnOk result (out.new.items ≡ out.old.items ++ signed_decimal z) }
{
    let digits = format!(in alloc; "{z}")?;
    out.extend_from_slice(digits.as_bytes())
}

fn digit_char(digit: u8) -> u8
    requires { digit < 16 }
    ensures { result ≡ digit_char digit }
{
    if digit < 10 {
        b'0' + digit
    } else {
        b'a' + (digit - 10)
    }
}

fn write_hex_escape(byte: u8, out: &mut Vec<u8>) -> Result<(), NoMemory>
    ensures { OnOk result (out.new.items ≡ out.old.items ++ hex_escape byte) }
{
    let escape = [b'\\', digit_char(byte / 16), digit_char(byte % 16)];
    out.extend_from_slice(&escape)
}

fn write_escape(byte: u8, out: &mut Vec<u8>) -> Result<(), NoMemory>
    ensures { OnOk result (out.new.items ≡ out.old.items ++ escape byte) }
{
    if byte == b'"' || byte == b'\\' {
        out.extend_from_slice(&[b'\\', byte])
    } else if byte < 32 || byte == 127 {
        write_hex_escape(byte, out)
    } else {
        out.push(byte)?;
        Ok(())
    }
}

pub(crate) fn write_blob(bytes: &[u8], out: &mut Vec<u8>) -> Result<(), NoMemory>
    ensures { OnOk result (out.new.items ≡ out.old.items ++ (codes "blob " ++ (34 ∷ (flat_map hex_escape bytes.now ++ 34 ∷ [])))) }
{
    out.extend_from_slice(b"blob \"")?;
    for byte in bytes {
        write_hex_escape(*byte, out)?;
    }
    out.push(b'"')?;
    Ok(())
}

fn write_quoted(bytes: &[u8], out: &mut Vec<u8>) -> Result<(), NoMemory>
    ensures { OnOk result (out.new.items ≡ out.old.items ++ quoted bytes.now) }
{
    out.push(b'"')?;
    for byte in bytes {
        write_escape(*byte, out)?;
    }
    out.push(b'"')?;
    Ok(())
}

pub(crate) fn write_text(text: &Text, out: &mut Vec<u8>) -> Result<(), NoMemory>
    ensures { OnOk result (out.new.items ≡ out.old.items ++ quoted text.now) }
{
    write_quoted(text.items.as_bytes(), out)
}

/// A name as a label: bare where it is one word, in quotes else.
pub(crate) fn write_name(name: &str, out: &mut Vec<u8>) -> Result<(), NoMemory>
    ensures { OnOk result (out.new.items ≡ out.old.items ++ name_text name.now) }
{
    let bytes = name.as_bytes();
    if is_name(bytes) {
        out.extend_from_slice(bytes)
    } else {
        write_quoted(bytes, out)
    }
}

/// A word, a blank, and the text of a principal.
pub(crate) fn write_principal(
    alloc: Global,
    word: &[u8],
    principal: &Principal,
    out: &mut Vec<u8>,
) -> Result<(), NoMemory>
    ensures { OnOk result (out.new.items ≡ out.old.items ++ (word.now ++ quoted (principal_text principal.now))) }
{
    out.extend_from_slice(word)?;
    let text = principal.to_text(alloc)?;
    write_text(&text, out)
}

pub(crate) fn write_method(
    alloc: Global,
    service: &Principal,
    method: &Text,
    out: &mut Vec<u8>,
) -> Result<(), NoMemory>
    ensures { OnOk result (out.new.items ≡ out.old.items ++ (codes "func " ++ (quoted (principal_text service.now) ++ (46 ∷ quoted method.now)))) }
{
    write_principal(alloc, b"func ", service, out)?;
    out.push(b'.')?;
    write_text(method, out)
}
