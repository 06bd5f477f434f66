ghost use Rattle.std.specs.Prelude.{◌≡◌, ◌≤◌, ◌<◌, ◌++◌, IfOk, OnOk, string_bytes};
ghost use Rattle.ic_generate.specs.Script.{create_line, create_lines, install_line, install_lines, install_values};

use ic_base::NoMemory;
use ic_leb::write_u;
use ic_principal::Principal;
use std::alloc::Global;

const CREATE: &str =
    "call 2vxsx-fae aaaaa-aa provisional_create_canister_with_cycles 4449444c026e7d6c01d8a38ca80d0001010180a094a58d1d\n";

/// The lines that make that many canisters.
pub fn push_creates(count: u64, text: &mut Vec<u8>) -> Result<(), NoMemory>
    ensures { OnOk result (text.new.items ≡ text.old.items ++ create_lines count) }
{
    for _made in 0..count {
        push_create(text)?;
    }
    Ok(())
}

#[tactic(auto, unfolding(crate::specs::Script::create_line))]
fn push_create(text: &mut Vec<u8>) -> Result<(), NoMemory>
    ensures { OnOk result (text.new.items ≡ text.old.items ++ create_line) }
{
    text.extend_from_slice(CREATE.as_bytes())?;
    Ok(())
}

/// The lines that install a module in the first canisters, that many of them.
pub fn push_installs(
    alloc: Global,
    code: &[u8],
    count: u64,
    text: &mut Vec<u8>,
) -> Result<(), NoMemory>
    ensures { OnOk result (text.new.items ≡ text.old.items ++ install_lines code.now count) }
{
    for counter in 0..count {
        push_install(alloc, code, counter, text)?;
    }
    Ok(())
}

fn push_install(
    alloc: Global,
    code: &[u8],
    counter: u64,
    text: &mut Vec<u8>,
) -> Result<(), NoMemory>
    ensures { OnOk result (text.new.items ≡ text.old.items ++ install_line code.now counter) }
{
    let line = install_line(alloc, code, counter)?;
    text.extend_from_slice(line.as_bytes())?;
    Ok(())
}

#[tactic(auto, unfolding(crate::specs::Script::install_line))]
fn install_line(alloc: Global, code: &[u8], counter: u64) -> Result<String, NoMemory>
    ensures { IfOk result (λ line. string_bytes line ≡ install_line code.now counter) }
{
    let values = install_values(alloc, code, counter)?;
    let digits = hex::encode(alloc, values.as_slice())?;
    format!(in alloc;
        "call 2vxsx-fae aaaaa-aa install_code 4449444c036d7b6b019baaebec087f6c04d6fca70200a79fc97e00e3a683c30401b3c4b1f204680102{digits}\n"
    )
}

// After the Candid header of an argument of install_code.
fn install_values(alloc: Global, code: &[u8], counter: u64) -> Result<Vec<u8>, NoMemory>
    ensures { IfOk result (λ values. values.items ≡ install_values code.now counter) }
{
    let mut values = Vec::new(alloc);
    values.push(0)?;
    write_u(code.len() as u128, &mut values)?;
    values.extend_from_slice(code)?;
    values.extend_from_slice(b"\0\x01\x0A".as_slice())?;
    values.extend_from_slice(Principal::canister_id(counter).bytes())?;
    Ok(values)
}
