ghost use Rattle.std.specs.Prelude.{◌≡◌, ◌+◌, ◌*◌, ◌/◌, ◌<◌, ◌≤◌, ◌^◌, ◌++◌, IfOk, OnOk, string_bytes};
ghost use Rattle.ic_generate.specs.Script.{call_line, call_lines, next_number, route, run_line};

use ic_base::NoMemory;
use ic_principal::Principal;
use ic_script::hex_word;
use std::alloc::Global;

/// That many calls, chosen from that number on.
pub fn push_calls(alloc: Global, n: u32, text: &mut Vec<u8>) -> Result<(), NoMemory>
    requires { n ≤ 10000 }
    ensures { OnOk result (text.new.items ≡ text.old.items ++ call_lines n 0 n) }
{
    let mut x = n as u64;
    for calls in 0..n {
        x = next_number(x);
        push_call(alloc, x / 256, text)?;
        push_run(calls + 1, text)?;
    }
    Ok(())
}

// The next number of the generator.
fn next_number(x: u64) -> u64
    requires { x < 2 ^ 31 }
    ensures next { result ≡ next_number x }
    ensures below { result < 2 ^ 31 }
{
    (x * 1_103_515_245 + 12_345) % 2_147_483_648
}

fn push_call(alloc: Global, y: u64, text: &mut Vec<u8>) -> Result<(), NoMemory>
    ensures { OnOk result (text.new.items ≡ text.old.items ++ call_line y) }
{
    let line = call_line(alloc, y)?;
    text.extend_from_slice(line.as_bytes())?;
    Ok(())
}

#[tactic(auto, unfolding(crate::specs::Script::call_line))]
fn call_line(alloc: Global, y: u64) -> Result<String, NoMemory>
    ensures { IfOk result (λ line. string_bytes line ≡ call_line y) }
{
    let callee = Principal::canister_id(y % 8);
    let route = hex_word(alloc, route(alloc, y, y / 8 % 4)?.as_slice())?;
    format!(in alloc; "call 2vxsx-fae {callee} relay {route}\n")
}

// The ids of the canisters of a route, one after another.
fn route(alloc: Global, y: u64, places: u64) -> Result<Vec<u8>, NoMemory>
    requires { places < 4 }
    ensures { IfOk result (λ ids. ids.items ≡ route y places) }
{
    let mut ids = Vec::new(alloc);
    for place in 0..places {
        let id = Principal::canister_id(y / scale(place) % 8);
        ids.extend_from_slice(id.bytes())?;
    }
    Ok(ids)
}

// By what the number is divided for a place of the route.
fn scale(place: u64) -> u64
    requires { place < 4 }
    ensures scale { result ≡ 32 * 8 ^ place }
    ensures some { 0 < result }
{
    match place {
        0 => 32,
        1 => 256,
        2 => 2048,
        _ => 16_384,
    }
}

#[tactic(auto, unfolding(crate::specs::Script::run_line))]
fn push_run(calls: u32, text: &mut Vec<u8>) -> Result<(), NoMemory>
    ensures { OnOk result (text.new.items ≡ text.old.items ++ run_line calls) }
{
    if calls % 50 == 0 {
        text.extend_from_slice(b"run 2\n".as_slice())?;
    }
    Ok(())
}
