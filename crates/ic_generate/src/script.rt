ghost use Rattle.std.specs.Prelude.{◌≡◌, ◌≤◌, ◌++◌, IfOk, OnOk};
ghost use Rattle.wm_tree.specs.Relay.{relay};
ghost use Rattle.wm_encode.specs.Whole.{whole};
ghost use Rattle.ic_generate.specs.Script.{create_lines, drain_line, install_lines, script};

use crate::calls::push_calls;
use crate::canisters::{push_creates, push_installs};
use ic_base::NoMemory;
use ic_principal::Bytes;
use std::alloc::Global;
use wm_encode::{encode, relay_fits};
use wm_tree::samples::relay;

/// The script that a number stands for, which takes that many calls.
#[tactic(auto, unfolding(crate::specs::Script::script))]
pub fn generate(alloc: Global, n: u32) -> Result<Bytes, NoMemory>
    requires { n ≤ 10000 }
    ensures { IfOk result (λ text. text ≡ script n) }
{
    let mut items = Vec::new(alloc);
    push_canisters(alloc, &mut items)?;
    push_calls(alloc, n, &mut items)?;
    push_drain(&mut items)?;
    Ok(Bytes { items })
}

// The canisters are made, and get their code.
fn push_canisters(alloc: Global, text: &mut Vec<u8>) -> Result<(), NoMemory>
    ensures { OnOk result (text.new.items ≡ text.old.items ++ create_lines 8 ++ drain_line ++ install_lines (whole relay) 8 ++ drain_line) }
{
    let code = relay_code(alloc)?;
    push_creates(8, text)?;
    push_drain(text)?;
    push_installs(alloc, &code.items, 8, text)?;
    push_drain(text)
}

fn relay_code(alloc: Global) -> Result<Bytes, NoMemory>
    ensures { IfOk result (λ code. code ≡ whole relay) }
{
    let module = relay(alloc)?;
    relay_fits();
    encode(alloc, &module)
}

#[tactic(auto, unfolding(crate::specs::Script::drain_line))]
fn push_drain(text: &mut Vec<u8>) -> Result<(), NoMemory>
    ensures { OnOk result (text.new.items ≡ text.old.items ++ drain_line) }
{
    text.extend_from_slice(b"drain\n".as_slice())?;
    Ok(())
}
