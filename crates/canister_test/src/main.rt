//! The program `canister_test`: runs the tests of files that the words name. All that it does is the call
//! of `ct_host::canister_test`, whose status is the exit status.
#![tactic(auto)]

use ct_host::{Outputs, Status, StdDisk, canister_test};
use ct_words::words_of;
use ic_outside::{OpenGate, StdSink};
use std::env;
use std::io::IsTerminal;
use std::process::ExitCode;

fn main(rt: HostRuntime) -> ExitCode {
    let status = match words_of(rt.alloc(), env::args(&rt)) {
        Ok(words) => {
            let disk = StdDisk { rt: &rt };
            let err = rt.stderr();
            let is_terminal = err.is_terminal();
            let mut outputs = Outputs {
                out: StdSink::new(rt.stdout()),
                err: StdSink::new(err),
                is_terminal,
            };
            canister_test(rt.alloc(), &rt, &words, &disk, &mut outputs, &OpenGate)
        }
        Err(_) => Status::NoMemory,
    };
    status.exit_code()
}
