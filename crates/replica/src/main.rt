//! The program `replica`: runs the script on standard input and prints to standard output. All that
//! it does is the call of `ic_host::replica`, whose status is the exit status. Standard error stays
//! empty.
#![tactic(auto)]

use ic_host::{Status, replica, words_of};
use ic_outside::{OpenGate, StdSink, StdSource};
use std::env;
use std::process::ExitCode;

fn main(rt: HostRuntime) -> ExitCode {
    let status = match words_of(rt.alloc(), env::args(&rt)) {
        Ok(words) => {
            let mut source = StdSource::new(rt.stdin());
            let mut sink = StdSink::new(rt.stdout());
            replica(rt.alloc(), &rt, &words, &mut source, &mut sink, &OpenGate)
        }
        Err(_) => Status::NoMemory,
    };
    status.exit_code()
}
