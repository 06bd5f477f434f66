//! The top call: a command line and a script in, an answer and a status out.
//!
//! `replica` reads the words, and runs the script as they ask: what its lines do and print is in
//! `ic_script_runner`. Unless memory or a stream fails, what it prints and answers is a function of the words
//! and the script (`out`), whatever pieces its source gives and its sink takes. The lines change a state
//! as the IC Interface Specification says ("Abstract behavior"), and what happens to it is a run
//! (`specs/Trace.antt`), of which the contract of `replica` says that it is the one of what is printed
//! (`specs/Printed.antt`), and what holds in all of it (`specs/Headline.antt`). So that they are found
//! here, the calls beside it are handed on: `words_of`, `generate`, `round` and `state_line`.
#![tactic(auto)]

mod top;

pub use ic_candid_lines::laws;
pub use ic_generate::generate;
pub use ic_options::words_of;
pub use ic_output::state_line;
pub use ic_queue_rounds::round;
pub use ic_script_runner::Status;
pub use top::replica;
