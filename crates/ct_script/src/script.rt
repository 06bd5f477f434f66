use crate::trace::{Deliveries, Sent, Trace};
use ic_base::NoMemory;
use ic_heard::Heard;
use ic_principal::{Bytes, Principal, Text};
use std::alloc::Global;

/// Where it is written down what a test does: the lines of a script for `replica`, where one is wanted, and what canisters
/// say, where that is.
#[derive(Drop)]
pub struct Script {
    alloc: Global,
    lines: Option<Vec<u8>>,
    trace: Option<Trace>,
}

// Bytes as a script has them; `-` is none.
fn digits_of(alloc: Global, bytes: &Bytes) -> Result<String, NoMemory> {
    if bytes.items.is_empty() {
        return String::from_str(alloc, "-");
    }
    hex::encode(alloc, &bytes.items)
}

impl Script {
    /// Nothing is wanted: lines are dropped.
    pub fn unwanted(alloc: Global) -> Script {
        Script {
            alloc,
            lines: None,
            trace: None,
        }
    }

    /// No lines are wanted, but what canisters say, and where they trap.
    pub fn tracing(alloc: Global) -> Script {
        Script {
            alloc,
            lines: None,
            trace: Some(Trace::new(alloc)),
        }
    }

    /// A script of which only the first line is there, which says what `replica` is to be run with.
    pub fn begin(alloc: Global, limit: u64, price: u64) -> Result<Script, NoMemory> {
        let first = format!(in alloc; "# replica --limit {limit} --price {price}\n")?;
        Ok(Script {
            alloc,
            lines: Some(first.into_bytes()),
            trace: None,
        })
    }

    /// Whether a script is wanted.
    pub fn is_wanted(&self) -> bool {
        self.lines.is_some()
    }

    /// The lines.
    pub fn into_lines(self) -> Option<Vec<u8>> {
        self.lines
    }

    /// Whether it is wanted what canisters say.
    pub fn traces(&self) -> bool {
        self.trace.is_some()
    }

    /// Something begins that is no delivery, as an inspection.
    pub fn pass(&mut self) {
        if let Some(trace) = &mut self.trace {
            trace.pass();
        }
    }

    /// A delivery begins, or the answer of a user's call comes.
    pub fn deliver(&mut self, sent: Sent) -> Result<(), NoMemory> {
        match &mut self.trace {
            None => Ok(()),
            Some(trace) => trace.begin(sent),
        }
    }

    /// What was heard of a canister in the delivery that began last.
    pub fn hear(&mut self, canister: &Principal, heard: &Heard) -> Result<(), NoMemory> {
        match &mut self.trace {
            None => Ok(()),
            Some(trace) => trace.hear(canister, heard),
        }
    }

    /// That many cycles were burned in the delivery that began last.
    pub fn burn(&mut self, burned: u128) {
        if let Some(trace) = &mut self.trace {
            trace.burn(burned);
        }
    }

    /// Takes the deliveries that began since they were last taken.
    pub fn take_deliveries(&mut self) -> Option<Deliveries> {
        match &mut self.trace {
            None => None,
            Some(trace) => Some(trace.take_deliveries()),
        }
    }

    /// What canisters said, if that was wanted.
    pub fn into_trace(self) -> Option<Trace> {
        self.trace
    }

    fn push(&mut self, text: &[u8]) -> Result<(), NoMemory> {
        match &mut self.lines {
            None => Ok(()),
            Some(lines) => lines.extend_from_slice(text),
        }
    }

    /// A comment: a statement, and the line of the test file in which it begins.
    pub fn comment(&mut self, line: usize, statement: &Bytes) -> Result<(), NoMemory> {
        let before = format!(in self.alloc; "# {line}: ")?;
        self.push(before.as_bytes())?;
        self.push(&statement.items)?;
        self.push(b"\n")
    }

    // A line of a word, a sender, a callee, a method and an argument.
    fn message(
        &mut self,
        word: &str,
        sender: &Principal,
        callee: &Principal,
        method: &Text,
        arg: &Bytes,
    ) -> Result<(), NoMemory> {
        if !self.is_wanted() {
            return Ok(());
        }
        let method = method.items.as_str();
        let digits = digits_of(self.alloc, arg)?;
        let line = format!(in self.alloc; "{word} {sender} {callee} {method} {digits}\n")?;
        self.push(line.as_bytes())
    }

    /// A call.
    pub fn call(
        &mut self,
        sender: &Principal,
        callee: &Principal,
        method: &Text,
        arg: &Bytes,
    ) -> Result<(), NoMemory> {
        self.message("call", sender, callee, method, arg)
    }

    /// A query.
    pub fn query(
        &mut self,
        sender: &Principal,
        callee: &Principal,
        method: &Text,
        arg: &Bytes,
    ) -> Result<(), NoMemory> {
        self.message("query", sender, callee, method, arg)
    }

    /// Rounds until no message is left.
    pub fn drain(&mut self) -> Result<(), NoMemory> {
        self.push(b"drain\n")
    }

    /// The message at a place is delivered.
    pub fn pick(&mut self, place: usize) -> Result<(), NoMemory> {
        let line = format!(in self.alloc; "pick {place}\n")?;
        self.push(line.as_bytes())
    }

    /// The last line: a delivery that no pick takes.
    pub fn no_pick(&mut self, delivery: &Bytes) -> Result<(), NoMemory> {
        self.push(b"# not by a pick: ")?;
        self.push(&delivery.items)?;
        self.push(b"\n")
    }

    /// The time is set.
    pub fn time(&mut self, time: u128) -> Result<(), NoMemory> {
        let line = format!(in self.alloc; "time {time}\n")?;
        self.push(line.as_bytes())
    }
}
