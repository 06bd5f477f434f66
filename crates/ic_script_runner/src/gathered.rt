ghost use Rattle.std.specs.Prelude.{◌≡◌, ◌++◌, [], ◌≤◌, ℕ, length, IfOk, OnOk, OnErr, IfErr};
ghost use Rattle.ic_outside.specs.Pieces.{HasNoLf};
ghost use Rattle.ic_script_runner.specs.Acts.{Concludes};
ghost use Rattle.ic_script_runner.specs.Sending.{Interrupts, Gathers, sink_at};

use crate::printing::print_bytes;
use crate::status::Status;
use ic_base::NoMemory;
use ic_outside::{Lines, Sink};
use std::alloc::Global;
use std::marker::Model;

// The most bytes that are gathered.
const ROOM: usize = 65_536;

/// Output that is not sent yet. Contracts see the bytes.
#[derive(Drop)]
pub struct Gathered {
    bytes: Vec<u8>,
}

impl Model for Gathered {
    ghost use Rattle.std.specs.Prelude.{ℕ, List};

    ghost Value = { List ℕ };

    ghost view = { λ g. g.bytes.items };
}

impl Gathered {
    /// Nothing. The memory for all that is gathered is taken here.
    pub fn new(alloc: Global) -> Result<Gathered, NoMemory>
        ensures { IfOk result (λ g. g ≡ []) }
    {
        Ok(Gathered {
            bytes: Vec::with_capacity(alloc, ROOM)?,
        })
    }

    /// Gathers a text. What was gathered is sent where there is no room for the text, and a text for
    /// which there is never room is sent too.
    pub fn put<K: Sink>(&mut self, sink: &mut K, text: &[u8]) -> Result<(), Status>
        ensures { Gathers (sink_at K.taken K.fits K.faults sink.old) (sink_at K.taken K.fits K.faults sink.new)
            self.old text.now self.new result }
    {
        if self.has_room(text) {
            return self.push(text);
        }
        match self.flush(sink) {
            Ok(()) if self.has_room(text) => self.push(text),
            Ok(()) => print_bytes(sink, text),
            Err(status) => Err(status),
        }
    }

    fn has_room(&self, text: &[u8]) -> bool {
        text.len() <= ROOM && self.bytes.len() <= ROOM - text.len()
    }

    fn push(&mut self, text: &[u8]) -> Result<(), Status>
        ensures ok { OnOk result (self.new ≡ self.old ++ text.now) }
        ensures err { IfErr result (λ status. status ≡ Status.NoMemory) }
    {
        match self.bytes.extend_from_slice(text) {
            Ok(()) => Ok(()),
            Err(_) => Err(Status::NoMemory),
        }
    }

    /// Sends what is gathered.
    pub fn flush<K: Sink>(&mut self, sink: &mut K) -> Result<(), Status>
        ensures sent { Gathers (sink_at K.taken K.fits K.faults sink.old) (sink_at K.taken K.fits K.faults sink.new)
            self.old [] self.new result }
        ensures nothing { OnOk result (self.new ≡ []) }
    {
        match print_bytes(sink, &self.bytes) {
            Ok(()) => {
                self.bytes.clear();
                Ok(())
            }
            Err(status) => Err(status),
        }
    }

    /// Sends what is gathered, unless the next line comes without a read of the source.
    pub fn before_reading<K: Sink>(&mut self, lines: &Lines, sink: &mut K) -> Result<(), Status>
        ensures sent { Gathers (sink_at K.taken K.fits K.faults sink.old) (sink_at K.taken K.fits K.faults sink.new)
            self.old [] self.new result }
        ensures nothing { HasNoLf lines.now.kept → OnOk result (self.new ≡ []) }
    {
        if lines.has_line() {
            Ok(())
        } else {
            self.flush(sink)
        }
    }

    /// Sends what is gathered and a text after it, and answers the status.
    pub fn conclude<K: Sink>(&mut self, sink: &mut K, text: &[u8], status: Status) -> Status
        ensures { Concludes (sink_at K.taken K.fits K.faults sink.old) (sink_at K.taken K.fits K.faults sink.new)
            (record { bytes = self.old ++ text.now; status = status }) result }
    {
        match self.put(sink, text) {
            Ok(()) => match self.flush(sink) {
                Ok(()) => status,
                Err(fault) => fault,
            },
            Err(fault) => fault,
        }
    }

    /// Sends what is gathered where there is no memory for more.
    pub fn give_up<K: Sink>(&mut self, sink: &mut K) -> Status
        ensures { Interrupts (sink_at K.taken K.fits K.faults sink.old) (sink_at K.taken K.fits K.faults sink.new)
            self.old result }
    {
        match self.flush(sink) {
            Ok(()) => Status::NoMemory,
            Err(status) => status,
        }
    }
}
