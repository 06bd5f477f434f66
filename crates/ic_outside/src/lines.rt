ghost use Rattle.std.specs.Prelude.{◌≡◌, ◌<◌, ◌≤◌, ◌+◌, ◌-◌, ◌^◌, ◌⊎◌, ◌≢◌, ℕ, List, [], Option, None, Some, Err, IsTrue, false, Contains, length, take, vec_len, IfSome, IfOk, IfErr, OnOk, OnErr, MatchOption, MatchResult};
ghost use Rattle.std.specs.Bool.{OnTrue, OnFalse};
ghost use Rattle.std.specs.Io.KnownBytes.{prepend_known, IsAtEnd};
ghost use Rattle.ic_outside.specs.Faults.{Rose, count_after_line};
ghost use Rattle.ic_outside.specs.Limits.{excess};
ghost use Rattle.ic_outside.specs.Pieces.{HasNoLf};
ghost use Rattle.ic_outside.specs.Reads.{Reads, AnswersBySeen};
ghost use Rattle.ic_outside.specs.Steps.{BeginsWithLine, IsFaultOf, IsNear, handed_out, IsBlock, Filled, Unfilled};

use crate::kept::Kept;
use crate::{LineFault, Source};
use ic_base::NoMemory;
use ic_principal::Bytes;
use memchr::memchr;
use std::alloc::Global;
use std::marker::Model;

// How many bytes the source is asked for at once.
const BLOCK: usize = 65_536;

/// A line of a script.
#[derive(Debug, Drop)]
pub struct Line {
    /// Its place among the lines, from 1.
    pub number: u64,

    /// Its bytes, without the LF.
    pub bytes: Bytes,
}

/// Reads a script line by line, within limits. Contracts see the limits, the bytes that are kept,
/// how many bytes and lines were handed out, whether the source gave its end, and the fault.
#[derive(Drop)]
pub struct Lines {
    alloc: Global,
    largest_line: usize,
    largest_script: u64,
    kept: Kept,
    // That many bytes at the front of `kept` hold no LF and pass no limit.
    searched: usize,
    // What the source reads into, from the first read on.
    block: Vec<u8>,
    offset: u64,
    handed: u64,
    ended: bool,
    fault: Option<LineFault>,
}

impl Model for Lines {
    ghost use Rattle.ic_outside.specs.LineReader.{LineReader};

    ghost Value = { LineReader };

    ghost use Rattle.ic_outside.specs.LinesInside.{reader_of, IsSound};

    ghost view = { reader_of };

    ghost invariant = { IsSound };
}

impl Lines {
    /// A reader that has handed out nothing, for lines of at most `largest_line` bytes before their
    /// LF and a script of at most `largest_script` bytes. It takes no memory: the allocator is for
    /// the calls of `next`.
    pub fn new(alloc: Global, largest_line: usize, largest_script: u64) -> Lines
        requires { largest_script < 2 ^ 64 - 1 }
        ensures { result ≡ record {
          limits = record { line = largest_line; script = largest_script };
          kept = [];
          offset = 0;
          handed = 0;
          ended = false;
          fault = None;
        } }
    {
        Lines {
            alloc,
            largest_line,
            largest_script,
            kept: Kept::from_vec(Vec::new(alloc)),
            searched: 0,
            block: Vec::new(alloc),
            offset: 0,
            handed: 0,
            ended: false,
            fault: None,
        }
    }

    /// The next line, or none where the source gave its end and all bytes were handed out. It reads
    /// only while no whole line is kept, each time into a buffer of 65,536 bytes. The last line may
    /// lack its LF. After a fault each call answers that fault and reads nothing.
    pub fn next<S: Source>(&mut self, source: &mut S) -> Result<Option<Line>, LineFault>
        ensures reads { self.old.fault ≡ None
            → Reads self.old (S.left source.old) (S.left source.new) result self.new }
        ensures fault { MatchResult result (λ _. self.new.fault ≡ self.old.fault)
            (λ fault. self.new.fault ≡ Some fault) }
        ensures repeats { IfSome self.old.fault (λ fault.
            (result ≡ Err fault) × (self.new ≡ self.old) × (source.new ≡ source.old)) }
        ensures over { IsTrue self.old.ended → source.new ≡ source.old }
        // Where a whole line is kept nothing is read.
        ensures kept { Contains self.old.kept 10 → source.new ≡ source.old }
        ensures gave_end { IsTrue self.new.ended → IsTrue self.old.ended ⊎ IsTrue (S.ended source.new) }
        // The source's count is one more exactly where the source fails now.
        ensures counted { self.old.fault ≡ None → S.faults source.new ≡ count_after_line (S.faults source.old) result }
        ensures later { S.faults source.old ≤ S.faults source.new }
        ensures cause { result ≡ Err LineFault.ReadFault
            → (self.old.fault ≡ Some LineFault.ReadFault) ⊎ Rose (S.faults source.old) (S.faults source.new) }
        ensures sure { S.cannot_fail source.old → S.cannot_fail source.new × (S.faults source.new ≡ S.faults source.old)
            × (self.old.fault ≡ None → result ≢ Err LineFault.ReadFault) }
    {
        match self.fault {
            Some(fault) => Err(fault),
            None => match self.advance(source) {
                Ok(line) => Ok(line),
                Err(fault) => {
                    self.fault = Some(fault);
                    Err(fault)
                }
            },
        }
    }

    /// Whether a whole line is kept, so that `next` reads nothing.
    pub fn has_line(&self) -> bool
        ensures yes { OnTrue result (¬ HasNoLf self.now.kept) }
        ensures no { OnFalse result (HasNoLf self.now.kept) }
    {
        match self.whole_line() {
            Some(_) => true,
            None => false,
        }
    }

    // The next line, of a reader without a fault. Where the source is not as before, what was kept
    // had no whole line and the source had not given its end.
    fn advance<S: Source>(&mut self, source: &mut S) -> Result<Option<Line>, LineFault>
        ensures reads { Reads self.old (S.left source.old) (S.left source.new) result self.new }
        ensures fault { self.new.fault ≡ self.old.fault }
        ensures untouched { (source.new ≡ source.old) ⊎ (HasNoLf self.old.kept × (self.old.ended ≡ false)) }
        ensures gave_end { IsTrue self.new.ended → IsTrue self.old.ended ⊎ IsTrue (S.ended source.new) }
        ensures counted { S.faults source.new ≡ count_after_line (S.faults source.old) result }
        ensures sure { S.cannot_fail source.old → S.cannot_fail source.new
            × (S.faults source.new ≡ S.faults source.old) × (result ≢ Err LineFault.ReadFault) }
    {
        'reading: loop {
            if let Some(size) = self.whole_line() {
                return self.take_line(size);
            }
            if self.ended {
                return self.take_rest();
            }
            let size = self.kept.as_slice().len();
            if let Err(fault) = self.check(size, size) {
                return Err(fault);
            }
            if let Err(fault) = self.fill(source) {
                return Err(fault);
            }
        }
    }

    // The length of the whole line that is kept first.
    fn whole_line(&self) -> Option<usize>
        ensures { MatchOption result (HasNoLf self.now.kept)
            (λ n. BeginsWithLine self.now.kept n × (length self.now.kept ≤ n + 65536) × (n + 1 < 2 ^ 64)) }
    {
        match memchr(b'\n', &self.kept.as_slice()[self.searched..]) {
            Some(n) => Some(self.searched + n),
            None => None,
        }
    }

    // Hands out the whole line of that many bytes that is kept first.
    fn take_line(&mut self, size: usize) -> Result<Option<Line>, LineFault>
        requires line { BeginsWithLine self.old.kept size }
        requires ahead { length self.old.kept ≤ size + 65536 }
        requires bound { size + 1 < 2 ^ 64 }
        ensures answers { (left : Option (List ℕ)) → AnswersBySeen self.old self.old.kept left result self.new }
        ensures fault { self.new.fault ≡ self.old.fault }
        ensures ended { self.new.ended ≡ self.old.ended }
        ensures read { result ≢ Err LineFault.ReadFault }
    {
        let piece = size + 1;
        match self.check(size, piece) {
            Ok(()) => match self.hand_out(size, piece) {
                Ok(line) => Ok(Some(line)),
                Err(fault) => Err(fault),
            },
            Err(fault) => Err(fault),
        }
    }

    // Hands out all that is kept as the last line, where there is anything.
    fn take_rest(&mut self) -> Result<Option<Line>, LineFault>
        requires one_line { HasNoLf self.old.kept }
        requires ended { IsTrue self.old.ended }
        ensures answers { (left : Option (List ℕ)) → AnswersBySeen self.old self.old.kept left result self.new }
        ensures fault { self.new.fault ≡ self.old.fault }
        ensures ended { self.new.ended ≡ self.old.ended }
        ensures read { result ≢ Err LineFault.ReadFault }
    {
        let size = self.kept.as_slice().len();
        if size == 0 {
            return Ok(None);
        }
        match self.check(size, size) {
            Ok(()) => match self.hand_out(size, size) {
                Ok(line) => Ok(Some(line)),
                Err(fault) => Err(fault),
            },
            Err(fault) => Err(fault),
        }
    }

    // Whether a line of that many bytes, in a piece of the script that begins where the reader
    // stands, passes a limit.
    fn check(&self, line: usize, piece: usize) -> Result<(), LineFault>
        ensures ok { OnOk result (excess self.now.limits self.now.offset line piece ≡ None) }
        ensures err { IfErr result
            (IsFaultOf (excess self.now.limits self.now.offset line piece) (self.now.handed + 1)) }
        ensures near { IsNear self.now }
    {
        let number = self.handed + 1;
        let room = self.largest_script - self.offset;
        if line > self.largest_line && self.largest_line as u64 <= room {
            return Err(LineFault::LineTooLong { line: number });
        }
        if piece as u64 > room {
            return Err(LineFault::ScriptTooLong { line: number });
        }
        Ok(())
    }

    // Hands out a line whose piece of the script is the front of what is kept.
    fn hand_out(&mut self, line: usize, piece: usize) -> Result<Line, LineFault>
        requires shorter { line ≤ piece }
        requires kept { piece ≤ length self.old.kept }
        requires some { 0 < piece }
        requires ahead { length self.old.kept ≤ piece + 65536 }
        requires fits { excess self.old.limits self.old.offset line piece ≡ None }
        ensures ok { IfOk result (λ l. (l.number ≡ self.old.handed + 1) × (l.bytes ≡ take line self.old.kept)
            × (self.new ≡ handed_out self.old piece)) }
        ensures err { IfErr result (λ fault. (fault ≡ LineFault.NoMemory) × (self.new ≡ self.old)) }
    {
        let bytes = match Vec::from_slice(self.alloc, &self.kept.as_slice()[..line]) {
            Ok(items) => Bytes { items },
            Err(_) => return Err(LineFault::NoMemory),
        };
        self.kept.take(piece);
        self.searched = 0;
        self.offset += piece as u64;
        self.handed += 1;
        Ok(Line {
            number: self.handed,
            bytes,
        })
    }

    // Reads once more, where what is kept is the front of a line that passes no limit so far.
    fn fill<S: Source>(&mut self, source: &mut S) -> Result<(), LineFault>
        requires one_line { HasNoLf self.old.kept }
        requires going { self.old.ended ≡ false }
        requires fits { excess self.old.limits self.old.offset (length self.old.kept) (length self.old.kept) ≡ None }
        ensures filled { OnOk result
            (Filled self.old (S.left source.old) (S.left source.new) (S.ended source.new) self.new) }
        ensures unfilled { IfErr result (Unfilled (S.left source.old) (S.left source.new)) }
        ensures as_before { OnErr result (self.new ≡ self.old) }
        ensures counted { S.faults source.new ≡ count_after_line (S.faults source.old) result }
        ensures sure { S.cannot_fail source.old → S.cannot_fail source.new
            × (S.faults source.new ≡ S.faults source.old) × (result ≢ Err LineFault.ReadFault) }
    {
        self.searched = self.kept.as_slice().len();
        match read_block(self.alloc, &mut self.block, source) {
            Ok(0) => {
                self.ended = true;
                Ok(())
            }
            Ok(count) => match self.kept.push(&self.block[..count]) {
                Ok(()) => Ok(()),
                Err(_) => Err(LineFault::NoMemory),
            },
            Err(fault) => Err(fault),
        }
    }
}

// Reads into the block, whose memory is taken at the first read; how many bytes came.
fn read_block<S: Source>(
    alloc: Global,
    block: &mut Vec<u8>,
    source: &mut S,
) -> Result<usize, LineFault>
    requires { IsBlock (vec_len block.old) }
    ensures block { IsBlock (vec_len block.new) }
    // One block is asked for at a time.
    ensures asked { vec_len block.new ≤ 65536 }
    ensures bound { IfOk result (λ n. n ≤ vec_len block.new) }
    ensures taken { IfOk result (λ n. S.left source.old ≡ prepend_known (take n block.new.items) (S.left source.new)) }
    ensures at_end { IfOk result (λ n. n ≡ 0 → IsAtEnd (S.left source.new) × IsTrue (S.ended source.new)) }
    ensures unfilled { IfErr result (Unfilled (S.left source.old) (S.left source.new)) }
    ensures counted { S.faults source.new ≡ count_after_line (S.faults source.old) result }
    ensures sure { S.cannot_fail source.old → S.cannot_fail source.new
        × (S.faults source.new ≡ S.faults source.old) × (result ≢ Err LineFault.ReadFault) }
{
    if block.is_empty() {
        match zeros(alloc, BLOCK) {
            Ok(made) => *block = made,
            Err(_) => return Err(LineFault::NoMemory),
        }
    }
    match source.read(block.as_mut_slice()) {
        Ok(count) => Ok(count),
        Err(_) => Err(LineFault::ReadFault),
    }
}

fn zeros(alloc: Global, len: usize) -> Result<Vec<u8>, NoMemory>
    ensures { IfOk result (λ v. vec_len v ≡ len) }
{
    vec![in alloc; 0; len]
}
