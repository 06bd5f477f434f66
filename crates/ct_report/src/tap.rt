ghost use Rattle.std.specs.Prelude.{◌≡◌, ◌↔◌, ◌+◌, ◌++◌, true, IfOk, OnOk};
ghost use Rattle.ct_report.specs.Texts.{block_text, comment_line, comments_text, counts_text, doubled, doubled_byte, entries_text, entry_line, facts_text, failed_text, inside_line, key_text, list_text, lists_text, next_number, one_line, passed_text, plan_text, undecided_text};

use ic_base::NoMemory;
use ic_principal::{Bytes, Text};
use std::alloc::{AllocError, Global};
use std::marker::Model;

/// Entries of a list in a block. Contracts see the list.
#[derive(Drop)]
pub struct Lines {
    pub items: Vec<Bytes>,
}

impl Model for Lines {
    ghost use Rattle.std.specs.Prelude.{List, ℕ};

    ghost Value = { List (List ℕ) };

    ghost view = { λ l. l.items.items };
}

/// What is told of a statement that is not met: where it is, what was expected, and what came instead.
#[derive(Drop)]
pub struct Block {
    pub at: Bytes,
    pub expected: Bytes,
    pub got: Bytes,
    /// The deliveries that led there.
    pub order: Lines,
    /// Where executions trapped in the last delivery in which any did.
    pub trapped: Lines,
    /// What canisters said.
    pub said: Lines,
}

/// How many tests ended how.
#[derive(Clone, Copy, Debug, PartialEq, Eq)]
pub struct Counts {
    pub passed: usize,
    pub failed: usize,
    pub undecided: usize,
}

// A sum. Memory ends before a test has no number.
fn sum(a: usize, b: usize) -> Result<usize, NoMemory>
    ensures { IfOk result (λ sum. sum ≡ a + b) }
{
    a.checked_add(b).ok_or(AllocError)
}

impl Counts {
    /// No tests.
    pub fn new() -> Counts
        ensures { result ≡ record { passed = 0; failed = 0; undecided = 0 } }
    {
        Counts {
            passed: 0,
            failed: 0,
            undecided: 0,
        }
    }

    /// The number of the next test, from 1.
    pub fn next(&self) -> Result<usize, NoMemory>
        ensures { IfOk result (λ number. number ≡ next_number self.now) }
    {
        let decided = sum(self.passed, self.failed)?;
        sum(sum(decided, self.undecided)?, 1)
    }

    /// One more passed.
    pub fn pass(&mut self) -> Result<(), NoMemory>
        ensures { OnOk result (self.new ≡ record self.old { passed = self.old.passed + 1 }) }
    {
        self.passed = sum(self.passed, 1)?;
        Ok(())
    }

    /// One more failed.
    pub fn fail(&mut self) -> Result<(), NoMemory>
        ensures { OnOk result (self.new ≡ record self.old { failed = self.old.failed + 1 }) }
    {
        self.failed = sum(self.failed, 1)?;
        Ok(())
    }

    /// One more is not decided.
    pub fn leave(&mut self) -> Result<(), NoMemory>
        ensures { OnOk result (self.new ≡ record self.old { undecided = self.old.undecided + 1 }) }
    {
        self.undecided = sum(self.undecided, 1)?;
        Ok(())
    }

    /// Whether each test passed.
    pub fn all_passed(&self) -> bool
        ensures { (result ≡ true) ↔ ((self.now.failed ≡ 0) × (self.now.undecided ≡ 0)) }
    {
        self.failed == 0 && self.undecided == 0
    }

    /// The last line.
    #[tactic(auto, unfolding(crate::specs::Texts::counts_text))]
    pub fn text(&self, alloc: Global) -> Result<Bytes, NoMemory>
        ensures { IfOk result (λ text. text ≡ counts_text self.now) }
    {
        let Counts {
            passed,
            failed,
            undecided,
        } = *self;
        let mut text = format!(in alloc; "# {passed} passed, ")?;
        write!(text, "{failed} failed, {undecided} not decided\n")?;
        Ok(Bytes {
            items: text.into_bytes(),
        })
    }
}

/// The first two lines, for a number of tests.
#[tactic(auto, unfolding(crate::specs::Texts::plan_text))]
pub fn plan(alloc: Global, tests: usize) -> Result<Bytes, NoMemory>
    ensures { IfOk result (λ text. text ≡ plan_text tests) }
{
    Ok(Bytes {
        items: format!(in alloc; "TAP version 13\n1..{tests}\n")?.into_bytes(),
    })
}

/// The line of a test that passed, by its number from 1.
#[tactic(auto, unfolding(crate::specs::Texts::passed_text))]
pub fn passed(alloc: Global, number: usize, name: &Text) -> Result<Bytes, NoMemory>
    ensures { IfOk result (λ text. text ≡ passed_text number name.now) }
{
    let name = name.items.as_str();
    Ok(Bytes {
        items: format!(in alloc; "ok {number} - {name}\n")?.into_bytes(),
    })
}

/// The line of a test that failed, by its number from 1.
#[tactic(auto, unfolding(crate::specs::Texts::failed_text))]
pub fn failed(alloc: Global, number: usize, name: &Text) -> Result<Bytes, NoMemory>
    ensures { IfOk result (λ text. text ≡ failed_text number name.now) }
{
    let name = name.items.as_str();
    Ok(Bytes {
        items: format!(in alloc; "not ok {number} - {name}\n")?.into_bytes(),
    })
}

// Adds a byte, a single quote twice.
fn push_byte(byte: u8, out: &mut Vec<u8>) -> Result<(), NoMemory>
    ensures { OnOk result (out.new.items ≡ out.old.items ++ doubled_byte byte) }
{
    if byte == b'\'' {
        out.push(b'\'')?;
    }
    out.push(byte)?;
    Ok(())
}

// Adds a text in which single quotes are doubled.
fn push_doubled(text: &[u8], out: &mut Vec<u8>) -> Result<(), NoMemory>
    ensures { OnOk result (out.new.items ≡ out.old.items ++ doubled text.now) }
{
    for byte in text {
        push_byte(*byte, out)?;
    }
    Ok(())
}

// Adds a line with a key and a text.
#[tactic(auto, unfolding(crate::specs::Texts::key_text))]
fn push_line(key: &str, text: &[u8], out: &mut Vec<u8>) -> Result<(), NoMemory>
    ensures { OnOk result (out.new.items ≡ out.old.items ++ key_text key.now text.now) }
{
    out.extend_from_slice(b"  ")?;
    out.extend_from_slice(key.as_bytes())?;
    out.extend_from_slice(b": '")?;
    push_doubled(text, out)?;
    out.extend_from_slice(b"'\n")?;
    Ok(())
}

// Adds a byte of an entry, if it ends no line.
fn push_entry_byte(byte: u8, out: &mut Vec<u8>) -> Result<(), NoMemory>
    ensures { OnOk result (out.new.items ≡ out.old.items ++ doubled (inside_line byte)) }
{
    match byte {
        b'\n' => Ok(()),
        other => push_byte(other, out),
    }
}

// Adds the text of an entry.
fn push_entry_text(text: &[u8], out: &mut Vec<u8>) -> Result<(), NoMemory>
    ensures { OnOk result (out.new.items ≡ out.old.items ++ doubled (one_line text.now)) }
{
    for byte in text {
        push_entry_byte(*byte, out)?;
    }
    Ok(())
}

// Adds an entry of a list.
#[tactic(auto, unfolding(crate::specs::Texts::entry_line))]
fn push_entry(entry: &Bytes, out: &mut Vec<u8>) -> Result<(), NoMemory>
    ensures { OnOk result (out.new.items ≡ out.old.items ++ entry_line entry.now) }
{
    out.extend_from_slice(b"    - '")?;
    push_entry_text(&entry.items, out)?;
    out.extend_from_slice(b"'\n")?;
    Ok(())
}

fn push_entries(entries: &[Bytes], out: &mut Vec<u8>) -> Result<(), NoMemory>
    ensures { OnOk result (out.new.items ≡ out.old.items ++ entries_text entries.now) }
{
    for entry in entries {
        push_entry(entry, out)?;
    }
    Ok(())
}

// Adds a key and a list, if that has entries.
fn push_list(key: &str, entries: &[Bytes], out: &mut Vec<u8>) -> Result<(), NoMemory>
    ensures { OnOk result (out.new.items ≡ out.old.items ++ list_text key.now entries.now) }
{
    match entries {
        [] => Ok(()),
        [_, ..] => {
            out.extend_from_slice(b"  ")?;
            out.extend_from_slice(key.as_bytes())?;
            out.extend_from_slice(b":\n")?;
            push_entries(entries, out)
        }
    }
}

// Adds where a statement is, what was expected of it, and what came instead.
fn push_facts(block: &Block, out: &mut Vec<u8>) -> Result<(), NoMemory>
    ensures { OnOk result (out.new.items ≡ out.old.items ++ facts_text block.now) }
{
    push_line("at", &block.at.items, out)?;
    push_line("expected", &block.expected.items, out)?;
    push_line("got", &block.got.items, out)
}

// Adds what led there.
fn push_lists(block: &Block, out: &mut Vec<u8>) -> Result<(), NoMemory>
    ensures { OnOk result (out.new.items ≡ out.old.items ++ lists_text block.now) }
{
    push_list("order", &block.order.items, out)?;
    push_list("trapped", &block.trapped.items, out)?;
    push_list("said", &block.said.items, out)
}

/// Adds the block of a statement that is not met.
#[tactic(auto, unfolding(crate::specs::Texts::block_text))]
pub fn push_block(block: &Block, out: &mut Vec<u8>) -> Result<(), NoMemory>
    ensures { OnOk result (out.new.items ≡ out.old.items ++ block_text block.now) }
{
    out.extend_from_slice(b"  ---\n")?;
    push_facts(block, out)?;
    push_lists(block, out)?;
    out.extend_from_slice(b"  ...\n")?;
    Ok(())
}

/// Adds the block of an interleave that has more states than that.
#[tactic(auto, unfolding(crate::specs::Texts::undecided_text))]
pub fn push_undecided(
    alloc: Global,
    at: &[u8],
    states: u32,
    out: &mut Vec<u8>,
) -> Result<(), NoMemory>
    ensures { OnOk result (out.new.items ≡ out.old.items ++ undecided_text at.now states) }
{
    let why = format!(in alloc; "more than {states} states")?;
    out.extend_from_slice(b"  ---\n")?;
    push_line("at", at, out)?;
    push_line("undecided", why.as_bytes(), out)?;
    out.extend_from_slice(b"  ...\n")?;
    Ok(())
}

// Adds a byte, if it ends no line.
fn push_inside(byte: u8, out: &mut Vec<u8>) -> Result<(), NoMemory>
    ensures { OnOk result (out.new.items ≡ out.old.items ++ inside_line byte) }
{
    if byte == b'\n' {
        return Ok(());
    }
    out.push(byte)?;
    Ok(())
}

// Adds a text without the ends of its lines.
fn push_one_line(text: &[u8], out: &mut Vec<u8>) -> Result<(), NoMemory>
    ensures { OnOk result (out.new.items ≡ out.old.items ++ one_line text.now) }
{
    for byte in text {
        push_inside(*byte, out)?;
    }
    Ok(())
}

// Adds a comment.
#[tactic(auto, unfolding(crate::specs::Texts::comment_line))]
fn push_comment(comment: &Bytes, out: &mut Vec<u8>) -> Result<(), NoMemory>
    ensures { OnOk result (out.new.items ≡ out.old.items ++ comment_line comment.now) }
{
    out.extend_from_slice(b"# ")?;
    push_one_line(&comment.items, out)?;
    out.extend_from_slice(b"\n")?;
    Ok(())
}

/// Adds comments.
pub fn push_comments(comments: &[Bytes], out: &mut Vec<u8>) -> Result<(), NoMemory>
    ensures { OnOk result (out.new.items ≡ out.old.items ++ comments_text comments.now) }
{
    for comment in comments {
        push_comment(comment, out)?;
    }
    Ok(())
}
