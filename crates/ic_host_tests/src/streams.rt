use crate::running::{sink_of, source_of};
use ic_base::NoMemory;
use ic_outside::{
    Line, LineFault, Lines, MemorySink, MemorySource, Sink, Source, WriteFault, send,
};
use std::alloc::Global;

/// A script, how it is read (bytes a read, reads that fail), its limits (line, script), and the
/// lines and the end or the fault that come of it. After `<` stands what the source has left.
type Script = (
    &'static str,
    usize,
    &'static [u64],
    usize,
    u32,
    &'static str,
);

static SCRIPTS: [Script; 17] = [
    ("", 1, &[], 3, 9, "end<"),
    ("a\n\nbc", 1, &[], 3, 9, "a||bc|end<"),
    ("a\n\nbc", 2, &[], 3, 9, "a||bc|end<"),
    ("a\n\nbc", 9, &[], 3, 9, "a||bc|end<"),
    ("a\n", 9, &[], 3, 9, "a|end<"),
    ("\n", 9, &[], 0, 1, "|end<"),
    // A line of exactly the largest length, and one byte more.
    ("abc\nd", 9, &[], 3, 9, "abc|d|end<"),
    ("a\nabcd\n", 9, &[], 3, 9, "a|line 2 is too long<"),
    ("abcdefg", 2, &[], 3, 9, "line 1 is too long<efg"),
    // A script of exactly the largest size, and one byte more, which may be an LF.
    ("abc\nd\n", 9, &[], 3, 6, "abc|d|end<"),
    (
        "abc\nd\n",
        9,
        &[],
        3,
        5,
        "abc|the script is too long at line 2<",
    ),
    (
        "abc\nde",
        1,
        &[],
        3,
        4,
        "abc|the script is too long at line 2<e",
    ),
    // The byte too many of the line and of the script: the one that comes first decides.
    ("abcd", 9, &[], 3, 3, "line 1 is too long<"),
    ("abcd", 9, &[], 3, 2, "the script is too long at line 1<"),
    // A read that fails takes nothing, and the lines before it are handed out.
    ("a\nbc", 2, &[2], 3, 9, "a|the source failed<bc"),
    ("a\nbc", 9, &[1], 3, 9, "the source failed<a\nbc"),
    ("a", 9, &[2], 3, 9, "the source failed<"),
];

fn scripts() -> &'static [Script] {
    &SCRIPTS
}

#[test]
fn reads_lines(rt: HostRuntime) {
    for script in scripts() {
        assert!(rt; is_read(rt.alloc(), script), "{}", script.5);
    }
}

fn is_read(alloc: Global, script: &Script) -> bool {
    let mut text = Vec::new(alloc);
    match note_script(alloc, script, &mut text) {
        Ok(()) => text.as_slice() == script.5.as_bytes(),
        Err(_) => false,
    }
}

fn note_script(alloc: Global, script: &Script, text: &mut Vec<u8>) -> Result<(), NoMemory> {
    match source_of(alloc, &[(script.0, 1)], script.1, script.2) {
        Ok(mut source) => note_source(alloc, script, &mut source, text),
        Err(error) => Err(error),
    }
}

fn note_source(
    alloc: Global,
    script: &Script,
    source: &mut MemorySource,
    text: &mut Vec<u8>,
) -> Result<(), NoMemory> {
    let mut lines = Lines::new(alloc, script.3, u64::from(script.4));
    match note_lines(alloc, &mut lines, source, text) {
        Ok(()) => note_rest(source, text),
        Err(error) => Err(error),
    }
}

// Notes the lines, and the end or the fault.
fn note_lines(
    alloc: Global,
    lines: &mut Lines,
    source: &mut MemorySource,
    text: &mut Vec<u8>,
) -> Result<(), NoMemory> {
    for number in 1..64 {
        match lines.next(source) {
            Ok(Some(line)) => note_line(&line, number, text)?,
            Ok(None) => return text.extend_from_slice(b"end"),
            Err(fault) => return note_fault(alloc, fault, lines, source, text),
        }
    }
    Ok(())
}

// Notes a line with a bar after it, and whether its number is this one.
fn note_line(line: &Line, number: u64, text: &mut Vec<u8>) -> Result<(), NoMemory> {
    text.extend_from_slice(if line.number == number { b"" } else { b"?" })?;
    text.extend_from_slice(&line.bytes.items)?;
    text.push(b'|')?;
    Ok(())
}

// Notes a fault, and whether two more calls answer it.
fn note_fault(
    alloc: Global,
    fault: LineFault,
    lines: &mut Lines,
    source: &mut MemorySource,
    text: &mut Vec<u8>,
) -> Result<(), NoMemory> {
    for _ in 0..2 {
        let same = matches!(lines.next(source), Err(again) if again == fault);
        text.extend_from_slice(if same { b"" } else { b"?" })?;
    }
    text.extend_from_slice(format!(in alloc; "{fault}")?.as_bytes())
}

// Notes what the source has left.
fn note_rest(source: &mut MemorySource, text: &mut Vec<u8>) -> Result<(), NoMemory> {
    text.push(b'<')?;
    let mut rest = [0; 16];
    for _ in 0..16 {
        if let Ok(count) = source.read(&mut rest) {
            text.extend_from_slice(&rest[..count])?;
        }
    }
    Ok(())
}

/// The bytes of each sending, how the sink takes them (room, bytes a write, writes that fail), the
/// answers, and what was taken.
type Sending = (
    [&'static str; 2],
    usize,
    usize,
    &'static [u64],
    [Result<(), WriteFault>; 2],
    &'static str,
);

static SENDINGS: [Sending; 6] = [
    (["ab", "c"], 3, 1, &[], [Ok(()), Ok(())], "abc"),
    (["abc", "d"], 9, 2, &[], [Ok(()), Ok(())], "abcd"),
    (["abc", "d"], 3, 2, &[], [Ok(()), Err(WriteFault)], "abc"),
    (["abcde", ""], 3, 2, &[], [Err(WriteFault), Ok(())], "abc"),
    (["abc", "d"], 9, 2, &[2], [Err(WriteFault), Ok(())], "abd"),
    (["", "a"], 9, 2, &[1], [Ok(()), Err(WriteFault)], ""),
];

fn sendings() -> &'static [Sending] {
    &SENDINGS
}

#[test]
fn sends(rt: HostRuntime) {
    for sending in sendings() {
        assert!(rt; is_sent(rt.alloc(), sending), "{}", sending.5);
    }
}

fn is_sent(alloc: Global, sending: &Sending) -> bool {
    match sink_of(alloc, sending.1, sending.2, sending.3) {
        Ok(mut sink) => is_taken(sending, &mut sink),
        Err(_) => false,
    }
}

fn is_taken(sending: &Sending, sink: &mut MemorySink) -> bool {
    let (texts, _, _, _, answers, want) = sending;
    let first = send(sink, texts[0].as_bytes()) == answers[0];
    let second = send(sink, texts[1].as_bytes()) == answers[1];
    first && second && sink.taken() == want.as_bytes()
}
