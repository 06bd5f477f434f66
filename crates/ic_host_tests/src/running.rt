// Runs of the top call over memory, as rows of tables. Each function owns one value that it drops.
use ic_base::NoMemory;
use ic_host::{Status, replica};
use ic_outside::{MemorySink, MemorySource, OpenGate, Source};
use std::alloc::Global;
use std::thread::Threads;

/// A run and how it ends.
#[derive(Clone, Copy)]
pub struct Run<'a> {
    pub words: &'a [&'a str],
    /// Texts, each that many times.
    pub script: &'a [(&'a str, usize)],
    /// The most bytes of a read and of a write, each pair in a run of its own.
    pub pieces: &'a [(usize, usize)],
    /// The numbers of the reads and of the writes that fail.
    pub failing_reads: &'a [u64],
    pub failing_writes: &'a [u64],
    /// How many bytes the sink takes.
    pub room: usize,
    pub printed: &'a [u8],
    /// What is printed after it where the script's end is reached.
    pub end: &'a [u8],
    pub status: Status,
    /// How many bytes the source has left, where that is looked at.
    pub left: Option<usize>,
}

/// A run of an empty script over streams that do not fail.
pub const NOTHING: Run<'static> = Run {
    words: &["replica"],
    script: &[],
    pieces: &[(65_536, 65_536)],
    failing_reads: &[],
    failing_writes: &[],
    room: 4000,
    printed: b"",
    end: b"{\"burned\":\"0\",\"canisters\":[],\"created\":\"0\",\"held\":\"0\",\"messages\":0,\"time\":\"0\"}\nroot 1fb845fb329fa6b278fbd76576f003319bb503d04dedd611f37fd509233c28c1\n",
    status: Status::Done,
    left: None,
};

/// `NOTHING`, for runs that are no constants.
pub fn nothing() -> Run<'static> {
    NOTHING
}

/// The words as a process hands them in.
fn words_of(alloc: Global, words: &[&str]) -> Result<Vec<String>, NoMemory> {
    let mut texts = Vec::new(alloc);
    for word in words {
        let text = String::from_str(alloc, word)?;
        texts.push(text)?;
    }
    Ok(texts)
}

fn repeat(text: &str, times: usize, script: &mut Vec<u8>) -> Result<(), NoMemory> {
    for _ in 0..times {
        script.extend_from_slice(text.as_bytes())?;
    }
    Ok(())
}

/// Texts, each that many times.
fn script_of(alloc: Global, texts: &[(&str, usize)]) -> Result<Vec<u8>, NoMemory> {
    let mut script = Vec::new(alloc);
    for (text, times) in texts {
        repeat(text, *times, &mut script)?;
    }
    Ok(script)
}

/// A source over texts. A piece of no byte counts as one of one.
pub fn source_of(
    alloc: Global,
    texts: &[(&str, usize)],
    piece: usize,
    failing: &[u64],
) -> Result<MemorySource, NoMemory> {
    let script = script_of(alloc, texts)?;
    match Vec::from_slice(alloc, failing) {
        Ok(failing) => Ok(MemorySource::new(script, piece.max(1), failing)),
        Err(error) => Err(error),
    }
}

/// A sink. A piece of no byte counts as one of one.
pub fn sink_of(
    alloc: Global,
    room: usize,
    piece: usize,
    failing: &[u64],
) -> Result<MemorySink, NoMemory> {
    let failing = Vec::from_slice(alloc, failing)?;
    MemorySink::new(alloc, room, piece.max(1), failing)
}

// How many bytes are left of the source.
fn left(source: &mut MemorySource) -> usize {
    let mut buffer = [0; 1000];
    let mut count = 0usize;
    for _ in 0..1000 {
        if let Ok(read) = source.read(&mut buffer) {
            count = count.saturating_add(read);
        }
    }
    count
}

// The roots of states were computed by the definitions with Python's hashlib.
fn ends_so(taken: &[u8], run: &Run) -> bool {
    match taken.strip_prefix(run.printed) {
        Some(end) if run.status == Status::Done => end == run.end,
        Some(end) => end.is_empty(),
        None => false,
    }
}

fn is_printed<R: Threads + Sync + AllocGlobal>(
    rt: &R,
    run: &Run,
    piece: usize,
    words: &[String],
    source: &mut MemorySource,
) -> bool {
    match sink_of(rt.alloc(), run.room, piece, run.failing_writes) {
        Ok(mut sink) => {
            let status = replica(rt.alloc(), rt, words, source, &mut sink, &OpenGate);
            status == run.status && ends_so(sink.taken(), run)
        }
        Err(_) => false,
    }
}

fn is_run_in_pieces<R: Threads + Sync + AllocGlobal>(
    rt: &R,
    run: &Run,
    pieces: (usize, usize),
    words: &[String],
) -> bool {
    match source_of(rt.alloc(), run.script, pieces.0, run.failing_reads) {
        Ok(mut source) => {
            let printed = is_printed(rt, run, pieces.1, words, &mut source);
            match run.left {
                Some(count) => printed && left(&mut source) == count,
                None => printed,
            }
        }
        Err(_) => false,
    }
}

fn is_run_with<R: Threads + Sync + AllocGlobal>(rt: &R, run: &Run, words: &[String]) -> bool {
    for pieces in run.pieces {
        if !is_run_in_pieces(rt, run, *pieces, words) {
            return false;
        }
    }
    true
}

/// Whether a run prints and ends so.
pub fn is_run<R: Threads + Sync + AllocGlobal>(rt: &R, run: &Run) -> bool {
    match words_of(rt.alloc(), run.words) {
        Ok(words) => is_run_with(rt, run, &words),
        Err(_) => false,
    }
}
