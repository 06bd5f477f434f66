// The ends over standard streams.
use crate::running::sink_of;
use ic_host::{Status, replica};
use ic_outside::{Failed, OpenGate, Sink, Source, StdSink, StdSource, send};
use ic_script::LineCause;
use std::io;
use std::io::{ErrorKind, Read, Write};
use std::thread::Threads;

// A stream that is out of order in one way.
#[derive(Clone, Copy, Drop)]
enum Broken {
    IsInterrupted,
    TakesNothing,
    CannotFlush,
}

impl Read for Broken {
    fn read(&mut self, _buffer: &mut [u8]) -> io::Result<usize> {
        Err(io::Error::from(ErrorKind::Interrupted))
    }
}

impl Write for Broken {
    fn write(&mut self, piece: &[u8]) -> io::Result<usize> {
        match self {
            Broken::IsInterrupted => Err(io::Error::from(ErrorKind::Interrupted)),
            Broken::TakesNothing => Ok(0),
            Broken::CannotFlush => Ok(piece.len()),
        }
    }

    fn flush(&mut self) -> io::Result<()> {
        match self {
            Broken::CannotFlush => Err(io::Error::from(ErrorKind::Other)),
            _ => Ok(()),
        }
    }
}

static BROKEN: [Broken; 3] = [
    Broken::IsInterrupted,
    Broken::TakesNothing,
    Broken::CannotFlush,
];

fn faulty_streams() -> &'static [Broken] {
    &BROKEN
}

#[test]
fn faults_of_standard_streams(rt: HostRuntime) {
    let mut buffer = [0; 3];
    let read = StdSource::new(Broken::IsInterrupted).read(&mut buffer);
    assert!(rt; read == Err(Failed));
    for stream in faulty_streams() {
        assert!(rt; StdSink::new(*stream).write(b"a") == Err(Failed));
    }
    assert!(rt; StdSink::new(Broken::TakesNothing).write(b"") == Ok(0));
}

#[test]
fn reads_a_standard_stream(rt: HostRuntime) {
    let mut source = StdSource::new("ab".as_bytes());
    let mut buffer = [0; 3];
    let first = source.read(&mut buffer);
    let last = source.read(&mut buffer[2..]);
    assert!(rt; first == Ok(2) && last == Ok(0) && buffer == *b"ab\0");
}

// A writer that notes each flush by a bar after what was written.
#[derive(Drop)]
struct Flushed<'a> {
    noted: &'a mut Vec<u8>,
}

impl Write for Flushed<'_> {
    fn write(&mut self, piece: &[u8]) -> io::Result<usize> {
        match self.noted.extend_from_slice(piece) {
            Ok(()) => Ok(piece.len()),
            Err(_) => Err(io::Error::from(ErrorKind::OutOfMemory)),
        }
    }

    fn flush(&mut self) -> io::Result<()> {
        match self.noted.push(b'|') {
            Ok(()) => Ok(()),
            Err(_) => Err(io::Error::from(ErrorKind::OutOfMemory)),
        }
    }
}

fn run_flushed<R: Threads + Sync + AllocGlobal>(rt: &R, noted: &mut Vec<u8>) -> Status {
    let mut source = StdSource::new("call 2vxsx-fae aaaaa-aa hello -".as_bytes());
    let mut sink = StdSink::new(Flushed { noted });
    replica(rt.alloc(), rt, &[], &mut source, &mut sink, &OpenGate)
}

fn is_flushed<R: Threads + Sync + AllocGlobal>(rt: &R) -> bool {
    let mut noted = Vec::new(rt.alloc());
    let status = run_flushed(rt, &mut noted);
    let printed =
        b"accepted 0\n|answer 0 rejected 5 \"no such management method\"\n{\"burned\":\"0\",\"canisters\":[],\"created\":\"0\",\"held\":\"0\",\"messages\":0,\"time\":\"0\"}\nroot 5bcc8353983760a82cf03a04ef225c8f903c400ddaca7f1b4ddf5637b3eb5efb\n|";
    status == Status::Done && noted.as_slice() == printed.as_slice()
}

// Each text is written and flushed before the next.
#[test]
fn output_is_written_and_flushed(rt: HostRuntime) {
    assert!(rt; is_flushed(&rt));
}

// A reader of comments without an end, each as long as a read.
#[derive(Drop)]
struct Comments;

impl Read for Comments {
    fn read(&mut self, buffer: &mut [u8]) -> io::Result<usize> {
        buffer.fill(b'#');
        if let Some(last) = buffer.last_mut() {
            *last = b'\n';
        }
        Ok(buffer.len())
    }
}

fn is_too_long<R: Threads + Sync + AllocGlobal>(rt: &R) -> bool {
    let mut source = StdSource::new(Comments);
    match sink_of(rt.alloc(), 100, 100, &[]) {
        Ok(mut sink) => {
            let status = replica(rt.alloc(), rt, &[], &mut source, &mut sink, &OpenGate);
            let bad = Status::BadLine {
                line: 4097,
                cause: LineCause::ScriptTooLong,
            };
            status == bad && sink.taken() == b"line 4097: ScriptTooLong\n".as_slice()
        }
        Err(_) => false,
    }
}

// The reader of lines asks for 65,536 bytes at a time, so the largest script has 4,096 of them.
#[test]
fn script_too_long(rt: HostRuntime) {
    assert!(rt; is_too_long(&rt));
}
