// Each read and each write fails in turn. Nothing is tried again: what is sent is what the whole lines
// read print, or what was written before.
use crate::running::{NOTHING, Run, is_run, nothing};
use ic_host::Status;
use std::thread::Threads;

const CALL: &str = "call 2vxsx-fae rwlgt-iiaaa-aaaaa-aaaaa-cai hello -\n";

const TWO_CALLS: Run<'static> = Run {
    script: &[(CALL, 2)],
    pieces: &[(60, 100)],
    ..NOTHING
};

// Three lines of six bytes, of which each shows the state.
const THREE_STATES: Run<'static> = Run {
    script: &[("state\n", 3)],
    pieces: &[(6, 100)],
    ..NOTHING
};

static FAILING: [Run<'static>; 9] = [
    Run {
        failing_reads: &[3],
        printed: b"{\"burned\":\"0\",\"canisters\":[],\"created\":\"0\",\"held\":\"0\",\"messages\":0,\"time\":\"0\"}\n{\"burned\":\"0\",\"canisters\":[],\"created\":\"0\",\"held\":\"0\",\"messages\":0,\"time\":\"0\"}\n",
        status: Status::ReadFault,
        ..THREE_STATES
    },
    Run {
        pieces: &[(6, 1)],
        failing_writes: &[10],
        printed: b"{\"burned\"",
        status: Status::WriteFault,
        ..THREE_STATES
    },
    Run {
        room: 9,
        printed: b"{\"burned\"",
        status: Status::WriteFault,
        ..THREE_STATES
    },
    Run {
        failing_reads: &[2],
        printed: b"accepted 0\n",
        status: Status::ReadFault,
        ..TWO_CALLS
    },
    Run {
        failing_reads: &[3],
        printed: b"accepted 0\naccepted 1\n",
        status: Status::ReadFault,
        ..TWO_CALLS
    },
    Run {
        failing_reads: &[1],
        status: Status::ReadFault,
        ..TWO_CALLS
    },
    Run {
        pieces: &[(60, 1)],
        failing_writes: &[11],
        printed: b"accepted 0",
        status: Status::WriteFault,
        ..TWO_CALLS
    },
    Run {
        room: 9,
        printed: b"accepted ",
        status: Status::WriteFault,
        ..TWO_CALLS
    },
    Run {
        failing_writes: &[3],
        printed: b"accepted 0\naccepted 1\n",
        status: Status::WriteFault,
        ..TWO_CALLS
    },
];

fn two_calls() -> &'static [Run<'static>] {
    &FAILING
}

#[test]
fn no_second_try(rt: HostRuntime) {
    for (place, run) in two_calls().iter().enumerate() {
        assert!(rt; is_run(&rt, run), "{place}");
    }
}

// Lines of each kind, 502 bytes: so the seventh read of 100 bytes gives the end. One of the texts
// that are printed has more than 100 bytes.
const SCRIPT: [(&str, usize); 12] = [
    ("# lines of each kind\n", 1),
    ("call 2vxsx-fae rwlgt-iiaaa-aaaaa-aaaaa-cai hello -\n", 1),
    ("\n", 1),
    ("decode 4449444c00017d 4449444c00017d2a\n", 1),
    ("call aaaaa-aa 2vxsx-fae greet 00ff\n", 1),
    (
        "# a comment that goes on past the first read and the second, so that a read fails in the midst of a line\n",
        1,
    ),
    ("decode 4449444c000171 4449444c00017d2a\n", 1),
    (
        "decode 4449444c016d7b0100 4449444c016d7b010032abababababababababababababababababababababababababababababababababababababababababababababababababab\n",
        1,
    ),
    ("#\n", 1),
    ("decode 4449444c 4449444c0000\n", 1),
    ("\n", 1),
    ("call 2vxsx-fae 2vxsx-fae last -\n", 1),
];

// What each line prints, and at the end the answers, the state and its root.
const OUTPUT: &[u8] = b"\
    accepted 0\n\
    decoded 4449444c00017d2a\n\
    accepted 1\n\
    refused NotSubtype 0\n\
    decoded 4449444c016d7b010032abababababababababababababababababababababababababababababababababababababababababababababababababab\n\
    bad expected\n\
    accepted 2\n\
    answer 0 rejected 3 \"no canister rwlgt-iiaaa-aaaaa-aaaaa-cai\"\n\
    answer 1 rejected 3 \"no canister 2vxsx-fae\"\n\
    answer 2 rejected 3 \"no canister 2vxsx-fae\"\n\
    {\"burned\":\"0\",\"canisters\":[],\"created\":\"0\",\"held\":\"0\",\"messages\":0,\"time\":\"0\"}\n\
    root 4245c290d05416093bf9c505a1846e532e266d1fce2b6c72cf957d1560fa8aa5\n\
";

/// The numbers of a read and of a write that fail, how many bytes of the output were taken before,
/// and the status. Before a read that fails the whole lines among 100 bytes a read were read. What the
/// lines of a read print is sent before the next read, and what is printed at the end is sent together: a
/// write for each 100 bytes.
pub type Failing = (u64, u64, usize, Status);

/// A script, what it prints in all, and how it ends as each read and each write fails.
#[derive(Drop)]
pub struct FailingStream<'a> {
    pub script: &'a [(&'a str, usize)],
    pub output: &'a [u8],
    pub each: &'a [Failing],
}

// There is no eighth read, and no write after the last text.
static EACH: [Failing; 17] = [
    (1, 0, 0, Status::ReadFault),
    (2, 0, 11, Status::ReadFault),
    (3, 0, 47, Status::ReadFault),
    (4, 0, 68, Status::ReadFault),
    (5, 0, 68, Status::ReadFault),
    (6, 0, 210, Status::ReadFault),
    (7, 0, 221, Status::ReadFault),
    (0, 1, 0, Status::WriteFault),
    (0, 2, 11, Status::WriteFault),
    (0, 3, 47, Status::WriteFault),
    (0, 4, 68, Status::WriteFault),
    (0, 5, 168, Status::WriteFault),
    (0, 6, 210, Status::WriteFault),
    (0, 7, 221, Status::WriteFault),
    (0, 8, 321, Status::WriteFault),
    (0, 9, 421, Status::WriteFault),
    (8, 10, 520, Status::Done),
];

fn stream() -> FailingStream<'static> {
    FailingStream {
        script: &SCRIPT,
        output: OUTPUT,
        each: &EACH,
    }
}

fn fails_so<R: Threads + Sync + AllocGlobal>(
    rt: &R,
    stream: &FailingStream,
    failing: &Failing,
) -> bool {
    let (read, write, sent, status) = *failing;
    match stream.output.get(..sent) {
        Some(printed) => {
            let run = Run {
                script: stream.script,
                pieces: &[(100, 100)],
                failing_reads: &[read],
                failing_writes: &[write],
                printed,
                end: b"",
                status,
                ..nothing()
            };
            is_run(rt, &run)
        }
        None => false,
    }
}

/// The first of its rows that a stream does not end as.
pub fn first_wrong<R: Threads + Sync + AllocGlobal>(
    rt: &R,
    stream: &FailingStream,
) -> Option<Failing> {
    for failing in stream.each {
        if !fails_so(rt, stream, failing) {
            return Some(*failing);
        }
    }
    None
}

#[test]
fn each_read_and_each_write_fails(rt: HostRuntime) {
    let wrong = first_wrong(&rt, &stream());
    assert!(rt; wrong.is_none(), "{wrong:?}");
}
