use crate::running::{NOTHING, Run, is_run};
use ic_host::Status;
use ic_script::LineCause;

const BAD_FORM: Status = Status::BadLine {
    line: 1,
    cause: LineCause::Form,
};

const SIZES: [(usize, usize); 3] = [(1, 1), (7, 7), (65_536, 65_536)];

static RUNS: [Run<'static>; 3] = [
    Run {
        script: &[(
            "# two calls\n\ncall 2vxsx-fae aaaaa-aa a 00ff\n#\ncall aaaaa-aa 2vxsx-fae b -\n",
            1,
        )],
        pieces: &SIZES,
        printed: b"accepted 0\naccepted 1\nanswer 0 rejected 5 \"no such management method\"\nanswer 1 rejected 3 \"no canister 2vxsx-fae\"\n",
        end: b"{\"burned\":\"0\",\"canisters\":[],\"created\":\"0\",\"held\":\"0\",\"messages\":0,\"time\":\"0\"}\nroot 612ae6ba56e8689ed445e001f4aa96948891d3f11dd0e9fcfd6de9922eca71c7\n",
        ..NOTHING
    },
    Run {
        script: &[("\ncall 2vxsx-fae aaaaa-aa hello -\nx\ny\n", 1)],
        pieces: &SIZES,
        printed: b"accepted 0\nline 3: Form\n",
        status: Status::BadLine {
            line: 3,
            cause: LineCause::Form,
        },
        ..NOTHING
    },
    Run {
        words: &["replica", "--workers", "0"],
        script: &[("state\n", 1)],
        pieces: &SIZES,
        printed: b"usage: replica [--workers 1..64] [--limit N] [--rounds N] [--generate N] [--price N]\n",
        status: Status::BadWords,
        left: Some(6),
        ..NOTHING
    },
];

fn rows() -> &'static [Run<'static>] {
    &RUNS
}

#[test]
fn runs(rt: HostRuntime) {
    for (place, run) in rows().iter().enumerate() {
        assert!(rt; is_run(&rt, run), "{place}");
    }
}

static CODES: [(Status, u8); 6] = [
    (Status::Done, 0),
    (Status::BadWords, 2),
    (BAD_FORM, 3),
    (Status::ReadFault, 4),
    (Status::WriteFault, 5),
    (Status::NoMemory, 6),
];

fn status_codes() -> &'static [(Status, u8)] {
    &CODES
}

#[test]
fn codes(rt: HostRuntime) {
    for (status, code) in status_codes() {
        assert!(rt; status.code() == *code);
    }
}

static LONG: [Run<'static>; 4] = [
    // A bad line of 1, of 65,535 and of 65,536 bytes among 300,000. The source gives all that it is
    // asked for, 65,536 bytes at a time, and is asked for no more than shows the line.
    Run {
        script: &[("x", 1), ("\n", 1), ("x", 299_998)],
        pieces: &[(300_000, 100)],
        printed: b"line 1: Form\n",
        status: BAD_FORM,
        left: Some(234_464),
        ..NOTHING
    },
    Run {
        script: &[("x", 65_535), ("\n", 1), ("x", 234_464)],
        pieces: &[(300_000, 100)],
        printed: b"line 1: Form\n",
        status: BAD_FORM,
        left: Some(234_464),
        ..NOTHING
    },
    Run {
        script: &[("x", 65_536), ("\n", 1), ("x", 234_463)],
        pieces: &[(300_000, 100)],
        printed: b"line 1: Form\n",
        status: BAD_FORM,
        left: Some(168_928),
        ..NOTHING
    },
    // A call and a comment that goes on past the first read, which gives 65,536 bytes. The second
    // read fails.
    Run {
        script: &[
            ("call 2vxsx-fae rwlgt-iiaaa-aaaaa-aaaaa-cai hello -\n", 1),
            ("#", 70_000),
        ],
        pieces: &[(1_000_000, 1_000_000)],
        failing_reads: &[2],
        printed: b"accepted 0\n",
        status: Status::ReadFault,
        ..NOTHING
    },
];

fn long() -> &'static [Run<'static>] {
    &LONG
}

#[test]
fn long_scripts(rt: HostRuntime) {
    for (place, run) in long().iter().enumerate() {
        assert!(rt; is_run(&rt, run), "{place}");
    }
}
