// A canister is created and gets code: in pieces of each size, and as each read and each write fails.
use crate::failing_streams::{Failing, FailingStream, first_wrong};
use crate::running::{Run, is_run, nothing};
use ic_host::Status;

const SCRIPT: [(&str, usize); 3] = [
    (
        "call 2vxsx-fae aaaaa-aa provisional_create_canister_with_cycles 4449444c026e7d6c01d8a38ca80d0001010180a094a58d1d\n",
        1,
    ),
    ("drain\n", 1),
    (
        "call 2vxsx-fae aaaaa-aa install_code 4449444c036d7b6b019baaebec087f6c04d6fca70200a79fc97e00e3a683c30401b3c4b1f20468010200080061736d0100000000010a00000000000000000101\n",
        1,
    ),
];

// The root is computed from the definitions with Python's hashlib.
const OUTPUT: &[u8] = b"\
    accepted 0\n\
    ran 1 left 0\n\
    accepted 1\n\
    answer 0 replied 4449444c016c01b3c4b1f204680100010a00000000000000000101\n\
    answer 1 replied 4449444c0000\n\
    {\"burned\":\"0\",\"canisters\":[{\"balance\":\"1000000000000\",\"certified\":\"\",\"contexts\":0,\"controllers\":[\"2vxsx-fae\"],\"globals\":[],\"id\":\"rwlgt-iiaaa-aaaaa-aaaaa-cai\",\"memory\":0,\"memory_hash\":\"e3b0c44298fc1c149afbf4c8996fb92427ae41e4649b934ca495991b7852b855\",\"module\":\"93a44bbb96c751218e4c00d479e4c14358122a389acca16205b1e4d0dc5f9476\",\"stable\":0,\"stable_hash\":\"e3b0c44298fc1c149afbf4c8996fb92427ae41e4649b934ca495991b7852b855\",\"status\":\"running\"}],\"created\":\"1000000000000\",\"held\":\"1000000000000\",\"messages\":0,\"time\":\"0\"}\n\
    root ac6bf21389b23fefce1c66f13f2769ddc1315607babd780cdf78836547de0d2b\n\
";

// 285 bytes, so the fourth read of 100 bytes gives the end.
static EACH: [Failing; 14] = [
    (1, 0, 0, Status::ReadFault),
    (2, 0, 0, Status::ReadFault),
    (3, 0, 24, Status::ReadFault),
    (4, 0, 35, Status::ReadFault),
    (0, 1, 0, Status::WriteFault),
    (0, 2, 24, Status::WriteFault),
    (0, 3, 35, Status::WriteFault),
    (0, 4, 135, Status::WriteFault),
    (0, 5, 235, Status::WriteFault),
    (0, 6, 335, Status::WriteFault),
    (0, 7, 435, Status::WriteFault),
    (0, 8, 535, Status::WriteFault),
    (0, 9, 635, Status::WriteFault),
    (5, 10, 720, Status::Done),
];

fn stream() -> FailingStream<'static> {
    FailingStream {
        script: &SCRIPT,
        output: OUTPUT,
        each: &EACH,
    }
}

#[test]
fn pieces_of_each_size(rt: HostRuntime) {
    let run = Run {
        script: stream().script,
        pieces: &[(1, 1), (7, 7), (65_536, 65_536)],
        printed: stream().output,
        end: b"",
        ..nothing()
    };
    assert!(rt; is_run(&rt, &run));
}

#[test]
fn each_read_and_each_write_fails(rt: HostRuntime) {
    let wrong = first_wrong(&rt, &stream());
    assert!(rt; wrong.is_none(), "{wrong:?}");
}
