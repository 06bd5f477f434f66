use ct_check::{CheckError, check};
use ct_file::{FileError, read};
use ct_sources::{Source, Sources, named_files};
use ic_principal::{Bytes, Text};
use std::alloc::{AllocError, Global};
use std::process::Abort;
use std::test::*;

/// The files by their names, which are a letter each. A `%` is 20,000 times the byte `x`.
static FILES: [(&str, &[u8]); 12] = [
    ("m", b"\0asm\x01\0\0\0"),
    ("n", b"\0asm\x01\0\0\0\x05"),
    (
        "i",
        b"\0asm\x01\0\0\0\x01\x05\x01\x60\x01\x7f\0\x02\x0e\x01\x03env\x06memcpy\0\0\x05\x03\x01\0\x01",
    ),
    (
        "c",
        b"service : { set : (nat64) -> (); get : () -> (nat64) query; \"say it\" : () -> () }",
    ),
    (
        "d",
        b"service : { set : (nat64) -> (); get : () -> (text) query }",
    ),
    (
        "p",
        b"service : (principal) -> { pay : (record { to : principal; sum : nat; note : text }) -> (variant { ok : nat; err }) }",
    ),
    (
        "q",
        b"service : (principal) -> { pay : (service {}, func () -> (), blob) -> () }",
    ),
    ("u", b"service : { a : (b) -> () }"),
    ("w", b"type a = nat;"),
    ("j", b"service : { \"%\" : () -> (); \"%x\" : () -> () }"),
    (
        "k",
        b"%%%%%%%%%%%%%%%%%%%%%%%%%%%%%%%%%%%%%%%%%%%%%%%%%%%%%%%%%%%%%%%%%%%%%%%%%%%%%%%%%%%%%%%%%%%%%%%%%%%%",
    ),
    (
        "l",
        b"%%%%%%%%%%%%%%%%%%%%%%%%%%%%%%%%%%%%%%%%%%%%%%%%%%%%%%%%%%%%%%%%%%%%%%%%%%%%%%%%%%%%%%%%%%%%%%%%%%%%x",
    ),
];

/// A test file, with `^` before the token at fault and `%` for 20,000 times `x`, and the fault; without them
/// all holds that must.
type Row = (&'static [u8], &'static str);

/// Names, files and what statements say beside values.
static NAMES: [Row; 60] = [
    (b"", ""),
    (b"user a, b, ^a;", "name 'a' bound twice"),
    (b"user a; user b; user ^a;", "name 'a' bound twice"),
    (b"user ^record;", "'record' is a word of Candid"),
    (b"user ^ic;", "name 'ic' bound twice"),
    (b"user ^anonymous;", "name 'anonymous' bound twice"),
    (b"user test, user, as;", ""),
    (b"user a = principal ^\"2vxsx-fab\";", "no principal"),
    (
        b"user a = principal \"2vxsx-fae\", b = principal \"aaaaa-aa\";",
        "",
    ),
    (b"test \"x\" { user a; } test \"y\" { user a; }", ""),
    (
        b"test \"x\" { user a; } test \"y\" { user b; as ^a query c.get (); }",
        "unknown name 'a'",
    ),
    (b"user a; test \"x\" { user ^a; }", "name 'a' bound twice"),
    (
        b"test \"x\" {} test \"y\" {} test ^\"x\" {}",
        "two tests of one name",
    ),
    (
        b"test \"x\" {} test ^\"\\u{78}\" {}",
        "two tests of one name",
    ),
    (b"test ^\"\" {}", "bad name of a test"),
    (b"test ^\"x # SKIP\" {}", "bad name of a test"),
    (b"test ^\"a\\\\b\" {}", "bad name of a test"),
    (b"test ^\"a\\tb\" {}", "bad name of a test"),
    (b"test \"\\u{e9} \\\"!\\u{80}\" {}", ""),
    (b"time 5; test \"x\" { time ^4; }", "time goes back"),
    (
        b"time 5; test \"x\" { time 9; } test \"y\" { time 5; time 6; time ^5; }",
        "time goes back",
    ),
    (b"call ^c.get ();", "unknown name 'c'"),
    (b"user a; call ^a.get ();", "'a' is no canister"),
    (b"query ^anonymous.get ();", "'anonymous' is no canister"),
    (b"upgrade ^c = \"m\";", "unknown name 'c'"),
    (
        b"canister c = \"m\", \"c\"; as ^ic call c.get ();",
        "'ic' is no user or canister",
    ),
    (
        b"canister c = \"m\", \"c\"; as c call ic.stop_canister (record { canister_id = c });",
        "",
    ),
    (
        b"canister c = \"m\", \"c\"; call c.^reset (5);",
        "no such method",
    ),
    (
        b"canister c = \"m\", \"c\"; call c.^\"say it\" ();",
        "bad name of a method",
    ),
    (b"canister c = \"m\", \"c\"; call c.\"get\" ();", ""),
    (
        b"canister c = \"m\", \"c\"; canister ^c = \"m\", \"c\";",
        "name 'c' bound twice",
    ),
    (
        b"canister c = \"m\", \"c\"; canister d = ^nobody, \"c\";",
        "unknown name 'nobody'",
    ),
    (
        b"user a; canister c = a, \"c\"; canister d = principal ^\"x\", \"c\";",
        "no principal",
    ),
    (
        b"canister c = principal \"aaaaa-aa\", \"c\"; query c.get ();",
        "",
    ),
    (
        b"canister j = \"m\", \"j\"; call j.\"%\" (); call j.% ();",
        "",
    ),
    (
        b"canister j = \"m\", \"j\"; call j.^\"%x\" ();",
        "bad name of a method",
    ),
    (
        b"canister c = ^\"n\", \"c\";",
        "\"n\": module refused: NotModule",
    ),
    (
        b"canister c = ^\"k\", \"c\";",
        "\"k\": module refused: NotModule",
    ),
    (b"canister c = ^\"l\", \"c\";", "\"l\": too large"),
    (
        b"canister c = ^\"i\", \"c\";",
        "\"i\": module refused: Import 0 (env.memcpy)",
    ),
    (
        b"canister c = ^\"a \\u{e9}\\n\", \"c\";",
        "\"a \u{e9}\\0a\": could not be read",
    ),
    (
        b"canister c = \"m\", ^\"u\";",
        "\"u\": bad interface: Unbound",
    ),
    (
        b"canister c = \"m\", ^\"w\";",
        "\"w\": bad interface: NoService",
    ),
    (
        b"canister c = \"m\", ^\"m\";",
        "\"m\": bad interface: NotInterface",
    ),
    (
        b"canister c = \"m\", \"c\"; upgrade c = \"m\", ^\"z\";",
        "\"z\": could not be read",
    ),
    (b"canister p = \"m\", \"p\"^;", "expected '('"),
    (
        b"canister p = \"m\", \"p\" (ic); reinstall p = \"m\" ^rejects;",
        "expected '('",
    ),
    (b"canister p = \"m\", \"p\" (^p);", "unknown name 'p'"),
    (
        b"canister c = \"m\", \"c\"; call c.get () replies (let n); call c.set (n); canister d = n, \"c\";",
        "",
    ),
    (
        b"canister c = \"m\", \"c\"; call c.get () replies (let n); as ^n call c.get ();",
        "'n' is no user or canister",
    ),
    (
        b"canister c = \"m\", \"c\"; call c.get () replies (let n); query ^n.get ();",
        "'n' is no canister",
    ),
    (
        b"canister c = \"m\", \"c\"; call c.get () replies (let ^c);",
        "name 'c' bound twice",
    ),
    (
        b"canister c = \"m\", \"c\"; call c.get () replies (let ^opt);",
        "'opt' is a word of Candid",
    ),
    (
        b"canister c = \"m\", \"c\"; call c.get () replies (let ^5);",
        "expected a name",
    ),
    (
        b"canister c = \"m\", \"c\"; call c.get () replies (let ^n) or refused;",
        "no name can be bound here",
    ),
    (
        b"canister c = \"m\", \"c\"; test \"x\" { interleave { query c.get () replies (let ^n); } }",
        "no name can be bound here",
    ),
    (
        b"canister c = \"m\", \"c\"; test \"x\" { interleave { call c.get () replies (let n); call c.set (^n); } }",
        "unknown name 'n'",
    ),
    (
        b"canister c = \"m\", \"c\"; test \"x\" { interleave { call c.get () replies (let n); call c.get () replies (let ^n); } }",
        "name 'n' bound twice",
    ),
    (
        b"canister c = \"m\", \"c\"; test \"x\" { interleave { call c.get () replies (let n); } call c.set (n); }",
        "",
    ),
    (
        b"canister c = \"m\", \"c\"; test \"x\" { call c.get () replies (let n); } test \"y\" { call c.set (^n); }",
        "unknown name 'n'",
    ),
];

/// Arguments and outcomes.
static VALUES: [Row; 37] = [
    (
        b"call ic.create_canister (record { settings = opt record { controllers = opt vec { principal \"aaaaa-aa\" } } }) replies (record { canister_id = principal \"aaaaa-aa\" });",
        "",
    ),
    (
        b"call ic.provisional_create_canister_with_cycles (record { amount = opt 5; settings = opt record { controllers = opt vec {} } }) replies (record { canister_id = principal \"aaaaa-aa\" });",
        "",
    ),
    (
        b"call ic.provisional_top_up_canister (record { canister_id = principal \"aaaaa-aa\"; amount = 5 }) replies ();",
        "",
    ),
    (
        b"call ic.deposit_cycles (record { canister_id = principal \"aaaaa-aa\" }) replies ();",
        "",
    ),
    (
        b"call ic.update_settings (record { canister_id = principal \"aaaaa-aa\"; settings = record { controllers = opt vec {} } }) replies ();",
        "",
    ),
    (
        b"call ic.install_code (record { mode = variant { upgrade = opt record { skip_pre_upgrade = opt true } }; canister_id = principal \"aaaaa-aa\"; wasm_module = blob \"\"; arg = blob \"\" }) replies ();",
        "",
    ),
    (
        b"call ic.uninstall_code (record { canister_id = principal \"aaaaa-aa\" }) replies ();",
        "",
    ),
    (
        b"call ic.start_canister (record { canister_id = principal \"aaaaa-aa\" }) replies ();",
        "",
    ),
    (
        b"call ic.stop_canister (record { canister_id = principal \"aaaaa-aa\" }) replies ();",
        "",
    ),
    (
        b"call ic.delete_canister (record { canister_id = principal \"aaaaa-aa\" }) replies ();",
        "",
    ),
    (
        b"call ic.canister_status (record { canister_id = principal \"aaaaa-aa\" }) replies (record { status = variant { stopping }; settings = record { controllers = vec {} }; module_hash = opt blob \"\"; memory_size = 5; cycles = 5 });",
        "",
    ),
    (b"query ic.^raw_rand ();", "no such method"),
    (
        b"canister c = \"m\", \"c\"; call c.set (^n = 5);",
        "not a value of its type",
    ),
    (
        b"canister c = \"m\", \"c\"; call c.set (5, ^6);",
        "not a value of its type",
    ),
    (
        b"canister c = \"m\", \"c\"; call c.set (^);",
        "not a value of its type",
    ),
    (
        b"canister c = \"m\", \"c\"; call c.set (^c);",
        "not a value of its type",
    ),
    (
        b"canister c = \"m\", \"c\"; call c.set (^_);",
        "not a value of its type",
    ),
    (
        b"canister c = \"m\", \"c\"; call c.set (^let n);",
        "not a value of its type",
    ),
    (
        b"canister c = \"m\", \"c\"; call c.set (^a);",
        "unknown name 'a'",
    ),
    (
        b"canister c = \"m\", \"c\"; call c.set (5 : ^nat, a);",
        "not a value of its type",
    ),
    (
        b"canister c = \"m\", \"c\"; call c.set (5) replies (^());",
        "not a value of its type",
    ),
    (
        b"canister c = \"m\", \"c\"; call c.get () replies (let n); call c.set (n, ^5);",
        "not a value of its type",
    ),
    (
        b"canister c = \"m\", \"c\" (^5);",
        "not a value of its type",
    ),
    (
        b"canister c = \"m\", \"c\"; call c.get () replies (^\"x\");",
        "not a value of its type",
    ),
    (
        b"canister c = \"m\", \"c\"; upgrade c = \"m\", \"d\"; call c.get () replies (\"x\");",
        "",
    ),
    (
        b"canister c = \"m\", \"c\"; upgrade c = \"m\", \"d\" rejects or refused; call c.get () replies (^\"x\");",
        "not a value of its type",
    ),
    (
        b"canister c = \"m\", \"c\"; upgrade c = \"m\", \"d\" rejects or replies; call c.get () replies (\"x\");",
        "",
    ),
    (
        b"canister c = \"m\", \"c\"; test \"x\" { reinstall c = \"m\", \"d\"; } test \"y\" { call c.get () replies (5); }",
        "",
    ),
    (
        b"canister c = \"m\", \"c\"; test \"x\" { interleave { upgrade c = \"m\", \"d\"; query c.get () replies (^5); } }",
        "not a value of its type",
    ),
    (
        b"user to; canister p = \"m\", \"p\" (to); call p.pay (record { to = to; sum = 5; note = \"\" }) replies (variant { ok = let n });",
        "",
    ),
    (
        b"canister p = \"m\", \"p\" (ic); call p.pay (record { to = ic; sum = 5 ^});",
        "not a value of its type",
    ),
    (
        b"canister p = \"m\", \"p\" (ic); call p.pay (record { to = ic; ^.. });",
        "not a value of its type",
    ),
    (
        b"canister p = \"m\", \"p\" (ic); call p.pay (record { to = principal ^ic; sum = 5; note = \"\" });",
        "not a value of its type",
    ),
    (
        b"canister q = \"m\", \"q\" (ic); call q.pay (service ic, func q.get, blob \"\");",
        "",
    ),
    (
        b"canister q = \"m\", \"q\" (ic); call q.pay (service ic, func q.get, ^5);",
        "not a value of its type",
    ),
    (
        b"canister q = \"m\", \"q\" (ic); call q.pay (service ic, func q.get, vec { 1; 2 }) replies () or rejects 4 \"x\";",
        "",
    ),
    (
        b"canister p = \"m\", \"p\" (ic); call p.pay (record { to = ic; sum = 5; note = \"\" }) replies (variant { ^oh });",
        "not a value of its type",
    ),
];

fn files() -> &'static [(&'static str, &'static [u8])] {
    &FILES
}

fn names() -> &'static [Row] {
    &NAMES
}

fn values() -> &'static [Row] {
    &VALUES
}

fn push_long(text: &mut Vec<u8>) -> Result<(), AllocError> {
    for _ in 0..20_000 {
        text.push(b'x')?;
    }
    Ok(())
}

// The text of a row or of a file without marks, and the place of `^`.
fn unmarked(alloc: Global, marked: &[u8]) -> Result<(Vec<u8>, Option<usize>), AllocError> {
    let mut text = Vec::new(alloc);
    let mut place = None;
    for byte in marked {
        match *byte {
            b'^' => place = Some(text.len()),
            b'%' => push_long(&mut text)?,
            byte => text.push(byte)?,
        }
    }
    Ok((text, place))
}

// The file with a name, if there is one.
fn source_of(alloc: Global, name: &Text) -> Result<Option<Source>, AllocError> {
    for (other, bytes) in files() {
        if name.items.as_str() == *other {
            let (items, _) = unmarked(alloc, bytes)?;
            return Ok(Some(Source::of(alloc, Bytes { items })?));
        }
    }
    Ok(None)
}

fn sources_of(alloc: Global, names: &[Text]) -> Result<Sources, AllocError> {
    let mut sources = Sources::new(alloc)?;
    for name in names {
        let source = source_of(alloc, name)?;
        sources.put(alloc, name, source)?;
    }
    Ok(sources)
}

// The fault of a test file, and its place.
fn fault_in(alloc: Global, text: &[u8]) -> Result<(String, Option<usize>), AllocError> {
    let file = match read(alloc, text) {
        Ok(file) => file,
        Err(FileError::NoMemory) => return Err(AllocError),
        Err(FileError::Faulty(_)) => return Ok((String::from_str(alloc, "file")?, None)),
    };
    let names = named_files(alloc, &file)?;
    let sources = sources_of(alloc, &names)?;
    match check(alloc, &sources, &file) {
        Ok(_) => Ok((String::new(alloc), None)),
        Err(CheckError::NoMemory) => Err(AllocError),
        Err(CheckError::Faulty(fault)) => {
            let cause = &fault.cause;
            Ok((format!(in alloc; "{cause}")?, Some(fault.place)))
        }
    }
}

fn try_rows(rt: &impl Abort, alloc: Global, rows: &[Row]) -> Result<(), Fail> {
    for (marked, cause) in rows {
        let (text, place) = unmarked(alloc, marked)?;
        let (found, at) = fault_in(alloc, &text)?;
        assert!(rt;
            found.as_bytes() == cause.as_bytes() && at == place,
            "{marked:?} {found} {at:?}"
        );
    }
    Ok(())
}

#[test]
fn names_and_files(rt: HostRuntime) -> Result<(), Fail> {
    try_rows(&rt, rt.alloc(), names())
}

#[test]
fn values_of_their_types(rt: HostRuntime) -> Result<(), Fail> {
    try_rows(&rt, rt.alloc(), values())
}
