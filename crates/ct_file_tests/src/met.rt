use crate::types::*;
use cd_did::Interface;
use cd_tokens::{PlacedToken, Token, placed_tokens_of};
use ct_check::{CheckedOutcome, Filled};
use ct_file::Arguments;
use ct_outcomes::{At, Came, Named, Standing, argument_of, met};
use ct_scope::InterfaceId;
use ic_principal::{Bytes, Principal};
use std::alloc::{AllocError, Global};
use std::test::*;

/// Types, the values of an outcome and those of a reply, and what is bound, if they meet it. The name `a`
/// stands for 8.
type Row = (
    &'static [u8],
    &'static [u8],
    &'static [u8],
    Option<&'static str>,
);

static ROWS: [Row; 25] = [
    (NATS, b"7", b"7", Some("")),
    (NATS, b"7", b"8", None),
    (NATS, b"_", b"8", Some("")),
    (NATS, b"let n", b"8", Some("n = 8; ")),
    (
        PAIR,
        b"let n, let t",
        b"1, \"x\"",
        Some("n = 1; t = \"x\"; "),
    ),
    (PAIR, b"1, \"y\"", b"1, \"x\"", None),
    (
        ENTRY,
        b"record { 7 = true; id = 0x3e8 : nat; note = \"n\"; \"of whom\" = record { subaccount = null; owner = principal \"aaaaa-aa\" } }",
        b"record { note = \"n\"; \"of whom\" = record { owner = principal \"aaaaa-aa\" }; 7 = true; id = 1_000 }",
        Some(""),
    ),
    (
        ENTRY,
        b"record { note = let n; .. }",
        b"record { note = \"n\"; \"of whom\" = record { owner = principal \"aaaaa-aa\" }; 7 = true; id = 1_000 }",
        Some("n = \"n\"; "),
    ),
    (
        ENTRY,
        b"record { \"of whom\" = record { owner = principal \"aaaaa-aa\" }; .. }",
        b"record { note = \"n\"; \"of whom\" = record { owner = principal \"aaaaa-aa\"; subaccount = opt blob \"\" }; 7 = true; id = 1_000 }",
        None,
    ),
    (
        ENTRY,
        b"record { \"of whom\" = record { owner = principal \"aaaaa-aa\"; subaccount = opt _ }; .. }",
        b"record { note = \"n\"; \"of whom\" = record { owner = principal \"aaaaa-aa\"; subaccount = opt blob \"\" }; 7 = true; id = 1_000 }",
        Some(""),
    ),
    (
        OUTCOME,
        b"variant { ok = _ }",
        b"variant { ok = 5 }",
        Some(""),
    ),
    (
        OUTCOME,
        b"variant { ok = _ }",
        b"variant { err = variant { too_old } }",
        None,
    ),
    (
        OUTCOME,
        b"variant { err = variant { too_old = null } }",
        b"variant { err = variant { too_old } }",
        Some(""),
    ),
    (
        OUTCOME,
        b"variant { err = variant { unfunded = record { balance = let b } } }",
        b"variant { err = variant { unfunded = record { balance = -5 } } }",
        Some("b = -5; "),
    ),
    (
        BLOB,
        b"vec { 1; let b; _ }",
        b"blob \"\\01\\02\\03\"",
        Some("b = 2; "),
    ),
    (BLOB, b"vec { _ }", b"blob \"\"", None),
    (BLOB, b"blob \"a\"", b"vec { 97 }", Some("")),
    (
        LIST,
        b"vec { _; opt let n }",
        b"vec { null; opt 3 }",
        Some("n = 3; "),
    ),
    (LIST, b"vec { opt _ }", b"vec { null }", None),
    (LIST, b"vec { null }", b"vec { opt 0 }", None),
    (
        REFERENCES,
        b"service \"aaaaa-aa\", func \"aaaaa-aa\".\"m\"",
        b"service \"aaaaa-aa\", func \"aaaaa-aa\".m",
        Some(""),
    ),
    (
        REFERENCES,
        b"_, func \"aaaaa-aa\".m",
        b"service \"aaaaa-aa\", func \"aaaaa-aa\".n",
        None,
    ),
    (
        PRINCIPAL,
        b"let p",
        b"principal \"2vxsx-fae\"",
        Some("p = principal 2vxsx-fae; "),
    ),
    (
        REFERENCES,
        b"let s, _",
        b"service \"aaaaa-aa\", func \"aaaaa-aa\".m",
        Some("s = service aaaaa-aa; "),
    ),
    (PAIR, b"a, let t", b"a, \"a\"", Some("t = \"a\"; ")),
];

fn rows() -> &'static [Row] {
    &ROWS
}

fn written(alloc: Global, id: &Principal) -> Result<String, AllocError> {
    Ok(id.to_text(alloc)?.items)
}

// A name and what it is bound to.
fn shown(alloc: Global, named: &Named) -> Option<String> {
    let name = str::from_utf8(&named.name.items).ok()?;
    match &named.standing {
        Standing::Principal(id) => {
            let text = written(alloc, id).ok()?;
            format!(in alloc; "{name} = principal {text}; ").ok()
        }
        Standing::Service(id) => {
            let text = written(alloc, id).ok()?;
            format!(in alloc; "{name} = service {text}; ").ok()
        }
        Standing::Value(bytes) => {
            let text = str::from_utf8(&bytes.items).ok()?;
            format!(in alloc; "{name} = {text}; ").ok()
        }
    }
}

fn arguments_of<'a>(alloc: Global, text: &'a [u8]) -> Option<Arguments<'a>> {
    let placed = placed_tokens_of(alloc, true, text).ok()?;
    Some(Arguments {
        items: placed.items,
        place: 0,
        end: text.len(),
    })
}

fn is_name(placed: &PlacedToken<'_>) -> bool {
    match &placed.token {
        Token::Run(run) => run.bytes == b"a".as_slice(),
        _ => false,
    }
}

// The name in the first slot is where `a` is.
fn filled<'f, 'a>(
    alloc: Global,
    arguments: &'f Arguments<'a>,
) -> Result<Filled<'f, 'a>, AllocError> {
    let mut names = Vec::new(alloc);
    for placed in &arguments.items {
        if is_name(placed) {
            names.push(0)?;
        }
    }
    Ok(Filled { arguments, names })
}

fn names(alloc: Global) -> Result<Vec<Named>, AllocError> {
    let name = Bytes {
        items: Vec::from_slice(alloc, b"a")?,
    };
    let standing = Standing::Value(Bytes {
        items: Vec::from_slice(alloc, b"8")?,
    });
    let mut names = Vec::new(alloc);
    names.push(Named { name, standing })?;
    Ok(names)
}

// What a call replies with these values.
fn replied(alloc: Global, at: At<'_>, names: &[Named], text: &[u8]) -> Option<Bytes> {
    let values = arguments_of(alloc, text)?;
    let given = filled(alloc, &values).ok()?;
    argument_of(alloc, at, Some(&given), names).ok()?
}

// What is bound where the values meet the outcome; `Some(None)`: they do not.
fn bound(alloc: Global, at: At<'_>, row: &Row) -> Option<Option<Vec<Named>>> {
    let names = names(alloc).ok()?;
    let came = Came::Replied(replied(alloc, at, &names, row.2)?);
    let expected = arguments_of(alloc, row.1)?;
    let outcome = CheckedOutcome::Replies(Some(filled(alloc, &expected).ok()?));
    met(alloc, at, &[outcome], &names, &came).ok()
}

fn all_shown(alloc: Global, bound: &[Named]) -> Option<String> {
    let mut out = String::new(alloc);
    for named in bound {
        out.push_str(&shown(alloc, named)?).ok()?;
    }
    Some(out)
}

// The same, as text.
fn bound_at(alloc: Global, at: At<'_>, row: &Row) -> Option<Option<String>> {
    match bound(alloc, at, row)? {
        None => Some(None),
        Some(bound) => Some(Some(all_shown(alloc, &bound)?)),
    }
}

fn bound_in(alloc: Global, row: &Row) -> Option<Option<String>> {
    let interface = interface_of(alloc, row.0)?;
    let at = At::new(InterfaceId::Management, &interface, &interface.init.items);
    bound_at(alloc, at, row)
}

#[test]
fn values_meet_patterns(rt: HostRuntime) -> Result<(), Fail> {
    for row in rows() {
        match bound_in(rt.alloc(), row) {
            Some(Some(out)) => assert!(rt; row.3 == Some(out.as_str()), "{:?} {out:?}", row.1),
            Some(None) => assert!(rt; row.3.is_none(), "{:?}", row.1),
            None => assert!(rt; false, "{:?}", row.1),
        }
    }
    Ok(())
}
