use cd_tokens::{PlacedToken, PlacedTokens, Token, placed_tokens_of, tokens_of};
use ct_names::{Meaning, Role, exchange, roles_of};
use ic_base::ReadError;
use std::alloc::{AllocError, Global};
use std::test::*;

/// Arguments, and what is read in their place: each token with its place.
type Row = (&'static [u8], &'static str);

static ROWS: [Row; 12] = [
    (b"a, 5", "principal0 \"p\"0 ,1 53 "),
    (
        b"record { a = a }",
        "record0 {7 a9 =11 principal13 \"p\"13 }15 ",
    ),
    (
        b"record { a; let = 1 }",
        "record0 {7 principal9 \"p\"9 ;10 let12 =16 118 }20 ",
    ),
    (
        b"variant { a = b; c }",
        "variant0 {8 a10 =12 principal14 \"p\"14 ;15 principal17 \"p\"17 }19 ",
    ),
    (b"variant { let }", "variant0 {8 let10 }14 "),
    (
        b"vec { v; v }",
        "vec0 {4 vec6 {6 16 ;6 26 }6 ;7 vec9 {9 19 ;9 29 }9 }11 ",
    ),
    (
        b"service a, func s.a",
        "service0 \"p\"8 ,9 func11 \"s\"16 .17 a18 ",
    ),
    (
        b"service v, service",
        "service0 vec8 {8 18 ;8 28 }8 ,9 service11 ",
    ),
    (
        b"(a : principal)",
        "(0 principal1 \"p\"1 :3 principal5 )14 ",
    ),
    (
        b"let a, opt let b, let 5",
        "let0 a4 ,5 opt7 let11 b15 ,16 let18 522 ",
    ),
    (b"_ /* a */, \"a\" // a", "_0 ,9 \"a\"11 "),
    (b"-a, a1, 1a", "-a0 ,2 principal4 \"p\"4 ,6 1a8 "),
];

fn rows() -> &'static [Row] {
    &ROWS
}

// What a name stands for: by its first letter a value, a service or a principal.
fn meaning_of<'a>(alloc: Global, name: &'a [u8]) -> Result<Meaning<'a>, ReadError> {
    let items = match name {
        [b'v', ..] => tokens_of(alloc, false, b"vec { 1; 2 }")?,
        [b's', ..] => tokens_of(alloc, false, b"service \"s\"")?,
        _ => return Ok(Meaning::of_principal(alloc, b"p")?),
    };
    Ok(Meaning { items })
}

// What the names stand for that are used.
fn meanings_of<'a>(
    alloc: Global,
    tokens: &[PlacedToken<'a>],
) -> Result<Vec<Meaning<'a>>, ReadError> {
    let mut meanings = Vec::new(alloc);
    for (placed, role) in tokens.iter().zip(&roles_of(alloc, tokens)?) {
        match (&placed.token, role) {
            (Token::Run(name), Role::Used { .. }) => meanings.push(meaning_of(alloc, name.bytes)?)?,
            _ => {}
        }
    }
    Ok(meanings)
}

fn shown_token(alloc: Global, token: &Token<'_>) -> Result<String, AllocError> {
    match token {
        Token::Run(run) => {
            let word = str::from_utf8(run.bytes).unwrap_or("?");
            format!(in alloc; "{word}")
        }
        Token::Quoted(string) => {
            let written = str::from_utf8(string.bytes).unwrap_or("?");
            format!(in alloc; "\"{written}\"")
        }
        Token::Mark(mark) => {
            let mark = char::from(*mark);
            format!(in alloc; "{mark}")
        }
        Token::Arrow => format!(in alloc; "->"),
    }
}

// The tokens that are read, with their places.
fn shown(alloc: Global, text: &[u8]) -> Result<String, ReadError> {
    let PlacedTokens { items, stop } = placed_tokens_of(alloc, true, text)?;
    let meanings = meanings_of(alloc, &items)?;
    let mut out = String::new(alloc);
    for placed in &exchange(alloc, &items, &meanings)? {
        let token = shown_token(alloc, &placed.token)?;
        let place = placed.place;
        out.push_str(&format!(in alloc; "{token}{place} ")?)?;
    }
    if stop.is_some() {
        out.push_str("stop")?;
    }
    Ok(out)
}

#[test]
fn names_are_exchanged(rt: HostRuntime) -> Result<(), Fail> {
    for (text, read) in rows() {
        match shown(rt.alloc(), text) {
            Ok(out) => assert_eq!(rt; out.as_str(), *read, "{text:?}"),
            Err(_) => assert!(rt; false, "{text:?}"),
        }
    }
    Ok(())
}
