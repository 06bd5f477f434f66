use crate::report;
use ct_file::{Action, File, Message, Method, Move, Origin, Statement, StatementKind, Step, read};
use std::test::*;

/// Texts that are files.
static FILES: [&[u8]; 12] = [
    b"",
    b" // nothing\n/* at all */",
    // Names that are words of the grammar, too.
    b"user as, user = principal \"aaaaa-aa\", interleave;\ncanister call = \"a\", \"b\";\nas as call call.call () replies (let replies);\ntest \"test\" { as user query query.get () replies; interleave { as as call call.\"set\" (replies); } }",
    b"canister counter = call, \"b\"; canister principal = principal \"aaaaa-aa\", \"b\";",
    b"as principal canister with = \"a\", \"b\" (with) with cycles 0 rejects or refused;",
    // Numbers at the ends of their ranges, and as they may be written.
    b"time 0; time 9_223_372_036_854_775_807; time 0xff;",
    b"canister a = \"a\", \"b\" with cycles 170141183460469231731687303715884105727;",
    b"call a.b () rejects 1 or rejects 5 \"x\" or rejects \"x\" or rejects;",
    // Arguments, with all that may be in them.
    b"call a.b ({ 1; -2; +0x3; \"\\ff\"; (:) = . , } ());",
    b"upgrade a = \"a\"; upgrade a = \"a\", \"b\"; reinstall a = \"a\" () refused; upgrade a = \"a\", \"b\" () replies;",
    // Marks in strings and comments.
    b"test \"}\" { /* } */ call a.b (\");\" // )\n); }",
    b"test \"\" { interleave { query a.b (); } } test \"\" {}",
];

fn files() -> &'static [&'static [u8]] {
    &FILES
}

#[test]
fn texts_that_are_files(rt: HostRuntime) -> Result<(), Fail> {
    for text in files() {
        assert_eq!(rt; report(rt.alloc(), text)?.as_str(), "a file", "{text:?}");
    }
    Ok(())
}

// The only move in a file's first test.
fn first_move<'f, 'a>(file: &'f File<'a>) -> Option<&'f Move<'a>> {
    match file.tests.items.first()?.steps.items.first()? {
        Step::Statement(statement) => match &statement.kind {
            StatementKind::Move(only_move) => Some(only_move),
            _ => None,
        },
        Step::Interleave(_) => None,
    }
}

// The places of a call: of its canister and its method, of its parentheses, of its first argument, and
// where its outcomes begin and end.
fn places_of(message: &Message<'_>) -> Option<[usize; 7]> {
    let method = match &message.method {
        Method::Word(name) => name.place,
        Method::Text(quoted) => quoted.place,
    };
    let arguments = &message.arguments;
    let span = message.expected.span;
    let first = arguments.items.first()?.place;
    Some([
        message.canister.place,
        method,
        arguments.place,
        first,
        arguments.end,
        span.start,
        span.end,
    ])
}

#[test]
fn places_in_a_file(rt: HostRuntime) -> Result<(), Fail> {
    let text = b"user a;\ntest \"x\" { as a call b.c (5) replies ( 6); }";
    let file = read(rt.alloc(), text)?;
    let Some(only_move) = first_move(&file) else {
        assert!(rt; false, "no move");
        return Ok(());
    };
    assert!(rt; (only_move.span.start, only_move.span.end) == (19, 49));
    match &only_move.action {
        Action::Call(message) => {
            assert!(rt; places_of(message) == Some([29, 31, 33, 34, 35, 37, 49]));
        }
        _ => assert!(rt; false, "no call"),
    }
    Ok(())
}

// Where a statement begins and ends, and the place of the token where its arguments would be.
fn installed_places(statement: &Statement<'_>) -> Option<[usize; 3]> {
    let arguments = match &statement.kind {
        StatementKind::Canister {
            origin: Origin::Made(creation),
            ..
        } => &creation.arguments,
        StatementKind::Move(upgrade) => match &upgrade.action {
            Action::Upgrade(change) => &change.arguments,
            _ => return None,
        },
        _ => return None,
    };
    Some([statement.span.start, statement.span.end, arguments.place])
}

// The place of the interleave that a file's first test begins with.
fn interleave_place(file: &File<'_>) -> Option<usize> {
    match file.tests.items.first()?.steps.items.first()? {
        Step::Interleave(interleave) => Some(interleave.place),
        Step::Statement(_) => None,
    }
}

#[test]
fn places_of_statements(rt: HostRuntime) -> Result<(), Fail> {
    let text =
        b"canister s = \"strict.wasm\", \"strict.did\" // none\n;\nupgrade s = \"strict.wasm\"\n  rejects;\ntest \"x\" { interleave { query s.get (); } }";
    let file = read(rt.alloc(), text)?;
    match (file.preamble.items.first(), file.preamble.items.get(1)) {
        (Some(made), Some(changed)) => {
            assert!(rt; installed_places(made) == Some([0, 49, 49]));
            assert!(rt; installed_places(changed) == Some([51, 86, 79]));
        }
        _ => assert!(rt; false, "no statements"),
    }
    assert!(rt; interleave_place(&file) == Some(99));
    Ok(())
}
