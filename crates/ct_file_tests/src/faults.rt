use crate::report;
use std::test::*;

/// A text, its line and column, and the cause.
type Row = (&'static [u8], &'static str);

/// Faults of tokens.
static TOKENS: [Row; 26] = [
    (b"\xff", "1:1: not UTF-8"),
    (b"user a\xc3;", "1:7: not UTF-8"),
    (b"user a; // \xc3(\nuser b", "1:12: not UTF-8"),
    (b"user a; /* \xff */ user", "1:12: not UTF-8"),
    (b"user a; /* \xff", "1:12: not UTF-8"),
    (b"test \"\xff", "1:6: bad string"),
    (b"test \"\xff\\q\" {", "1:6: bad string"),
    (b"test \"\\q\" \xff", "1:6: bad string"),
    (b"test \"a\" \xff \"\\q\"", "1:10: not UTF-8"),
    (b"user a; user \xf0\x9f\x98\x80;", "1:14: not a token"),
    (b"\xef\xbb\xbfuser a;", "1:1: not a token"),
    (b"user a; \xff", "1:9: not UTF-8"),
    (b"user a; /", "1:9: not a token"),
    (b"user a; / user b;", "1:9: not a token"),
    (b"user a; /*/", "1:9: comment without end"),
    (b"call a.b (1__0);", "1:11: not a token"),
    (b"call a.b (+x);", "1:11: not a token"),
    (b"call a.b (0x);", "1:11: not a token"),
    (b"call a.b (-);", "1:11: not a token"),
    (b"call a.b (a -> b);", "1:13: not a token"),
    (b"user a b @", "1:8: expected ';'"),
    (b"test \"x\" { } @", "1:14: not a token"),
    (b"call a.b (5] ;", "1:12: not a token"),
    (b"call a.\"\\ff\" ();", "1:8: bad string"),
    (b"call a.b () rejects \"\\ff\";", "1:21: bad string"),
    (b"call a.b () rejects 5 \"\\ff\";", "1:23: bad string"),
];

/// Faults of the grammar.
static GRAMMAR: [Row; 45] = [
    (b"user", "1:5: expected a name"),
    (b"user \"a\";", "1:6: expected a name"),
    (b"user a = principal;", "1:19: expected a text"),
    (b"test \"x\"", "1:9: expected '{'"),
    (b"test \"x\" {} 5", "1:13: expected 'test'"),
    (
        b"time +5;",
        "1:6: expected a number from 0 to 9223372036854775807",
    ),
    (b"time \"5\";", "1:6: expected a number"),
    (b"time", "1:5: expected a number"),
    (b"canister", "1:9: expected a name"),
    (b"canister a \"a\", \"b\";", "1:12: expected '='"),
    (b"canister a = \"a\", b;", "1:19: expected a text"),
    (b"canister a = principal, \"b\";", "1:23: expected a text"),
    (b"canister a = principal \"a\";", "1:27: expected ','"),
    (b"canister a = b, \"c\" ();", "1:21: expected ';'"),
    (
        b"canister a = \"a\", \"b\" with cycles 170141183460469231731687303715884105728;",
        "1:35: expected a number from 0 to 170141183460469231731687303715884105727",
    ),
    (
        b"canister a = \"a\", \"b\" with cycles x;",
        "1:35: expected a number",
    ),
    (b"canister a = \"a\", \"b\" () ();", "1:26: expected ';'"),
    (b"as", "1:3: expected a name"),
    (
        b"as a",
        "1:5: expected a canister, call, query, upgrade or reinstall",
    ),
    (b"upgrade a \"a\";", "1:11: expected '='"),
    (b"reinstall a = b;", "1:15: expected a text"),
    (b"upgrade a = \"a\", b;", "1:18: expected a text"),
    (b"upgrade a = \"a\" \"b\";", "1:17: expected ';'"),
    (b"call a.", "1:8: expected a method"),
    (
        b"call a.b () rejects -1;",
        "1:21: expected a number from 1 to 5",
    ),
    (
        b"call a.b () rejects 0;",
        "1:21: expected a number from 1 to 5",
    ),
    (b"call a.b () rejects \"x\" 5;", "1:25: expected ';'"),
    (b"call a.b () replies 5;", "1:21: expected ';'"),
    (b"call a.b () or replies;", "1:13: expected ';'"),
    (
        b"call a.b () replies or",
        "1:23: expected 'replies', 'rejects' or 'refused'",
    ),
    (b"call a.b ({ (5; 6) });", "1:15: expected ')'"),
    (b"call a.b ({ 5 );", "1:15: expected '}'"),
    (b"call a.b (});", "1:11: expected ')'"),
    (b"call a.b (", "1:11: expected ')'"),
    (b"call a.b ({", "1:12: expected '}'"),
    (b"test \"x\" { interleave", "1:22: expected '{'"),
    (b"test \"x\" { interleave { as", "1:27: expected a name"),
    (
        b"test \"x\" { interleave { call a.b () }",
        "1:37: expected ';'",
    ),
    (
        b"test \"x\" { interleave { call a.b (); interleave",
        "1:38: expected a call, query, upgrade, reinstall or '}'",
    ),
    (
        b"test \"x\" { interleave { call a.b (); } ; }",
        "1:40: expected a statement or '}'",
    ),
    (
        b"test \"x\" { test \"y\" {} }",
        "1:12: expected a statement or '}'",
    ),
    (b"user a;\x0d\n\x09user b c;", "2:9: expected ';'"),
    (b"user a; // \"\nuser b c;", "2:8: expected ';'"),
    (b"user a; /* \" */ user b c;", "1:24: expected ';'"),
    (b"test \"//\" { } user", "1:15: expected 'test'"),
];

/// Faults in files.
static FILES: [Row; 42] = [
    (
        b"test \"x\" {\n  call counter.get ()\n}\n",
        "3:1: expected ';'",
    ),
    (b"user alice\nuser bob;\n", "2:1: expected ';'"),
    (b"user alice bob;\n", "1:12: expected ';'"),
    (
        b"user alice = \"2vxsx-fae\";\n",
        "1:14: expected 'principal'",
    ),
    (b"user alice = principal 2vxsx;\n", "1:24: not a token"),
    (b"statement;\n", "1:1: expected a statement or a test"),
    (b"test x { }\n", "1:6: expected a text"),
    (b"test \"x\" { }\nuser alice;\n", "2:1: expected 'test'"),
    (
        b"test \"x\" { interleave { } }\n",
        "1:25: expected a call, query, upgrade or reinstall",
    ),
    (
        b"test \"x\" { interleave { time 5; } }\n",
        "1:25: expected a call, query, upgrade or reinstall",
    ),
    (
        b"test \"x\" { interleave { as anonymous time 5; } }\n",
        "1:38: expected a call, query, upgrade or reinstall",
    ),
    (
        b"test \"x\" { as anonymous time 5; }\n",
        "1:25: expected a canister, call, query, upgrade or reinstall",
    ),
    (
        b"time -5;\n",
        "1:6: expected a number from 0 to 9223372036854775807",
    ),
    (
        b"time 9223372036854775808;\n",
        "1:6: expected a number from 0 to 9223372036854775807",
    ),
    (b"time x;\n", "1:6: expected a number"),
    (b"time 5_;\n", "1:6: not a token"),
    (b"time 5 @;\n", "1:8: not a token"),
    (
        b"user a; // comment\n /* comment\n user b;\n",
        "2:2: comment without end",
    ),
    (b"test \"x\n\" { }\n", "1:6: bad string"),
    (b"test \"x\\q\" { }\n", "1:6: bad string"),
    (
        b"test \"x\" { let n = 5; }\n",
        "1:12: expected a statement or '}'",
    ),
    (
        b"canister counter = \"counter.wasm\", \"counter.did\";\ncall counter.set (5;\ntest \"x\" { query counter.get (); }\n",
        "2:20: expected ')'",
    ),
    (
        b"canister counter = \"counter.wasm\", \"counter.did\";\ncall counter.set (record { a = 5);\n",
        "2:33: expected '}'",
    ),
    (
        b"canister counter = \"counter.wasm\", \"counter.did\";\ncall counter 5;\n",
        "2:14: expected '.'",
    ),
    (
        b"canister counter = \"counter.wasm\", \"counter.did\";\ncall counter.5 ();\n",
        "2:14: expected a method",
    ),
    (
        b"canister counter = \"counter.wasm\", \"counter.did\";\ncall counter.get;\n",
        "2:17: expected '('",
    ),
    (
        b"canister counter = \"counter.wasm\", \"counter.did\";\ncall counter.get () replies (0) rejects;\n",
        "2:33: expected ';'",
    ),
    (
        b"canister counter = \"counter.wasm\", \"counter.did\";\ncall counter.get () replies (0) or 5;\n",
        "2:36: expected 'replies', 'rejects' or 'refused'",
    ),
    (
        b"canister counter = \"counter.wasm\", \"counter.did\";\ncall counter.get () rejects 6;\n",
        "2:29: expected a number from 1 to 5",
    ),
    (
        b"canister counter = \"counter.wasm\", \"counter.did\";\ncanister b = 5;\n",
        "2:14: expected a text, 'principal' or a name",
    ),
    (
        b"canister counter = \"counter.wasm\", \"counter.did\";\ncanister b = \"counter.wasm\";\n",
        "2:28: expected ','",
    ),
    (
        b"canister counter = \"counter.wasm\", \"counter.did\";\ncanister b = \"counter.wasm\", \"counter.did\" with 5;\n",
        "2:49: expected 'cycles'",
    ),
    (
        b"canister counter = \"counter.wasm\", \"counter.did\";\nas anonymous user alice;\n",
        "2:14: expected a canister, call, query, upgrade or reinstall",
    ),
    (b"interleave { }\n", "1:1: expected a statement or a test"),
    (b"test \"x\" {\n", "2:1: expected a statement or '}'"),
    (
        b"test \"x\" { interleave { call ic.a ();",
        "1:38: expected a call, query, upgrade, reinstall or '}'",
    ),
    (b"user alice, // and so on", "1:25: expected a name"),
    (
        b"canister counter = \"counter.wasm\", \"counter.did\";\ntest \"x\" { as anonymous interleave { call counter.get (); } }\n",
        "2:25: expected a canister, call, query, upgrade or reinstall",
    ),
    (b"user alice = principal \"\\ff\";\n", "1:24: bad string"),
    (
        b"canister counter = \"counter.wasm\", \"counter.did\";\ntest \"x\" { call counter.get () replies (",
        "2:41: expected ')'",
    ),
    (
        b"canister counter = \"counter.wasm\", \"counter.did\";\nuser alice = principal \"aaaaa-aa\", bob = principal;\n",
        "2:51: expected a text",
    ),
    (
        b"canister counter = \"counter.wasm\", \"counter.did\";\ntest \"caf\xc3\xa9\" { }\ntest \"caf\xe9\" { }\n",
        "3:10: not UTF-8",
    ),
];

fn tokens() -> &'static [Row] {
    &TOKENS
}

fn grammar() -> &'static [Row] {
    &GRAMMAR
}

fn files() -> &'static [Row] {
    &FILES
}

#[test]
fn faults_of_tokens(rt: HostRuntime) -> Result<(), Fail> {
    for row in tokens() {
        assert_eq!(rt; report(rt.alloc(), row.0)?.as_str(), row.1, "{:?}", row.0);
    }
    Ok(())
}

#[test]
fn faults_of_the_grammar(rt: HostRuntime) -> Result<(), Fail> {
    for row in grammar() {
        assert_eq!(rt; report(rt.alloc(), row.0)?.as_str(), row.1, "{:?}", row.0);
    }
    Ok(())
}

#[test]
fn faults_in_files(rt: HostRuntime) -> Result<(), Fail> {
    for row in files() {
        assert_eq!(rt; report(rt.alloc(), row.0)?.as_str(), row.1, "{:?}", row.0);
    }
    Ok(())
}
