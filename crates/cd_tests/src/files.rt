use crate::faults::fault_of;
use cd_did::DidFault;
use std::test::*;

const NOT_INTERFACE: Option<DidFault> = Some(DidFault::NotInterface);

static ROWS: [(&[u8], Option<DidFault>); 84] = [
    // Files, and their ends.
    (b"", None),
    (b"type A = nat", None),
    (b"type A = nat;", None),
    (b"service : {}", None),
    (b"service : {};", None),
    (b"type A = nat; service : {}", None),
    (b"service s : () -> {}", None),
    (b"service : (nat, n : text,) -> {}", None),
    (b"type S = service {}; service : S", None),
    (b"service", NOT_INTERFACE),
    (b"service : {};;", NOT_INTERFACE),
    (b"service : {} service : {}", NOT_INTERFACE),
    (b"service : {}; type A = nat", NOT_INTERFACE),
    (b"type A = nat type B = nat", NOT_INTERFACE),
    (b"type A : nat", NOT_INTERFACE),
    (b"import \"a.did\"; service : {}", NOT_INTERFACE),
    (b"type A = nat\xff", NOT_INTERFACE),
    // Gaps.
    (b"// begins\n/* both */ service : {} // ends", None),
    (b"/* a * / ** b **/service : {}/**/", None),
    (b"/*/ service : {}", NOT_INTERFACE),
    (b"service : {} /* open", NOT_INTERFACE),
    (b"service : {} / / none", NOT_INTERFACE),
    (b"// \xff\nservice : {}", NOT_INTERFACE),
    (b"// a line feed alone ends this \r service : {", None),
    // Words as labels and as names.
    (
        b"type A = record { text : nat; type : nat; \"opt\" : nat }",
        None,
    ),
    (b"type A = variant { query; 5 : nat; \"a b\" }", None),
    (
        b"service : { query : () -> () query; \"a b\" : () -> () }",
        None,
    ),
    (b"type record = nat", NOT_INTERFACE),
    (b"type float32 = nat", NOT_INTERFACE),
    (b"type blob = nat", NOT_INTERFACE),
    (b"type composite_query = nat", NOT_INTERFACE),
    (b"type queries = nat", None),
    (b"type nat = int", NOT_INTERFACE),
    (b"type A = query", NOT_INTERFACE),
    (b"service text : {}", None),
    (b"service service : {}", None),
    (b"service \"s\" : {}", NOT_INTERFACE),
    (b"service 1 : {}", NOT_INTERFACE),
    (b"service : nat", NOT_INTERFACE),
    (b"service : { f : nat }", NOT_INTERFACE),
    (b"service : { f : (to : text, text : text) -> () }", None),
    (
        b"service : (type : nat, import : nat, service : nat, func : nat) -> {}",
        None,
    ),
    (
        b"service : { f : (record : record {}, opt : opt nat) -> (blob : blob) }",
        None,
    ),
    (
        b"service : { f : (\"a b\" : nat, \"\" : nat, \"\\ff\" : nat) -> () }",
        None,
    ),
    (b"service : { f : (\"\\q\" : nat) -> () }", NOT_INTERFACE),
    (b"service : { f : (1 : nat) -> () }", NOT_INTERFACE),
    (b"service : { f : (a : b : nat) -> () }", NOT_INTERFACE),
    (b"service : { f : func () -> () }", NOT_INTERFACE),
    // Labels.
    (b"type A = record { 4294967295 : nat }", None),
    (b"type A = record { 4294967296 : nat }", NOT_INTERFACE),
    (b"type A = record { 4294967294 : nat; nat }", None),
    (
        b"type A = record { 4294967295 : nat; nat }",
        Some(DidFault::Shape),
    ),
    (b"type A = variant { nat : nat; text }", None),
    (b"type A = variant { 1; opt nat }", NOT_INTERFACE),
    (b"type A = record { 01 : nat }", NOT_INTERFACE),
    // Marks that are one too many, or missing.
    (b"service : { f : (nat,) -> (nat,) }", None),
    (b"service : { f : (nat,,) -> () }", NOT_INTERFACE),
    (b"service : { f : (,) -> () }", NOT_INTERFACE),
    (b"service : { f : () -> (); }", None),
    (b"service : { f : () -> ();; }", NOT_INTERFACE),
    (b"service : { f : () - > () }", NOT_INTERFACE),
    (b"service : { f : () -> () query, oneway }", NOT_INTERFACE),
    (b"type A = record { a : nat; }", None),
    (b"type A = record { a : nat;; }", NOT_INTERFACE),
    (b"type A = vec(nat)", NOT_INTERFACE),
    (b"service : { f : (nat nat) -> () }", NOT_INTERFACE),
    (b"service : { f : () -> () g : () -> () }", NOT_INTERFACE),
    // What is missing, or is where something else must.
    (b"type", NOT_INTERFACE),
    (b"type 1 = nat", NOT_INTERFACE),
    (b"type \"A\" = nat", NOT_INTERFACE),
    (b"type A =", NOT_INTERFACE),
    (b"type A = ->", NOT_INTERFACE),
    (b"type A = type", NOT_INTERFACE),
    (b"type A = oneway", NOT_INTERFACE),
    (b"type A = composite_query", NOT_INTERFACE),
    (b"type A = record nat", NOT_INTERFACE),
    (b"type A = record {", NOT_INTERFACE),
    (b"type A = func nat", NOT_INTERFACE),
    (b"type A = func () ()", NOT_INTERFACE),
    (b"type A = service nat", NOT_INTERFACE),
    (b"service : () {}", NOT_INTERFACE),
    (b"service : {", NOT_INTERFACE),
    (b"service : { f }", NOT_INTERFACE),
    (b"service : { f : (", NOT_INTERFACE),
];

fn rows() -> &'static [(&'static [u8], Option<DidFault>)] {
    &ROWS
}

#[test]
fn files_and_words(rt: HostRuntime) {
    for row in rows() {
        assert!(rt; fault_of(rt.alloc(), row.0) == row.1, "{:?}", row.0);
    }
}
