//! A ledger: its interface file, and an answer that one of its canisters gave.

pub const FILE: &str = r#"
    service : {
        transfer : (record { to : text; amount : nat; memo : opt text }) -> (record { block : nat; balance : nat });
    }
"#;

/// The message of `(record { fee = 1; balance = 95; block = 1042 })`: a field more than the interface has.
pub const ANSWER: &[u8] = b"DIDL\x01\
    \x6c\x03\xc6\xfc\xb6\x02\x7d\x9c\xba\xb6\x9c\x02\x7d\xcd\xea\xf1\xa7\x0b\x7d\
    \x01\x00\
    \x01\x5f\x92\x08";
