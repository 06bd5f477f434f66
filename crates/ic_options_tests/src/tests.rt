use ct_words::{Choice, TestOptions};
use ic_base::NoMemory;
use ic_options::Options;
use std::alloc::Global;

fn add_word(alloc: Global, words: &mut Vec<String>, word: &str) -> Result<(), NoMemory> {
    let text = String::from_str(alloc, word)?;
    words.push(text)?;
    Ok(())
}

// The program's name, and the words of a line.
fn words(alloc: Global, line: &str) -> Result<Vec<String>, NoMemory> {
    let mut words = Vec::new(alloc);
    for word in line.split(' ') {
        add_word(alloc, &mut words, word)?;
    }
    Ok(words)
}

// The limit, the rounds, the workers, the price and the number of the generated script.
type Numbers = (u64, u32, u32, u64, Option<u32>);

// As clap 4.0.32 takes them; what is left out has its default.
static TAKEN: [(&str, Numbers); 12] = [
    ("replica --", (50_000_000, 100_000, 1, 0, None)),
    ("replica --workers 2", (50_000_000, 100_000, 2, 0, None)),
    ("replica --workers=2", (50_000_000, 100_000, 2, 0, None)),
    ("replica --workers=+2", (50_000_000, 100_000, 2, 0, None)),
    ("replica --workers 002", (50_000_000, 100_000, 2, 0, None)),
    ("replica --workers 64 --limit 1", (1, 100_000, 64, 0, None)),
    (
        "replica --limit 1000000000000 --",
        (1_000_000_000_000, 100_000, 1, 0, None),
    ),
    (
        "replica --rounds 1000000",
        (50_000_000, 1_000_000, 1, 0, None),
    ),
    ("replica --rounds 7 --limit 8", (8, 7, 1, 0, None)),
    (
        "replica --price 1000000",
        (50_000_000, 100_000, 1, 1_000_000, None),
    ),
    ("replica --generate 0", (50_000_000, 100_000, 1, 0, Some(0))),
    (
        "replica --generate=10000 --price=0",
        (50_000_000, 100_000, 1, 0, Some(10_000)),
    ),
];

fn taken() -> &'static [(&'static str, Numbers)] {
    &TAKEN
}

fn are_read(alloc: Global, words: &[String], wanted: Numbers) -> bool {
    match Options::read(alloc, words) {
        Ok(
            Some(
                Options {
                    limit,
                    rounds,
                    workers,
                    price,
                    generate,
                },
            ),
        ) => (limit, rounds, workers, price, generate) == wanted,
        _ => false,
    }
}

fn is_taken(alloc: Global, line: &str, wanted: Numbers) -> bool {
    match words(alloc, line) {
        Ok(words) => are_read(alloc, &words, wanted),
        Err(_) => false,
    }
}

// The words of `canister_test`: the limit, the price, the states, which tests and which files they ask for.
static TESTS: [(&str, &str); 8] = [
    ("canister_test a", "50000000 0 20000 all a"),
    (
        "canister_test a --only b --states=7 -- c --only",
        "50000000 0 7 only b a c --only",
    ),
    (
        "canister_test --script b --limit 1 --price 2 a",
        "1 2 20000 script b a",
    ),
    (
        "canister_test a --trace --picture b",
        "50000000 0 20000 picture b trace a",
    ),
    ("canister_test --only b --script b a", "refused"),
    ("canister_test --only b --picture b a", "refused"),
    ("canister_test --trace --trace a", "refused"),
    ("canister_test --only b", "refused"),
];

fn tests() -> &'static [(&'static str, &'static str)] {
    &TESTS
}

fn shown(alloc: Global, options: &TestOptions) -> Result<String, NoMemory> {
    let (limit, price, states) = (options.limit, options.price, options.states);
    let mut text = match &options.choice {
        Choice::All => format!(in alloc; "{limit} {price} {states} all")?,
        Choice::Only(part) => format!(in alloc; "{limit} {price} {states} only {}", part.items)?,
        Choice::Script(name) => format!(in alloc;
            "{limit} {price} {states} script {}",
            name.items
        )?,
        Choice::Picture(name) => format!(in alloc;
            "{limit} {price} {states} picture {}",
            name.items
        )?,
    };
    if options.trace {
        text.push_str(" trace")?;
    }
    for file in &options.files.items {
        text.push(' ')?;
        text.push_str(file.items.as_str())?;
    }
    Ok(text)
}

fn asked(alloc: Global, line: &str) -> Result<String, NoMemory> {
    match TestOptions::read(alloc, &words(alloc, line)?)? {
        None => String::from_str(alloc, "refused"),
        Some(options) => shown(alloc, &options),
    }
}

#[test]
fn words_are_taken(rt: HostRuntime) {
    for (line, wanted) in taken() {
        assert!(rt; is_taken(rt.alloc(), line, *wanted), "{line}");
    }
}

#[test]
fn words_of_tests_are_read(rt: HostRuntime) -> Result<(), NoMemory> {
    for (line, wanted) in tests() {
        let found = asked(rt.alloc(), line)?;
        assert!(rt; found.as_str() == *wanted, "{line} {found}");
    }
    Ok(())
}

// As clap 4.0.32 refuses them.
static REFUSED: [&str; 29] = [
    "replica ",
    "replica -",
    "replica x",
    "replica ---",
    "replica -- x",
    "replica -- ",
    "replica --workers",
    "replica --workers ",
    "replica --workers=",
    "replica --workers 0",
    "replica --workers 65",
    "replica --workers -2",
    "replica --workers=2=3",
    "replica --workers --",
    "replica --workers -- 2",
    "replica --workers 1 --workers 1",
    "replica --work 2",
    "replica -w 2",
    "replica --limit 0",
    "replica --limit 1000000000001",
    "replica --limit 18446744073709551616",
    "replica --rounds 1000001",
    "replica --price 1000001",
    "replica --generate 10001",
    "replica --generate=-0",
    "replica --help",
    "replica -h",
    "replica help",
    "replica --version",
];

fn refused() -> &'static [&'static str] {
    &REFUSED
}

fn are_refused(alloc: Global, words: &[String]) -> bool {
    matches!(Options::read(alloc, words), Ok(None))
}

fn is_refused(alloc: Global, line: &str) -> bool {
    match words(alloc, line) {
        Ok(words) => are_refused(alloc, &words),
        Err(_) => false,
    }
}

#[test]
fn words_are_refused(rt: HostRuntime) {
    for line in refused() {
        assert!(rt; is_refused(rt.alloc(), line), "{line} is taken");
    }
}
