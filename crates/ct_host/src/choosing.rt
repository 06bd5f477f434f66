ghost use Rattle.std.specs.Prelude.{◌≡◌, ◌++◌, IfOk, OnOk};
ghost use Rattle.ct_host.specs.Chosen.{AreSome, chosen_in, chosen_tests, is_chosen};
ghost use Rattle.ct_host.specs.Ends.{HoldsOr};

use crate::looking::Suite;
use crate::stop::{Stop, Told, Why};
use ct_check::CheckedTest;
use ct_words::Choice;
use ic_base::NoMemory;
use std::alloc::Global;
use std::marker::Model;

/// A test of a file.
#[derive(Drop)]
pub(crate) struct Chosen<'s, 'i, 'a> {
    pub(crate) suite: &'s Suite<'i, 'a>,
    pub(crate) test: &'s CheckedTest<'i, 'i, 'a>,
}

impl<'s, 'i, 'a> Model for Chosen<'s, 'i, 'a> {
    ghost use Rattle.ct_host.specs.Chosen.{Chosen};

    ghost Value = { Chosen };

    ghost view = { λ c. record { suite = c.suite.now; test = c.test.now } };
}

// Whether a test is meant.
fn is_chosen(choice: &Choice, test: &CheckedTest<'_, '_, '_>) -> bool
    ensures { result ≡ is_chosen choice.now test.now.name }
{
    let name = test.name.items.as_str();
    match choice {
        Choice::All => true,
        Choice::Only(part) => name.contains(part.items.as_str()),
        Choice::Script(wanted) => name == wanted.items.as_str(),
        Choice::Picture(wanted) => name == wanted.items.as_str(),
    }
}

// Adds those of a file that are meant.
fn choose_in<'s, 'i, 'a>(
    choice: &Choice,
    suite: &'s Suite<'i, 'a>,
    chosen: &mut Vec<Chosen<'s, 'i, 'a>>,
) -> Result<(), NoMemory>
    ensures { OnOk result (chosen.new.items ≡ chosen.old.items ++ chosen_in choice.now suite.now suite.now.checked.tests) }
{
    for test in &suite.checked.tests.items {
        if is_chosen(choice, test) {
            chosen.push(Chosen { suite, test })?;
        }
    }
    Ok(())
}

/// The tests that are meant, in the order of the files.
pub(crate) fn chosen_tests<'s, 'i, 'a>(
    alloc: Global,
    choice: &Choice,
    suites: &'s [Suite<'i, 'a>],
) -> Result<Vec<Chosen<'s, 'i, 'a>>, NoMemory>
    ensures { IfOk result (λ chosen. chosen.items ≡ chosen_tests choice.now suites.now) }
{
    let mut chosen = Vec::new(alloc);
    for suite in suites {
        choose_in(choice, suite, &mut chosen)?;
    }
    Ok(chosen)
}

fn bad_words(alloc: Global, line: &str) -> Result<Told, NoMemory>
    ensures { IfOk result (λ told. told.why ≡ Why.BadWords) }
{
    Ok(Told {
        why: Why::BadWords,
        line: String::from_str(alloc, line)?,
    })
}

/// Whether there are tests, where some are asked for.
pub(crate) fn are_some(
    alloc: Global,
    choice: &Choice,
    chosen: &[Chosen<'_, '_, '_>],
) -> Result<(), Stop>
    ensures { HoldsOr (AreSome choice.now chosen.now) Why.BadWords result }
{
    if !chosen.is_empty() {
        return Ok(());
    }
    match choice {
        Choice::All => Ok(()),
        Choice::Only(_) => {
            let told = bad_words(alloc, "no test has this text in its name\n")?;
            Err(Stop::Told(told))
        }
        Choice::Script(_) | Choice::Picture(_) => {
            let told = bad_words(alloc, "no test has this name\n")?;
            Err(Stop::Told(told))
        }
    }
}
