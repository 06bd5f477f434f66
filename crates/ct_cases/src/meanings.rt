ghost use Rattle.std.specs.Prelude.{◌≡◌, ◌↔◌, ◌<◌, ◌++◌, List, length, slice_get, Some, IfOk, IfSome, OnOk, IsTrue, MatchOption, All};
ghost use Rattle.ct_cases.specs.Meanings.{AreApart, Extends, meaning_at};
ghost use Rattle.ct_cases.specs.Meanings as meaning;

use ct_outcomes::{Named, Standing};
use ct_run::Names;
use ic_base::NoMemory;
use ic_principal::Bytes;
use std::alloc::{AllocError, Global};
use std::marker::Model;

/// What names stand for in a case, and under which number each call of an interleave was accepted, one for each of
/// its moves: none where that is no call, or was refused. It is empty where no interleave is under way. Contracts see
/// the pair.
#[derive(Drop)]
pub struct Meaning {
    pub names: Names,
    pub accepted: Vec<Option<u32>>,
}

impl Model for Meaning {
    ghost use Rattle.ct_cases.specs.Meanings as meaning;

    ghost Value = { meaning.Meaning };

    ghost view = { λ m. (m.names, m.accepted.items) };
}

/// Meanings of cases, each once, under the number of its place. Contracts see the list.
#[derive(Drop)]
pub struct Meanings {
    items: Vec<Meaning>,
}

impl Model for Meanings {
    ghost use Rattle.std.specs.Prelude.{List};
    ghost use Rattle.ct_cases.specs.Meanings as meaning;

    ghost Value = { List meaning.Meaning };

    ghost use Rattle.ct_cases.specs.Meanings.{AreApart};

    ghost view = { λ m. m.items.items };

    ghost invariant = { λ m. AreApart m.items.items };
}

fn copied_standing(standing: &Standing) -> Result<Standing, NoMemory>
    ensures { IfOk result (λ copy. copy ≡ standing.now) }
{
    match standing {
        Standing::Principal(id) => Ok(Standing::Principal(*id)),
        Standing::Service(id) => Ok(Standing::Service(*id)),
        Standing::Value(text) => Ok(Standing::Value(text.copy()?)),
    }
}

fn copied_named(named: &Named) -> Result<Named, NoMemory>
    ensures { IfOk result (λ copy. copy ≡ named.now) }
{
    Ok(Named {
        name: named.name.copy()?,
        standing: copied_standing(&named.standing)?,
    })
}

/// The same names, which stand for the same.
pub fn copied_names(alloc: Global, names: &Names) -> Result<Names, NoMemory>
    ensures { IfOk result (λ copy. copy ≡ names.now) }
{
    let mut items = Vec::with_capacity(alloc, names.items.len())?;
    for named in &names.items {
        items.push(copied_named(named)?)?;
    }
    Ok(Names { items })
}

fn same_bytes(bytes: &Bytes, other: &Bytes) -> bool
    ensures { IsTrue result ↔ (bytes.now ≡ other.now) }
{
    bytes.items.as_slice() == other.items.as_slice()
}

fn same_standing(standing: &Standing, other: &Standing) -> bool
    ensures { IsTrue result ↔ (standing.now ≡ other.now) }
{
    match (standing, other) {
        (Standing::Principal(id), Standing::Principal(other)) => id == other,
        (Standing::Service(id), Standing::Service(other)) => id == other,
        (Standing::Value(text), Standing::Value(other)) => same_bytes(text, other),
        _ => false,
    }
}

fn same_named(named: &Named, other: &Named) -> bool
    ensures { IsTrue result ↔ (named.now ≡ other.now) }
{
    same_standing(&named.standing, &other.standing) && same_bytes(&named.name, &other.name)
}

// Names that were bound last are looked at first, since they differ the most.
fn same_names(names: &[Named], others: &[Named]) -> bool
    ensures { IsTrue result ↔ (names.now ≡ others.now) }
{
    let mut left = names.len();
    if left != others.len() {
        return false;
    }
    while left > 0 {
        left -= 1;
        if !same_named(&names[left], &others[left]) {
            return false;
        }
    }
    true
}

impl Meaning {
    fn is_same(&self, other: &Meaning) -> bool
        ensures { IsTrue result ↔ (self.now ≡ other.now) }
    {
        same_names(&self.names.items, &other.names.items) && self.accepted == other.accepted
    }
}

impl Meanings {
    pub(crate) fn new(alloc: Global) -> Meanings {
        Meanings {
            items: Vec::new(alloc),
        }
    }

    /// Nothing happens. Tells callers that no two are equal.
    pub(crate) fn are_apart(&self)
        ensures { AreApart self.now }
    {
        let _items = &self.items;
    }

    /// The meaning with a number.
    pub(crate) fn get(&self, number: u32) -> &Meaning
        requires { number < length self.now }
        ensures { result.now ≡ meaning_at self.now number }
    {
        &self.items[number as usize]
    }

    /// Under which numbers the moves of an interleave were accepted.
    pub(crate) fn accepted(&self, number: u32) -> &[Option<u32>]
        requires { number < length self.now }
        ensures { result.now ≡ (meaning_at self.now number).1 }
    {
        &self.get(number).accepted
    }

    // The place of a meaning, if it is there.
    fn find(&self, meaning: &Meaning) -> Option<usize>
        ensures { MatchOption result (All (λ other. other ≡ meaning.now → ⊥) self.now) (λ place. slice_get self.now place ≡ Some meaning.now) }
    {
        for (place, other) in self.items.iter().enumerate() {
            if other.is_same(meaning) {
                return Some(place);
            }
        }
        None
    }

    /// The number of a meaning, which is added if it is not there.
    pub(crate) fn number(&mut self, meaning: Meaning) -> Result<u32, NoMemory>
        ensures extends { OnOk result (Extends self.old self.new) }
        ensures known { IfOk result (λ number. number < length self.new) }
        ensures meaning { IfOk result (λ number. meaning_at self.new number ≡ meaning) }
    {
        if let Some(place) = self.find(&meaning) {
            return numbered(place);
        }
        let place = self.items.len();
        self.items.push(meaning)?;
        numbered(place)
    }
}

// A place as a number.
fn numbered(place: usize) -> Result<u32, NoMemory>
    ensures { IfOk result (λ number. number ≡ place) }
{
    match u32::try_from(place) {
        Ok(number) => Ok(number),
        Err(_) => Err(AllocError),
    }
}
