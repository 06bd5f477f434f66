ghost use Rattle.std.specs.Prelude.{◌≡◌, IfOk, OnOk};
ghost use Rattle.ic_heard.specs.Hears.{silence, kept, hears};

use crate::trapped::Trapped;
use ic_base::NoMemory;
use ic_principal::Bytes;
use std::alloc::Global;
use std::marker::Model;

const LONGEST: usize = 4_096;

const MOST: usize = 100;

// A callback and its cleanup are two.
const MOST_TRAPPED: usize = 4;

/// A text, as far as it is kept.
#[derive(Debug, Drop)]
pub struct Said {
    pub text: Bytes,
    /// How many bytes came after it.
    pub more: usize,
}

/// Texts, in the order in which they were said. Contracts see the list.
#[derive(Debug, Drop)]
pub struct Texts {
    pub items: Vec<Said>,
}

impl Model for Texts {
    ghost use Rattle.std.specs.Prelude.{List};
    ghost use Rattle.ic_heard.specs.declared.heard.Said.{Said};

    ghost Value = { List Said };

    ghost view = { λ l. l.items.items };
}

/// What was heard: the last texts, where executions trapped, and how many instructions they used. Contracts see the texts.
pub struct Heard {
    texts: Texts,
    earlier: u64,
    trapped: Vec<Trapped>,
    used: u64,
}

// Not derived, so that it is proved here and not in each crate that drops one.
impl Drop for Heard {
    fn drop(self) {
        let Heard {
            texts: _texts,
            earlier: _,
            trapped: _trapped,
            used: _,
        } = self;
    }
}

impl Model for Heard {
    ghost use Rattle.ic_heard.specs.Hears.{Speech};

    ghost Value = { Speech };

    ghost view = { λ h. record { texts = h.texts; earlier = h.earlier } };
}

// The part of a text that is kept.
#[tactic(auto, using(std::proofs::lemmas::List::take_min))]
pub(crate) fn kept(alloc: Global, text: &[u8]) -> Result<Said, NoMemory>
    ensures { IfOk result (λ s. s ≡ kept text.now) }
{
    let count = LONGEST.min(text.len());
    let items = Vec::from_slice(alloc, &text[..count])?;
    Ok(Said {
        text: Bytes { items },
        more: text.len() - count,
    })
}

impl Heard {
    /// Nothing was said. It takes no memory; the allocator serves the texts.
    pub fn new(alloc: Global) -> Heard
        ensures { result ≡ silence }
    {
        Heard {
            texts: Texts {
                items: Vec::new(alloc),
            },
            earlier: 0,
            trapped: Vec::new(alloc),
            used: 0,
        }
    }

    /// A text is said. Where there is no memory for it, the text is not kept, and maybe not the first of those before.
    pub fn hear(&mut self, alloc: Global, text: &[u8]) -> Result<(), NoMemory>
        ensures { OnOk result (self.new ≡ hears text.now self.old) }
    {
        let said = kept(alloc, text)?;
        if self.texts.items.len() >= MOST {
            self.texts.items.remove(0);
            self.earlier = self.earlier.saturating_add(1);
        }
        self.texts.items.push(said)?;
        Ok(())
    }

    /// An execution trapped there. What was said stays.
    pub fn trap(&mut self, trapped: Trapped) -> Result<(), NoMemory>
        ensures { self.new ≡ self.old }
    {
        if self.trapped.len() >= MOST_TRAPPED {
            self.trapped.remove(0);
        }
        self.trapped.push(trapped)?;
        Ok(())
    }

    /// An execution used that many instructions. What was said stays.
    pub fn spend(&mut self, used: u64)
        ensures { self.new ≡ self.old }
    {
        self.used = self.used.saturating_add(used);
    }

    /// The last texts.
    pub fn texts(&self) -> &Texts
        ensures { result.now ≡ self.now.texts }
    {
        &self.texts
    }

    /// How many texts came before these.
    pub fn earlier(&self) -> u64
        ensures { result ≡ self.now.earlier }
    {
        self.earlier
    }

    /// Where the last executions trapped that did, at most four.
    pub fn trapped(&self) -> &[Trapped] {
        &self.trapped
    }

    /// How many instructions were used, of executions that ended.
    pub fn used(&self) -> u64 {
        self.used
    }
}
