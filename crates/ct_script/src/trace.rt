use ic_base::NoMemory;
use ic_heard::{Heard, Place, Places, Said, Trapped};
use ic_principal::{Bytes, Principal, Text};
use std::alloc::Global;
use std::mem::replace;

/// How many texts of a test are kept.
const MOST_TEXTS: usize = 100;

/// How many deliveries of a statement are kept.
const MOST_DELIVERIES: usize = 100;

/// A text that a canister said, and the number of the delivery in which it did.
#[derive(Drop)]
pub struct Spoken {
    pub delivery: u64,
    pub canister: Principal,
    pub said: Said,
}

/// Where an execution of a canister trapped, and the number of the delivery in which it did.
#[derive(Drop)]
pub struct Fallen {
    pub delivery: u64,
    pub canister: Principal,
    pub trapped: Trapped,
}

/// Which call a message is of.
#[derive(Clone, Copy, Debug)]
pub enum CallName {
    /// That of a user with this number.
    User(u32),
    /// A query.
    Query,
    /// That of a canister, with its number among those that the canister made.
    Canister { caller: Principal, number: u64 },
}

/// A message that is delivered, or a query.
#[derive(Drop)]
pub enum Sent {
    Call {
        name: CallName,
        sender: Principal,
        callee: Principal,
        method: Text,
        arg: Bytes,
    },
    Reply {
        name: CallName,
        sender: Principal,
        reply: Bytes,
    },
    Reject {
        name: CallName,
        sender: Principal,
        code: u32,
        text: Text,
    },
}

/// A delivery by its number, the instructions that were used in it, and the cycles that were burned.
#[derive(Drop)]
pub struct Delivered {
    pub number: u64,
    pub sent: Sent,
    pub used: u64,
    pub burned: u128,
}

/// The last deliveries of a statement, and how many came before them.
#[derive(Drop)]
pub struct Deliveries {
    pub items: Vec<Delivered>,
    pub earlier: u64,
}

/// What canisters said while a test ran, and where they trapped.
pub struct Trace {
    alloc: Global,
    // How many deliveries began.
    count: u64,
    /// The last texts.
    pub spoken: Vec<Spoken>,
    /// How many texts came before these.
    pub earlier: u64,
    /// Where executions trapped in the last delivery in which any did.
    pub trapped: Vec<Fallen>,
    deliveries: Deliveries,
}

// Not derived, so that it is proved here and not in each crate that drops one.
impl Drop for Trace {
    fn drop(self) {
        let Trace {
            alloc: _,
            count: _,
            spoken: _spoken,
            earlier: _,
            trapped: _trapped,
            deliveries: _deliveries,
        } = self;
    }
}

fn copied_text(said: &Said) -> Result<Said, NoMemory> {
    Ok(Said {
        text: said.text.copy()?,
        more: said.more,
    })
}

fn copied_places(alloc: Global, places: &Places) -> Result<Places, NoMemory> {
    let mut items = Vec::new(alloc);
    for place in &places.items {
        items.push(Place {
            function: copied_text(&place.function)?,
            offset: place.offset,
        })?;
    }
    Ok(Places { items })
}

fn copied(alloc: Global, trapped: &Trapped) -> Result<Trapped, NoMemory> {
    let call = match &trapped.call {
        None => None,
        Some(call) => Some(call.copy()?),
    };
    Ok(Trapped {
        call,
        places: copied_places(alloc, &trapped.places)?,
        more: trapped.more,
    })
}

impl Deliveries {
    fn new(alloc: Global) -> Deliveries {
        Deliveries {
            items: Vec::new(alloc),
            earlier: 0,
        }
    }

    fn push(&mut self, delivered: Delivered) -> Result<(), NoMemory> {
        if self.items.len() >= MOST_DELIVERIES {
            self.items.remove(0);
            self.earlier = self.earlier.saturating_add(1);
        }
        self.items.push(delivered)?;
        Ok(())
    }

    // The delivery that is under way used that many instructions more.
    fn spend(&mut self, used: u64) {
        if let Some(last) = self.items.last_mut() {
            last.used = last.used.saturating_add(used);
        }
    }

    // In the delivery that is under way that many cycles more were burned.
    fn burn(&mut self, burned: u128) {
        if let Some(last) = self.items.last_mut() {
            last.burned = last.burned.saturating_add(burned);
        }
    }
}

impl Trace {
    /// Nothing was said.
    pub(crate) fn new(alloc: Global) -> Trace {
        Trace {
            alloc,
            count: 0,
            spoken: Vec::new(alloc),
            earlier: 0,
            trapped: Vec::new(alloc),
            deliveries: Deliveries::new(alloc),
        }
    }

    /// Something begins that is no delivery, as an inspection.
    pub(crate) fn pass(&mut self) {
        self.count = self.count.saturating_add(1);
    }

    /// A delivery begins.
    pub(crate) fn begin(&mut self, sent: Sent) -> Result<(), NoMemory> {
        self.count = self.count.saturating_add(1);
        self.deliveries.push(Delivered {
            number: self.count,
            sent,
            used: 0,
            burned: 0,
        })
    }

    // The first text goes where there are as many as are kept.
    fn speak(&mut self, canister: &Principal, said: &Said) -> Result<(), NoMemory> {
        if self.spoken.len() >= MOST_TEXTS {
            self.spoken.remove(0);
            self.earlier = self.earlier.saturating_add(1);
        }
        self.spoken.push(Spoken {
            delivery: self.count,
            canister: *canister,
            said: copied_text(said)?,
        })?;
        Ok(())
    }

    fn speak_all(&mut self, canister: &Principal, texts: &[Said]) -> Result<(), NoMemory> {
        for said in texts {
            self.speak(canister, said)?;
        }
        Ok(())
    }

    // Where executions of earlier deliveries trapped is not kept.
    fn fall(&mut self, canister: &Principal, trapped: &Trapped) -> Result<(), NoMemory> {
        let delivery = self.count;
        self.trapped.retain(|fallen| fallen.delivery == delivery);
        self.trapped.push(Fallen {
            delivery,
            canister: *canister,
            trapped: copied(self.alloc, trapped)?,
        })?;
        Ok(())
    }

    fn fall_all(&mut self, canister: &Principal, traps: &[Trapped]) -> Result<(), NoMemory> {
        for trapped in traps {
            self.fall(canister, trapped)?;
        }
        Ok(())
    }

    /// What was heard of a canister in the delivery that began last.
    pub(crate) fn hear(&mut self, canister: &Principal, heard: &Heard) -> Result<(), NoMemory> {
        self.earlier = self.earlier.saturating_add(heard.earlier());
        self.deliveries.spend(heard.used());
        self.speak_all(canister, &heard.texts().items)?;
        self.fall_all(canister, heard.trapped())
    }

    /// That many cycles were burned in the delivery that began last.
    pub(crate) fn burn(&mut self, burned: u128) {
        self.deliveries.burn(burned);
    }

    /// Takes the deliveries that began since they were last taken.
    pub(crate) fn take_deliveries(&mut self) -> Deliveries {
        replace(&mut self.deliveries, Deliveries::new(self.alloc))
    }
}
