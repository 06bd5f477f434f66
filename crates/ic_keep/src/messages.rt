ghost use Rattle.std.specs.Prelude.{◌≡◌, ◌↔◌, [], IfOk, IsTrue};
ghost use Rattle.ic_order.specs.Order.{SameWays};
ghost use Rattle.ic_order.specs.Sorted.{IsByWays};

use ic_base::NoMemory;
use ic_exact::{Exact, Same, Shared, copied, same_items};
use ic_order::{sorted_lists_tell, way_of};
use ic_state::Message;
use std::alloc::Global;
use std::marker::Model;

/// Messages in their order, and way by way, so that lists are compared up to the order of messages that go
/// different ways. Contracts see the list.
pub struct KeptMessages {
    items: Vec<Shared<Message>>,
    by_ways: Vec<Shared<Message>>,
}

impl Model for KeptMessages {
    ghost use Rattle.std.specs.Prelude.{List};
    ghost use Rattle.ic_behaviour.specs.declared.call.Message.{Message};
    ghost use Rattle.ic_order.specs.Sorted.{IsByWays};

    ghost Value = { List Message };

    ghost view = { λ m. m.items.items };

    ghost invariant = { λ m. IsByWays m.items.items m.by_ways.items };
}

impl Drop for KeptMessages {
    fn drop(self) {
        let KeptMessages {
            items: _items,
            by_ways: _by_ways,
        } = self;
    }
}

// The same places, sorted by the ways of the messages.
fn by_ways(alloc: Global, items: &[Shared<Message>]) -> Result<Vec<Shared<Message>>, NoMemory>
    ensures { IfOk result (λ sorted. IsByWays items.now sorted.items) }
{
    let mut sorted = copied(alloc, items)?;
    sorted.sort_by_key(|message| way_of(message.get()))?;
    Ok(sorted)
}

impl KeptMessages {
    /// No message. It takes no memory.
    pub fn empty(alloc: Global) -> KeptMessages
        ensures { result ≡ [] }
    {
        KeptMessages {
            items: Vec::new(alloc),
            by_ways: Vec::new(alloc),
        }
    }

    /// These messages.
    pub fn new(alloc: Global, items: Vec<Shared<Message>>) -> Result<KeptMessages, NoMemory>
        ensures { IfOk result (λ messages. messages ≡ items.items) }
    {
        let by_ways = by_ways(alloc, items.as_slice())?;
        Ok(KeptMessages { items, by_ways })
    }

    /// The messages in their order.
    pub fn as_slice(&self) -> &[Shared<Message>]
        ensures { result.now ≡ self.now }
    {
        self.items.as_slice()
    }

    /// Whether both have the same messages of each way, in one order.
    pub fn has_same_ways(&self, other: &KeptMessages) -> bool
        ensures { IsTrue result ↔ SameWays self.now other.now }
    {
        sorted_lists_tell();
        same_items(self.by_ways.as_slice(), other.by_ways.as_slice())
    }
}

impl Same for KeptMessages {
    fn same(&self, other: &KeptMessages) -> bool {
        same_items(self.items.as_slice(), other.items.as_slice())
    }
}

impl Exact for KeptMessages {
    fn copy(&self, alloc: Global) -> Result<KeptMessages, NoMemory> {
        Ok(KeptMessages {
            items: copied(alloc, self.items.as_slice())?,
            by_ways: copied(alloc, self.by_ways.as_slice())?,
        })
    }
}
