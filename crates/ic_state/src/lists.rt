ghost use Rattle.std.specs.Prelude.{◌≡◌, ◌==◌, ◌++◌, ◌∷◌, [], length, OnOk};

use ic_base::NoMemory;
use ic_behaviour::{Answered, Context, Message, Request};
use std::marker::Model;

/// Call contexts, in the order in which they were made. Contracts see the list.
#[derive(Debug, Drop)]
pub struct Contexts {
    pub items: Vec<Context>,
}

impl Model for Contexts {
    ghost use Rattle.std.specs.Prelude.{List};
    ghost use Rattle.ic_behaviour.specs.declared.context.Context.{Context};

    ghost Value = { List Context };

    ghost view = { λ l. l.items.items };
}

/// Messages, in the order in which they were sent. Contracts see the list.
#[derive(Debug, Drop)]
pub struct Messages {
    pub items: Vec<Message>,
}

impl Model for Messages {
    ghost use Rattle.std.specs.Prelude.{List};
    ghost use Rattle.ic_behaviour.specs.declared.call.Message.{Message};

    ghost Value = { List Message };

    ghost view = { λ l. l.items.items };
}

impl Messages {
    /// Whether there is none.
    pub fn is_empty(&self) -> bool
        ensures { result ≡ (length self.now == 0) }
    {
        self.items.is_empty()
    }

    /// Puts a message after the others. After `NoMemory` it is dropped.
    pub fn push(&mut self, message: Message) -> Result<(), NoMemory>
        ensures { OnOk result (self.new ≡ self.old ++ message ∷ []) }
    {
        self.items.push(message)?;
        Ok(())
    }

    /// Puts messages after the others, in their order. After `NoMemory` they are dropped.
    pub fn append(&mut self, more: Messages) -> Result<(), NoMemory>
        ensures { OnOk result (self.new ≡ self.old ++ more) }
    {
        let Messages { items: mut more } = more;
        self.items.append(&mut more)?;
        Ok(())
    }
}

/// Requests; the number of one is its place. Contracts see the list.
pub struct Requests {
    pub items: Vec<Request>,
}

impl Drop for Requests {
    fn drop(self) {
        let Requests { items: _items } = self;
    }
}

impl Model for Requests {
    ghost use Rattle.std.specs.Prelude.{List};
    ghost use Rattle.ic_behaviour.specs.declared.request.Request.{Request};

    ghost Value = { List Request };

    ghost view = { λ l. l.items.items };
}

impl Requests {
    /// How many there are.
    pub fn len(&self) -> usize
        ensures { result ≡ length self.now }
    {
        self.items.len()
    }

    /// Puts a request after the others. After `NoMemory` it is dropped.
    pub fn push(&mut self, request: Request) -> Result<(), NoMemory>
        ensures { OnOk result (self.new ≡ self.old ++ request ∷ []) }
    {
        self.items.push(request)?;
        Ok(())
    }
}

/// Answers, in the order in which they are given. Contracts see the list.
#[derive(Drop)]
pub struct AnsweredList {
    pub items: Vec<Answered>,
}

impl Model for AnsweredList {
    ghost use Rattle.std.specs.Prelude.{List};
    ghost use Rattle.ic_behaviour.specs.declared.call.Answered.{Answered};

    ghost Value = { List Answered };

    ghost view = { λ l. l.items.items };
}

impl AnsweredList {
    /// Puts answers after the others, in their order. After `NoMemory` they are dropped.
    pub fn append(&mut self, more: AnsweredList) -> Result<(), NoMemory>
        ensures { OnOk result (self.new ≡ self.old ++ more) }
    {
        let AnsweredList { items: mut more } = more;
        self.items.append(&mut more)?;
        Ok(())
    }
}
