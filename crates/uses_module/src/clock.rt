//! A host of three calls: it tells one time and takes a reply.

ghost use Rattle.std.specs.Prelude.{◌≡◌, ◌<◌, ◌^◌};
ghost use Rattle.wm_semantics.specs.declared.host.HostAnswer.TheVariants as answer;

use ic_base::NoMemory;
use std::alloc::Global;
use wm_run::{Host, HostAnswer, Meter, Trap};
use wm_store::Store;
use wm_valid::system_api::SystemCall;

/// The time that is told, and what was replied so far.
#[derive(Drop)]
pub struct Clock {
    pub time: u64,
    pub reply: Vec<u8>,
    pub replied: bool,
}

impl Clock {
    pub fn new(alloc: Global, time: u64) -> Clock {
        Clock {
            time,
            reply: Vec::new(alloc),
            replied: false,
        }
    }
}

/// The bytes of memory at an address, as many as are asked for.
fn bytes_at<'a>(args: &[u64], memory: &'a [u8]) -> Option<&'a [u8]> {
    match args {
        [address, size] => memory.get(*address as usize..)?.get(..*size as usize),
        _ => None,
    }
}

/// A number as an answer: by its type it is a result of type i64.
fn number(value: u64) -> HostAnswer
    ensures answer { result ≡ answer.Number value }
    ensures range { value < 2 ^ 64 }
{
    HostAnswer::Number(value)
}

impl Host for Clock {
    ghost use Rattle.wm_semantics.specs.Rules.{by_the_rules, are_lawful};

    ghost answers = { by_the_rules };

    fn call(
        &mut self,
        import: u32,
        args: &[u64],
        store: &mut Store,
        _meter: &mut Meter,
    ) -> Result<HostAnswer, NoMemory> {
        match SystemCall::numbered(import) {
            Some(SystemCall::Time) => Ok(number(self.time)),
            Some(SystemCall::MsgReplyDataAppend) => match bytes_at(args, store.memory()) {
                Some(bytes) => {
                    self.reply.extend_from_slice(bytes)?;
                    Ok(HostAnswer::Nothing)
                }
                None => Ok(HostAnswer::Trap(Trap::MemoryBounds)),
            },
            Some(SystemCall::MsgReply) => {
                self.replied = true;
                Ok(HostAnswer::Nothing)
            }
            _ => Ok(HostAnswer::Trap(Trap::Api)),
        }
    }

    ghost lawful = { are_lawful };
}
