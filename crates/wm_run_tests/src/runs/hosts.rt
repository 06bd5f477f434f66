ghost use Rattle.std.specs.Prelude.{◌≡◌};
ghost use Rattle.wm_run_tests.specs.Counting.{result_at, reply_of};

use ic_base::NoMemory;
use ic_principal::Text;
use wm_run::{Host, HostAnswer, Meter, Trap};
use wm_store::Store;
use wm_tree::ValType;
use wm_valid::system_api::SystemCall;

/// Charges 1 for each call, counts them, and gives 7 where there is a result.
#[derive(Debug, Drop)]
pub struct Counting {
    pub calls: u64,
}

/// The type of the result of the call of that number, if there is such a call and it has one.
fn result_of(import: u32) -> Option<ValType>
    ensures { result ≡ result_at import }
{
    match SystemCall::numbered(import) {
        Some(call) => call.result(),
        None => None,
    }
}

/// What is answered where the charge passes, or does not pass.
fn answer_to(import: u32, paid: bool) -> HostAnswer
    ensures { result ≡ reply_of paid (result_at import) }
{
    if !paid {
        return HostAnswer::Trap(Trap::Limit);
    }
    match result_of(import) {
        Some(_) => HostAnswer::Number(7),
        None => HostAnswer::Nothing,
    }
}

impl Host for Counting {
    ghost use Rattle.wm_run_tests.specs.Counting.{counts, counts_lawful};

    ghost answers = { counts };

    fn call(
        &mut self,
        import: u32,
        _args: &[u64],
        _store: &mut Store,
        meter: &mut Meter,
    ) -> Result<HostAnswer, NoMemory> {
        let paid = meter.charge(1);
        self.calls = self.calls.wrapping_add(u64::from(paid));
        Ok(answer_to(import, paid))
    }

    ghost lawful = { counts_lawful };
}

/// Traps at each call: with the message, where it has one, and else as the System API refuses.
#[derive(Debug, Drop)]
pub struct Refusing {
    pub message: Option<Text>,
}

impl Host for Refusing {
    ghost use Rattle.wm_run_tests.specs.Refusing.{refuses, refuses_lawful};

    ghost answers = { refuses };

    fn call(
        &mut self,
        _import: u32,
        _args: &[u64],
        _store: &mut Store,
        _meter: &mut Meter,
    ) -> Result<HostAnswer, NoMemory> {
        let trap = match self.message.take() {
            Some(message) => Trap::Explicit(message),
            None => Trap::Api,
        };
        Ok(HostAnswer::Trap(trap))
    }

    ghost lawful = { refuses_lawful };
}
