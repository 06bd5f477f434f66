//! Reads and writes of memory, and numbers as answers.
ghost use Rattle.std.specs.Prelude.{◌≡◌, ◌+◌, ◌*◌, ◌^◌, true, false, MatchOption, option_copied};
ghost use Rattle.std.specs.Str.{is_utf8};
ghost use Rattle.wm_store.specs.Lists.{part as bytes_at};
ghost use Rattle.wm_semantics.specs.declared.trap.Trap.TheVariants as trap;
ghost use Rattle.wm_semantics.specs.declared.host.HostAnswer.TheVariants as answer;
ghost use Rattle.ic_api.specs.Did.{Does};
ghost use Rattle.ic_api.specs.Memory.{writes, source_copy, length_answer, amount_answer, sixteen};
ghost use Rattle.ic_api.specs.Cycles.{whole as whole_number};

use ic_base::NoMemory;
use wm_semantics::{HostAnswer, Trap};
use wm_store::Store;

/// The trap of a call that is refused.
pub fn refused() -> HostAnswer
    ensures { result ≡ answer.Trap trap.Api }
{
    HostAnswer::Trap(Trap::Api)
}

/// Bytes of a list; none where they pass its end.
pub fn part(bytes: &[u8], at: u64, size: u64) -> Option<&[u8]>
    ensures { option_copied result ≡ bytes_at at size bytes.now }
{
    if at as u128 + size as u128 > bytes.len() as u128 {
        return None;
    }
    Some(&bytes[at as usize..(at + size) as usize])
}

/// Bytes of memory; none where they pass its end.
pub fn read(store: &Store, src: u64, size: u64) -> Option<&[u8]>
    ensures { option_copied result ≡ bytes_at src size store.now.lists.memory }
{
    part(store.memory(), src, size)
}

/// Writes bytes to memory.
pub fn write(store: &mut Store, dst: u64, bytes: &[u8]) -> Result<HostAnswer, NoMemory>
    ensures did { Does result store.new.lists (writes dst bytes.now store.old.lists) }
    ensures begun { store.new.begun ≡ store.old.begun }
{
    match store.copy_into(dst, bytes)? {
        Some(()) => Ok(HostAnswer::Nothing),
        None => Ok(refused()),
    }
}

/// Copies bytes of the source to memory.
pub fn copy(
    store: &mut Store,
    source: &[u8],
    dst: u64,
    offset: u64,
    size: u64,
) -> Result<HostAnswer, NoMemory>
    ensures did { Does result store.new.lists (source_copy source.now dst offset size store.old.lists) }
    ensures begun { store.new.begun ≡ store.old.begun }
{
    match part(source, offset, size) {
        Some(bytes) => write(store, dst, bytes),
        None => Ok(refused()),
    }
}

/// Writes the number as sixteen bytes.
pub fn put(store: &mut Store, dst: u64, n: u128) -> Result<HostAnswer, NoMemory>
    ensures did { Does result store.new.lists (writes dst (sixteen n) store.old.lists) }
    ensures begun { store.new.begun ≡ store.old.begun }
{
    write(store, dst, &sixteen_bytes(n))
}

/// The number as sixteen bytes, the lowest first.
#[tactic(auto, unfolding(crate::specs::Memory::sixteen))]
pub fn sixteen_bytes(n: u128) -> [u8; 16]
    ensures { result ≡ sixteen n }
{
    n.to_le_bytes()
}

/// Answers the length of the bytes as an i32.
pub fn answer_size(bytes: &[u8]) -> HostAnswer
    ensures { result ≡ length_answer bytes.now }
{
    match u32::try_from(bytes.len()) {
        Ok(size) => HostAnswer::Number(size as u64),
        Err(_) => refused(),
    }
}

/// An amount of cycles as an i64.
pub fn amount(n: u128) -> HostAnswer
    ensures { result ≡ amount_answer n }
{
    match u64::try_from(n) {
        Ok(n) => HostAnswer::Number(n),
        Err(_) => refused(),
    }
}

/// The number whose halves these are.
pub fn whole(high: u64, low: u64) -> u128
    ensures { result ≡ whole_number high low }
{
    high as u128 * 18_446_744_073_709_551_616 + low as u128
}

/// The text that the bytes spell; none where they are no UTF-8.
pub fn text_of(bytes: &[u8]) -> Option<&str>
    ensures { MatchOption result (is_utf8 bytes.now ≡ false) (λ text. (text.now ≡ bytes.now) × (is_utf8 bytes.now ≡ true)) }
{
    match str::from_utf8(bytes) {
        Ok(text) => Some(text),
        Err(_) => None,
    }
}
