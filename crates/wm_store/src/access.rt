ghost use Rattle.std.specs.Prelude.{◌≡◌, ◌+◌, ◌%◌, ◌^◌, ◌<◌, ◌≤◌, false, is_ok, IfOk, IfErr};
ghost use Rattle.wm_numeric.specs.Integers.{extend_s};
ghost use Rattle.wm_pages.specs.Ranges.{touched};
ghost use Rattle.wm_store.specs.Lists.{moved, filled};
ghost use Rattle.wm_store.specs.Meaning.{finished, memory_with, number_at, stored};

use crate::store::Store;
use ic_base::NoMemory;
use wm_numeric::{Failure, int32, int64};

/// Instructions that read or write memory (WebAssembly Core 1.0, 4.4.4; Core 2.0, 4.4.7). The effective
/// address of a load or a store is the sum of the operand and the offset, a whole number.
impl Store {
    /// A load of that many bytes that extends without a sign.
    #[inline(always)]
    pub fn load_u(&self, address: u64, offset: u32, size: u32) -> Result<u64, Failure>
        requires address { address < 2 ^ 32 }
        requires size { size ≤ 8 }
        ensures number { result ≡ number_at size (λ n. n) (address + offset) self.now.lists.memory }
        ensures range { IfOk result (λ n. n < 256 ^ size) }
    {
        self.holds_bytes();
        self.load(address + u64::from(offset), size)
            .ok_or(Failure::MemoryBounds)
    }

    /// `i32.load8_s`
    #[inline(always)]
    pub fn load_8_s_32(&self, address: u64, offset: u32) -> Result<u64, Failure>
        requires { address < 2 ^ 32 }
        ensures { result ≡ number_at 1 (extend_s 8 32) (address + offset) self.now.lists.memory }
    {
        Ok(int32::extend_8_s(self.load_u(address, offset, 1)?))
    }

    /// `i32.load16_s`
    #[inline(always)]
    pub fn load_16_s_32(&self, address: u64, offset: u32) -> Result<u64, Failure>
        requires { address < 2 ^ 32 }
        ensures { result ≡ number_at 2 (extend_s 16 32) (address + offset) self.now.lists.memory }
    {
        Ok(int32::extend_16_s(self.load_u(address, offset, 2)?))
    }

    /// `i64.load8_s`
    #[inline(always)]
    pub fn load_8_s_64(&self, address: u64, offset: u32) -> Result<u64, Failure>
        requires { address < 2 ^ 32 }
        ensures { result ≡ number_at 1 (extend_s 8 64) (address + offset) self.now.lists.memory }
    {
        Ok(int64::extend_8_s(self.load_u(address, offset, 1)?))
    }

    /// `i64.load16_s`
    #[inline(always)]
    pub fn load_16_s_64(&self, address: u64, offset: u32) -> Result<u64, Failure>
        requires { address < 2 ^ 32 }
        ensures { result ≡ number_at 2 (extend_s 16 64) (address + offset) self.now.lists.memory }
    {
        Ok(int64::extend_16_s(self.load_u(address, offset, 2)?))
    }

    /// `i64.load32_s`
    #[inline(always)]
    pub fn load_32_s_64(&self, address: u64, offset: u32) -> Result<u64, Failure>
        requires { address < 2 ^ 32 }
        ensures { result ≡ number_at 4 (extend_s 32 64) (address + offset) self.now.lists.memory }
    {
        Ok(int64::extend_32_s(self.load_u(address, offset, 4)?))
    }

    /// A store of that many of the value's bytes, the lowest first.
    #[inline(always)]
    pub fn store(
        &mut self,
        address: u64,
        offset: u32,
        size: u32,
        value: u64,
    ) -> Result<Result<(), Failure>, NoMemory>
        requires address { address < 2 ^ 32 }
        requires size { size ≤ 8 }
        ensures runs { IfOk result (λ done. finished done self.new.lists ≡ stored (memory_with size value (address + offset) self.old.lists.memory) self.old.lists) }
        ensures failed { IfOk result (λ done. IfErr done (λ _. self.new.lists ≡ self.old.lists)) }
        ensures refused { IfErr result (λ _. self.new.lists ≡ self.old.lists) }
        ensures begun { self.new.begun ≡ self.old.begun }
        ensures saved { self.new.saved ≤ self.old.saved + touched (address + offset) size }
        ensures rises { self.old.saved ≤ self.new.saved }
        ensures past { IfOk result (λ done. is_ok done ≡ false → self.new.saved ≡ self.old.saved) }
    {
        match self.save(address + u64::from(offset), size, value)? {
            Some(()) => Ok(Ok(())),
            None => Ok(Err(Failure::MemoryBounds)),
        }
    }

    /// `memory.copy` (Core 2.0, 4.4.7).
    #[inline(always)]
    pub fn memory_copy(
        &mut self,
        to: u64,
        from: u64,
        size: u64,
    ) -> Result<Result<(), Failure>, NoMemory>
        ensures runs { IfOk result (λ done. finished done self.new.lists ≡ stored (moved to from size self.old.lists.memory) self.old.lists) }
        ensures failed { IfOk result (λ done. IfErr done (λ _. self.new.lists ≡ self.old.lists)) }
        ensures refused { IfErr result (λ _. self.new.lists ≡ self.old.lists) }
        ensures begun { self.new.begun ≡ self.old.begun }
        ensures saved { self.new.saved ≤ self.old.saved + touched to size }
        ensures rises { self.old.saved ≤ self.new.saved }
    {
        match self.copy_within(to, from, size)? {
            Some(()) => Ok(Ok(())),
            None => Ok(Err(Failure::MemoryBounds)),
        }
    }

    /// `memory.fill` (Core 2.0, 4.4.7), with the value's lowest byte.
    #[inline(always)]
    pub fn memory_fill(
        &mut self,
        at: u64,
        value: u64,
        size: u64,
    ) -> Result<Result<(), Failure>, NoMemory>
        ensures runs { IfOk result (λ done. finished done self.new.lists ≡ stored (filled at (value % 256) size self.old.lists.memory) self.old.lists) }
        ensures failed { IfOk result (λ done. IfErr done (λ _. self.new.lists ≡ self.old.lists)) }
        ensures refused { IfErr result (λ _. self.new.lists ≡ self.old.lists) }
        ensures begun { self.new.begun ≡ self.old.begun }
        ensures saved { self.new.saved ≤ self.old.saved + touched at size }
        ensures rises { self.old.saved ≤ self.new.saved }
    {
        match self.fill(at, (value % 256) as u8, size)? {
            Some(()) => Ok(Ok(())),
            None => Ok(Err(Failure::MemoryBounds)),
        }
    }
}
