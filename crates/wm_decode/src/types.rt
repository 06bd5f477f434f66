ghost use Rattle.std.specs.Prelude.{Option};
ghost use Rattle.ic_base.specs.Gives.{Gives};
ghost use Rattle.wm_decode.specs.Readers.{u32_at, val_type_at, block_type_at, func_type_at, limits_at, table_type_at, global_type_at};

use crate::profile::Profile;
use crate::values::{byte, list, number};
use ic_base::{Item, ReadError};
use std::alloc::Global;
use wm_tree::{FuncType, GlobalType, Limits, ValType, ValTypes};

/// Reads a value type.
#[tactic(auto, unfolding(crate::specs::Readers::val_type_at))]
pub(crate) fn val_type(profile: Profile, bytes: &[u8]) -> Result<(ValType, &[u8]), ReadError>
    ensures { Gives (λ x. (x.0, x.1.now)) result (val_type_at profile.float bytes.now) }
{
    let (code, rest) = byte(bytes)?;
    match code {
        0x7F => Ok((ValType::I32, rest)),
        0x7E => Ok((ValType::I64, rest)),
        0x7D | 0x7C if profile.float => Ok((ValType::I32, rest)),
        _ => Err(ReadError::Refused),
    }
}

/// Reads a block type.
#[tactic(auto, unfolding(crate::specs::Readers::block_type_at))]
pub(crate) fn block_type(
    profile: Profile,
    bytes: &[u8],
) -> Result<(Option<ValType>, &[u8]), ReadError>
    ensures { Gives (λ x. (x.0, x.1.now)) result (block_type_at profile.float bytes.now) }
{
    let (code, rest) = byte(bytes)?;
    match code {
        0x40 => Ok((None, rest)),
        0x7F => Ok((Some(ValType::I32), rest)),
        0x7E => Ok((Some(ValType::I64), rest)),
        0x7D | 0x7C if profile.float => Ok((Some(ValType::I32), rest)),
        _ => Err(ReadError::Refused),
    }
}

impl Item<Profile> for ValType {
    ghost reading = { λ p. val_type_at p.float };

    fn read<'a>(
        _alloc: Global,
        context: &Profile,
        bytes: &'a [u8],
    ) -> Result<(ValType, &'a [u8]), ReadError> {
        val_type(*context, bytes)
    }
}

impl Item<Profile> for u32 {
    ghost reading = { λ _. u32_at };

    fn read<'a>(
        _alloc: Global,
        _context: &Profile,
        bytes: &'a [u8],
    ) -> Result<(u32, &'a [u8]), ReadError> {
        number(bytes)
    }
}

impl Item<Profile> for FuncType {
    ghost reading = { λ p. func_type_at p.float };

    #[tactic(auto, unfolding(crate::specs::Readers::func_type_at))]
    fn read<'a>(
        alloc: Global,
        context: &Profile,
        bytes: &'a [u8],
    ) -> Result<(FuncType, &'a [u8]), ReadError> {
        let (tag, rest) = byte(bytes)?;
        if tag != 0x60 {
            return Err(ReadError::Refused);
        }
        let (params, rest) = list(alloc, context, rest)?;
        let (results, rest) = list(alloc, context, rest)?;
        let signature = FuncType {
            params: ValTypes { items: params },
            results: ValTypes { items: results },
        };
        Ok((signature, rest))
    }
}

/// Reads limits.
#[tactic(auto, unfolding(crate::specs::Readers::limits_at))]
pub(crate) fn limits(bytes: &[u8]) -> Result<(Limits, &[u8]), ReadError>
    ensures { Gives (λ x. (x.0, x.1.now)) result (limits_at bytes.now) }
{
    let (tag, rest) = byte(bytes)?;
    match tag {
        0x00 => {
            let (min, rest) = number(rest)?;
            Ok((Limits { min, max: None }, rest))
        }
        0x01 => {
            let (min, rest) = number(rest)?;
            let (max, rest) = number(rest)?;
            Ok((
                Limits {
                    min,
                    max: Some(max),
                },
                rest,
            ))
        }
        _ => Err(ReadError::Refused),
    }
}

/// Reads a table type.
#[tactic(auto, unfolding(crate::specs::Readers::table_type_at))]
pub(crate) fn table_type(bytes: &[u8]) -> Result<(Limits, &[u8]), ReadError>
    ensures { Gives (λ x. (x.0, x.1.now)) result (table_type_at bytes.now) }
{
    let (tag, rest) = byte(bytes)?;
    if tag != 0x70 {
        return Err(ReadError::Refused);
    }
    limits(rest)
}

/// That limits are in a table type.
pub(crate) struct InTable;

impl Item<InTable> for Limits {
    ghost reading = { λ _. table_type_at };

    fn read<'a>(
        _alloc: Global,
        _context: &InTable,
        bytes: &'a [u8],
    ) -> Result<(Limits, &'a [u8]), ReadError> {
        table_type(bytes)
    }
}

impl Item<Profile> for Limits {
    ghost reading = { λ _. limits_at };

    fn read<'a>(
        _alloc: Global,
        _context: &Profile,
        bytes: &'a [u8],
    ) -> Result<(Limits, &'a [u8]), ReadError> {
        limits(bytes)
    }
}

/// Reads a global type.
#[tactic(auto, unfolding(crate::specs::Readers::global_type_at))]
pub(crate) fn global_type(profile: Profile, bytes: &[u8]) -> Result<(GlobalType, &[u8]), ReadError>
    ensures { Gives (λ x. (x.0, x.1.now)) result (global_type_at profile.float bytes.now) }
{
    let (kind, rest) = val_type(profile, bytes)?;
    let (code, rest) = byte(rest)?;
    match code {
        0x00 => Ok((
            GlobalType {
                kind,
                mutable: false,
            },
            rest,
        )),
        0x01 => Ok((
            GlobalType {
                kind,
                mutable: true,
            },
            rest,
        )),
        _ => Err(ReadError::Refused),
    }
}
