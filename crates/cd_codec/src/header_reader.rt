ghost use Rattle.std.specs.Prelude.{◌≡◌, ◌≤◌, ◌++◌, ℕ, List, length, take, true, false, IfOk, IsErrOf};
ghost use Rattle.std.specs.Option.{option_copied};
ghost use Rattle.ic_base.specs.Gives.{Gives};
ghost use Rattle.cd_codec.specs.IsHeader.{are_inside, IsHeader};
ghost use Rattle.cd_codec.specs.Answers.{BeginsWithHeader, ReadsHeader, IsFault};
ghost use Rattle.cd_codec.specs.ReadPlain.{counted_at};
ghost use Rattle.cd_codec.specs.ReadHeader.{magic_at, reference_at, id_at, typed_field_at, fields_at, method_at, methods_at, types_at, body_at, kind_at, row_at, table_at, arguments_at, header_at};

use crate::codes::{Kind, kind_named, reference_named};
use crate::fault::HeaderFault;
use crate::header::Header;
use crate::lists::{Floats, list_of, short_list_of};
use crate::plain::{counted_of, signed_of, text_of, unsigned_of};
use cd_types::{Entry, Fields, Methods, TyRef, TyRefs, TypeTable};
use ic_base::{Item, ReadError};
use ic_principal::{Bytes, Text};
use std::alloc::Global;

#[tactic(auto, unfolding(crate::specs::ReadHeader::reference_at))]
fn reference_of(floats: bool, bytes: &[u8]) -> Result<(TyRef, &[u8]), ReadError>
    ensures { Gives (λ x. (x.0, x.1.now)) result (reference_at floats bytes.now) }
{
    let (z, rest) = signed_of(bytes)?;
    match reference_named(floats, z) {
        Some(ty) => Ok((ty, rest)),
        None => Err(ReadError::Refused),
    }
}

impl Item<Floats> for TyRef {
    ghost reading = { λ floats. reference_at floats.admitted };

    fn read<'a>(
        _alloc: Global,
        floats: &Floats,
        bytes: &'a [u8],
    ) -> Result<(TyRef, &'a [u8]), ReadError> {
        reference_of(floats.admitted, bytes)
    }
}

#[tactic(auto, unfolding(crate::specs::ReadHeader::id_at))]
fn id_of(bytes: &[u8]) -> Result<(u32, &[u8]), ReadError>
    ensures { Gives (λ x. (x.0, x.1.now)) result (id_at bytes.now) }
{
    let (id, rest) = unsigned_of(bytes)?;
    if id >= 4_294_967_296 {
        return Err(ReadError::Refused);
    }
    Ok((id as u32, rest))
}

impl Item<Floats> for (u32, TyRef) {
    ghost reading = { λ floats. typed_field_at floats.admitted };

    #[tactic(auto, unfolding(crate::specs::ReadHeader::typed_field_at))]
    fn read<'a>(
        _alloc: Global,
        floats: &Floats,
        bytes: &'a [u8],
    ) -> Result<((u32, TyRef), &'a [u8]), ReadError> {
        let (id, rest) = id_of(bytes)?;
        let (ty, rest) = reference_of(floats.admitted, rest)?;
        Ok(((id, ty), rest))
    }
}

impl Item<Floats> for (Text, TyRef) {
    ghost reading = { λ floats. method_at floats.admitted };

    #[tactic(auto, unfolding(crate::specs::ReadHeader::method_at))]
    fn read<'a>(
        alloc: Global,
        floats: &Floats,
        bytes: &'a [u8],
    ) -> Result<((Text, TyRef), &'a [u8]), ReadError> {
        let (name, rest) = text_of(alloc, bytes)?;
        let (ty, rest) = reference_of(floats.admitted, rest)?;
        Ok(((name, ty), rest))
    }
}

#[tactic(auto, unfolding(crate::specs::ReadHeader::fields_at))]
fn fields_of<'a>(
    alloc: Global,
    floats: &Floats,
    bytes: &'a [u8],
) -> Result<(Fields, &'a [u8]), ReadError>
    ensures { Gives (λ x. (x.0, x.1.now)) result (fields_at floats.now.admitted bytes.now) }
{
    let (items, rest) = list_of(alloc, floats, bytes)?;
    Ok((Fields { items }, rest))
}

#[tactic(auto, unfolding(crate::specs::ReadHeader::methods_at))]
fn methods_of<'a>(
    alloc: Global,
    floats: &Floats,
    bytes: &'a [u8],
) -> Result<(Methods, &'a [u8]), ReadError>
    ensures { Gives (λ x. (x.0, x.1.now)) result (methods_at floats.now.admitted bytes.now) }
{
    let (items, rest) = list_of(alloc, floats, bytes)?;
    Ok((Methods { items }, rest))
}

#[tactic(auto, unfolding(crate::specs::ReadHeader::types_at))]
fn types_of<'a>(
    alloc: Global,
    floats: &Floats,
    bytes: &'a [u8],
) -> Result<(TyRefs, &'a [u8]), ReadError>
    ensures { Gives (λ x. (x.0, x.1.now)) result (types_at floats.now.admitted bytes.now) }
{
    let (items, rest) = list_of(alloc, floats, bytes)?;
    Ok((TyRefs { items }, rest))
}

fn notes_of(alloc: Global, bytes: &[u8]) -> Result<(Bytes, &[u8]), ReadError>
    ensures { Gives (λ x. (x.0, x.1.now)) result (counted_at bytes.now) }
{
    let (notes, rest) = counted_of(bytes)?;
    let items = Vec::from_slice(alloc, notes)?;
    Ok((Bytes { items }, rest))
}

#[tactic(auto, unfolding(crate::specs::ReadHeader::body_at, crate::specs::ReadHeader::signature_at))]
fn func_of<'a>(
    alloc: Global,
    floats: &Floats,
    bytes: &'a [u8],
) -> Result<(Entry, &'a [u8]), ReadError>
    ensures { Gives (λ x. (x.0, x.1.now)) result (body_at floats.now.admitted Kind.Func bytes.now) }
{
    let (args, rest) = types_of(alloc, floats, bytes)?;
    let (results, rest) = types_of(alloc, floats, rest)?;
    let (notes, rest) = notes_of(alloc, rest)?;
    let entry = Entry::Func {
        args,
        results,
        notes,
    };
    Ok((entry, rest))
}

#[tactic(auto, unfolding(crate::specs::ReadHeader::body_at))]
fn body_of<'a>(
    alloc: Global,
    floats: &Floats,
    kind: Kind,
    bytes: &'a [u8],
) -> Result<(Entry, &'a [u8]), ReadError>
    ensures { Gives (λ x. (x.0, x.1.now)) result (body_at floats.now.admitted kind bytes.now) }
{
    match kind {
        Kind::Opt => {
            let (ty, rest) = reference_of(floats.admitted, bytes)?;
            Ok((Entry::Opt(ty), rest))
        }
        Kind::Seq => {
            let (ty, rest) = reference_of(floats.admitted, bytes)?;
            Ok((Entry::Seq(ty), rest))
        }
        Kind::Rec => {
            let (fields, rest) = fields_of(alloc, floats, bytes)?;
            Ok((Entry::Rec(fields), rest))
        }
        Kind::Var => {
            let (cases, rest) = fields_of(alloc, floats, bytes)?;
            Ok((Entry::Var(cases), rest))
        }
        Kind::Func => func_of(alloc, floats, bytes),
        Kind::Service => {
            let (methods, rest) = methods_of(alloc, floats, bytes)?;
            Ok((Entry::Service(methods), rest))
        }
    }
}

#[tactic(auto, unfolding(crate::specs::ReadHeader::kind_at))]
fn kind_of(bytes: &[u8]) -> Result<(Kind, &[u8]), ReadError>
    ensures { Gives (λ x. (x.0, x.1.now)) result (kind_at bytes.now) }
{
    let (z, rest) = signed_of(bytes)?;
    match kind_named(z) {
        Some(kind) => Ok((kind, rest)),
        None => Err(ReadError::Refused),
    }
}

impl Item<Floats> for Entry {
    ghost reading = { λ floats. row_at floats.admitted };

    #[tactic(auto, unfolding(crate::specs::ReadHeader::row_at))]
    fn read<'a>(
        alloc: Global,
        floats: &Floats,
        bytes: &'a [u8],
    ) -> Result<(Entry, &'a [u8]), ReadError> {
        let (kind, rest) = kind_of(bytes)?;
        body_of(alloc, floats, kind, rest)
    }
}

#[tactic(auto, unfolding(crate::specs::ReadHeader::table_at))]
fn table_of<'a>(
    alloc: Global,
    floats: &Floats,
    bytes: &'a [u8],
) -> Result<(TypeTable, &'a [u8]), ReadError>
    ensures { Gives (λ x. (x.0, x.1.now)) result (table_at floats.now.admitted bytes.now) }
{
    let (entries, rest) = short_list_of(alloc, floats, bytes)?;
    match TypeTable::new(entries) {
        Ok(table) => Ok((table, rest)),
        Err(_) => Err(ReadError::Refused),
    }
}

fn are_inside(table: &TypeTable, types: &[TyRef]) -> bool
    ensures { result ≡ are_inside (length table.now) types.now }
{
    types.iter().all(|ty| table.contains(*ty))
}

#[tactic(auto, unfolding(crate::specs::ReadHeader::arguments_at))]
fn arguments_of<'a>(
    alloc: Global,
    floats: &Floats,
    table: &TypeTable,
    bytes: &'a [u8],
) -> Result<(TyRefs, &'a [u8]), ReadError>
    ensures { Gives (λ x. (x.0, x.1.now)) result (arguments_at floats.now.admitted (length table.now) bytes.now) }
{
    let (items, rest) = short_list_of(alloc, floats, bytes)?;
    if !are_inside(table, &items) {
        return Err(ReadError::Refused);
    }
    Ok((TyRefs { items }, rest))
}

#[tactic(auto, unfolding(crate::specs::ReadHeader::magic_at))]
fn magic_of(bytes: &[u8]) -> Option<&[u8]>
    ensures { option_copied result ≡ magic_at bytes.now }
{
    bytes.strip_prefix(b"DIDL")
}

#[tactic(auto, unfolding(crate::specs::ReadHeader::header_at))]
fn header_of(
    alloc: Global,
    floats: bool,
    bytes: &[u8],
) -> Result<(TypeTable, TyRefs, &[u8]), ReadError>
    ensures { Gives (λ x. ((x.0, x.1), x.2.now)) result (header_at floats bytes.now) }
{
    let floats = Floats { admitted: floats };
    match magic_of(bytes) {
        None => Err(ReadError::Refused),
        Some(rest) => {
            let (table, rest) = table_of(alloc, &floats, rest)?;
            let (types, rest) = arguments_of(alloc, &floats, &table, rest)?;
            Ok((table, types, rest))
        }
    }
}

/// Why bytes at whose front no header without floats is read are no header.
fn fault_of(alloc: Global, bytes: &[u8]) -> HeaderFault
    ensures { IsFault result (header_at true bytes.now) }
{
    match header_of(alloc, true, bytes) {
        Ok(_) => HeaderFault::Float,
        Err(ReadError::Refused) => HeaderFault::NotHeader,
        Err(ReadError::NoMemory) => HeaderFault::NoMemory,
    }
}

/// Reads the header at the front of a message (Candid specification, "Binary Format"). Whatever
/// follows it is left to `read_values`.
pub fn read_header(alloc: Global, bytes: &[u8]) -> Result<Header, HeaderFault>
    // What is read is a header.
    ensures header { IfOk result (λ header. (header.length ≤ length bytes.now) × IsHeader false header.table header.types (take header.length bytes.now)) }
    // A header is read, whatever follows it, unless memory runs out.
    ensures only { (table : List Entry) (types : List TyRef) (front rest : List ℕ) → bytes.now ≡ front ++ rest → IsHeader false table types front → ReadsHeader result table types (length front) }
    // Where floats are admitted a front is a header, and else none is.
    ensures float { IsErrOf result HeaderFault.Float → BeginsWithHeader true bytes.now × (BeginsWithHeader false bytes.now → ⊥) }
    // Even where floats are admitted, no front is a header.
    ensures not_header { IsErrOf result HeaderFault.NotHeader → BeginsWithHeader true bytes.now → ⊥ }
{
    match header_of(alloc, false, bytes) {
        Ok((table, types, rest)) => {
            let length = bytes.len() - rest.len();
            Ok(Header {
                table,
                types,
                length,
            })
        }
        Err(ReadError::Refused) => Err(fault_of(alloc, bytes)),
        Err(ReadError::NoMemory) => Err(HeaderFault::NoMemory),
    }
}
