//! What holds of messages: each function but `read_back` does nothing, and its contract is the law.

ghost use Rattle.std.specs.Prelude.{◌≡◌, ◌≤◌, ◌↔◌, Bool, List, ℕ, ◌++◌, length, Some, IfOk};
ghost use Rattle.cd_types.specs.declared.entry.TyRef.{TyRef};
ghost use Rattle.cd_types.specs.declared.entry.Entry.{Entry};
ghost use Rattle.cd_codec.specs.Content.{Content};
ghost use Rattle.cd_codec.specs.Wire.{Wire};
ghost use Rattle.cd_codec.specs.IsHeader.{IsHeader};
ghost use Rattle.cd_codec.specs.AreValues.{HasTypes, AreValues};
ghost use Rattle.cd_codec.specs.Answers.{contents};
ghost use Rattle.cd_codec.specs.Measure.{nesting_each, number_each};
ghost use Rattle.cd_codec.specs.ReadHeader.{header_at};
ghost use Rattle.cd_codec.specs.ReadValue.{values_at};
ghost use Rattle.cd_codec.specs.View.{views};

use crate::fault::{HeaderFault, ValueFault};
use crate::header::Header;
use crate::header_reader::read_header;
use crate::reading::read_values;
use crate::value::{Value, Values};
use crate::writer::encode;
use cd_types::{TyRef, TypeTable};
use ic_base::NoMemory;
use std::alloc::{AllocError, Global};

/// No spelling of a value begins another of the same type.
pub fn one_value_spelling()
    ensures { (table : List Entry) (type : TyRef) (v u : Content) (front rest front' rest' : List ℕ) →
        Wire table type v front → Wire table type u front' → front ++ rest ≡ front' ++ rest' → (v ≡ u) × (front ≡ front') }
{}

/// No spelling of a header begins another.
pub fn one_header_spelling()
    ensures { (floats : Bool) (table other : List Entry) (types others : List TyRef) (front rest front' rest' : List ℕ) →
        IsHeader floats table types front → IsHeader floats other others front' → front ++ rest ≡ front' ++ rest'
        → (table ≡ other) × (types ≡ others) × (front ≡ front') }
{}

/// The function that reads headers (`specs/ReadHeader`) takes exactly the fronts that are one.
pub fn headers_read()
    ensures { (floats : Bool) (table : List Entry) (types : List TyRef) (bytes rest : List ℕ) →
        (header_at floats bytes ≡ Some ((table, types), rest)) ↔ ((front : List ℕ) × (bytes ≡ front ++ rest) × IsHeader floats table types front) }
{}

/// The function that reads the values of a message (`specs/ReadValue`) takes exactly the bytes that
/// are such values.
pub fn values_read()
    ensures { (table : List Entry) (types : List TyRef) (values : List Content) (bytes : List ℕ) →
        (values_at table types bytes ≡ Some values) ↔ AreValues table types values bytes }
{}

/// Writes a message and reads what was written: the header and the values are the same, unless
/// memory runs out.
pub fn read_back(
    alloc: Global,
    table: &TypeTable,
    types: &[TyRef],
    values: &[Value],
) -> Result<(Header, Values), NoMemory>
    requires typed { HasTypes table.now types.now (views values.now) }
    requires few { length types.now ≤ 10000 }
    requires deep { nesting_each (views values.now) ≤ 128 }
    requires many { number_each (views values.now) ≤ 1000000 }
    ensures { IfOk result (λ message. (message.0.table ≡ table.now) × (message.0.types ≡ types.now) × (contents message.1 ≡ views values.now)) }
{
    let bytes = encode(alloc, table, types, values)?;
    let header = match read_header(alloc, &bytes.items) {
        Ok(header) => header,
        Err(HeaderFault::NoMemory) => return Err(AllocError),
        Err(HeaderFault::NotHeader) => unreachable!(),
        Err(HeaderFault::Float) => unreachable!(),
    };
    match read_values(alloc, &header, &bytes.items, header.length) {
        Ok(values) => Ok((header, values)),
        Err(ValueFault::NoMemory) => Err(AllocError),
        Err(ValueFault::BadValue) => unreachable!(),
    }
}
