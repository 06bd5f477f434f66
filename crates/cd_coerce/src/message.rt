ghost use Rattle.std.specs.Prelude.{◌≡◌, ◌↔◌, ◌≤◌, List, Ok, Err, IfOk, length, drop};
ghost use Rattle.cd_codec.specs.Content.{Content};
ghost use Rattle.cd_codec.specs.Measure.{number_each};
ghost use Rattle.cd_codec.specs.AreValues.{HasTypes};
ghost use Rattle.cd_codec.specs.Answers.{contents};
ghost use Rattle.cd_coerce.specs.declared.fault.DidlFault.{DidlFault};
ghost use Rattle.cd_coerce.specs.Step.{setting};
ghost use Rattle.cd_coerce.specs.Decodes.{Decodes, HasFault};
ghost use Rattle.cd_coerce.specs.Decoded.{decoded, message_read, values_read, IsAnswer, IsHeaderAnswer};

use crate::fault::DidlFault;
use crate::laws::one_answer;
use crate::shapes::well_formed_table;
use crate::step::Coercion;
use cd_codec::{Expected, Header, HeaderFault, ValueFault, Values, read_header, read_values};
use cd_types::TyRef;
use ic_base::ReadError;
use std::alloc::Global;

/// How many values one message may be read as.
const MAX_VALUES: u32 = 16_777_216;

/// The header of a message, or the fault of bytes that begin with none.
fn header_of(alloc: Global, bytes: &[u8]) -> Result<Header, DidlFault>
    ensures { IsHeaderAnswer result bytes.now }
{
    match read_header(alloc, bytes) {
        Ok(header) => Ok(header),
        Err(HeaderFault::NotHeader) => Err(DidlFault::NotHeader),
        Err(HeaderFault::Float) => Err(DidlFault::Float),
        Err(HeaderFault::NoMemory) => Err(DidlFault::NoMemory),
    }
}

/// The expected arguments, read from the values after the header.
fn values_of(
    alloc: Global,
    coercion: &mut Coercion<'_>,
    header: &Header,
    expected: &[TyRef],
    bytes: &[u8],
) -> Result<Values, DidlFault>
    requires inside { header.now.length ≤ length bytes.now }
    requires table { coercion.old.0.0 ≡ header.now.table }
    ensures answer { IsAnswer result (values_read (setting coercion.old.0.0 coercion.old.0.1) header.now.types expected.now (drop header.now.length bytes.now)) }
    ensures few { IfOk result (λ values. number_each (contents values) ≤ coercion.old.1) }
{
    match read_values(alloc, header, bytes, header.length) {
        Ok(values) => match coercion.arguments(&header.types.items, &values.items, expected) {
            Ok(items) => Ok(Values { items }),
            Err(ReadError::Refused) => Err(DidlFault::BadValue),
            Err(ReadError::NoMemory) => Err(DidlFault::NoMemory),
        },
        Err(ValueFault::BadValue) => Err(DidlFault::BadValue),
        Err(ValueFault::NoMemory) => Err(DidlFault::NoMemory),
    }
}

/// The expected arguments of a message with this header, if they fit.
fn message_of(
    alloc: Global,
    expected: &Expected,
    header: &Header,
    bytes: &[u8],
    most_values: u32,
) -> Result<Values, DidlFault>
    requires { header.now.length ≤ length bytes.now }
    ensures answer { IsAnswer result (message_read (setting header.now.table expected.now.0) header.now.types expected.now.1 (drop header.now.length bytes.now)) }
    ensures few { IfOk result (λ values. number_each (contents values) ≤ most_values) }
{
    let mut coercion = Coercion::new(alloc, &header.table, expected.table(), most_values);
    match coercion.unfit(&header.types.items, expected.types()) {
        Ok(None) => values_of(alloc, &mut coercion, header, expected.types(), bytes),
        Ok(Some(argument)) => Err(DidlFault::NotSubtype { argument }),
        Err(_) => Err(DidlFault::NoMemory),
    }
}

/// The expected arguments of a message.
fn arguments_of(
    alloc: Global,
    expected: &Expected,
    bytes: &[u8],
    most_values: u32,
) -> Result<Values, DidlFault>
    ensures answer { IsAnswer result (decoded expected.now bytes.now) }
    ensures few { IfOk result (λ values. number_each (contents values) ≤ most_values) }
{
    match header_of(alloc, bytes) {
        Ok(header) => message_of(alloc, expected, &header, bytes, most_values),
        Err(fault) => Err(fault),
    }
}

/// Reads a message as `decode` does, and as at most that many values: `NoMemory` also comes for a
/// message that would be read as more, where a `vec nat8` counts as one.
pub fn decode_within(
    alloc: Global,
    expected: &Expected,
    bytes: &[u8],
    most_values: u32,
) -> Result<Values, DidlFault>
    // The answer is that of a function, unless memory runs out.
    ensures answer { IsAnswer result (decoded expected.now bytes.now) }
    // The values have the expected types.
    ensures typed { IfOk result (λ values. HasTypes expected.now.0 expected.now.1 (contents values)) }
    // They and their parts are at most as many as may be made.
    ensures few { IfOk result (λ values. number_each (contents values) ≤ most_values) }
{
    // What the proof takes from elsewhere; these calls do nothing.
    one_answer();
    well_formed_table(expected.table());
    arguments_of(alloc, expected, bytes, most_values)
}

/// Reads a message at the expected types (Candid specification, "Parameters and Results" and
/// "Coercion"). Fields and arguments that are not expected are skipped. `NoMemory` also comes for a
/// message that would be read as more than 16,777,216 values, where a `vec nat8` counts as one.
pub fn decode(alloc: Global, expected: &Expected, bytes: &[u8]) -> Result<Values, DidlFault>
    // The answer is that of a function, unless memory runs out.
    ensures answer { IsAnswer result (decoded expected.now bytes.now) }
    // The function gives values exactly where the bytes decode to them,
    ensures decodes { (values : List Content) → (decoded expected.now bytes.now ≡ Ok values) ↔ Decodes expected.now bytes.now values }
    // and each fault exactly where it comes.
    ensures fault { (fault : DidlFault) → (decoded expected.now bytes.now ≡ Err fault) ↔ HasFault expected.now bytes.now fault }
    // The values have the expected types.
    ensures typed { IfOk result (λ values. HasTypes expected.now.0 expected.now.1 (contents values)) }
    // They and their parts are at most 16,777,216.
    ensures few { IfOk result (λ values. number_each (contents values) ≤ 16777216) }
{
    one_answer();
    decode_within(alloc, expected, bytes, MAX_VALUES)
}
