ghost use Rattle.std.specs.Prelude.{◌≡◌, ◌++◌, ◌∷◌, [], None, map, option_map, OnOk, IfOk, codes};
ghost use Rattle.cd_plain.specs.Pieces.{before, end_of_braces};
ghost use Rattle.cd_codec.specs.View.{view, views, views_of_fields};
ghost use Rattle.cd_codec.specs.Content.{parts_of};
ghost use Rattle.cd_plain.specs.Printed.{value_text, field_texts, joined, braced, labelled, label_text, is_left_out, case_text, argument_texts, printed, printed_with, printed_named};

use crate::plain_writer::{
    write_blob, write_bool, write_integer, write_method, write_name, write_natural,
    write_principal, write_text,
};
use crate::types::{fields_of, inner_of, item_of, nth_field, nth_type};
use cd_codec::Value;
use cd_names::FieldNames;
use cd_types::{TyRef, TypeTable};
use ic_base::NoMemory;
use ic_principal::Bytes;
use std::alloc::Global;

// What comes before the part at a place.
fn before<'a>(first: &'a [u8], other: &'a [u8], place: usize) -> &'a [u8]
    ensures { result.now ≡ before first.now other.now place }
{
    if place == 0 { first } else { other }
}

// What comes after parts in braces.
fn end_of_braces(empty: bool) -> &'static [u8]
    ensures { result.now ≡ end_of_braces empty }
{
    if empty { b"{}" } else { b" }" }
}

// A label: the name for the id, or else its number.
fn write_label(
    alloc: Global,
    names: Option<&FieldNames>,
    id: u32,
    out: &mut Vec<u8>,
) -> Result<(), NoMemory>
    ensures { OnOk result (out.new.items ≡ out.old.items ++ label_text (option_map (λ n. n.now) names.entry) id) }
{
    match names.and_then(|names| names.name(id)) {
        None => write_natural(alloc, u128::from(id), out),
        Some(name) => write_name(name, out),
    }
}

fn is_left_out(names: Option<&FieldNames>, part: &Value) -> bool
    ensures { result ≡ is_left_out (option_map (λ n. n.now) names.entry) (view part.now) }
{
    names.is_some() && matches!(part, Value::Null)
}

#[cycle(printer)]
#[tactic(auto, using(cd_codec::proofs::Views::layers), unfolding(crate::specs::Printed::value_text, crate::specs::Printed::plain_text))]
fn write_value(
    alloc: Global,
    names: Option<&FieldNames>,
    table: &TypeTable,
    ty: TyRef,
    value: &Value,
    out: &mut Vec<u8>,
) -> Result<(), NoMemory>
    ensures { OnOk result (out.new.items ≡ out.old.items ++ value_text (option_map (λ n. n.now) names.entry) table.now ty (view value.now)) }
{
    match value {
        Value::Null => out.extend_from_slice(b"null"),
        Value::Reserved => out.extend_from_slice(b"null"),
        Value::Bool(b) => write_bool(*b, out),
        Value::Nat(n) => write_natural(alloc, *n, out),
        Value::Int(z) => write_integer(alloc, *z, out),
        Value::Nat8(n) => write_natural(alloc, u128::from(*n), out),
        Value::Nat16(n) => write_natural(alloc, u128::from(*n), out),
        Value::Nat32(n) => write_natural(alloc, u128::from(*n), out),
        Value::Nat64(n) => write_natural(alloc, u128::from(*n), out),
        Value::Int8(z) => write_integer(alloc, i128::from(*z), out),
        Value::Int16(z) => write_integer(alloc, i128::from(*z), out),
        Value::Int32(z) => write_integer(alloc, i128::from(*z), out),
        Value::Int64(z) => write_integer(alloc, i128::from(*z), out),
        Value::Text(text) => write_text(text, out),
        Value::Opt(part) => match part {
            None => out.extend_from_slice(b"null"),
            Some(part) => write_some(alloc, names, table, inner_of(table, ty), part, out),
        },
        Value::Blob(bytes) => write_blob(&bytes.items, out),
        Value::Seq(values) => write_list(
            alloc,
            names,
            table,
            item_of(table, ty),
            &values.items,
            out,
        ),
        Value::Rec(fields) => write_record(
            alloc,
            names,
            table,
            fields_of(table, ty),
            &fields.items,
            out,
        ),
        Value::Var { position, part } => {
            let case = nth_field(fields_of(table, ty), *position as usize);
            write_case(alloc, names, table, case, part, out)
        }
        Value::Func { service, method } => write_method(alloc, service, method, out),
        Value::Service(id) => write_principal(alloc, b"service ", id, out),
        Value::Principal(id) => write_principal(alloc, b"principal ", id, out),
    }
}

#[cycle(printer)]
fn write_some(
    alloc: Global,
    names: Option<&FieldNames>,
    table: &TypeTable,
    inner: TyRef,
    part: &Value,
    out: &mut Vec<u8>,
) -> Result<(), NoMemory>
    ensures { OnOk result (out.new.items ≡ out.old.items ++ (codes "opt " ++ value_text (option_map (λ n. n.now) names.entry) table.now inner (view part.now))) }
{
    out.extend_from_slice(b"opt ")?;
    write_value(alloc, names, table, inner, part, out)
}

#[cycle(printer)]
fn write_list(
    alloc: Global,
    names: Option<&FieldNames>,
    table: &TypeTable,
    item: TyRef,
    values: &[Value],
    out: &mut Vec<u8>,
) -> Result<(), NoMemory>
    ensures { OnOk result (out.new.items ≡ out.old.items ++ (codes "vec " ++ braced (map (value_text (option_map (λ n. n.now) names.entry) table.now item) (views values.now)))) }
{
    out.extend_from_slice(b"vec ")?;
    write_items(alloc, names, table, item, values, out)
}

#[cycle(printer)]
fn write_record(
    alloc: Global,
    names: Option<&FieldNames>,
    table: &TypeTable,
    types: &[(u32, TyRef)],
    fields: &[(u32, Value)],
    out: &mut Vec<u8>,
) -> Result<(), NoMemory>
    ensures { OnOk result (out.new.items ≡ out.old.items ++ (codes "record " ++ braced (field_texts (option_map (λ n. n.now) names.entry) table.now types.now 0 (parts_of (views_of_fields fields.now))))) }
{
    out.extend_from_slice(b"record ")?;
    write_fields(alloc, names, table, types, fields, out)
}

#[cycle(printer)]
fn write_case(
    alloc: Global,
    names: Option<&FieldNames>,
    table: &TypeTable,
    case: (u32, TyRef),
    part: &Value,
    out: &mut Vec<u8>,
) -> Result<(), NoMemory>
    ensures { OnOk result (out.new.items ≡ out.old.items ++ (codes "variant { " ++ (case_text (option_map (λ n. n.now) names.entry) case.0 (view part.now) (value_text (option_map (λ n. n.now) names.entry) table.now case.1 (view part.now)) ++ codes " }"))) }
{
    out.extend_from_slice(b"variant { ")?;
    if is_left_out(names, part) {
        write_label(alloc, names, case.0, out)?;
    } else {
        write_field(alloc, names, table, case, part, out)?;
    }
    out.extend_from_slice(b" }")
}

#[cycle(printer)]
fn write_items(
    alloc: Global,
    names: Option<&FieldNames>,
    table: &TypeTable,
    item: TyRef,
    values: &[Value],
    out: &mut Vec<u8>,
) -> Result<(), NoMemory>
    ensures { OnOk result (out.new.items ≡ out.old.items ++ braced (map (value_text (option_map (λ n. n.now) names.entry) table.now item) (views values.now))) }
{
    for (place, value) in values.iter().enumerate() {
        out.extend_from_slice(before(b"{ ", b"; ", place))?;
        write_value(alloc, names, table, item, value, out)?;
    }
    out.extend_from_slice(end_of_braces(values.is_empty()))?;
    Ok(())
}

#[cycle(printer)]
fn write_field(
    alloc: Global,
    names: Option<&FieldNames>,
    table: &TypeTable,
    field: (u32, TyRef),
    value: &Value,
    out: &mut Vec<u8>,
) -> Result<(), NoMemory>
    ensures { OnOk result (out.new.items ≡ out.old.items ++ labelled (label_text (option_map (λ n. n.now) names.entry) field.0) (value_text (option_map (λ n. n.now) names.entry) table.now field.1 (view value.now))) }
{
    let (id, ty) = field;
    write_label(alloc, names, id, out)?;
    out.extend_from_slice(b" = ")?;
    write_value(alloc, names, table, ty, value, out)
}

#[cycle(printer)]
fn write_fields(
    alloc: Global,
    names: Option<&FieldNames>,
    table: &TypeTable,
    types: &[(u32, TyRef)],
    fields: &[(u32, Value)],
    out: &mut Vec<u8>,
) -> Result<(), NoMemory>
    ensures { OnOk result (out.new.items ≡ out.old.items ++ braced (field_texts (option_map (λ n. n.now) names.entry) table.now types.now 0 (parts_of (views_of_fields fields.now)))) }
{
    for (place, (id, value)) in fields.iter().enumerate() {
        let (_, ty) = nth_field(types, place);
        out.extend_from_slice(before(b"{ ", b"; ", place))?;
        write_field(alloc, names, table, (*id, ty), value, out)?;
    }
    out.extend_from_slice(end_of_braces(fields.is_empty()))?;
    Ok(())
}

fn write_arguments(
    alloc: Global,
    names: Option<&FieldNames>,
    table: &TypeTable,
    types: &[TyRef],
    values: &[Value],
    out: &mut Vec<u8>,
) -> Result<(), NoMemory>
    ensures { OnOk result (out.new.items ≡ out.old.items ++ joined (codes ", ") (argument_texts (option_map (λ n. n.now) names.entry) table.now types.now 0 (views values.now))) }
{
    for (place, value) in values.iter().enumerate() {
        out.extend_from_slice(before(b"", b", ", place))?;
        write_value(alloc, names, table, nth_type(types, place), value, out)?;
    }
    Ok(())
}

fn print_with(
    alloc: Global,
    names: Option<&FieldNames>,
    table: &TypeTable,
    types: &[TyRef],
    values: &[Value],
) -> Result<Bytes, NoMemory>
    ensures { IfOk result (λ text. text ≡ printed_with (option_map (λ n. n.now) names.entry) table.now types.now (views values.now)) }
{
    let mut items = Vec::new(alloc);
    items.push(b'(')?;
    write_arguments(alloc, names, table, types, values, &mut items)?;
    items.push(b')')?;
    Ok(Bytes { items })
}

/// The one printed text of values at their types: no annotation, no parentheses within the outer
/// ones, decimal numbers, labels by number, all fields in the order of their ids. A `vec nat8` is a
/// `blob` of hex escapes. The call recurses as deep as the values nest.
pub fn print(
    alloc: Global,
    table: &TypeTable,
    types: &[TyRef],
    values: &[Value],
) -> Result<Bytes, NoMemory>
    ensures { IfOk result (λ text. text ≡ printed table.now types.now (views values.now)) }
{
    print_with(alloc, None, table, types, values)
}

/// The text that `print` gives, but a label whose id has a name by that name, in quotes where it is
/// no word, and a case of type `null` without it.
pub fn print_named(
    alloc: Global,
    table: &TypeTable,
    types: &[TyRef],
    values: &[Value],
    names: &FieldNames,
) -> Result<Bytes, NoMemory>
    ensures { IfOk result (λ text. text ≡ printed_named names.now table.now types.now (views values.now)) }
{
    print_with(alloc, Some(names), table, types, values)
}
