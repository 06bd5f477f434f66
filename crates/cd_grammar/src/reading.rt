ghost use Rattle.std.specs.Prelude.{◌≡◌, ◌⊎◌, ◌≤◌, ◌<◌, ◌^◌, ◌++◌, ◌∷◌, [], List, ℕ, suc, length, Some, IfOk, IfSome};
ghost use Rattle.ic_base.specs.Gives.{Gives};
ghost use Rattle.cd_tokens.specs.Token as token;
ghost use Rattle.cd_tokens.specs.View.{token_view, token_views};
ghost use Rattle.cd_grammar.specs.declared.written.Part.TheVariants.{Place};
ghost use Rattle.cd_grammar.specs.declared.written.Part.{Part};
ghost use Rattle.cd_grammar.specs.declared.written.Written.{Written};
ghost use Rattle.cd_grammar.specs.declared.written.Written.TheVariants.{Opt, Seq};
ghost use Rattle.cd_grammar.specs.Grammar.{no_place};
ghost use Rattle.cd_grammar.specs.Read.{parts_at, then_make, named_at, labelled_at, lone_case, row_at, id_after, after_row, rows_made, with_part, argument_at, tuple_at, first_note, notes_at, noted, results_at, function_at, method_at, service_at, fields_at, inner_at, after_word_at, type_at, method_type_at};

use crate::front::{first_word, is_argument_name, name_of, starts_arrow, word_of};
use crate::word::Word;
use crate::written::{Part, Parts, Written, WrittenFields, WrittenMethods};
use cd_tokens::{Token, label_of, name_of as method_name, rest_of, starts_mark};
use cd_types::Primitive;
use ic_base::ReadError;
use ic_principal::{Bytes, Text};
use std::alloc::Global;

/// The tokens of a file that are left, and the types with parts that were written so far.
#[derive(Drop)]
pub(crate) struct Reader<'t, 'a> {
    pub(crate) alloc: Global,
    pub(crate) types: Vec<Written>,
    pub(crate) rest: &'t [Token<'a>],
}

// One more type is written: its place.
fn add(reader: &mut Reader<'_, '_>, written: Written) -> Result<Part, ReadError>
    ensures { Gives {B = Part × List Written × List token.Token} (λ x. (x, reader.new.types.items, token_views reader.new.rest.now)) result (Some (Place (length reader.old.types.items), reader.old.types.items ++ written ∷ [], token_views reader.old.rest.now)) }
{
    let place = reader.types.len();
    reader.types.push(written)?;
    Ok(Part::Place(place))
}

/// A name that stands as a type.
pub(crate) fn named_of(reader: &mut Reader<'_, '_>) -> Result<Part, ReadError>
    ensures { Gives (λ x. (x, reader.new.types.items, token_views reader.new.rest.now)) result (named_at reader.old.types.items (token_views reader.old.rest.now)) }
{
    let tokens = reader.rest;
    match tokens {
        [] => Err(ReadError::Refused),
        [first, rest @ ..] => {
            reader.rest = rest;
            match name_of(reader.alloc, first) {
                Ok(name) => Ok(Part::Name(name)),
                Err(e) => Err(e),
            }
        }
    }
}

// The annotation that comes first.
fn first_note(tokens: &[Token<'_>]) -> Option<u8>
    ensures value { result ≡ first_note (token_views tokens.now) }
    ensures bound { IfSome result (λ note. 0 < length tokens.now) }
{
    match tokens {
        [] => None,
        [first, ..] => match word_of(first) {
            None => None,
            Some(word) => word.note(),
        },
    }
}

// The annotations that come first.
fn notes_of(reader: &mut Reader<'_, '_>) -> Result<Bytes, ReadError>
    ensures notes { Gives (λ x. (x, token_views reader.new.rest.now)) result (Some (notes_at (token_views reader.old.rest.now))) }
    ensures types { reader.new.types.items ≡ reader.old.types.items }
{
    let mut notes = Vec::new(reader.alloc);
    while let Some(note) = first_note(reader.rest) {
        notes.push(note)?;
        reader.rest = rest_of(reader.rest);
    }
    Ok(Bytes { items: notes })
}

// A function type after its results: the annotations.
fn noted(reader: &mut Reader<'_, '_>, args: Parts, results: Parts) -> Result<Part, ReadError>
    ensures { Gives (λ x. (x, reader.new.types.items, token_views reader.new.rest.now)) result (noted args (results, reader.old.types.items, token_views reader.old.rest.now)) }
{
    match notes_of(reader) {
        Ok(notes) => {
            let written = Written::Func {
                args,
                results,
                notes,
            };
            add(reader, written)
        }
        Err(e) => Err(e),
    }
}

// Which rows are between braces: the fields of a record, or the cases of a variant.
#[derive(Clone, Copy)]
enum Rows {
    Fields,
    Cases,
}

fn rows_made(rows: Rows, items: WrittenFields) -> Written
    ensures { result ≡ rows_made rows items }
{
    match rows {
        Rows::Fields => Written::Rec(items),
        Rows::Cases => Written::Var(items),
    }
}

// The id of a field after one with this id. No case goes by it.
fn id_after(rows: Rows, id: u64) -> u64
    requires { suc id < 2 ^ 64 }
    ensures { result ≡ id_after rows id }
{
    match rows {
        Rows::Fields => id + 1,
        Rows::Cases => 0,
    }
}

// A case that is a label alone: its type is null.
fn lone_case(reader: &mut Reader<'_, '_>, label: &Token<'_>) -> Result<(u64, Part), ReadError>
    ensures value { Gives (λ x. (x, reader.new.types.items, token_views reader.new.rest.now)) result (lone_case (token_view label.now) reader.old.types.items (token_views reader.old.rest.now)) }
    ensures bound { IfOk result (λ x. x.0 < 2 ^ 32) }
{
    match label_of(reader.alloc, label) {
        Ok(id) => Ok((u64::from(id), Part::Prim(Primitive::Null))),
        Err(e) => Err(e),
    }
}

/// A type, within a number of levels.
#[cycle(reader)]
#[tactic(auto, unfolding(crate::specs::Read::type_at))]
pub(crate) fn type_of(reader: &mut Reader<'_, '_>, depth: u32) -> Result<Part, ReadError>
    ensures { Gives (λ x. (x, reader.new.types.items, token_views reader.new.rest.now)) result (type_at depth reader.old.types.items (token_views reader.old.rest.now)) }
{
    if depth == 0 {
        return Err(ReadError::Refused);
    }
    match first_word(reader.rest) {
        None => named_of(reader),
        Some(word) => {
            reader.rest = rest_of(reader.rest);
            after_word(reader, depth - 1, word)
        }
    }
}

#[cycle(reader)]
#[tactic(auto, unfolding(crate::specs::Read::method_type_at))]
fn method_type_of(reader: &mut Reader<'_, '_>, depth: u32) -> Result<Part, ReadError>
    ensures { Gives (λ x. (x, reader.new.types.items, token_views reader.new.rest.now)) result (method_type_at depth reader.old.types.items (token_views reader.old.rest.now)) }
{
    if depth == 0 {
        return Err(ReadError::Refused);
    }
    if starts_mark(reader.rest, b'(') {
        function_of(reader, depth - 1)
    } else {
        named_of(reader)
    }
}

// A type after its word.
#[cycle(reader)]
#[tactic(auto, unfolding(crate::specs::Read::after_word_at))]
fn after_word(reader: &mut Reader<'_, '_>, depth: u32, word: Word) -> Result<Part, ReadError>
    ensures { Gives (λ x. (x, reader.new.types.items, token_views reader.new.rest.now)) result (after_word_at (type_at depth) (method_type_at depth) word reader.old.types.items (token_views reader.old.rest.now)) }
{
    match word {
        Word::Prim(prim) => Ok(Part::Prim(prim)),
        Word::Float32 => Ok(Part::Float),
        Word::Float64 => Ok(Part::Float),
        Word::Blob => add(reader, Written::Seq(Part::Prim(Primitive::Nat8))),
        Word::Opt => opt_of(reader, depth),
        Word::Seq => vec_of(reader, depth),
        Word::Rec => rows_of(reader, depth, Rows::Fields),
        Word::Var => rows_of(reader, depth, Rows::Cases),
        Word::Func => function_of(reader, depth),
        Word::Service => service_of(reader, depth),
        Word::Definition | Word::Query | Word::Oneway | Word::CompositeQuery => {
            Err(ReadError::Refused)
        }
    }
}

#[cycle(reader)]
fn opt_of(reader: &mut Reader<'_, '_>, depth: u32) -> Result<Part, ReadError>
    ensures { Gives (λ x. (x, reader.new.types.items, token_views reader.new.rest.now)) result (inner_at (type_at depth) (λ t. Opt t) reader.old.types.items (token_views reader.old.rest.now)) }
{
    match type_of(reader, depth) {
        Ok(inner) => add(reader, Written::Opt(inner)),
        Err(e) => Err(e),
    }
}

#[cycle(reader)]
fn vec_of(reader: &mut Reader<'_, '_>, depth: u32) -> Result<Part, ReadError>
    ensures { Gives (λ x. (x, reader.new.types.items, token_views reader.new.rest.now)) result (inner_at (type_at depth) (λ t. Seq t) reader.old.types.items (token_views reader.old.rest.now)) }
{
    match type_of(reader, depth) {
        Ok(inner) => add(reader, Written::Seq(inner)),
        Err(e) => Err(e),
    }
}

// A record or a variant after its word.
#[cycle(reader)]
fn rows_of(reader: &mut Reader<'_, '_>, depth: u32, rows: Rows) -> Result<Part, ReadError>
    ensures { Gives (λ x. (x, reader.new.types.items, token_views reader.new.rest.now)) result (fields_at (row_at rows (type_at depth)) (after_row rows) (rows_made rows) reader.old.types.items (token_views reader.old.rest.now)) }
{
    if !starts_mark(reader.rest, b'{') {
        return Err(ReadError::Refused);
    }
    let most = reader.rest.len();
    reader.rest = rest_of(reader.rest);
    let mut items = Vec::new(reader.alloc);
    match add_rows(reader, depth, rows, most, &mut items) {
        Ok(()) => add(reader, rows_made(rows, WrittenFields { items })),
        Err(e) => Err(e),
    }
}

// The fields or cases after the brace.
#[cycle(reader)]
fn add_rows(
    reader: &mut Reader<'_, '_>,
    depth: u32,
    rows: Rows,
    most: usize,
    items: &mut Vec<(u64, Part)>,
) -> Result<(), ReadError>
    requires most { most < 2 ^ 63 }
    requires empty { items.old.items ≡ [] }
    ensures { Gives (λ done. (items.new.items, reader.new.types.items, token_views reader.new.rest.now)) result (parts_at 59 125 (row_at rows (type_at depth)) (after_row rows) most 0 reader.old.types.items (token_views reader.old.rest.now)) }
{
    let mut next: u64 = 0;
    for _ in 0..most {
        if starts_mark(reader.rest, b'}') {
            reader.rest = rest_of(reader.rest);
            return Ok(());
        }
        next = add_row(reader, depth, rows, next, items)?;
        if starts_mark(reader.rest, b'}') {
            reader.rest = rest_of(reader.rest);
            return Ok(());
        }
        if !starts_mark(reader.rest, b';') {
            return Err(ReadError::Refused);
        }
        reader.rest = rest_of(reader.rest);
    }
    Err(ReadError::Refused)
}

// One field or case more: the id after it.
#[cycle(reader)]
fn add_row(
    reader: &mut Reader<'_, '_>,
    depth: u32,
    rows: Rows,
    next: u64,
    items: &mut Vec<(u64, Part)>,
) -> Result<u64, ReadError>
    requires { suc next < 2 ^ 64 }
    ensures value { Gives (λ x. (items.new.items, x, reader.new.types.items, token_views reader.new.rest.now)) result (with_part (after_row rows) items.old.items (row_at rows (type_at depth) next reader.old.types.items (token_views reader.old.rest.now))) }
    ensures bound { IfOk result (λ x. (x ≤ 2 ^ 32) ⊎ (x ≤ suc next)) }
{
    match row_of(reader, depth, rows, next) {
        Ok(row) => {
            let id = id_after(rows, row.0);
            items.push(row)?;
            Ok(id)
        }
        Err(e) => Err(e),
    }
}

// A field: a label, `:` and a type, or a type alone. A case: a label, and `:` and a type, or null
// where nothing is written.
#[cycle(reader)]
fn row_of(
    reader: &mut Reader<'_, '_>,
    depth: u32,
    rows: Rows,
    next: u64,
) -> Result<(u64, Part), ReadError>
    ensures value { Gives (λ x. (x, reader.new.types.items, token_views reader.new.rest.now)) result (row_at rows (type_at depth) next reader.old.types.items (token_views reader.old.rest.now)) }
    ensures bound { IfOk result (λ x. (x.0 < 2 ^ 32) ⊎ (x.0 ≡ next)) }
{
    let tokens = reader.rest;
    match tokens {
        [] => Err(ReadError::Refused),
        [first, rest @ ..] => {
            if starts_mark(rest, b':') {
                reader.rest = rest_of(rest);
                return labelled_of(reader, depth, first);
            }
            match rows {
                Rows::Fields => typed_of(reader, depth, next),
                Rows::Cases => {
                    reader.rest = rest;
                    lone_case(reader, first)
                }
            }
        }
    }
}

// A type after its label and a colon.
#[cycle(reader)]
fn labelled_of(
    reader: &mut Reader<'_, '_>,
    depth: u32,
    label: &Token<'_>,
) -> Result<(u64, Part), ReadError>
    ensures value { Gives (λ x. (x, reader.new.types.items, token_views reader.new.rest.now)) result (labelled_at (type_at depth) (token_view label.now) reader.old.types.items (token_views reader.old.rest.now)) }
    ensures bound { IfOk result (λ x. x.0 < 2 ^ 32) }
{
    match label_of(reader.alloc, label) {
        Ok(id) => typed_of(reader, depth, u64::from(id)),
        Err(e) => Err(e),
    }
}

// A type with its id.
#[cycle(reader)]
fn typed_of(reader: &mut Reader<'_, '_>, depth: u32, id: u64) -> Result<(u64, Part), ReadError>
    ensures value { Gives (λ x. (x, reader.new.types.items, token_views reader.new.rest.now)) result (then_make (λ part. (id, part)) (type_at depth reader.old.types.items (token_views reader.old.rest.now))) }
    ensures id { IfOk result (λ x. x.0 ≡ id) }
{
    match type_of(reader, depth) {
        Ok(part) => Ok((id, part)),
        Err(e) => Err(e),
    }
}

/// The types of a tuple, within a number of levels.
#[cycle(reader)]
pub(crate) fn tuple_of(reader: &mut Reader<'_, '_>, depth: u32) -> Result<Vec<Part>, ReadError>
    ensures { Gives (λ x. (x.items, reader.new.types.items, token_views reader.new.rest.now)) result (tuple_at (type_at depth) reader.old.types.items (token_views reader.old.rest.now)) }
{
    if !starts_mark(reader.rest, b'(') {
        return Err(ReadError::Refused);
    }
    let most = reader.rest.len();
    reader.rest = rest_of(reader.rest);
    let mut items = Vec::new(reader.alloc);
    match add_arguments(reader, depth, most, &mut items) {
        Ok(()) => Ok(items),
        Err(e) => Err(e),
    }
}

// The types of a tuple, after its parenthesis.
#[cycle(reader)]
fn add_arguments(
    reader: &mut Reader<'_, '_>,
    depth: u32,
    most: usize,
    parts: &mut Vec<Part>,
) -> Result<(), ReadError>
    requires { parts.old.items ≡ [] }
    ensures { Gives (λ done. (parts.new.items, reader.new.types.items, token_views reader.new.rest.now)) result (parts_at 44 41 (argument_at (type_at depth)) no_place most 0 reader.old.types.items (token_views reader.old.rest.now)) }
{
    for _ in 0..most {
        if starts_mark(reader.rest, b')') {
            reader.rest = rest_of(reader.rest);
            return Ok(());
        }
        add_argument(reader, depth, parts)?;
        if starts_mark(reader.rest, b')') {
            reader.rest = rest_of(reader.rest);
            return Ok(());
        }
        if !starts_mark(reader.rest, b',') {
            return Err(ReadError::Refused);
        }
        reader.rest = rest_of(reader.rest);
    }
    Err(ReadError::Refused)
}

#[cycle(reader)]
fn add_argument(
    reader: &mut Reader<'_, '_>,
    depth: u32,
    parts: &mut Vec<Part>,
) -> Result<(), ReadError>
    ensures { Gives (λ done. (parts.new.items, 0, reader.new.types.items, token_views reader.new.rest.now)) result (with_part no_place parts.old.items (argument_at (type_at depth) 0 reader.old.types.items (token_views reader.old.rest.now))) }
{
    match argument_of(reader, depth) {
        Ok(part) => {
            parts.push(part)?;
            Ok(())
        }
        Err(e) => Err(e),
    }
}

// A type of a tuple, maybe after a name and `:`.
#[cycle(reader)]
fn argument_of(reader: &mut Reader<'_, '_>, depth: u32) -> Result<Part, ReadError>
    ensures { Gives (λ x. (x, reader.new.types.items, token_views reader.new.rest.now)) result (argument_at (type_at depth) 0 reader.old.types.items (token_views reader.old.rest.now)) }
{
    let tokens = reader.rest;
    match tokens {
        [] => Err(ReadError::Refused),
        [first, rest @ ..] => {
            if !starts_mark(rest, b':') {
                return type_of(reader, depth);
            }
            if !is_argument_name(first) {
                return Err(ReadError::Refused);
            }
            reader.rest = rest_of(rest);
            type_of(reader, depth)
        }
    }
}

// A function type: arguments, `->`, results and annotations.
#[cycle(reader)]
fn function_of(reader: &mut Reader<'_, '_>, depth: u32) -> Result<Part, ReadError>
    ensures { Gives (λ x. (x, reader.new.types.items, token_views reader.new.rest.now)) result (function_at (type_at depth) reader.old.types.items (token_views reader.old.rest.now)) }
{
    match tuple_of(reader, depth) {
        Ok(items) => results_of(reader, depth, Parts { items }),
        Err(e) => Err(e),
    }
}

// A function type after its arguments.
#[cycle(reader)]
fn results_of(reader: &mut Reader<'_, '_>, depth: u32, args: Parts) -> Result<Part, ReadError>
    ensures { Gives (λ x. (x, reader.new.types.items, token_views reader.new.rest.now)) result (results_at (type_at depth) (args, reader.old.types.items, token_views reader.old.rest.now)) }
{
    if !starts_arrow(reader.rest) {
        return Err(ReadError::Refused);
    }
    reader.rest = rest_of(reader.rest);
    match tuple_of(reader, depth) {
        Ok(items) => noted(reader, args, Parts { items }),
        Err(e) => Err(e),
    }
}

/// A service after its word: methods whose types have a number of levels.
#[cycle(reader)]
pub(crate) fn service_of(reader: &mut Reader<'_, '_>, depth: u32) -> Result<Part, ReadError>
    ensures { Gives (λ x. (x, reader.new.types.items, token_views reader.new.rest.now)) result (service_at (method_type_at depth) reader.old.types.items (token_views reader.old.rest.now)) }
{
    if !starts_mark(reader.rest, b'{') {
        return Err(ReadError::Refused);
    }
    let most = reader.rest.len();
    reader.rest = rest_of(reader.rest);
    let mut items = Vec::new(reader.alloc);
    match add_methods(reader, depth, most, &mut items) {
        Ok(()) => add(reader, Written::Service(WrittenMethods { items })),
        Err(e) => Err(e),
    }
}

// The methods of a service, after its brace.
#[cycle(reader)]
fn add_methods(
    reader: &mut Reader<'_, '_>,
    depth: u32,
    most: usize,
    methods: &mut Vec<(Text, Part)>,
) -> Result<(), ReadError>
    requires { methods.old.items ≡ [] }
    ensures { Gives (λ done. (methods.new.items, reader.new.types.items, token_views reader.new.rest.now)) result (parts_at 59 125 (method_at (method_type_at depth)) no_place most 0 reader.old.types.items (token_views reader.old.rest.now)) }
{
    for _ in 0..most {
        if starts_mark(reader.rest, b'}') {
            reader.rest = rest_of(reader.rest);
            return Ok(());
        }
        add_method(reader, depth, methods)?;
        if starts_mark(reader.rest, b'}') {
            reader.rest = rest_of(reader.rest);
            return Ok(());
        }
        if !starts_mark(reader.rest, b';') {
            return Err(ReadError::Refused);
        }
        reader.rest = rest_of(reader.rest);
    }
    Err(ReadError::Refused)
}

#[cycle(reader)]
fn add_method(
    reader: &mut Reader<'_, '_>,
    depth: u32,
    methods: &mut Vec<(Text, Part)>,
) -> Result<(), ReadError>
    ensures { Gives (λ done. (methods.new.items, 0, reader.new.types.items, token_views reader.new.rest.now)) result (with_part no_place methods.old.items (method_at (method_type_at depth) 0 reader.old.types.items (token_views reader.old.rest.now))) }
{
    match method_of(reader, depth) {
        Ok(method) => {
            methods.push(method)?;
            Ok(())
        }
        Err(e) => Err(e),
    }
}

// A method: its name, `:` and its type.
#[cycle(reader)]
fn method_of(reader: &mut Reader<'_, '_>, depth: u32) -> Result<(Text, Part), ReadError>
    ensures { Gives (λ x. (x, reader.new.types.items, token_views reader.new.rest.now)) result (method_at (method_type_at depth) 0 reader.old.types.items (token_views reader.old.rest.now)) }
{
    let tokens = reader.rest;
    match tokens {
        [] => Err(ReadError::Refused),
        [first, rest @ ..] => {
            if !starts_mark(rest, b':') {
                return Err(ReadError::Refused);
            }
            reader.rest = rest_of(rest);
            match method_name(reader.alloc, first) {
                Ok(name) => method_named(reader, depth, name),
                Err(e) => Err(e),
            }
        }
    }
}

// The method of this name: its type.
#[cycle(reader)]
fn method_named(
    reader: &mut Reader<'_, '_>,
    depth: u32,
    name: Text,
) -> Result<(Text, Part), ReadError>
    ensures { Gives (λ x. (x, reader.new.types.items, token_views reader.new.rest.now)) result (then_make (λ part. (name, part)) (method_type_at depth reader.old.types.items (token_views reader.old.rest.now))) }
{
    match method_type_of(reader, depth) {
        Ok(part) => Ok((name, part)),
        Err(e) => Err(e),
    }
}
