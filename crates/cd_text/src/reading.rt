ghost use Rattle.std.specs.Prelude.{◌≡◌, ◌≤◌, ◌<◌, ◌+◌, ◌^◌, suc, ◌&&◌, ℕ, List, true, codes, map, drop, length, option_map};
ghost use Rattle.ic_base.specs.Gives.{Gives};
ghost use Rattle.cd_types.specs.IsOrdered.{is_ordered, ids_rise_from};
ghost use Rattle.cd_types.specs.Shape.{shape};
ghost use Rattle.cd_codec.specs.Content.{Content, plain, null, service};
ghost use Rattle.cd_codec.specs.View.{view, views, views_of_fields};
ghost use Rattle.cd_tokens.specs.Token as token;
ghost use Rattle.cd_tokens.specs.View.{token_views};
ghost use Rattle.cd_text.specs.Words.{name_of};
ghost use Rattle.cd_plain.specs.ReadPlain.{is_mark, is_word, starts, after_word, principal_text_at, alone};
ghost use Rattle.cd_text.specs.ReadSaid.{past_annotation, annotated_at, braces_at, item_at, no_place_of, after_field, opt_at, list_at, byte_at, blob_at, typed_at, field_at, record_at, case_at, null_at, variant_ended, chosen_at, labelled_at, variant_at, entry_at, value_at};

use crate::fields::{find, record_made};
use cd_codec::Value;
use cd_plain::{func_of, natural_below, primitive_of, principal_after, string_of};
use cd_tokens::{Token, label_of, rest_of, starts_mark, starts_word};
use cd_types::{Entry, Prim, TyRef, TypeTable};
use ic_base::ReadError;
use std::alloc::Global;

/// The name of a primitive type.
#[tactic(auto, unfolding(crate::specs::Words::name_of))]
pub fn name_of(prim: Prim) -> &'static [u8]
    ensures { result.now ≡ name_of prim }
{
    match prim {
        Prim::Null => b"null",
        Prim::Bool => b"bool",
        Prim::Nat => b"nat",
        Prim::Int => b"int",
        Prim::Nat8 => b"nat8",
        Prim::Nat16 => b"nat16",
        Prim::Nat32 => b"nat32",
        Prim::Nat64 => b"nat64",
        Prim::Int8 => b"int8",
        Prim::Int16 => b"int16",
        Prim::Int32 => b"int32",
        Prim::Int64 => b"int64",
        Prim::Text => b"text",
        Prim::Reserved => b"reserved",
        Prim::Empty => b"empty",
        Prim::Principal => b"principal",
    }
}

/// The tokens after the name of the type, where a colon and a name stand.
pub(crate) fn past_annotation<'t, 'a>(ty: TyRef, tokens: &'t [Token<'a>]) -> Option<&'t [Token<'a>]>
    ensures { option_map (λ rest. token_views rest.now) result ≡ past_annotation ty (token_views tokens.now) }
{
    if !starts_mark(tokens, b':') {
        return Some(tokens);
    }
    let name = rest_of(tokens);
    match ty {
        TyRef::Index(_) => None,
        TyRef::Prim(prim) => {
            if starts_word(name, name_of(prim)) {
                Some(rest_of(name))
            } else {
                None
            }
        }
    }
}

// Whether the word comes first, and a brace after it.
fn starts_braces(tokens: &[Token<'_>], word: &[u8]) -> bool
    ensures { result ≡ (starts (is_word word.now) (token_views tokens.now) && starts (is_mark 123) (drop 1 (token_views tokens.now))) }
{
    starts_word(tokens, word) && starts_mark(rest_of(tokens), b'{')
}

// The tokens after the end of a variant.
fn past_variant<'t, 'a>(tokens: &'t [Token<'a>]) -> Option<&'t [Token<'a>]>
    ensures { (v : Content) (left : ℕ) → option_map (λ rest. (v, left, token_views rest.now)) result ≡ variant_ended (v, left, token_views tokens.now) }
{
    if starts_mark(tokens, b'}') {
        return Some(rest_of(tokens));
    }
    if !starts_mark(tokens, b';') {
        return None;
    }
    let rest = rest_of(tokens);
    if starts_mark(rest, b'}') {
        Some(rest_of(rest))
    } else {
        None
    }
}

/// What is left of the number of values after a null that is not written.
#[tactic(auto, using(crate::proofs::Narrow::no_null))]
pub fn without_null(table: &TypeTable, ty: TyRef, depth: u32, left: u32) -> Option<u32>
    ensures { (tokens : List token.Token) → option_map (λ less. (plain null, less, tokens)) result ≡ null_at depth (shape table.now ty) left tokens }
{
    let _entries = table.len();
    if depth == 0 {
        return None;
    }
    match ty {
        TyRef::Prim(Prim::Null) => left.checked_sub(1),
        TyRef::Prim(_) => None,
        TyRef::Index(_) => None,
    }
}

#[cycle(bytes)]
#[tactic(auto, unfolding(crate::specs::ReadSaid::byte_at))]
fn byte_of<'t, 'a>(
    item: TyRef,
    depth: u32,
    left: u32,
    tokens: &'t [Token<'a>],
) -> Option<(u8, u32, &'t [Token<'a>])>
    ensures { option_map (λ x. (x.0, x.1, token_views x.2.now)) result ≡ byte_at item depth left (token_views tokens.now) }
{
    if depth == 0 {
        return None;
    }
    if starts_mark(tokens, b'(') {
        let (byte, left, rest) = annotated_byte(item, depth - 1, left, rest_of(tokens))?;
        if !starts_mark(rest, b')') {
            return None;
        }
        return Some((byte, left, rest_of(rest)));
    }
    let (n, rest) = natural_below(tokens, 1 << 8)?;
    Some((n as u8, left, rest))
}

#[cycle(bytes)]
fn annotated_byte<'t, 'a>(
    item: TyRef,
    depth: u32,
    left: u32,
    tokens: &'t [Token<'a>],
) -> Option<(u8, u32, &'t [Token<'a>])>
    ensures { option_map (λ x. (x.0, x.1, token_views x.2.now)) result ≡ annotated_at item (byte_at item depth) left (token_views tokens.now) }
{
    let (byte, left, rest) = byte_of(item, depth, left, tokens)?;
    let rest = past_annotation(item, rest)?;
    Some((byte, left, rest))
}

// The numbers of a vec nat8, after its brace.
fn bytes_of<'t, 'a>(
    alloc: Global,
    item: TyRef,
    depth: u32,
    left: u32,
    most: usize,
    tokens: &'t [Token<'a>],
) -> Result<(Vec<u8>, u32, &'t [Token<'a>]), ReadError>
    ensures { Gives (λ x. (x.0.items, x.1, token_views x.2.now)) result (braces_at (item_at item (byte_at item depth)) no_place_of most left (token_views tokens.now)) }
{
    let mut bytes = Vec::new(alloc);
    let mut unread = left;
    let mut rest = tokens;
    for _ in 0..most {
        if starts_mark(rest, b'}') {
            return Ok((bytes, unread, rest_of(rest)));
        }
        let (byte, left, after) = annotated_byte(item, depth, unread, rest).ok_or(
            ReadError::Refused,
        )?;
        bytes.push(byte)?;
        if starts_mark(after, b'}') {
            return Ok((bytes, left, rest_of(after)));
        }
        if !starts_mark(after, b';') {
            return Err(ReadError::Refused);
        }
        unread = left;
        rest = rest_of(after);
    }
    Err(ReadError::Refused)
}

fn blob_of<'t, 'a>(
    alloc: Global,
    item: TyRef,
    depth: u32,
    left: u32,
    tokens: &'t [Token<'a>],
) -> Result<(Value, u32, &'t [Token<'a>]), ReadError>
    ensures { Gives (λ x. (view x.0, x.1, token_views x.2.now)) result (blob_at item depth left (token_views tokens.now)) }
{
    if starts_word(tokens, b"blob") {
        let (bytes, rest) = string_of(alloc, rest_of(tokens))?;
        return Ok((Value::of_bytes(bytes), left, rest));
    }
    if !starts_braces(tokens, b"vec") {
        return Err(ReadError::Refused);
    }
    let inner = rest_of(rest_of(tokens));
    let (bytes, left, rest) = bytes_of(alloc, item, depth, left, tokens.len(), inner)?;
    Ok((Value::of_bytes(bytes), left, rest))
}

/// The types of a value and its parts, and within how many levels they are read.
#[derive(Clone, Copy)]
pub(crate) struct Level<'l> {
    pub(crate) table: &'l TypeTable,
    pub(crate) depth: u32,
}

#[cycle(reader)]
#[tactic(auto, unfolding(crate::specs::ReadSaid::value_at))]
fn value_of<'t, 'a>(
    alloc: Global,
    level: Level<'_>,
    ty: TyRef,
    left: u32,
    tokens: &'t [Token<'a>],
) -> Result<(Value, u32, &'t [Token<'a>]), ReadError>
    ensures { Gives (λ x. (view x.0, x.1, token_views x.2.now)) result (value_at level.entry.table.now level.entry.depth ty left (token_views tokens.now)) }
{
    if level.depth == 0 {
        return Err(ReadError::Refused);
    }
    let below = Level {
        table: level.table,
        depth: level.depth - 1,
    };
    if starts_mark(tokens, b'(') {
        let (value, left, rest) = annotated_of(alloc, below, ty, left, rest_of(tokens))?;
        if !starts_mark(rest, b')') {
            return Err(ReadError::Refused);
        }
        return Ok((value, left, rest_of(rest)));
    }
    if left == 0 {
        return Err(ReadError::Refused);
    }
    match ty {
        TyRef::Prim(prim) => primitive_of(alloc, prim, left - 1, tokens),
        TyRef::Index(index) => match level.table.entry(index) {
            None => Err(ReadError::Refused),
            Some(entry) => entry_of(alloc, below, entry, left - 1, tokens),
        },
    }
}

/// A value within a number of levels, and its type's name where there is one.
#[cycle(reader)]
pub(crate) fn annotated_of<'t, 'a>(
    alloc: Global,
    level: Level<'_>,
    ty: TyRef,
    left: u32,
    tokens: &'t [Token<'a>],
) -> Result<(Value, u32, &'t [Token<'a>]), ReadError>
    ensures { Gives (λ x. (view x.0, x.1, token_views x.2.now)) result (annotated_at ty (value_at level.entry.table.now level.entry.depth ty) left (token_views tokens.now)) }
{
    let (value, left, rest) = value_of(alloc, level, ty, left, tokens)?;
    let rest = past_annotation(ty, rest).ok_or(ReadError::Refused)?;
    Ok((value, left, rest))
}

#[cycle(reader)]
#[tactic(auto, unfolding(crate::specs::ReadSaid::entry_at))]
fn entry_of<'t, 'a>(
    alloc: Global,
    level: Level<'_>,
    entry: &Entry,
    left: u32,
    tokens: &'t [Token<'a>],
) -> Result<(Value, u32, &'t [Token<'a>]), ReadError>
    requires { (is_ordered entry.now ≡ true) × (level.depth + 1 < 2 ^ 32) }
    ensures { Gives (λ x. (view x.0, x.1, token_views x.2.now)) result (entry_at level.entry.depth level.entry.table.now (value_at level.entry.table.now level.entry.depth) entry.now left (token_views tokens.now)) }
{
    match entry {
        Entry::Opt(ty) => opt_of(alloc, level, *ty, left, tokens),
        Entry::Seq(TyRef::Prim(Prim::Nat8)) => {
            blob_of(
                alloc,
                TyRef::Prim(Prim::Nat8),
                level.depth + 1,
                left,
                tokens,
            )
        }
        Entry::Seq(ty) => list_of(alloc, level, *ty, left, tokens),
        Entry::Rec(fields) => record_of(alloc, level, &fields.items, left, tokens),
        Entry::Var(cases) => variant_of(alloc, level, &cases.items, left, tokens),
        Entry::Func { .. } => func_of(alloc, left, tokens),
        Entry::Service(_) => service_of(alloc, left, tokens),
    }
}

#[tactic(auto, using(cd_codec::proofs::Views::layers))]
fn service_of<'t, 'a>(
    alloc: Global,
    left: u32,
    tokens: &'t [Token<'a>],
) -> Result<(Value, u32, &'t [Token<'a>]), ReadError>
    ensures { Gives (λ x. (view x.0, x.1, token_views x.2.now)) result (alone (λ p. plain (service p)) (after_word (codes "service") principal_text_at) left (token_views tokens.now)) }
{
    match principal_after(alloc, b"service", tokens) {
        Ok(service) => {
            let rest = rest_of(rest_of(tokens));
            Ok((Value::Service(service), left, rest))
        }
        Err(error) => Err(error),
    }
}

#[cycle(reader)]
fn opt_of<'t, 'a>(
    alloc: Global,
    level: Level<'_>,
    ty: TyRef,
    left: u32,
    tokens: &'t [Token<'a>],
) -> Result<(Value, u32, &'t [Token<'a>]), ReadError>
    ensures { Gives (λ x. (view x.0, x.1, token_views x.2.now)) result (opt_at (value_at level.entry.table.now level.entry.depth ty) left (token_views tokens.now)) }
{
    if starts_word(tokens, b"null") {
        return Ok((Value::none(), left, rest_of(tokens)));
    }
    if !starts_word(tokens, b"opt") {
        return Err(ReadError::Refused);
    }
    let (part, left, rest) = value_of(alloc, level, ty, left, rest_of(tokens))?;
    let value = Value::some(alloc, part)?;
    Ok((value, left, rest))
}

#[cycle(reader)]
fn list_of<'t, 'a>(
    alloc: Global,
    level: Level<'_>,
    ty: TyRef,
    left: u32,
    tokens: &'t [Token<'a>],
) -> Result<(Value, u32, &'t [Token<'a>]), ReadError>
    ensures { Gives (λ x. (view x.0, x.1, token_views x.2.now)) result (list_at ty (value_at level.entry.table.now level.entry.depth ty) left (token_views tokens.now)) }
{
    if !starts_braces(tokens, b"vec") {
        return Err(ReadError::Refused);
    }
    let inner = rest_of(rest_of(tokens));
    let (items, left, rest) = items_of(alloc, level, ty, left, tokens.len(), inner)?;
    Ok((Value::of_items(items), left, rest))
}

#[cycle(reader)]
fn items_of<'t, 'a>(
    alloc: Global,
    level: Level<'_>,
    ty: TyRef,
    left: u32,
    most: usize,
    tokens: &'t [Token<'a>],
) -> Result<(Vec<Value>, u32, &'t [Token<'a>]), ReadError>
    ensures { Gives (λ x. (views x.0.items, x.1, token_views x.2.now)) result (braces_at (item_at ty (value_at level.entry.table.now level.entry.depth ty)) no_place_of most left (token_views tokens.now)) }
{
    let mut items = Vec::new(alloc);
    let mut unread = left;
    let mut rest = tokens;
    for _ in 0..most {
        if starts_mark(rest, b'}') {
            return Ok((items, unread, rest_of(rest)));
        }
        let (value, left, after) = annotated_of(alloc, level, ty, unread, rest)?;
        items.push(value)?;
        if starts_mark(after, b'}') {
            return Ok((items, left, rest_of(after)));
        }
        if !starts_mark(after, b';') {
            return Err(ReadError::Refused);
        }
        unread = left;
        rest = rest_of(after);
    }
    Err(ReadError::Refused)
}

#[cycle(reader)]
fn record_of<'t, 'a>(
    alloc: Global,
    level: Level<'_>,
    fields: &[(u32, TyRef)],
    left: u32,
    tokens: &'t [Token<'a>],
) -> Result<(Value, u32, &'t [Token<'a>]), ReadError>
    requires { ids_rise_from 0 (map (λ f. f.0) fields.now) ≡ true }
    ensures { Gives (λ x. (view x.0, x.1, token_views x.2.now)) result (record_at (value_at level.entry.table.now level.entry.depth) level.entry.depth level.entry.table.now fields.now left (token_views tokens.now)) }
{
    if !starts_braces(tokens, b"record") {
        return Err(ReadError::Refused);
    }
    let inner = rest_of(rest_of(tokens));
    let (said, left, rest) = fields_of(alloc, level, fields, left, tokens.len(), inner)?;
    let (value, left) = record_made(alloc, level.table, level.depth, fields, said, left)?;
    Ok((value, left, rest))
}

#[cycle(reader)]
fn fields_of<'t, 'a>(
    alloc: Global,
    level: Level<'_>,
    fields: &[(u32, TyRef)],
    left: u32,
    most: usize,
    tokens: &'t [Token<'a>],
) -> Result<(Vec<(u32, Value)>, u32, &'t [Token<'a>]), ReadError>
    requires { ids_rise_from 0 (map (λ f. f.0) fields.now) ≡ true }
    ensures { Gives (λ x. (views_of_fields x.0.items, x.1, token_views x.2.now)) result (braces_at (field_at (value_at level.entry.table.now level.entry.depth) fields.now) after_field most left (token_views tokens.now)) }
{
    let mut said = Vec::new(alloc);
    let mut next: u64 = 0;
    let mut unread = left;
    let mut rest = tokens;
    for _ in 0..most {
        if starts_mark(rest, b'}') {
            return Ok((said, unread, rest_of(rest)));
        }
        let (field, left, after) = field_of(alloc, level, fields, next, unread, rest)?;
        let id = field.0;
        said.push(field)?;
        if starts_mark(after, b'}') {
            return Ok((said, left, rest_of(after)));
        }
        if !starts_mark(after, b';') {
            return Err(ReadError::Refused);
        }
        next = u64::from(id) + 1;
        unread = left;
        rest = rest_of(after);
    }
    Err(ReadError::Refused)
}

// A field: a label, `=` and a value, or a value alone.
#[cycle(reader)]
fn field_of<'t, 'a>(
    alloc: Global,
    level: Level<'_>,
    fields: &[(u32, TyRef)],
    next: u64,
    left: u32,
    tokens: &'t [Token<'a>],
) -> Result<((u32, Value), u32, &'t [Token<'a>]), ReadError>
    requires { ids_rise_from 0 (map (λ f. f.0) fields.now) ≡ true }
    ensures { Gives (λ x. ((x.0.0, view x.0.1), x.1, token_views x.2.now)) result (field_at (value_at level.entry.table.now level.entry.depth) fields.now next left (token_views tokens.now)) }
{
    match tokens {
        [] => Err(ReadError::Refused),
        [first, rest @ ..] => {
            if starts_mark(rest, b'=') {
                let id = label_of(alloc, first)?;
                typed_of(alloc, level, fields, u64::from(id), left, rest_of(rest))
            } else {
                typed_of(alloc, level, fields, next, left, tokens)
            }
        }
    }
}

#[cycle(reader)]
fn typed_of<'t, 'a>(
    alloc: Global,
    level: Level<'_>,
    fields: &[(u32, TyRef)],
    id: u64,
    left: u32,
    tokens: &'t [Token<'a>],
) -> Result<((u32, Value), u32, &'t [Token<'a>]), ReadError>
    requires { ids_rise_from 0 (map (λ f. f.0) fields.now) ≡ true }
    ensures { Gives (λ x. ((x.0.0, view x.0.1), x.1, token_views x.2.now)) result (typed_at (value_at level.entry.table.now level.entry.depth) fields.now id left (token_views tokens.now)) }
{
    match find(fields, id) {
        None => Err(ReadError::Refused),
        Some((_, (id, ty))) => {
            let (value, left, rest) = annotated_of(alloc, level, ty, left, tokens)?;
            Ok(((id, value), left, rest))
        }
    }
}

#[cycle(reader)]
fn variant_of<'t, 'a>(
    alloc: Global,
    level: Level<'_>,
    cases: &[(u32, TyRef)],
    left: u32,
    tokens: &'t [Token<'a>],
) -> Result<(Value, u32, &'t [Token<'a>]), ReadError>
    requires { ids_rise_from 0 (map (λ f. f.0) cases.now) ≡ true }
    ensures { Gives (λ x. (view x.0, x.1, token_views x.2.now)) result (variant_at (value_at level.entry.table.now level.entry.depth) level.entry.depth level.entry.table.now cases.now left (token_views tokens.now)) }
{
    if !starts_braces(tokens, b"variant") {
        return Err(ReadError::Refused);
    }
    match rest_of(rest_of(tokens)) {
        [] => Err(ReadError::Refused),
        [label, rest @ ..] => {
            let id = label_of(alloc, label)?;
            chosen_of(alloc, level, cases, id, left, rest)
        }
    }
}

// The case with an id, after its label.
#[cycle(reader)]
fn chosen_of<'t, 'a>(
    alloc: Global,
    level: Level<'_>,
    cases: &[(u32, TyRef)],
    id: u32,
    left: u32,
    tokens: &'t [Token<'a>],
) -> Result<(Value, u32, &'t [Token<'a>]), ReadError>
    requires { ids_rise_from 0 (map (λ f. f.0) cases.now) ≡ true }
    ensures { Gives (λ x. (view x.0, x.1, token_views x.2.now)) result (chosen_at (value_at level.entry.table.now level.entry.depth) level.entry.depth level.entry.table.now cases.now id left (token_views tokens.now)) }
{
    match find(cases, u64::from(id)) {
        None => Err(ReadError::Refused),
        Some((place, (_, ty))) => {
            let (part, left, rest) = case_of(alloc, level, ty, left, tokens)?;
            let rest = past_variant(rest).ok_or(ReadError::Refused)?;
            let value = Value::of_case(alloc, place as u32, part)?;
            Ok((value, left, rest))
        }
    }
}

// What is said of a case: `=` and a value, or a null that is not written.
#[cycle(reader)]
fn case_of<'t, 'a>(
    alloc: Global,
    level: Level<'_>,
    ty: TyRef,
    left: u32,
    tokens: &'t [Token<'a>],
) -> Result<(Value, u32, &'t [Token<'a>]), ReadError>
    ensures { Gives (λ x. (view x.0, x.1, token_views x.2.now)) result (case_at (value_at level.entry.table.now level.entry.depth) level.entry.depth level.entry.table.now ty left (token_views tokens.now)) }
{
    if starts_mark(tokens, b'=') {
        return annotated_of(alloc, level, ty, left, rest_of(tokens));
    }
    let left = without_null(level.table, ty, level.depth, left).ok_or(ReadError::Refused)?;
    Ok((Value::Null, left, tokens))
}
