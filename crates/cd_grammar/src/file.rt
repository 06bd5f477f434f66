ghost use Rattle.std.specs.Prelude.{◌≡◌, ◌≤◌, [], IfOk, length, Some, None, if◌then◌else◌};
ghost use Rattle.std.specs.Str.{is_utf8};
ghost use Rattle.ic_base.specs.Gives.{Gives};
ghost use Rattle.cd_tokens.specs.Lexed.{Agrees};
ghost use Rattle.cd_tokens.specs.View.{token_view, token_views};
ghost use Rattle.cd_grammar.specs.File as files;
ghost use Rattle.cd_grammar.specs.Fits.{FitsFile};
ghost use Rattle.cd_grammar.specs.Grammar.{IsFile, no_place};
ghost use Rattle.cd_grammar.specs.Read.{starts, with_part, is_word, is_type, is_service, are_none, is_end, defined_as, definition_at, definitions_at, past_colon, past_name, installed_at, served_at, main_with, main_at, rest_at, file_from, file_at};

use crate::front::{is_any_word, name_of, starts_arrow, word_of};
use crate::reading::{Reader, named_of, service_of, tuple_of, type_of};
use crate::word::Word;
use crate::written::{File, Main, Part, Parts};
use cd_tokens::{Token, rest_of, starts_mark, tokens_of};
use ic_base::ReadError;
use ic_principal::Bytes;
use std::alloc::Global;

/// How deep types may nest.
const MAX_DEPTH: u32 = 128;

fn are_none(tokens: &[Token<'_>]) -> bool
    ensures { result ≡ are_none (token_views tokens.now) }
{
    match tokens {
        [] => true,
        [_, ..] => false,
    }
}

fn is_service(token: &Token<'_>) -> bool
    ensures { result ≡ is_word is_service (token_view token.now) }
{
    match word_of(token) {
        None => false,
        Some(word) => matches!(word, Word::Service),
    }
}

// Whether the word `type` comes first.
fn starts_type(tokens: &[Token<'_>]) -> bool
    ensures { result ≡ starts (is_word is_type) (token_views tokens.now) }
{
    match tokens {
        [] => false,
        [first, ..] => match word_of(first) {
            None => false,
            Some(word) => matches!(word, Word::Definition),
        },
    }
}

// A definition after the word `type`.
fn definition_of(reader: &mut Reader<'_, '_>) -> Result<(Bytes, Part), ReadError>
    ensures { Gives (λ x. (x, reader.new.types.items, token_views reader.new.rest.now)) result (definition_at reader.old.types.items (token_views reader.old.rest.now)) }
{
    let tokens = reader.rest;
    match tokens {
        [] => Err(ReadError::Refused),
        [first, rest @ ..] => {
            reader.rest = rest;
            match name_of(reader.alloc, first) {
                Ok(name) => defined_as(reader, name),
                Err(e) => Err(e),
            }
        }
    }
}

// What a name is defined as, after `=`.
fn defined_as(reader: &mut Reader<'_, '_>, name: Bytes) -> Result<(Bytes, Part), ReadError>
    ensures { Gives (λ x. (x, reader.new.types.items, token_views reader.new.rest.now)) result (defined_as name reader.old.types.items (token_views reader.old.rest.now)) }
{
    if !starts_mark(reader.rest, b'=') {
        return Err(ReadError::Refused);
    }
    reader.rest = rest_of(reader.rest);
    match type_of(reader, MAX_DEPTH) {
        Ok(part) => Ok((name, part)),
        Err(e) => Err(e),
    }
}

fn add_definition(
    reader: &mut Reader<'_, '_>,
    definitions: &mut Vec<(Bytes, Part)>,
) -> Result<(), ReadError>
    ensures { Gives (λ done. (definitions.new.items, 0, reader.new.types.items, token_views reader.new.rest.now)) result (with_part no_place definitions.old.items (definition_at reader.old.types.items (token_views reader.old.rest.now))) }
{
    match definition_of(reader) {
        Ok(definition) => {
            definitions.push(definition)?;
            Ok(())
        }
        Err(e) => Err(e),
    }
}

// The definitions of a file.
fn add_definitions(
    reader: &mut Reader<'_, '_>,
    most: usize,
    definitions: &mut Vec<(Bytes, Part)>,
) -> Result<(), ReadError>
    requires { definitions.old.items ≡ [] }
    ensures { Gives (λ done. (definitions.new.items, reader.new.types.items, token_views reader.new.rest.now)) result (definitions_at most reader.old.types.items (token_views reader.old.rest.now)) }
{
    for _ in 0..most {
        if !starts_type(reader.rest) {
            return Ok(());
        }
        reader.rest = rest_of(reader.rest);
        add_definition(reader, definitions)?;
        if are_none(reader.rest) {
            return Ok(());
        }
        if !starts_mark(reader.rest, b';') {
            return Err(ReadError::Refused);
        }
        reader.rest = rest_of(reader.rest);
    }
    Err(ReadError::Refused)
}

// Moves past a colon, where there is one.
fn past_colon(reader: &mut Reader<'_, '_>) -> bool
    ensures rest { (if result then Some (token_views reader.new.rest.now) else None) ≡ past_colon (token_views reader.old.rest.now) }
    ensures types { reader.new.types.items ≡ reader.old.types.items }
{
    if !starts_mark(reader.rest, b':') {
        return false;
    }
    reader.rest = rest_of(reader.rest);
    true
}

// Moves past the service's name and its colon, where they are there.
fn past_name(reader: &mut Reader<'_, '_>) -> bool
    ensures rest { (if result then Some (token_views reader.new.rest.now) else None) ≡ past_name (token_views reader.old.rest.now) }
    ensures types { reader.new.types.items ≡ reader.old.types.items }
{
    let tokens = reader.rest;
    match tokens {
        [] => false,
        [first, rest @ ..] => {
            if starts_mark(tokens, b':') {
                reader.rest = rest;
                return true;
            }
            if !is_any_word(first) {
                return false;
            }
            reader.rest = rest;
            past_colon(reader)
        }
    }
}

// The types that the service is installed with.
fn installed_of(reader: &mut Reader<'_, '_>) -> Result<Vec<Part>, ReadError>
    ensures { Gives (λ x. (x.items, reader.new.types.items, token_views reader.new.rest.now)) result (installed_at reader.old.types.items (token_views reader.old.rest.now)) }
{
    if !starts_mark(reader.rest, b'(') {
        return Ok(Vec::new(reader.alloc));
    }
    match tuple_of(reader, MAX_DEPTH) {
        Ok(parts) => {
            if !starts_arrow(reader.rest) {
                return Err(ReadError::Refused);
            }
            reader.rest = rest_of(reader.rest);
            Ok(parts)
        }
        Err(e) => Err(e),
    }
}

// The methods of the service, or its name.
fn served_of(reader: &mut Reader<'_, '_>) -> Result<Part, ReadError>
    ensures { Gives (λ x. (x, reader.new.types.items, token_views reader.new.rest.now)) result (served_at reader.old.types.items (token_views reader.old.rest.now)) }
{
    if starts_mark(reader.rest, b'{') {
        service_of(reader, MAX_DEPTH)
    } else {
        named_of(reader)
    }
}

fn is_end(tokens: &[Token<'_>]) -> bool
    ensures { result ≡ is_end (token_views tokens.now) }
{
    match tokens {
        [] => true,
        [_] => starts_mark(tokens, b';'),
        [_, _, ..] => false,
    }
}

// The service after the types that it is installed with, and the end of the file.
fn main_with(reader: &mut Reader<'_, '_>, tuple: Parts) -> Result<Main, ReadError>
    ensures { Gives (λ main. (main, reader.new.types.items)) result (main_with tuple reader.old.types.items (token_views reader.old.rest.now)) }
{
    match served_of(reader) {
        Ok(service) => {
            if is_end(reader.rest) {
                Ok(Main { tuple, service })
            } else {
                Err(ReadError::Refused)
            }
        }
        Err(e) => Err(e),
    }
}

// The service after its word, and the end of the file.
fn main_of(reader: &mut Reader<'_, '_>) -> Result<Main, ReadError>
    ensures { Gives (λ main. (main, reader.new.types.items)) result (main_at reader.old.types.items (token_views reader.old.rest.now)) }
{
    if !past_name(reader) {
        return Err(ReadError::Refused);
    }
    match installed_of(reader) {
        Ok(items) => main_with(reader, Parts { items }),
        Err(e) => Err(e),
    }
}

// The service, if there is one, and the end of the file.
fn rest_of_file(reader: &mut Reader<'_, '_>) -> Result<Option<Main>, ReadError>
    ensures { Gives (λ main. (main, reader.new.types.items)) result (rest_at reader.old.types.items (token_views reader.old.rest.now)) }
{
    let tokens = reader.rest;
    match tokens {
        [] => Ok(None),
        [first, rest @ ..] => {
            if !is_service(first) {
                return Err(ReadError::Refused);
            }
            reader.rest = rest;
            match main_of(reader) {
                Ok(main) => Ok(Some(main)),
                Err(e) => Err(e),
            }
        }
    }
}

// The definitions of a file go into the list, its types too, and its service is returned.
fn read_file(
    reader: &mut Reader<'_, '_>,
    definitions: &mut Vec<(Bytes, Part)>,
) -> Result<Option<Main>, ReadError>
    requires { definitions.old.items ≡ [] }
    ensures { Gives {B = files.File} (λ main. record { types = reader.new.types.items; definitions = definitions.new.items; main = main }) result (file_from reader.old.types.items (token_views reader.old.rest.now)) }
{
    let most = reader.rest.len() + 1;
    match add_definitions(reader, most, definitions) {
        Ok(()) => rest_of_file(reader),
        Err(e) => Err(e),
    }
}

// The file that the tokens are.
#[tactic(auto, unfolding(crate::specs::Read::file_at))]
fn file_of_tokens(alloc: Global, tokens: &[Token<'_>]) -> Result<File, ReadError>
    ensures { Gives (λ file. file) result (file_at (token_views tokens.now)) }
{
    let mut definitions = Vec::new(alloc);
    let mut reader = Reader {
        alloc,
        types: Vec::new(alloc),
        rest: tokens,
    };
    match read_file(&mut reader, &mut definitions) {
        Ok(main) => Ok(File {
            types: reader.types,
            definitions,
            main,
        }),
        Err(e) => Err(e),
    }
}

fn is_utf8(text: &[u8]) -> bool
    ensures { result ≡ is_utf8 text.now }
{
    match str::from_utf8(text) {
        Ok(_) => true,
        Err(_) => false,
    }
}

/// The interface file that a text is. `Refused`: it is none, or its types nest more than 128 deep.
pub fn file_of(alloc: Global, text: &[u8]) -> Result<File, ReadError>
    ensures found { IfOk result (λ file. IsFile file text.now) }
    ensures only { (file : files.File) → IsFile file text.now → Agrees (λ f. f) result file }
    // Each part that is a place is one of the file's types.
    ensures fits { IfOk result FitsFile }
    ensures few { IfOk result (λ file. length file.definitions ≤ length text.now) }
{
    if !is_utf8(text) {
        return Err(ReadError::Refused);
    }
    match tokens_of(alloc, true, text) {
        Ok(tokens) => file_of_tokens(alloc, &tokens),
        Err(e) => Err(e),
    }
}
