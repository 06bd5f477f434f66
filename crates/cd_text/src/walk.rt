ghost use Rattle.std.specs.Prelude.{◌≡◌, ◌<◌, true, map};
ghost use Rattle.cd_types.specs.IsOrdered.{is_ordered, ids_rise_from};

use crate::fields::find;
use crate::reading::{name_of as type_name, without_null};
use crate::whole::{MAX_NESTING, MAX_VALUES, is_utf8};
use cd_codec::{Expected, Value};
use cd_plain::{natural_below, primitive_of, principal_after};
use cd_tokens::{Token, label_of, name_of, rest_of, says_bytes, starts_mark, starts_word};
use cd_types::{Entry, Prim, TyRef, TypeTable};
use ic_base::{NoMemory, ReadError};
use std::alloc::{AllocError, Global};
use std::collections::BTreeSet;

/// A walk over the tokens of a text of values, which keeps none of them. Where one of its steps is
/// `Refused`, the first of the tokens that are left is the one with which no text goes on.
#[derive(Drop)]
struct Walk<'w, 't, 'a> {
    alloc: Global,
    table: &'w TypeTable,
    /// How many values may still be said.
    left: u32,
    rest: &'t [Token<'a>],
}

/// How many tokens of a text go on with the texts of the expected types, from the first.
pub(crate) fn tokens_passed(
    alloc: Global,
    expected: &Expected,
    tokens: &[Token<'_>],
) -> Result<usize, NoMemory> {
    let mut walk = Walk {
        alloc,
        table: expected.table(),
        left: MAX_VALUES,
        rest: tokens,
    };
    match walk.pass_arguments(expected.types()) {
        Err(ReadError::NoMemory) => Err(AllocError),
        Ok(()) | Err(ReadError::Refused) => Ok(tokens.len().saturating_sub(walk.rest.len())),
    }
}

impl<'w, 't, 'a> Walk<'w, 't, 'a> {
    fn pass(&mut self) {
        self.rest = rest_of(self.rest);
    }

    fn pass_mark(&mut self, mark: u8) -> Result<(), ReadError> {
        if !starts_mark(self.rest, mark) {
            return Err(ReadError::Refused);
        }
        self.pass();
        Ok(())
    }

    fn pass_word(&mut self, word: &[u8]) -> Result<(), ReadError> {
        if !starts_word(self.rest, word) {
            return Err(ReadError::Refused);
        }
        self.pass();
        Ok(())
    }

    // The string of a blob: the text is UTF-8, though what the string says need not be.
    fn pass_string(&mut self) -> Result<(), ReadError> {
        match self.rest {
            [] => Err(ReadError::Refused),
            [first, ..] => match first {
                Token::Quoted(string) => {
                    if !is_utf8(string.bytes) || !says_bytes(string.bytes) {
                        return Err(ReadError::Refused);
                    }
                    self.pass();
                    Ok(())
                }
                Token::Run(_) | Token::Mark(_) | Token::Arrow => Err(ReadError::Refused),
            },
        }
    }

    // A word, and the text of a principal.
    fn pass_principal(&mut self, word: &[u8]) -> Result<(), ReadError> {
        let tokens = self.rest;
        self.pass_word(word)?;
        principal_after(self.alloc, word, tokens)?;
        self.pass();
        Ok(())
    }

    fn pass_func(&mut self) -> Result<(), ReadError> {
        self.pass_principal(b"func")?;
        self.pass_mark(b'.')?;
        match self.rest {
            [] => Err(ReadError::Refused),
            [method, rest @ ..] => {
                name_of(self.alloc, method)?;
                self.rest = rest;
                Ok(())
            }
        }
    }

    fn pass_primitive(&mut self, prim: Prim) -> Result<(), ReadError> {
        if let Prim::Principal = prim {
            return self.pass_principal(b"principal");
        }
        primitive_of(self.alloc, prim, 0, self.rest)?;
        self.pass();
        Ok(())
    }

    // The name of a primitive type after a colon, if there is a colon.
    fn pass_annotation(&mut self, ty: TyRef) -> Result<(), ReadError> {
        match ty {
            TyRef::Index(_) => Ok(()),
            TyRef::Prim(prim) => {
                if !starts_mark(self.rest, b':') {
                    return Ok(());
                }
                self.pass();
                self.pass_word(type_name(prim))
            }
        }
    }

    // The semicolon after a part in braces; none is needed before the closing brace.
    fn pass_separator(&mut self) -> Result<(), ReadError> {
        if starts_mark(self.rest, b'}') {
            return Ok(());
        }
        self.pass_mark(b';')
    }

    fn pass_byte(&mut self, depth: u32) -> Result<(), ReadError> {
        if depth == 0 {
            return Err(ReadError::Refused);
        }
        if starts_mark(self.rest, b'(') {
            self.pass();
            self.pass_byte(depth - 1)?;
            self.pass_mark(b')')?;
        } else {
            natural_below(self.rest, 1 << 8).ok_or(ReadError::Refused)?;
            self.pass();
        }
        self.pass_annotation(TyRef::Prim(Prim::Nat8))
    }

    fn pass_blob(&mut self, depth: u32) -> Result<(), ReadError> {
        if starts_word(self.rest, b"blob") {
            self.pass();
            return self.pass_string();
        }
        self.pass_word(b"vec")?;
        self.pass_mark(b'{')?;
        for _ in 0..self.rest.len() {
            if starts_mark(self.rest, b'}') {
                break;
            }
            self.pass_byte(depth)?;
            self.pass_separator()?;
        }
        self.pass_mark(b'}')
    }

    #[cycle(walk)]
    fn pass_value(&mut self, depth: u32, ty: TyRef) -> Result<(), ReadError> {
        if depth == 0 {
            return Err(ReadError::Refused);
        }
        if starts_mark(self.rest, b'(') {
            self.pass();
            self.pass_annotated(depth - 1, ty)?;
            return self.pass_mark(b')');
        }
        self.left = self.left.checked_sub(1).ok_or(ReadError::Refused)?;
        match ty {
            TyRef::Prim(prim) => self.pass_primitive(prim),
            TyRef::Index(index) => self.pass_indexed(depth, index),
        }
    }

    #[cycle(walk)]
    fn pass_indexed(&mut self, depth: u32, index: u32) -> Result<(), ReadError>
        requires { 0 < depth }
    {
        let table = self.table;
        match table.entry(index) {
            None => Err(ReadError::Refused),
            Some(entry) => match entry {
                Entry::Seq(TyRef::Prim(Prim::Nat8)) => self.pass_blob(depth),
                _ => self.pass_entry(depth - 1, entry),
            },
        }
    }

    #[cycle(walk)]
    fn pass_annotated(&mut self, depth: u32, ty: TyRef) -> Result<(), ReadError> {
        self.pass_value(depth, ty)?;
        self.pass_annotation(ty)
    }

    #[cycle(walk)]
    fn pass_entry(&mut self, depth: u32, entry: &Entry) -> Result<(), ReadError>
        requires { is_ordered entry.now ≡ true }
    {
        match entry {
            Entry::Opt(ty) => self.pass_opt(depth, *ty),
            Entry::Seq(ty) => self.pass_list(depth, *ty),
            Entry::Rec(fields) => self.pass_record(depth, &fields.items),
            Entry::Var(cases) => self.pass_variant(depth, &cases.items),
            Entry::Func { .. } => self.pass_func(),
            Entry::Service(_) => self.pass_principal(b"service"),
        }
    }

    #[cycle(walk)]
    fn pass_opt(&mut self, depth: u32, ty: TyRef) -> Result<(), ReadError> {
        if starts_word(self.rest, b"null") {
            self.pass();
            return Ok(());
        }
        self.pass_word(b"opt")?;
        self.pass_value(depth, ty)
    }

    #[cycle(walk)]
    fn pass_list(&mut self, depth: u32, ty: TyRef) -> Result<(), ReadError> {
        self.pass_word(b"vec")?;
        self.pass_mark(b'{')?;
        for _ in 0..self.rest.len() {
            if starts_mark(self.rest, b'}') {
                break;
            }
            self.pass_annotated(depth, ty)?;
            self.pass_separator()?;
        }
        self.pass_mark(b'}')
    }

    #[cycle(walk)]
    fn pass_record(&mut self, depth: u32, fields: &[(u32, TyRef)]) -> Result<(), ReadError>
        requires { ids_rise_from 0 (map (λ f. f.0) fields.now) ≡ true }
    {
        self.pass_word(b"record")?;
        self.pass_mark(b'{')?;
        let mut said = BTreeSet::new(self.alloc);
        let mut next: u64 = 0;
        for _ in 0..self.rest.len() {
            if starts_mark(self.rest, b'}') {
                break;
            }
            next = self.pass_field(depth, fields, &mut said, next)?;
            self.pass_separator()?;
        }
        self.pass_left_out(depth, fields, &said)?;
        self.pass_mark(b'}')
    }

    // A field, with its label or without: the id of a field without label that would follow.
    #[cycle(walk)]
    fn pass_field(
        &mut self,
        depth: u32,
        fields: &[(u32, TyRef)],
        said: &mut BTreeSet<u32>,
        next: u64,
    ) -> Result<u64, ReadError>
        requires { ids_rise_from 0 (map (λ f. f.0) fields.now) ≡ true }
    {
        let after = rest_of(self.rest);
        let is_labelled = starts_mark(after, b'=');
        let id = if is_labelled {
            u64::from(self.label()?)
        } else {
            next
        };
        let (_, (id, ty)) = find(fields, id).ok_or(ReadError::Refused)?;
        if !said.insert(id)? {
            return Err(ReadError::Refused);
        }
        if is_labelled {
            self.rest = rest_of(after);
        }
        self.pass_annotated(depth, ty)?;
        Ok(u64::from(id) + 1)
    }

    // The fields that are not said may be left out.
    fn pass_left_out(
        &mut self,
        depth: u32,
        fields: &[(u32, TyRef)],
        said: &BTreeSet<u32>,
    ) -> Result<(), ReadError> {
        for (id, ty) in fields {
            if !said.contains(id) {
                if depth == 0 || Value::missing(self.table, *ty).is_none() {
                    return Err(ReadError::Refused);
                }
                self.left = self.left.checked_sub(1).ok_or(ReadError::Refused)?;
            }
        }
        Ok(())
    }

    // The id of the label that comes first.
    fn label(&self) -> Result<u32, ReadError> {
        match self.rest {
            [] => Err(ReadError::Refused),
            [label, ..] => label_of(self.alloc, label),
        }
    }

    #[cycle(walk)]
    fn pass_variant(&mut self, depth: u32, cases: &[(u32, TyRef)]) -> Result<(), ReadError>
        requires { ids_rise_from 0 (map (λ f. f.0) cases.now) ≡ true }
    {
        self.pass_word(b"variant")?;
        self.pass_mark(b'{')?;
        let id = self.label()?;
        let (_, (_, ty)) = find(cases, u64::from(id)).ok_or(ReadError::Refused)?;
        self.pass();
        if starts_mark(self.rest, b'=') {
            self.pass();
            self.pass_annotated(depth, ty)?;
        } else {
            self.left = without_null(self.table, ty, depth, self.left).ok_or(ReadError::Refused)?;
        }
        self.pass_separator()?;
        self.pass_mark(b'}')
    }

    // A value of each type in parentheses, with commas between them and one that may follow the last.
    fn pass_arguments(&mut self, types: &[TyRef]) -> Result<(), ReadError> {
        self.pass_mark(b'(')?;
        for ty in types {
            self.pass_annotated(MAX_NESTING, *ty)?;
            if !starts_mark(self.rest, b')') {
                self.pass_mark(b',')?;
            }
        }
        self.pass_mark(b')')
    }
}
