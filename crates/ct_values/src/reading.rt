ghost use Rattle.std.specs.Prelude.{◌≡◌, ◌<◌, ◌+◌, ◌^◌, true, map, length, List, Some, IfOk};
ghost use Rattle.cd_types.specs.IsOrdered.{is_ordered, ids_rise_from};
ghost use Rattle.cd_types.specs.Shape.{shape};
ghost use Rattle.cd_tokens.specs.View.{token_views};
ghost use Rattle.ic_base.specs.Gives.{Gives};
ghost use Rattle.ct_values.specs.Answers.{IsInside, Answers};
ghost use Rattle.ct_values.specs.Steps.{Step as Sought, step_views, reading, said_view};
ghost use Rattle.ct_values.specs.Spelled.{annotated_at, parts_at, list_at, opt_at, fields_said_at, field_at, if_missing, missing_from, record_at, variant_at, case_value_at, entry_at, shape_at, value_at, arguments_at, spelled};

use crate::cursor::Cursor;
use crate::fault::PatternFault;
use crate::label::told_at;
use crate::reader::{Admitted, Reader};
use crate::said::Said;
use cd_codec::Value;
use cd_text::find_field;
use cd_tokens::Token;
use cd_types::{Entry, Prim, TyRef, TypeTable};
use ct_patterns::{Places, Step};
use ic_base::ReadError;
use std::alloc::Global;

/// How deep values may nest, parentheses counted.
const MAX_NESTING: u32 = 128;

/// How many values may be said, with those that stand for missing fields.
const MAX_VALUES: u32 = 1_000_000;

impl<'r> Reader<'r> {
    // A value, or what may be written in its place. False: nothing that a type may follow.
    #[cycle(reader)]
    #[tactic(auto, unfolding(crate::specs::Spelled::value_at))]
    fn value(&self, depth: u32, ty: TyRef, cursor: &mut Cursor<'_, '_>) -> Result<bool, ReadError>
        ensures { Gives (λ is_value. (is_value, reading cursor.new)) result (value_at self.now.admitted self.now.table.now depth ty (reading cursor.old)) }
    {
        if depth == 0 {
            return Err(ReadError::Refused);
        }
        if cursor.starts_mark(b'(') {
            cursor.advance();
            let is_value = self.annotated(depth - 1, ty, cursor)?;
            cursor.mark(b')')?;
            return Ok(is_value);
        }
        cursor.spend()?;
        if self.starts_hole(cursor) {
            cursor.hole(ty)?;
            return Ok(false);
        }
        if self.starts_name(cursor) {
            cursor.name()?;
            return Ok(true);
        }
        self.typed(depth - 1, ty, cursor)?;
        Ok(true)
    }

    // A value, and its type where it is primitive and a colon follows.
    #[cycle(reader)]
    fn annotated(
        &self,
        depth: u32,
        ty: TyRef,
        cursor: &mut Cursor<'_, '_>,
    ) -> Result<bool, ReadError>
        ensures { Gives (λ is_value. (is_value, reading cursor.new)) result (annotated_at ty (value_at self.now.admitted self.now.table.now depth ty) (reading cursor.old)) }
    {
        let is_value = self.value(depth, ty, cursor)?;
        if is_value {
            self.annotation(ty, cursor)?;
        }
        Ok(is_value)
    }

    // A value that is said by its type; its parts nest at most `depth` levels deep.
    #[cycle(reader)]
    fn typed(&self, depth: u32, ty: TyRef, cursor: &mut Cursor<'_, '_>) -> Result<(), ReadError>
        requires { depth + 1 < 2 ^ 32 }
        ensures { Gives (λ done. reading cursor.new) result (shape_at self.now.admitted depth self.now.table.now (value_at self.now.admitted self.now.table.now depth) (shape self.now.table.now ty) (reading cursor.old)) }
    {
        match ty {
            TyRef::Prim(prim) => self.primitive(prim, cursor),
            TyRef::Index(index) => match self.table.entry(index) {
                None => Err(ReadError::Refused),
                Some(entry) => self.entry(depth, entry, cursor),
            },
        }
    }

    #[cycle(reader)]
    #[tactic(auto, unfolding(crate::specs::Spelled::entry_at))]
    fn entry(&self, depth: u32, entry: &Entry, cursor: &mut Cursor<'_, '_>) -> Result<(), ReadError>
        requires { (is_ordered entry.now ≡ true) × (depth + 1 < 2 ^ 32) }
        ensures { Gives (λ done. reading cursor.new) result (entry_at self.now.admitted depth self.now.table.now (value_at self.now.admitted self.now.table.now depth) entry.now (reading cursor.old)) }
    {
        match entry {
            Entry::Opt(ty) => self.opt(depth, *ty, cursor),
            Entry::Seq(TyRef::Prim(Prim::Nat8)) => self.blob(depth + 1, cursor),
            Entry::Seq(ty) => self.list(depth, *ty, cursor),
            Entry::Rec(fields) => self.record(depth, &fields.items, cursor),
            Entry::Var(cases) => self.variant(depth, &cases.items, cursor),
            Entry::Func { .. } => self.func(cursor),
            Entry::Service(_) => self.service(cursor),
        }
    }

    #[cycle(reader)]
    fn opt(&self, depth: u32, ty: TyRef, cursor: &mut Cursor<'_, '_>) -> Result<(), ReadError>
        ensures { Gives (λ done. reading cursor.new) result (opt_at (value_at self.now.admitted self.now.table.now depth ty) (reading cursor.old)) }
    {
        if cursor.starts_word(b"null") {
            cursor.advance();
            return cursor.push(Step::Is(Value::none()));
        }
        cursor.word(b"opt")?;
        cursor.push(Step::Opt)?;
        self.value(depth, ty, cursor)?;
        Ok(())
    }

    #[cycle(reader)]
    fn list(&self, depth: u32, ty: TyRef, cursor: &mut Cursor<'_, '_>) -> Result<(), ReadError>
        ensures { Gives (λ done. reading cursor.new) result (list_at (annotated_at ty (value_at self.now.admitted self.now.table.now depth ty)) (reading cursor.old)) }
    {
        let most = cursor.tokens_left();
        cursor.braces(b"vec")?;
        let at = cursor.len();
        cursor.push(Step::Seq(0))?;
        let count = self.items(depth, ty, most, cursor)?;
        cursor.put(at, Step::Seq(count));
        cursor.mark(b'}')
    }

    // Values up to a closing brace, `most` at most: how many they are.
    #[cycle(reader)]
    fn items(
        &self,
        depth: u32,
        ty: TyRef,
        most: usize,
        cursor: &mut Cursor<'_, '_>,
    ) -> Result<usize, ReadError>
        ensures { Gives (λ count. (count, reading cursor.new)) result (parts_at (annotated_at ty (value_at self.now.admitted self.now.table.now depth ty)) most 0 (reading cursor.old)) }
    {
        let mut count = 0;
        while !cursor.starts_mark(b'}') {
            if count >= most {
                return Err(ReadError::Refused);
            }
            self.annotated(depth, ty, cursor)?;
            cursor.separator()?;
            count += 1;
        }
        Ok(count)
    }

    #[cycle(reader)]
    fn record(
        &self,
        depth: u32,
        fields: &[(u32, TyRef)],
        cursor: &mut Cursor<'_, '_>,
    ) -> Result<(), ReadError>
        requires { ids_rise_from 0 (map (λ f. f.0) fields.now) ≡ true }
        ensures { Gives (λ done. reading cursor.new) result (record_at self.now.admitted depth self.now.table.now (value_at self.now.admitted self.now.table.now depth) fields.now (reading cursor.old)) }
    {
        let most = cursor.tokens_left();
        cursor.braces(b"record")?;
        let at = cursor.len();
        cursor.push(Step::Rec(Places {
            items: Vec::new(self.alloc),
        }))?;
        let mut said = Said::new(self.alloc);
        if !self.said_fields(depth, fields, most, &mut said, cursor)? {
            self.missing_fields(depth, fields, &mut said, cursor)?;
        }
        let places = said.places(self.alloc)?;
        cursor.put(at, Step::Rec(places));
        cursor.mark(b'}')
    }

    // Fields up to a closing brace, `most` at most. True: the others may be any.
    #[cycle(reader)]
    fn said_fields(
        &self,
        depth: u32,
        fields: &[(u32, TyRef)],
        most: usize,
        said: &mut Said,
        cursor: &mut Cursor<'_, '_>,
    ) -> Result<bool, ReadError>
        requires { ids_rise_from 0 (map (λ f. f.0) fields.now) ≡ true }
        ensures { Gives (λ is_open. ((is_open, said_view said.new), reading cursor.new)) result (fields_said_at self.now.admitted (value_at self.now.admitted self.now.table.now depth) fields.now most (said_view said.old) (reading cursor.old)) }
    {
        let mut count = 0;
        while !cursor.starts_mark(b'}') {
            if self.starts_others(cursor) {
                cursor.others()?;
                return Ok(true);
            }
            if count >= most {
                return Err(ReadError::Refused);
            }
            self.field(depth, fields, said, cursor)?;
            cursor.separator()?;
            count += 1;
        }
        Ok(false)
    }

    // A field, with its label or without.
    #[cycle(reader)]
    fn field(
        &self,
        depth: u32,
        fields: &[(u32, TyRef)],
        said: &mut Said,
        cursor: &mut Cursor<'_, '_>,
    ) -> Result<(), ReadError>
        requires { ids_rise_from 0 (map (λ f. f.0) fields.now) ≡ true }
        ensures { Gives (λ done. (said_view said.new, reading cursor.new)) result (field_at (value_at self.now.admitted self.now.table.now depth) fields.now (said_view said.old) (reading cursor.old)) }
    {
        let is_labelled = cursor.is_labelled();
        let id = if is_labelled {
            u64::from(self.label(cursor)?)
        } else {
            said.next()
        };
        let Some((place, (id, ty))) = find_field(fields, id) else {
            return Err(ReadError::Refused);
        };
        said.insert(place as u32, id)?;
        if is_labelled {
            cursor.advance();
            cursor.advance();
        }
        self.annotated(depth, ty, cursor)?;
        Ok(())
    }

    // The field at a place, if it is not said.
    fn if_missing(
        &self,
        depth: u32,
        place: u32,
        ty: TyRef,
        said: &mut Said,
        cursor: &mut Cursor<'_, '_>,
    ) -> Result<(), ReadError>
        ensures { Gives (λ done. (said_view said.new, reading cursor.new)) result (if_missing depth self.now.table.now place ty (said_view said.old) (reading cursor.old)) }
    {
        if said.contains(place) {
            return Ok(());
        }
        self.missing(depth, ty, cursor)?;
        said.push(place)
    }

    // The fields that are not said.
    fn missing_fields(
        &self,
        depth: u32,
        fields: &[(u32, TyRef)],
        said: &mut Said,
        cursor: &mut Cursor<'_, '_>,
    ) -> Result<(), ReadError>
        requires { ids_rise_from 0 (map (λ f. f.0) fields.now) ≡ true }
        ensures { Gives (λ done. (said_view said.new, reading cursor.new)) result (missing_from depth self.now.table.now 0 fields.now (said_view said.old) (reading cursor.old)) }
    {
        for (place, (_, ty)) in fields.iter().enumerate() {
            self.if_missing(depth, place as u32, *ty, said, cursor)?;
        }
        Ok(())
    }

    #[cycle(reader)]
    fn variant(
        &self,
        depth: u32,
        cases: &[(u32, TyRef)],
        cursor: &mut Cursor<'_, '_>,
    ) -> Result<(), ReadError>
        requires { ids_rise_from 0 (map (λ f. f.0) cases.now) ≡ true }
        ensures { Gives (λ done. reading cursor.new) result (variant_at depth self.now.table.now (value_at self.now.admitted self.now.table.now depth) cases.now (reading cursor.old)) }
    {
        cursor.braces(b"variant")?;
        let id = self.label(cursor)?;
        let Some((place, (_, ty))) = find_field(cases, u64::from(id)) else {
            return Err(ReadError::Refused);
        };
        cursor.advance();
        cursor.push(Step::Var(place as u32))?;
        self.case(depth, ty, cursor)?;
        cursor.separator()?;
        cursor.mark(b'}')
    }

    // What is said of a case: `=` and a value, or a null that is not written.
    #[cycle(reader)]
    fn case(&self, depth: u32, ty: TyRef, cursor: &mut Cursor<'_, '_>) -> Result<(), ReadError>
        ensures { Gives (λ done. reading cursor.new) result (case_value_at depth self.now.table.now (value_at self.now.admitted self.now.table.now depth) ty (reading cursor.old)) }
    {
        if cursor.starts_mark(b'=') {
            cursor.advance();
            self.annotated(depth, ty, cursor)?;
            return Ok(());
        }
        match ty {
            TyRef::Prim(Prim::Null) => self.missing(depth, ty, cursor),
            TyRef::Prim(_) => Err(ReadError::Refused),
            TyRef::Index(_) => Err(ReadError::Refused),
        }
    }

    // A value of each type, with commas between them and one that may follow the last.
    fn arguments(&self, types: &[TyRef], cursor: &mut Cursor<'_, '_>) -> Result<(), ReadError>
        ensures { Gives (λ done. reading cursor.new) result (arguments_at (value_at self.now.admitted self.now.table.now 128) types.now (reading cursor.old)) }
    {
        for ty in types {
            self.annotated(MAX_NESTING, *ty, cursor)?;
            cursor.comma()?;
        }
        if cursor.rest.is_empty() {
            Ok(())
        } else {
            Err(ReadError::Refused)
        }
    }
}

/// The pattern that tokens say, which are those between the parentheses: a value of each type. Names
/// that are admitted are read as any value. Time grows with the tokens, and at each record with the
/// fields of its type.
#[tactic(auto, unfolding(crate::specs::Spelled::spelled))]
pub fn pattern_of<'a>(
    alloc: Global,
    table: &TypeTable,
    types: &[TyRef],
    admitted: Admitted,
    tokens: &[Token<'a>],
) -> Result<Vec<Step<'a>>, PatternFault>
    // The pattern that is answered is spelled by the tokens.
    ensures found { IfOk result (λ steps. spelled admitted table.now types.now (token_views tokens.now) ≡ Some (step_views steps.items)) }
    // The pattern that they spell is answered, unless memory runs out; so with an `Unexpected` they spell none.
    ensures only { (steps : List Sought) → spelled admitted table.now types.now (token_views tokens.now) ≡ Some steps → Answers result steps }
    // A fault is at a token, or at their end.
    ensures inside { IsInside (length tokens.now) result }
{
    let reader = Reader {
        alloc,
        table,
        admitted,
    };
    let mut cursor = Cursor {
        steps: Vec::new(alloc),
        left: MAX_VALUES,
        rest: tokens,
    };
    match reader.arguments(types, &mut cursor) {
        Ok(()) => Ok(cursor.steps),
        Err(ReadError::NoMemory) => Err(PatternFault::NoMemory),
        Err(ReadError::Refused) => {
            let seen = tokens.len().saturating_sub(cursor.rest.len());
            let index = told_at(tokens, seen);
            Err(PatternFault::Unexpected { index })
        }
    }
}
