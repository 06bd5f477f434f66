ghost use Rattle.std.specs.Prelude.{◌≡◌, codes};
ghost use Rattle.ic_base.specs.Gives.{Gives};
ghost use Rattle.cd_types.specs.declared.primitive.Primitive.TheVariants.{Nat8};
ghost use Rattle.cd_types.specs.declared.entry.TyRef.TheVariants.{Prim};
ghost use Rattle.cd_codec.specs.Content.{plain, service, principal};
ghost use Rattle.ct_values.specs.Steps.{reading};
ghost use Rattle.ct_values.specs.Spelled.{principal_at, reference_at, func_at, primitive_value_at, annotation_at, annotated_at, string_or_name, number_at, byte_at, parts_at, blob_at};

use crate::cursor::Cursor;
use crate::reader::Reader;
use cd_codec::Value;
use cd_plain::{natural_below, primitive_of, principal_after, string_of};
use cd_text::type_name;
use cd_types::{Prim, TyRef};
use ct_patterns::Step;
use ic_base::ReadError;
use ic_principal::Principal;

impl<'r> Reader<'r> {
    // A word and the text of a principal; none is known where a name is in its place.
    fn principal(
        &self,
        word: &[u8],
        cursor: &mut Cursor<'_, '_>,
    ) -> Result<Option<Principal>, ReadError>
        ensures { Gives (λ p. (p, reading cursor.new)) result (principal_at self.now.admitted word.now (reading cursor.old)) }
    {
        let tokens = cursor.rest;
        cursor.word(word)?;
        if self.starts_name(cursor) {
            cursor.advance();
            return Ok(None);
        }
        let principal = principal_after(self.alloc, word, tokens)?;
        cursor.advance();
        Ok(Some(principal))
    }

    #[tactic(auto, using(cd_codec::proofs::Views::layers))]
    pub(crate) fn service(&self, cursor: &mut Cursor<'_, '_>) -> Result<(), ReadError>
        ensures { Gives (λ done. reading cursor.new) result (reference_at self.now.admitted (codes "service") (λ id. plain (service id)) (reading cursor.old)) }
    {
        match self.principal(b"service", cursor)? {
            Some(service) => cursor.push(Step::Is(Value::Service(service))),
            None => cursor.push(Step::Any),
        }
    }

    #[tactic(auto, using(cd_codec::proofs::Views::layers))]
    pub(crate) fn func(&self, cursor: &mut Cursor<'_, '_>) -> Result<(), ReadError>
        ensures { Gives (λ done. reading cursor.new) result (func_at self.now.admitted (reading cursor.old)) }
    {
        let service = self.principal(b"func", cursor)?;
        cursor.mark(b'.')?;
        let method = self.method(cursor)?;
        match service {
            Some(service) => cursor.push(Step::Is(Value::Func { service, method })),
            None => cursor.push(Step::Any),
        }
    }

    #[tactic(auto, using(cd_codec::proofs::Views::layers))]
    fn principal_value(&self, cursor: &mut Cursor<'_, '_>) -> Result<(), ReadError>
        ensures { Gives (λ done. reading cursor.new) result (reference_at self.now.admitted (codes "principal") (λ id. plain (principal id)) (reading cursor.old)) }
    {
        match self.principal(b"principal", cursor)? {
            Some(principal) => cursor.push(Step::Is(Value::Principal(principal))),
            None => cursor.push(Step::Any),
        }
    }

    pub(crate) fn primitive(&self, prim: Prim, cursor: &mut Cursor<'_, '_>) -> Result<(), ReadError>
        ensures { Gives (λ done. reading cursor.new) result (primitive_value_at self.now.admitted prim (reading cursor.old)) }
    {
        if let Prim::Principal = prim {
            return self.principal_value(cursor);
        }
        let (value, _, _) = primitive_of(self.alloc, prim, 0, cursor.rest)?;
        cursor.advance();
        cursor.push(Step::Is(value))
    }

    /// The name of a primitive type after a colon, if there is a colon.
    pub(crate) fn annotation(&self, ty: TyRef, cursor: &mut Cursor<'_, '_>) -> Result<(), ReadError>
        ensures { Gives (λ done. reading cursor.new) result (annotation_at ty (reading cursor.old)) }
    {
        match ty {
            TyRef::Index(_) => Ok(()),
            TyRef::Prim(prim) => {
                if !cursor.starts_mark(b':') {
                    return Ok(());
                }
                cursor.advance();
                cursor.word(type_name(prim))
            }
        }
    }

    // The string of a blob, or a name in its place.
    fn blob_string(&self, cursor: &mut Cursor<'_, '_>) -> Result<(), ReadError>
        ensures { Gives (λ done. reading cursor.new) result (string_or_name self.now.admitted (reading cursor.old)) }
    {
        if self.starts_name(cursor) {
            return cursor.name();
        }
        let (bytes, _) = string_of(self.alloc, cursor.rest)?;
        cursor.advance();
        cursor.push(Step::Is(Value::of_bytes(bytes)))
    }

    // A byte that a number says.
    #[tactic(auto, using(cd_codec::proofs::Views::layers))]
    fn number(&self, cursor: &mut Cursor<'_, '_>) -> Result<(), ReadError>
        ensures { Gives (λ done. reading cursor.new) result (number_at (reading cursor.old)) }
    {
        let (n, _) = natural_below(cursor.rest, 1 << 8).ok_or(ReadError::Refused)?;
        cursor.advance();
        cursor.push(Step::Is(Value::Nat8(n as u8)))
    }

    // A byte of a `vec nat8`. False: nothing that a type may follow.
    #[cycle(bytes)]
    #[tactic(auto, unfolding(crate::specs::Spelled::byte_at))]
    fn byte(&self, depth: u32, cursor: &mut Cursor<'_, '_>) -> Result<bool, ReadError>
        ensures { Gives (λ is_value. (is_value, reading cursor.new)) result (byte_at self.now.admitted depth (reading cursor.old)) }
    {
        if depth == 0 {
            return Err(ReadError::Refused);
        }
        if cursor.starts_mark(b'(') {
            cursor.advance();
            let is_value = self.annotated_byte(depth - 1, cursor)?;
            cursor.mark(b')')?;
            return Ok(is_value);
        }
        if self.starts_hole(cursor) {
            cursor.hole(TyRef::Prim(Prim::Nat8))?;
            return Ok(false);
        }
        if self.starts_name(cursor) {
            cursor.name()?;
            return Ok(true);
        }
        self.number(cursor)?;
        Ok(true)
    }

    #[cycle(bytes)]
    fn annotated_byte(&self, depth: u32, cursor: &mut Cursor<'_, '_>) -> Result<bool, ReadError>
        ensures { Gives (λ is_value. (is_value, reading cursor.new)) result (annotated_at (Prim Nat8) (byte_at self.now.admitted depth) (reading cursor.old)) }
    {
        let is_value = self.byte(depth, cursor)?;
        if is_value {
            self.annotation(TyRef::Prim(Prim::Nat8), cursor)?;
        }
        Ok(is_value)
    }

    // Bytes up to a closing brace, `most` at most: how many they are.
    fn bytes(
        &self,
        depth: u32,
        most: usize,
        cursor: &mut Cursor<'_, '_>,
    ) -> Result<usize, ReadError>
        ensures { Gives (λ count. (count, reading cursor.new)) result (parts_at (annotated_at (Prim Nat8) (byte_at self.now.admitted depth)) most 0 (reading cursor.old)) }
    {
        let mut count = 0;
        while !cursor.starts_mark(b'}') {
            if count >= most {
                return Err(ReadError::Refused);
            }
            self.annotated_byte(depth, cursor)?;
            cursor.separator()?;
            count += 1;
        }
        Ok(count)
    }

    /// A `vec nat8`: `blob` and a string, or numbers in braces.
    pub(crate) fn blob(&self, depth: u32, cursor: &mut Cursor<'_, '_>) -> Result<(), ReadError>
        ensures { Gives (λ done. reading cursor.new) result (blob_at self.now.admitted depth (reading cursor.old)) }
    {
        if cursor.starts_word(b"blob") {
            cursor.advance();
            return self.blob_string(cursor);
        }
        let most = cursor.tokens_left();
        cursor.braces(b"vec")?;
        let at = cursor.len();
        cursor.push(Step::Seq(0))?;
        let count = self.bytes(depth, most, cursor)?;
        cursor.put(at, Step::Seq(count));
        cursor.mark(b'}')
    }
}
