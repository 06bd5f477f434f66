use crate::kinds::{is_method, is_served};
use crate::names::Names;
use crate::targets::Ended;
use cd_grammar::{
    Part, Word, first_word, is_any_word, is_argument_name, name_of as type_name, starts_arrow,
};
use cd_tokens::{Token, label_of, name_of, rest_of, starts_mark, starts_word};
use ic_base::{NoMemory, ReadError};
use std::alloc::{AllocError, Global};
use std::collections::BTreeSet;

/// How deep types may nest.
const MAX_DEPTH: u32 = 128;

/// How many types with parts may be written in a file.
const MAX_TYPES: u32 = 10_000;

/// What is sought in a file.
#[derive(Clone, Copy)]
pub(crate) enum Sought<'s, 'f> {
    /// The token with which no file goes on. Where it is met, each of the others ends there too.
    End,
    Float,
    /// The name of the definition with this place.
    Definition(u32),
    /// A name that no definition has.
    Unbound(&'s Names<'f>),
    /// A label or a name that its record, variant or service has already; an id of 2^32 or more; the
    /// type of a method that is no function; a service that is none.
    Shape(&'s Ended<'s, 'f>),
    /// The first type with parts that is one too many.
    TooMany,
}

/// Which rows are between braces.
#[derive(Clone, Copy, PartialEq, Eq)]
enum Rows {
    Fields,
    Cases,
}

/// A walk over the tokens of a file. Where one of its steps is `Refused`, the first of the tokens that
/// are left is the one that is sought.
#[derive(Drop)]
struct Walk<'s, 'f, 't, 'a> {
    alloc: Global,
    sought: Sought<'s, 'f>,
    /// How many definitions, and how many types with parts, were met.
    definitions: u32,
    types: u32,
    rest: &'t [Token<'a>],
}

/// How many tokens come before the one that is sought.
pub(crate) fn tokens_before(
    alloc: Global,
    sought: Sought<'_, '_>,
    tokens: &[Token<'_>],
) -> Result<usize, NoMemory> {
    let mut walk = Walk {
        alloc,
        sought,
        definitions: 0,
        types: 0,
        rest: tokens,
    };
    match walk.pass_file() {
        Err(ReadError::NoMemory) => Err(AllocError),
        Ok(()) | Err(ReadError::Refused) => Ok(tokens.len().saturating_sub(walk.rest.len())),
    }
}

impl<'s, 'f, 't, 'a> Walk<'s, 'f, 't, 'a> {
    fn pass(&mut self) {
        self.rest = rest_of(self.rest);
    }

    fn pass_mark(&mut self, mark: u8) -> Result<(), ReadError> {
        if !starts_mark(self.rest, mark) {
            return Err(ReadError::Refused);
        }
        self.pass();
        Ok(())
    }

    fn pass_arrow(&mut self) -> Result<(), ReadError> {
        if !starts_arrow(self.rest) {
            return Err(ReadError::Refused);
        }
        self.pass();
        Ok(())
    }

    // The separator after a part; none is needed before the mark that ends the parts.
    fn pass_separator(&mut self, separator: u8, end: u8) -> Result<(), ReadError> {
        if starts_mark(self.rest, end) {
            return Ok(());
        }
        self.pass_mark(separator)
    }

    // A name as a type.
    fn pass_name(&mut self) -> Result<(), ReadError> {
        match self.rest {
            [] => Err(ReadError::Refused),
            [first, rest @ ..] => {
                let name = type_name(self.alloc, first)?;
                if let Sought::Unbound(names) = self.sought {
                    if !names.has(&name.items) {
                        return Err(ReadError::Refused);
                    }
                }
                self.rest = rest;
                Ok(())
            }
        }
    }

    // A name as the type of a method.
    fn pass_method_name(&mut self) -> Result<(), ReadError> {
        if let (Sought::Shape(ended), [first, ..]) = (self.sought, self.rest) {
            let part = Part::Name(type_name(self.alloc, first)?);
            self.check_shape(is_method(ended, &part))?;
        }
        self.pass_name()
    }

    // `Refused`: what has not its shape is sought, and this has not.
    fn check_shape(&self, is_fit: bool) -> Result<(), ReadError> {
        if !is_fit && matches!(self.sought, Sought::Shape(_)) {
            return Err(ReadError::Refused);
        }
        Ok(())
    }

    // One more type with parts begins.
    fn count_type(&mut self) -> Result<(), ReadError> {
        if self.types == MAX_TYPES && matches!(self.sought, Sought::TooMany) {
            return Err(ReadError::Refused);
        }
        self.types = self.types.saturating_add(1);
        Ok(())
    }

    // The word that a type begins with.
    fn pass_word(&mut self, word: Word) -> Result<(), ReadError> {
        match word {
            Word::Prim(_) => {}
            Word::Float32 | Word::Float64 => {
                if matches!(self.sought, Sought::Float) {
                    return Err(ReadError::Refused);
                }
            }
            Word::Blob | Word::Opt | Word::Seq | Word::Rec | Word::Var => self.count_type()?,
            Word::Func | Word::Service => self.count_type()?,
            Word::Definition | Word::Query | Word::Oneway | Word::CompositeQuery => {
                return Err(ReadError::Refused);
            }
        }
        self.pass();
        Ok(())
    }

    // The id of the label that comes first.
    fn label(&self) -> Result<u32, ReadError> {
        match self.rest {
            [] => Err(ReadError::Refused),
            [label, ..] => label_of(self.alloc, label),
        }
    }

    fn pass_notes(&mut self) {
        for _ in 0..self.rest.len() {
            match first_word(self.rest) {
                Some(Word::Query | Word::Oneway | Word::CompositeQuery) => self.pass(),
                _ => return,
            }
        }
    }

    #[cycle(walk)]
    fn pass_type(&mut self, depth: u32) -> Result<(), ReadError> {
        if depth == 0 {
            return Err(ReadError::Refused);
        }
        match first_word(self.rest) {
            None => self.pass_name(),
            Some(word) => {
                self.pass_word(word)?;
                self.pass_parts(depth - 1, word)
            }
        }
    }

    // What follows the word of a type.
    #[cycle(walk)]
    fn pass_parts(&mut self, depth: u32, word: Word) -> Result<(), ReadError> {
        match word {
            Word::Opt | Word::Seq => self.pass_type(depth),
            Word::Rec => self.pass_rows(depth, Rows::Fields),
            Word::Var => self.pass_rows(depth, Rows::Cases),
            Word::Func => self.pass_function(depth),
            Word::Service => self.pass_service(depth),
            _ => Ok(()),
        }
    }

    #[cycle(walk)]
    fn pass_rows(&mut self, depth: u32, rows: Rows) -> Result<(), ReadError> {
        self.pass_mark(b'{')?;
        let mut ids = BTreeSet::new(self.alloc);
        let mut next: u64 = 0;
        for _ in 0..self.rest.len() {
            if starts_mark(self.rest, b'}') {
                break;
            }
            next = self.pass_row(depth, rows, &mut ids, next)?;
            self.pass_separator(b';', b'}')?;
        }
        self.pass_mark(b'}')
    }

    // A field or a case: the id of a field without label that would follow.
    #[cycle(walk)]
    fn pass_row(
        &mut self,
        depth: u32,
        rows: Rows,
        ids: &mut BTreeSet<u64>,
        next: u64,
    ) -> Result<u64, ReadError> {
        let after = rest_of(self.rest);
        let is_labelled = starts_mark(after, b':');
        let has_label = is_labelled || rows == Rows::Cases;
        let id = if has_label {
            u64::from(self.label()?)
        } else {
            next
        };
        let is_new = ids.insert(id)?;
        self.check_shape(is_new && id < 1 << 32)?;
        if is_labelled {
            self.rest = rest_of(after);
        } else if has_label {
            self.rest = after;
            return Ok(0);
        }
        self.pass_type(depth)?;
        Ok(id.saturating_add(1))
    }

    #[cycle(walk)]
    fn pass_tuple(&mut self, depth: u32) -> Result<(), ReadError> {
        self.pass_mark(b'(')?;
        for _ in 0..self.rest.len() {
            if starts_mark(self.rest, b')') {
                break;
            }
            self.pass_argument(depth)?;
            self.pass_separator(b',', b')')?;
        }
        self.pass_mark(b')')
    }

    // A type of a tuple, with a name and `:` before it or without.
    #[cycle(walk)]
    fn pass_argument(&mut self, depth: u32) -> Result<(), ReadError> {
        if let [first, rest @ ..] = self.rest {
            if starts_mark(rest, b':') {
                if !is_argument_name(first) {
                    return Err(ReadError::Refused);
                }
                self.rest = rest_of(rest);
            }
        }
        self.pass_type(depth)
    }

    #[cycle(walk)]
    fn pass_function(&mut self, depth: u32) -> Result<(), ReadError> {
        self.pass_tuple(depth)?;
        self.pass_arrow()?;
        self.pass_tuple(depth)?;
        self.pass_notes();
        Ok(())
    }

    #[cycle(walk)]
    fn pass_service(&mut self, depth: u32) -> Result<(), ReadError> {
        self.pass_mark(b'{')?;
        let mut names = BTreeSet::new(self.alloc);
        for _ in 0..self.rest.len() {
            if starts_mark(self.rest, b'}') {
                break;
            }
            self.pass_method(depth, &mut names)?;
            self.pass_separator(b';', b'}')?;
        }
        self.pass_mark(b'}')
    }

    // A method: its name, `:` and its type.
    #[cycle(walk)]
    fn pass_method(&mut self, depth: u32, names: &mut BTreeSet<Vec<u8>>) -> Result<(), ReadError> {
        let [first, rest @ ..] = self.rest else {
            return Err(ReadError::Refused);
        };
        let name = name_of(self.alloc, first)?;
        let is_new = names.insert(Vec::from_slice(self.alloc, name.items.as_bytes())?)?;
        self.check_shape(is_new)?;
        self.rest = rest;
        self.pass_mark(b':')?;
        self.pass_method_type(depth)
    }

    #[cycle(walk)]
    fn pass_method_type(&mut self, depth: u32) -> Result<(), ReadError> {
        if depth == 0 {
            return Err(ReadError::Refused);
        }
        if starts_mark(self.rest, b'(') {
            self.count_type()?;
            self.pass_function(depth - 1)
        } else {
            self.pass_method_name()
        }
    }

    // A definition after the word `type`.
    fn pass_definition(&mut self) -> Result<(), ReadError> {
        let [name, rest @ ..] = self.rest else {
            return Err(ReadError::Refused);
        };
        type_name(self.alloc, name)?;
        if let Sought::Definition(place) = self.sought {
            if self.definitions == place {
                return Err(ReadError::Refused);
            }
        }
        self.definitions = self.definitions.saturating_add(1);
        self.rest = rest;
        self.pass_mark(b'=')?;
        self.pass_type(MAX_DEPTH)
    }

    fn pass_definitions(&mut self) -> Result<(), ReadError> {
        for _ in 0..self.rest.len() {
            if !starts_word(self.rest, b"type") {
                break;
            }
            self.pass();
            self.pass_definition()?;
            if self.rest.is_empty() {
                break;
            }
            self.pass_mark(b';')?;
        }
        Ok(())
    }

    // The service's name, where it has one, and its colon.
    fn pass_service_name(&mut self) -> Result<(), ReadError> {
        if let [first, rest @ ..] = self.rest {
            if is_any_word(first) {
                self.rest = rest;
            }
        }
        self.pass_mark(b':')
    }

    // The methods of the file's service, or its name.
    fn pass_served(&mut self) -> Result<(), ReadError> {
        if starts_mark(self.rest, b'{') {
            self.count_type()?;
            return self.pass_service(MAX_DEPTH);
        }
        if let Sought::Shape(ended) = self.sought {
            self.check_shape(is_served(ended))?;
        }
        self.pass_name()
    }

    // The file's service after its word, and the file's end.
    fn pass_main(&mut self) -> Result<(), ReadError> {
        self.pass_service_name()?;
        if starts_mark(self.rest, b'(') {
            self.pass_tuple(MAX_DEPTH)?;
            self.pass_arrow()?;
        }
        self.pass_served()?;
        if starts_mark(self.rest, b';') {
            self.pass();
        }
        if self.rest.is_empty() {
            Ok(())
        } else {
            Err(ReadError::Refused)
        }
    }

    fn pass_file(&mut self) -> Result<(), ReadError> {
        self.pass_definitions()?;
        if self.rest.is_empty() {
            return Ok(());
        }
        if !starts_word(self.rest, b"service") {
            return Err(ReadError::Refused);
        }
        self.pass();
        self.pass_main()
    }
}
