ghost use Rattle.std.specs.Prelude.{◌≡◌};
ghost use Rattle.ic_base.specs.Gives.{Gives};
ghost use Rattle.cd_types.specs.Shape.{shape};
ghost use Rattle.cd_tokens.specs.Front.{starts};
ghost use Rattle.cd_tokens.specs.View.{token_view, token_views};
ghost use Rattle.ct_values.specs.Steps.{reading};
ghost use Rattle.ct_values.specs.Spelled.{is_free, starts_name, starts_hole, starts_others, first_label, missing_at, method_at};

use crate::cursor::Cursor;
use cd_codec::Value;
use cd_tokens::{Token, label_of, name_of};
use cd_types::{TyRef, TypeTable};
use ct_names::is_free_name;
use ct_patterns::Step;
use ic_base::ReadError;
use ic_principal::Text;
use std::alloc::Global;

/// What may be written where a value may.
#[derive(Clone, Copy, Debug, PartialEq, Eq)]
pub struct Admitted {
    /// `_`, `let NAME`, and `..` last in the braces of a record.
    pub patterns: bool,
    /// A name of which it is not known what it stands for.
    pub names: bool,
}

/// What patterns are read at.
#[derive(Clone, Copy)]
pub(crate) struct Reader<'r> {
    pub(crate) alloc: Global,
    pub(crate) table: &'r TypeTable,
    pub(crate) admitted: Admitted,
}

// Whether the token is a word that a name may be.
fn is_free(token: &Token<'_>) -> bool
    ensures { result ≡ is_free (token_view token.now) }
{
    match token {
        Token::Run(run) => is_free_name(run.bytes),
        Token::Quoted(_) => false,
        Token::Mark(_) => false,
        Token::Arrow => false,
    }
}

// Whether a word that a name may be comes first.
fn starts_free(tokens: &[Token<'_>]) -> bool
    ensures { result ≡ starts is_free (token_views tokens.now) }
{
    match tokens {
        [] => false,
        [first, ..] => is_free(first),
    }
}

impl<'r> Reader<'r> {
    /// Whether a name comes first of which it is not known what it stands for.
    pub(crate) fn starts_name(&self, cursor: &Cursor<'_, '_>) -> bool
        ensures { result ≡ starts_name self.now.admitted (token_views cursor.now.rest.now) }
    {
        self.admitted.names && starts_free(cursor.rest)
    }

    /// Whether `_` or `let` comes first.
    pub(crate) fn starts_hole(&self, cursor: &Cursor<'_, '_>) -> bool
        ensures { result ≡ starts_hole self.now.admitted (token_views cursor.now.rest.now) }
    {
        self.admitted.patterns && (cursor.starts_word(b"_") || cursor.starts_word(b"let"))
    }

    /// Whether `..` begins there.
    pub(crate) fn starts_others(&self, cursor: &Cursor<'_, '_>) -> bool
        ensures { result ≡ starts_others self.now.admitted (token_views cursor.now.rest.now) }
    {
        self.admitted.patterns && cursor.starts_mark(b'.')
    }

    /// The id of the label that comes first.
    pub(crate) fn label(&self, cursor: &Cursor<'_, '_>) -> Result<u32, ReadError>
        ensures { Gives (λ id. id) result (first_label (token_views cursor.now.rest.now)) }
    {
        match cursor.rest {
            [] => Err(ReadError::Refused),
            [first, ..] => label_of(self.alloc, first),
        }
    }

    /// What stands for a value that is not said, one level below the value that it is a part of.
    pub(crate) fn missing(
        &self,
        depth: u32,
        ty: TyRef,
        cursor: &mut Cursor<'_, '_>,
    ) -> Result<(), ReadError>
        ensures { Gives (λ done. reading cursor.new) result (missing_at depth (shape self.now.table.now ty) (reading cursor.old)) }
    {
        if depth == 0 {
            return Err(ReadError::Refused);
        }
        match Value::missing(self.table, ty) {
            None => Err(ReadError::Refused),
            Some(value) => {
                cursor.spend()?;
                cursor.push(Step::Is(value))
            }
        }
    }

    /// The name of a method.
    pub(crate) fn method(&self, cursor: &mut Cursor<'_, '_>) -> Result<Text, ReadError>
        ensures { Gives (λ name. (name, reading cursor.new)) result (method_at (reading cursor.old)) }
    {
        match cursor.rest {
            [] => Err(ReadError::Refused),
            [first, ..] => {
                let name = name_of(self.alloc, first)?;
                cursor.advance();
                Ok(name)
            }
        }
    }
}
