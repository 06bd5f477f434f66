ghost use Rattle.std.specs.Prelude.{◌≡◌, length, drop};
ghost use Rattle.ic_base.specs.Gives.{Gives};
ghost use Rattle.cd_tokens.specs.Front.{is_mark, is_word, starts};
ghost use Rattle.cd_tokens.specs.View.{token_views};
ghost use Rattle.ct_values.specs.Steps.{step_view, reading};
ghost use Rattle.ct_values.specs.Spelled.{past, mark_at, word_at, braces_at, separator_at, comma_at, spend, add, put, bound_at, hole_at, others_at, unnamed};

use cd_tokens::{Token, is_name, rest_of, starts_mark, starts_word};
use cd_types::TyRef;
use ct_patterns::Step;
use ic_base::ReadError;

/// Tokens that are left, and the steps of the pattern that was read. Where what is read is `Refused`,
/// the first of the tokens is the one with which no text goes on.
#[derive(Drop)]
pub(crate) struct Cursor<'t, 'a> {
    pub(crate) steps: Vec<Step<'a>>,
    /// How many values may still be said.
    pub(crate) left: u32,
    pub(crate) rest: &'t [Token<'a>],
}

impl<'t, 'a> Cursor<'t, 'a> {
    pub(crate) fn starts_mark(&self, mark: u8) -> bool
        ensures { result ≡ starts (is_mark mark) (token_views self.now.rest.now) }
    {
        starts_mark(self.rest, mark)
    }

    pub(crate) fn starts_word(&self, word: &[u8]) -> bool
        ensures { result ≡ starts (is_word word.now) (token_views self.now.rest.now) }
    {
        starts_word(self.rest, word)
    }

    /// Goes past the first token, if one is left.
    pub(crate) fn advance(&mut self)
        ensures { reading self.new ≡ past (reading self.old) }
    {
        self.rest = rest_of(self.rest);
    }

    /// Goes past the mark.
    pub(crate) fn mark(&mut self, mark: u8) -> Result<(), ReadError>
        ensures { Gives (λ done. reading self.new) result (mark_at mark (reading self.old)) }
    {
        if !self.starts_mark(mark) {
            return Err(ReadError::Refused);
        }
        self.advance();
        Ok(())
    }

    /// Goes past the word.
    pub(crate) fn word(&mut self, word: &[u8]) -> Result<(), ReadError>
        ensures { Gives (λ done. reading self.new) result (word_at word.now (reading self.old)) }
    {
        if !self.starts_word(word) {
            return Err(ReadError::Refused);
        }
        self.advance();
        Ok(())
    }

    /// Goes past the word and an opening brace.
    pub(crate) fn braces(&mut self, word: &[u8]) -> Result<(), ReadError>
        ensures { Gives (λ done. reading self.new) result (braces_at word.now (reading self.old)) }
    {
        self.word(word)?;
        self.mark(b'{')
    }

    /// Goes past the semicolon after a part in braces; none is needed before the closing brace.
    pub(crate) fn separator(&mut self) -> Result<(), ReadError>
        ensures { Gives (λ done. reading self.new) result (separator_at (reading self.old)) }
    {
        if self.starts_mark(b'}') {
            return Ok(());
        }
        self.mark(b';')
    }

    /// Goes past the comma after an argument; none is needed at the end.
    pub(crate) fn comma(&mut self) -> Result<(), ReadError>
        ensures { Gives (λ done. reading self.new) result (comma_at (reading self.old)) }
    {
        if self.rest.is_empty() {
            return Ok(());
        }
        self.mark(b',')
    }

    /// Takes one of the values that may be said.
    pub(crate) fn spend(&mut self) -> Result<(), ReadError>
        ensures { Gives (λ done. reading self.new) result (spend (reading self.old)) }
    {
        if self.left == 0 {
            return Err(ReadError::Refused);
        }
        self.left -= 1;
        Ok(())
    }

    pub(crate) fn push(&mut self, step: Step<'a>) -> Result<(), ReadError>
        ensures { Gives (λ done. reading self.new) result (add (step_view step.entry) (reading self.old)) }
    {
        self.steps.push(step)?;
        Ok(())
    }

    /// How many tokens are left.
    pub(crate) fn tokens_left(&self) -> usize
        ensures { result ≡ length (reading self.now).2 }
    {
        self.rest.len()
    }

    /// How many steps were read.
    pub(crate) fn len(&self) -> usize
        ensures { result ≡ length (reading self.now).0 }
    {
        self.steps.len()
    }

    /// Puts a step in the place of one that was pushed before its parts were read.
    pub(crate) fn put(&mut self, at: usize, step: Step<'a>)
        ensures { reading self.new ≡ put at (step_view step.entry) (reading self.old) }
    {
        if at < self.steps.len() {
            self.steps[at] = step;
        }
    }

    /// The name that `let` binds.
    pub(crate) fn bound(&mut self, ty: TyRef) -> Result<(), ReadError>
        ensures { Gives (λ done. reading self.new) result (bound_at ty (reading self.old)) }
    {
        match self.rest {
            [] => Err(ReadError::Refused),
            [first, ..] => match first {
                Token::Run(run) => {
                    if !is_name(run.bytes) {
                        return Err(ReadError::Refused);
                    }
                    let name = run.copy();
                    self.advance();
                    self.push(Step::Bound { name, ty })
                }
                Token::Quoted(_) | Token::Mark(_) | Token::Arrow => Err(ReadError::Refused),
            },
        }
    }

    /// `_`, or `let` and a name.
    pub(crate) fn hole(&mut self, ty: TyRef) -> Result<(), ReadError>
        ensures { Gives (λ done. reading self.new) result (hole_at ty (reading self.old)) }
    {
        if self.starts_word(b"_") {
            self.advance();
            return self.push(Step::Any);
        }
        self.word(b"let")?;
        self.bound(ty)
    }

    /// Goes past `..`, and past a semicolon if it has one.
    pub(crate) fn others(&mut self) -> Result<(), ReadError>
        ensures { Gives (λ done. reading self.new) result (others_at (reading self.old)) }
    {
        self.mark(b'.')?;
        self.mark(b'.')?;
        self.separator()
    }

    /// Whether a label and `=` come first.
    pub(crate) fn is_labelled(&self) -> bool
        ensures { result ≡ starts (is_mark 61) (drop 1 (token_views self.now.rest.now)) }
    {
        starts_mark(rest_of(self.rest), b'=')
    }

    /// A name, in whose place any value may be.
    pub(crate) fn name(&mut self) -> Result<(), ReadError>
        ensures { Gives (λ done. reading self.new) result (unnamed (reading self.old)) }
    {
        self.advance();
        self.push(Step::Any)
    }
}
