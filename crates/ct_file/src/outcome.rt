ghost use Rattle.std.specs.Prelude.{◌≡◌, ◌&&◌, if◌then◌else◌, [], IfOk, Some, None};
ghost use Rattle.cd_tokens.specs.Front.{is_mark, starts};
ghost use Rattle.cd_tokens.specs.Placed.{placed_view, placed_views};
ghost use Rattle.cd_tokens.specs.View.{token_view};
ghost use Rattle.ct_file.specs.Codes.{closing_code};
ghost use Rattle.ct_file.specs.Fits.{none_open, in_braces, closers_after, closed_by};
ghost use Rattle.ct_file.specs.Gives.{Gives};
ghost use Rattle.ct_file.specs.Read.{starts_outcome, token_inside, arguments_at, maybe_arguments_at, maybe_code_at, maybe_text_at, map_at, rejects_of, reject_at, outcome_at, alternative_at, outcomes_at, expected_at, inside_at};

use crate::cause::{ParseError, Wanted};
use crate::keyword::Keyword;
use crate::leaf::{Arguments, Installed, Number, Quoted, Span};
use crate::reader::Reader;
use crate::tree::{Expected, Outcome};
use cd_tokens::{PlacedToken, Token};
use ic_base::{NoMemory, Stack};

// Whether the mark closes the innermost bracket that is open; then it does.
fn close(closers: &mut Stack<u8>, mark: u8) -> bool
    ensures { (if result then Some closers.new else None) ≡ closed_by mark closers.old }
{
    match closers.top() {
        None => false,
        Some(top) => {
            if *top != mark {
                return false;
            }
            let _top = closers.pop();
            true
        }
    }
}

fn is_in_braces(closers: &Stack<u8>) -> bool
    ensures { result ≡ in_braces closers.now }
{
    match closers.top() {
        None => false,
        Some(top) => *top == b'}',
    }
}

// Whether the token may be there; then `closers` is what is left to close after it.
fn follows(closers: &mut Stack<u8>, token: &Token<'_>) -> Result<bool, NoMemory>
    ensures { IfOk result (λ may. (if may then Some closers.new else None) ≡ closers_after closers.old (token_view token.now)) }
{
    match token {
        Token::Mark(mark) => match *mark {
            b'(' => {
                closers.push(b')')?;
                Ok(true)
            }
            b'{' => {
                closers.push(b'}')?;
                Ok(true)
            }
            b')' | b'}' => Ok(close(closers, *mark)),
            b';' => Ok(is_in_braces(closers)),
            _ => Ok(true),
        },
        Token::Run(_) => Ok(true),
        Token::Quoted(_) => Ok(true),
        Token::Arrow => Ok(true),
    }
}

// The closing mark that is wanted where no other token goes on.
fn wanted_mark(closers: &Stack<u8>) -> Wanted {
    match closers.top() {
        None => Wanted::Mark(b')'),
        Some(mark) => Wanted::Mark(*mark),
    }
}

impl<'t, 'a> Reader<'t, 'a> {
    // A token of arguments.
    fn token_inside(&mut self, closers: &mut Stack<u8>) -> Result<PlacedToken<'a>, ParseError>
        ensures { Gives (λ token. (placed_view token, closers.new, placed_views self.new.rest.now)) result (token_inside closers.old (placed_views self.old.rest.now)) }
    {
        match self.rest {
            [] => Err(ParseError::Expected(wanted_mark(closers))),
            [first, rest @ ..] => {
                if !follows(closers, &first.token)? {
                    return Err(ParseError::Expected(wanted_mark(closers)));
                }
                self.rest = rest;
                Ok(first.copy())
            }
        }
    }

    // Whether the parenthesis that closes comes first.
    #[tactic(auto, using(crate::proofs::Loops::none_open_is))]
    fn ends_arguments(&self, closers: &Stack<u8>) -> bool
        ensures { result ≡ (none_open closers.now && starts (is_mark closing_code) (placed_views self.now.rest.now)) }
    {
        closers.is_empty() && self.starts_mark(b')')
    }

    // Tokens up to the parenthesis that closes.
    fn tokens_inside(&mut self) -> Result<Vec<PlacedToken<'a>>, ParseError>
        ensures { Gives (λ tokens. (placed_views tokens.items, placed_views self.new.rest.now)) result (inside_at [] (placed_views self.old.rest.now)) }
    {
        let mut closers = Stack::new(self.alloc);
        let mut items = Vec::new(self.alloc);
        while !self.ends_arguments(&closers) {
            items.push(self.token_inside(&mut closers)?)?;
        }
        Ok(items)
    }

    #[tactic(auto, unfolding(crate::specs::Read::arguments_at))]
    pub(crate) fn arguments(&mut self) -> Result<Arguments<'a>, ParseError>
        ensures { Gives (λ arguments. (arguments, placed_views self.new.rest.now)) result (arguments_at (placed_views self.old.rest.now)) }
    {
        let place = self.place();
        self.expect_mark(b'(')?;
        let items = self.tokens_inside()?;
        let end = self.place();
        self.expect_mark(b')')?;
        Ok(Arguments { items, place, end })
    }

    fn maybe_arguments(&mut self) -> Result<Option<Arguments<'a>>, ParseError>
        ensures { Gives (λ arguments. (arguments, placed_views self.new.rest.now)) result (maybe_arguments_at (placed_views self.old.rest.now)) }
    {
        if self.starts_mark(b'(') {
            Ok(Some(self.arguments()?))
        } else {
            Ok(None)
        }
    }

    pub(crate) fn installed(&mut self) -> Result<Installed<'a>, ParseError>
        ensures { Gives (λ installed. (installed, placed_views self.new.rest.now)) result (maybe_arguments_at (placed_views self.old.rest.now)) }
    {
        let place = self.place();
        let arguments = self.maybe_arguments()?;
        Ok(Installed { arguments, place })
    }

    fn maybe_code(&mut self) -> Result<Option<Number<'a>>, ParseError>
        ensures { Gives (λ code. (code, placed_views self.new.rest.now)) result (maybe_code_at (placed_views self.old.rest.now)) }
    {
        if self.starts_number() {
            Ok(Some(self.number(1, 5)?))
        } else {
            Ok(None)
        }
    }

    fn maybe_text(&mut self) -> Result<Option<Quoted<'a>>, ParseError>
        ensures { Gives (λ text. (text, placed_views self.new.rest.now)) result (maybe_text_at (placed_views self.old.rest.now)) }
    {
        if self.starts_text() {
            Ok(Some(self.text()?))
        } else {
            Ok(None)
        }
    }

    // A reject after its word.
    #[tactic(auto, unfolding(crate::specs::Read::reject_at))]
    fn rejects(&mut self) -> Result<Outcome<'a>, ParseError>
        ensures { Gives (λ outcome. (outcome, placed_views self.new.rest.now)) result (map_at rejects_of reject_at (placed_views self.old.rest.now)) }
    {
        let code = self.maybe_code()?;
        let text = self.maybe_text()?;
        Ok(Outcome::Rejects { code, text })
    }

    #[tactic(auto, unfolding(crate::specs::Read::outcome_at))]
    fn outcome(&mut self) -> Result<Outcome<'a>, ParseError>
        ensures { Gives (λ outcome. (outcome, placed_views self.new.rest.now)) result (outcome_at (placed_views self.old.rest.now)) }
    {
        if self.starts_word(Keyword::Replies) {
            self.advance();
            Ok(Outcome::Replies(self.maybe_arguments()?))
        } else if self.starts_word(Keyword::Rejects) {
            self.advance();
            self.rejects()
        } else if self.starts_word(Keyword::Refused) {
            self.advance();
            Ok(Outcome::Refused)
        } else {
            Err(ParseError::Expected(Wanted::Outcome))
        }
    }

    // Whether an outcome comes first.
    fn starts_outcome(&self) -> bool
        ensures { result ≡ starts_outcome (placed_views self.now.rest.now) }
    {
        self.starts_word(Keyword::Replies)
            || self.starts_word(Keyword::Rejects)
            || self.starts_word(Keyword::Refused)
    }

    // An outcome after `or`.
    fn alternative(&mut self) -> Result<Outcome<'a>, ParseError>
        ensures { Gives (λ outcome. (outcome, placed_views self.new.rest.now)) result (alternative_at (placed_views self.old.rest.now)) }
    {
        self.expect_word(Keyword::Or)?;
        self.outcome()
    }

    // Outcomes with `or` between them.
    #[tactic(auto, unfolding(crate::specs::Read::outcomes_at))]
    fn outcomes(&mut self) -> Result<Vec<Outcome<'a>>, ParseError>
        ensures { Gives (λ outcomes. (outcomes.items, placed_views self.new.rest.now)) result (outcomes_at (placed_views self.old.rest.now)) }
    {
        let mut items = Vec::new(self.alloc);
        items.push(self.outcome()?)?;
        while self.starts_word(Keyword::Or) {
            items.push(self.alternative()?)?;
        }
        Ok(items)
    }

    #[tactic(auto, unfolding(crate::specs::Read::expected_at))]
    pub(crate) fn expected(&mut self) -> Result<Expected<'a>, ParseError>
        ensures { Gives (λ expected. (expected, placed_views self.new.rest.now)) result (expected_at (placed_views self.old.rest.now)) }
    {
        let start = self.place();
        let items = if self.starts_outcome() {
            self.outcomes()?
        } else {
            Vec::new(self.alloc)
        };
        let end = self.place();
        let span = Span { start, end };
        Ok(Expected { items, span })
    }
}
