ghost use Rattle.std.specs.Prelude.{◌≡◌, ◌≤◌, ◌↔◌, IfOk, IfSome, length, true};
ghost use Rattle.cd_tokens.specs.Placed.{placed_views, are_within};
ghost use Rattle.ct_file.specs.Answer.{Answers, IsPlaced, IsInside};
ghost use Rattle.ct_file.specs.Fits.{IsFile};
ghost use Rattle.ct_file.specs.Gives.{Gives};
ghost use Rattle.ct_file.specs.Read.{ends_preamble, preamble_at, interleave_at, moves_at, step_at, steps_at, test_at, tests_at, file_at};
ghost use Rattle.ct_file.specs.declared.cause.FileError.TheVariants.{NoMemory};
ghost use Rattle.ct_file.specs.declared.cause.ParseError.TheVariants.{NoMemory as no_memory};
ghost use Rattle.ct_file.specs.declared.tree.File.{File};

use crate::cause::{Cause, Fault, FileError, ParseError, Wanted};
use crate::keyword::Keyword;
use crate::reader::Reader;
use crate::tokens::{FileTokens, file_tokens_of};
use crate::tree::{File, Interleave, Move, Statements, Step, Steps, Test, Tests};
use cd_tokens::PlacedToken;
use std::alloc::Global;

impl<'t, 'a> Reader<'t, 'a> {
    // Whether the statements before the tests end there.
    fn ends_preamble(&self) -> bool
        ensures { result ≡ ends_preamble (placed_views self.now.rest.now) }
    {
        self.is_done() || self.starts_word(Keyword::Test)
    }

    // The statements before the tests.
    #[tactic(auto, unfolding(crate::specs::Read::preamble_at))]
    fn preamble(&mut self) -> Result<Statements<'a>, ParseError>
        ensures { Gives (λ preamble. (preamble, placed_views self.new.rest.now)) result (preamble_at (placed_views self.old.rest.now)) }
    {
        let mut items = Vec::new(self.alloc);
        while !self.ends_preamble() {
            items.push(self.statement(Wanted::StatementOrTest)?)?;
        }
        Ok(Statements { items })
    }

    #[tactic(auto, unfolding(crate::specs::Read::interleave_at))]
    fn interleave(&mut self) -> Result<Interleave<'a>, ParseError>
        ensures { Gives (λ moves. (moves, placed_views self.new.rest.now)) result (interleave_at (placed_views self.old.rest.now)) }
    {
        let place = self.place();
        self.expect_word(Keyword::Interleave)?;
        self.expect_mark(b'{')?;
        let items = self.moves()?;
        self.expect_mark(b'}')?;
        Ok(Interleave { items, place })
    }

    // The moves of an interleave, up to its end.
    #[tactic(auto, unfolding(crate::specs::Read::moves_at))]
    fn moves(&mut self) -> Result<Vec<Move<'a>>, ParseError>
        ensures { Gives (λ moves. (moves.items, placed_views self.new.rest.now)) result (moves_at (placed_views self.old.rest.now)) }
    {
        let mut items = Vec::new(self.alloc);
        items.push(self.move_line(Wanted::Move)?)?;
        while !self.starts_mark(b'}') {
            items.push(self.move_line(Wanted::MoveOrEnd)?)?;
        }
        Ok(items)
    }

    #[tactic(auto, unfolding(crate::specs::Read::step_at))]
    fn step(&mut self) -> Result<Step<'a>, ParseError>
        ensures { Gives (λ step. (step, placed_views self.new.rest.now)) result (step_at (placed_views self.old.rest.now)) }
    {
        if self.starts_word(Keyword::Interleave) {
            Ok(Step::Interleave(self.interleave()?))
        } else {
            Ok(Step::Statement(self.statement(Wanted::StatementOrEnd)?))
        }
    }

    // The parts of a test, up to its end.
    #[tactic(auto, unfolding(crate::specs::Read::steps_at))]
    fn steps(&mut self) -> Result<Steps<'a>, ParseError>
        ensures { Gives (λ steps. (steps, placed_views self.new.rest.now)) result (steps_at (placed_views self.old.rest.now)) }
    {
        let mut items = Vec::new(self.alloc);
        while !self.starts_mark(b'}') {
            items.push(self.step()?)?;
        }
        Ok(Steps { items })
    }

    #[tactic(auto, unfolding(crate::specs::Read::test_at))]
    fn test(&mut self) -> Result<Test<'a>, ParseError>
        ensures { Gives (λ test. (test, placed_views self.new.rest.now)) result (test_at (placed_views self.old.rest.now)) }
    {
        self.expect_word(Keyword::Test)?;
        let name = self.text()?;
        self.expect_mark(b'{')?;
        let steps = self.steps()?;
        self.expect_mark(b'}')?;
        Ok(Test { name, steps })
    }

    // Tests, up to the end.
    #[tactic(auto, unfolding(crate::specs::Read::tests_at))]
    fn tests(&mut self) -> Result<Tests<'a>, ParseError>
        ensures { Gives (λ tests. (tests, placed_views self.new.rest.now)) result (tests_at (placed_views self.old.rest.now)) }
    {
        let mut items = Vec::new(self.alloc);
        while !self.is_done() {
            items.push(self.test()?)?;
        }
        Ok(Tests { items })
    }

    // The file that all the tokens are.
    #[tactic(auto, unfolding(crate::specs::Read::file_at))]
    fn file(&mut self) -> Result<File<'a>, ParseError>
        ensures { Gives (λ file. (file, placed_views self.new.rest.now)) result (file_at (placed_views self.old.rest.now)) }
    {
        let preamble = self.preamble()?;
        let tests = self.tests()?;
        Ok(File { preamble, tests })
    }
}

// The place of the first of the last `left` tokens, or of the text's end where there are none.
fn place_of(tokens: &[PlacedToken<'_>], left: usize, text: &[u8]) -> usize
    requires { are_within text.now tokens.now ≡ true }
    ensures { result ≤ length text.now }
{
    match tokens.len().checked_sub(left) {
        None => text.len(),
        Some(index) => match tokens.get(index) {
            None => text.len(),
            Some(token) => token.place,
        },
    }
}

// The fault where the reader stops before the last `left` tokens. Where none is left, a fault of the
// tokens is told in its place.
fn fault_of(cause: Cause, tokens: &FileTokens<'_>, left: usize, text: &[u8]) -> Fault
    requires within { are_within text.now tokens.now.items.items ≡ true }
    requires end { IfSome tokens.now.fault (λ fault. fault.place ≤ length text.now) }
    ensures { result.place ≤ length text.now }
{
    match tokens.fault {
        Some(fault) if left == 0 => fault,
        _ => Fault {
            place: place_of(&tokens.items, left, text),
            cause,
        },
    }
}

// Why no file is read.
fn error_of(parse_error: ParseError, tokens: &FileTokens<'_>, left: usize, text: &[u8]) -> FileError
    requires within { are_within text.now tokens.now.items.items ≡ true }
    requires end { IfSome tokens.now.fault (λ fault. fault.place ≤ length text.now) }
    ensures memory { (parse_error ≡ no_memory) ↔ (result ≡ NoMemory) }
    ensures placed { IsPlaced text.now result }
{
    let cause = match parse_error {
        ParseError::NoMemory => return FileError::NoMemory,
        ParseError::BadString => Cause::BadString,
        ParseError::Expected(wanted) => Cause::Expected(wanted),
    };
    FileError::Faulty(fault_of(cause, tokens, left, text))
}

/// The test file that a text is.
pub fn read<'a>(alloc: Global, text: &'a [u8]) -> Result<File<'a>, FileError>
    // What is answered is the file that the text is.
    ensures found { IfOk result (λ file. IsFile file text.now) }
    // The file that the text is is answered, unless memory runs out.
    ensures only { (file : File) → IsFile file text.now → Answers result file }
    // A fault is in the text, or at its end.
    ensures inside { IsInside text.now result }
{
    let tokens = file_tokens_of(alloc, text)?;
    let mut reader = Reader {
        alloc,
        rest: &tokens.items,
        end: text.len(),
    };
    match reader.file() {
        Ok(file) => match tokens.fault {
            None => Ok(file),
            Some(fault) => Err(FileError::Faulty(fault)),
        },
        Err(parse_error) => Err(error_of(parse_error, &tokens, reader.rest.len(), text)),
    }
}
