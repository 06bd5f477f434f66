ghost use Rattle.std.specs.Prelude.{◌≡◌, IfOk, OnOk, flat_map};
ghost use Rattle.cd_tokens.specs.ReadLabel.{text_of};
ghost use Rattle.ct_sources.specs.Named.{origin_files, change_files, move_files, statement_files, step_files, test_files, file_files, with_name, with_text, with_texts, no_names};

use cd_tokens::text_of;
use ct_file::{Action, Change, File, Move, Origin, Quoted, Statement, StatementKind, Step, Test};
use ct_scope::ByName;
use ic_base::{NoMemory, ReadError};
use ic_principal::Text;
use std::alloc::{AllocError, Global};
use std::marker::Model;

/// The names of files, each once, in the order in which a text has them.
#[derive(Drop)]
struct Listed {
    alloc: Global,
    names: Vec<Text>,
    known: ByName<()>,
}

impl Model for Listed {
    ghost use Rattle.ct_sources.specs.Named.{Listing};

    ghost Value = { Listing };

    ghost view = { λ l. record { names = l.names.items; known = l.known } };
}

impl Listed {
    fn add_name(&mut self, name: Text) -> Result<(), NoMemory>
        ensures { OnOk result (self.new ≡ with_name self.old name) }
    {
        match self.known.get(name.items.as_bytes()) {
            Some(()) => Ok(()),
            None => {
                self.known.put(self.alloc, name.items.as_bytes(), ())?;
                self.names.push(name)?;
                Ok(())
            }
        }
    }

    fn add(&mut self, quoted: &Quoted<'_>) -> Result<(), NoMemory>
        ensures { OnOk result (self.new ≡ with_text self.old (text_of quoted.now)) }
    {
        match text_of(self.alloc, quoted.written) {
            Ok(name) => self.add_name(name),
            Err(ReadError::Refused) => Ok(()),
            Err(ReadError::NoMemory) => Err(AllocError),
        }
    }

    fn add_origin(&mut self, origin: &Origin<'_>) -> Result<(), NoMemory>
        ensures { OnOk result (self.new ≡ with_texts self.old (origin_files origin.now)) }
    {
        match origin {
            Origin::Made(creation) => {
                self.add(&creation.wasm)?;
                self.add(&creation.interface)
            }
            Origin::Principal { interface, .. } => self.add(interface),
            Origin::Named { interface, .. } => self.add(interface),
        }
    }

    fn add_change(&mut self, change: &Change<'_>) -> Result<(), NoMemory>
        ensures { OnOk result (self.new ≡ with_texts self.old (change_files change.now)) }
    {
        self.add(&change.wasm)?;
        match &change.interface {
            None => Ok(()),
            Some(interface) => self.add(interface),
        }
    }

    fn add_move(&mut self, written: &Move<'_>) -> Result<(), NoMemory>
        ensures { OnOk result (self.new ≡ with_texts self.old (move_files written.now)) }
    {
        match &written.action {
            Action::Call(_) => Ok(()),
            Action::Query(_) => Ok(()),
            Action::Upgrade(change) => self.add_change(change),
            Action::Reinstall(change) => self.add_change(change),
        }
    }

    fn add_statement(&mut self, statement: &Statement<'_>) -> Result<(), NoMemory>
        ensures { OnOk result (self.new ≡ with_texts self.old (statement_files statement.now)) }
    {
        match &statement.kind {
            StatementKind::Users(_) => Ok(()),
            StatementKind::Time(_) => Ok(()),
            StatementKind::Canister { origin, .. } => self.add_origin(origin),
            StatementKind::Move(written) => self.add_move(written),
        }
    }

    fn add_moves(&mut self, moves: &[Move<'_>]) -> Result<(), NoMemory>
        ensures { OnOk result (self.new ≡ with_texts self.old (flat_map move_files moves.now)) }
    {
        for written in moves {
            self.add_move(written)?;
        }
        Ok(())
    }

    fn add_step(&mut self, step: &Step<'_>) -> Result<(), NoMemory>
        ensures { OnOk result (self.new ≡ with_texts self.old (step_files step.now)) }
    {
        match step {
            Step::Statement(statement) => self.add_statement(statement),
            Step::Interleave(interleave) => self.add_moves(&interleave.items),
        }
    }

    fn add_test(&mut self, test: &Test<'_>) -> Result<(), NoMemory>
        ensures { OnOk result (self.new ≡ with_texts self.old (test_files test.now)) }
    {
        for step in &test.steps.items {
            self.add_step(step)?;
        }
        Ok(())
    }

    fn add_tests(&mut self, tests: &[Test<'_>]) -> Result<(), NoMemory>
        ensures { OnOk result (self.new ≡ with_texts self.old (flat_map test_files tests.now)) }
    {
        for test in tests {
            self.add_test(test)?;
        }
        Ok(())
    }

    #[tactic(auto, using(crate::proofs::Listed::both))]
    fn add_file(&mut self, file: &File<'_>) -> Result<(), NoMemory>
        ensures { OnOk result (self.new ≡ with_texts self.old (file_files file.now)) }
    {
        self.add_preamble(&file.preamble.items)?;
        self.add_tests(&file.tests.items)
    }

    fn add_preamble(&mut self, statements: &[Statement<'_>]) -> Result<(), NoMemory>
        ensures { OnOk result (self.new ≡ with_texts self.old (flat_map statement_files statements.now)) }
    {
        for statement in statements {
            self.add_statement(statement)?;
        }
        Ok(())
    }
}

/// The names of the files that a test file names, as modules and as interfaces, each once, in the
/// order of its text. Time grows with the file, times the logarithm of the number of names.
pub fn named_files(alloc: Global, file: &File<'_>) -> Result<Vec<Text>, NoMemory>
    ensures { IfOk result (λ names. names.items ≡ (with_texts no_names (file_files file.now)).names) }
{
    let mut listed = Listed {
        alloc,
        names: Vec::new(alloc),
        known: ByName::new(alloc),
    };
    listed.add_file(file)?;
    Ok(listed.names)
}
