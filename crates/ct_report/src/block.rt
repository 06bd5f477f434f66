ghost use Rattle.std.specs.Prelude.{◌≡◌, ◌++◌, IfOk, string_bytes};
ghost use Rattle.ct_report.specs.Texts.{block_text, column_at, failed_text, line_at, place_text, position_text, undecided_text};
ghost use Rattle.ct_report.specs.Told.{Tells};
ghost use Rattle.ct_report.specs.declared.tap.Block.{Block as ABlock};

use crate::came::{came_text, fixed};
use crate::delivery::delivery_text;
use crate::said::Naming;
use crate::tap::{Block, Lines, failed, push_block, push_undecided};
use ct_file::{Position, position_of};
use ct_orders::{NotMet, Retold, Told};
use ct_outcomes::Named;
use ct_run::Wanted;
use ct_script::written;
use ct_sources::Sources;
use ic_base::NoMemory;
use ic_principal::{Bytes, Text};
use std::alloc::Global;

// A place by line and column. What is after the text is its end.
#[tactic(auto, using(std::proofs::lemmas::List::take_min))]
fn position_at(text: &[u8], place: usize) -> Position
    ensures line { result.line ≡ line_at text.now place }
    ensures column { result.column ≡ column_at text.now place }
{
    position_of(text, place.min(text.len()))
}

// A position in the file of this name.
#[tactic(auto, unfolding(crate::specs::Texts::position_text))]
fn position_text(alloc: Global, name: &str, position: Position) -> Result<String, NoMemory>
    ensures { IfOk result (λ told. string_bytes told ≡ position_text name.now position.line position.column) }
{
    let Position { line, column } = position;
    let mut text = format!(in alloc; "{name}:{line}")?;
    write!(text, ":{column}")?;
    Ok(text)
}

// A place of a test file.
fn place_text(alloc: Global, name: &str, text: &[u8], place: usize) -> Result<String, NoMemory>
    ensures { IfOk result (λ told. string_bytes told ≡ place_text name.now text.now place) }
{
    position_text(alloc, name, position_at(text, place))
}

// What is expected, in one line.
fn wanted_text(alloc: Global, text: &[u8], wanted: Wanted) -> Result<Bytes, NoMemory> {
    match wanted {
        Wanted::Written(span) => written(alloc, text, span),
        Wanted::Reply => fixed(alloc, "replies"),
        Wanted::Canister => fixed(alloc, "a canister"),
    }
}

// Where executions trapped, and what canisters said.
fn heard(alloc: Global, names: &[Named], told: &Retold<'_>) -> Result<(Lines, Lines), NoMemory> {
    let naming = Naming { alloc, names };
    match &told.trace {
        None => Ok((naming.nothing(), naming.nothing())),
        Some(trace) => Ok((naming.trapped(trace)?, naming.said(trace)?)),
    }
}

/// What a test file is called on the command line, its text, and the files that it names.
#[derive(Clone, Copy)]
pub struct TestFile<'t> {
    pub name: &'t str,
    pub text: &'t [u8],
    pub sources: &'t Sources,
}

impl<'t> TestFile<'t> {
    // Adds the deliveries of an interleave, as they are told.
    fn add_deliveries(
        &self,
        alloc: Global,
        told: &Told<'_>,
        order: &mut Vec<Bytes>,
    ) -> Result<(), NoMemory> {
        let names = &told.names.items;
        for delivery in &told.deliveries {
            order.push(delivery_text(alloc, self.sources, names, delivery)?)?;
        }
        Ok(())
    }

    // The deliveries of interleaves, as they are told.
    fn order_of(&self, alloc: Global, interleaves: &[Told<'_>]) -> Result<Lines, NoMemory> {
        let mut items = Vec::new(alloc);
        for told in interleaves {
            self.add_deliveries(alloc, told, &mut items)?;
        }
        Ok(Lines { items })
    }

    // What is told of a statement that is not met.
    fn block(
        &self,
        alloc: Global,
        not_met: &NotMet<'_>,
        told: &Retold<'_>,
    ) -> Result<Block, NoMemory>
        ensures at { IfOk result (λ block. block.at ≡ place_text self.now.name.now self.now.text.now not_met.now.failure.span.start) }
        ensures got { IfOk result (λ block. Tells not_met.now.failure.unmet.came block.got) }
    {
        let failure = &not_met.failure;
        let unmet = &failure.unmet;
        let names = &not_met.names.items;
        let at = place_text(alloc, self.name, self.text, failure.span.start)?;
        let got = came_text(alloc, self.sources, unmet.at, names, &unmet.came)?;
        let (trapped, said) = heard(alloc, names, told)?;
        Ok(Block {
            at: Bytes {
                items: at.into_bytes(),
            },
            expected: wanted_text(alloc, self.text, unmet.wanted)?,
            got,
            order: self.order_of(alloc, &told.interleaves)?,
            trapped,
            said,
        })
    }

    /// The line and the block of a test that failed, by its number from 1 and its name, with what was told of the way on which
    /// it did.
    pub fn not_passed(
        &self,
        alloc: Global,
        number: usize,
        name: &Text,
        not_met: &NotMet<'_>,
        told: &Retold<'_>,
    ) -> Result<Bytes, NoMemory>
        ensures { IfOk result (λ told. (block : ABlock) × Tells not_met.now.failure.unmet.came block.got
            × (block.at ≡ place_text self.now.name.now self.now.text.now not_met.now.failure.span.start)
            × (told ≡ failed_text number name.now ++ block_text block)) }
    {
        let block = self.block(alloc, not_met, told)?;
        let mut items = failed(alloc, number, name)?.items;
        push_block(&block, &mut items)?;
        Ok(Bytes { items })
    }

    /// The line and the block of a test that is not decided, by its number from 1 and its name: the interleave at a
    /// place has more states than that.
    pub fn not_decided(
        &self,
        alloc: Global,
        number: usize,
        name: &Text,
        place: usize,
        states: u32,
    ) -> Result<Bytes, NoMemory>
        ensures { IfOk result (λ told. told ≡ failed_text number name.now ++ undecided_text (place_text self.now.name.now self.now.text.now place) states) }
    {
        let at = place_text(alloc, self.name, self.text, place)?;
        let mut items = failed(alloc, number, name)?.items;
        push_undecided(alloc, at.as_bytes(), states, &mut items)?;
        Ok(Bytes { items })
    }
}
