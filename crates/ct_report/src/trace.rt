//! What a test did, as comments: each statement with its deliveries, and what canisters said in each.

ghost use Rattle.std.specs.Prelude.{◌≡◌, List, ℕ, IfOk};
ghost use Rattle.ct_report.specs.Texts.{comments_text};

use crate::block::TestFile;
use crate::delivery::delivery_text;
use crate::said::Naming;
use crate::tap::push_comments;
use ct_file::{Span, position_of};
use ct_orders::{Retold, Traced, TracedStatement};
use ct_outcomes::Named;
use ct_script::{Trace, shown};
use ic_base::NoMemory;
use ic_principal::Bytes;
use std::alloc::Global;

// Adds a text further in.
fn push_indented(
    alloc: Global,
    blanks: &str,
    text: &[u8],
    out: &mut Vec<Bytes>,
) -> Result<(), NoMemory> {
    let mut items = String::from_str(alloc, blanks)?.into_bytes();
    items.extend_from_slice(text)?;
    out.push(Bytes { items })?;
    Ok(())
}

impl<'t> TestFile<'t> {
    /// A statement in one line, cut after 200 characters, after the number of its line.
    pub fn statement_text(&self, alloc: Global, span: Span) -> Result<Vec<u8>, NoMemory> {
        let line = position_of(self.text, span.start.min(self.text.len())).line;
        let mut items = format!(in alloc; "{line}: ")?.into_bytes();
        items.extend_from_slice(&shown(alloc, self.text, span)?.items)?;
        Ok(items)
    }

    // A delivery, the instructions that it used, and the cycles that it burned.
    fn delivery(
        &self,
        alloc: Global,
        names: &[Named],
        traced: &Traced<'_>,
    ) -> Result<Bytes, NoMemory> {
        let mut text = delivery_text(alloc, self.sources, names, &traced.delivery)?;
        let used = traced.used;
        if used > 0 {
            let told = format!(in alloc; ", {used} instructions")?;
            text.items.extend_from_slice(told.as_bytes())?;
        }
        let burned = traced.burned;
        if burned > 0 {
            let told = format!(in alloc; ", {burned} cycles burned")?;
            text.items.extend_from_slice(told.as_bytes())?;
        }
        Ok(text)
    }

    // Adds the deliveries of a statement, each with what canisters said in it.
    fn push_deliveries(
        &self,
        alloc: Global,
        statement: &TracedStatement<'_>,
        trace: &Trace,
        out: &mut Vec<Bytes>,
    ) -> Result<(), NoMemory> {
        let names = &statement.names.items;
        for traced in &statement.deliveries {
            let text = self.delivery(alloc, names, traced)?;
            push_indented(alloc, "  ", &text.items, out)?;
            push_texts(alloc, names, trace, traced.number, out)?;
        }
        Ok(())
    }

    fn push_statement(
        &self,
        alloc: Global,
        statement: &TracedStatement<'_>,
        trace: &Trace,
        out: &mut Vec<Bytes>,
    ) -> Result<(), NoMemory> {
        out.push(Bytes {
            items: self.statement_text(alloc, statement.span)?,
        })?;
        let earlier = statement.earlier;
        if earlier > 0 {
            let told = format!(in alloc; "  ({earlier} before these)")?;
            out.push(Bytes {
                items: told.into_bytes(),
            })?;
        }
        self.push_deliveries(alloc, statement, trace, out)
    }

    fn push_statements(
        &self,
        alloc: Global,
        statements: &[TracedStatement<'_>],
        trace: &Trace,
        out: &mut Vec<Bytes>,
    ) -> Result<(), NoMemory> {
        for statement in statements {
            self.push_statement(alloc, statement, trace, out)?;
        }
        Ok(())
    }

    /// What a test did, as comments: each statement with its deliveries, and what canisters said in each.
    pub fn traced(&self, alloc: Global, told: &Retold<'_>) -> Result<Bytes, NoMemory>
        ensures { IfOk result (λ told. (comments : List (List ℕ)) × (told ≡ comments_text comments)) }
    {
        let mut comments = Vec::new(alloc);
        if let Some(trace) = &told.trace {
            self.push_statements(alloc, &told.statements, trace, &mut comments)?;
        }
        let mut items = Vec::new(alloc);
        push_comments(&comments, &mut items)?;
        Ok(Bytes { items })
    }
}

// Adds what canisters said in the delivery with a number, as far as it is kept.
fn push_texts(
    alloc: Global,
    names: &[Named],
    trace: &Trace,
    number: u64,
    out: &mut Vec<Bytes>,
) -> Result<(), NoMemory> {
    let naming = Naming { alloc, names };
    for spoken in &trace.spoken {
        if spoken.delivery == number {
            let text = naming.spoken(spoken)?;
            push_indented(alloc, "    ", &text.items, out)?;
        }
    }
    Ok(())
}
