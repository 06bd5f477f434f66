//! The order of a test as a sequence diagram in SVG: a column for each user and canister, and an arrow for each delivery.
#![tactic(auto)]

mod columns;
mod drawing;
mod svg;

use crate::columns::Columns;
use crate::drawing::Drawing;
use ct_orders::{NotMet, Retold, TracedStatement};
use ct_outcomes::Named;
use ct_report::{TestFile, came_text};
use ct_script::Trace;
use ic_base::NoMemory;
use ic_principal::Bytes;
use std::alloc::Global;

// What names stand for after the last statement.
fn last_names<'r>(told: &'r Retold<'_>) -> &'r [Named] {
    match told.statements.last() {
        Some(statement) => &statement.names.items,
        None => &[],
    }
}

fn draw_statements(
    alloc: Global,
    file: &TestFile<'_>,
    statements: &[TracedStatement<'_>],
    trace: &Trace,
    drawing: &mut Drawing<'_>,
) -> Result<(), NoMemory> {
    for statement in statements {
        let text = file.statement_text(alloc, statement.span)?;
        drawing.row("statement", &text)?;
        drawing.deliveries(statement, trace)?;
    }
    Ok(())
}

// The statement that is not met, and what came instead.
fn draw_unmet(
    alloc: Global,
    file: &TestFile<'_>,
    not_met: &NotMet<'_>,
    drawing: &mut Drawing<'_>,
) -> Result<(), NoMemory> {
    let failure = &not_met.failure;
    let unmet = &failure.unmet;
    let names = &not_met.names.items;
    let mut text = String::from_str(alloc, "not met: ")?.into_bytes();
    text.extend_from_slice(&file.statement_text(alloc, failure.span)?)?;
    drawing.row("bad", &text)?;
    let mut text = String::from_str(alloc, "got: ")?.into_bytes();
    let came = came_text(alloc, file.sources, unmet.at, names, &unmet.came)?;
    text.extend_from_slice(&came.items)?;
    drawing.row("bad", &text)
}

/// The order of a test of a file as a sequence diagram in SVG, with the statement that is not met beneath it, if there is
/// one. A text of which not all is shown ends in an ellipsis.
pub fn picture(
    alloc: Global,
    file: &TestFile<'_>,
    told: &Retold<'_>,
    not_met: Option<&NotMet<'_>>,
) -> Result<Bytes, NoMemory> {
    let columns = Columns::of(alloc, &told.statements, last_names(told))?;
    let mut drawing = Drawing::new(alloc, file.sources, columns);
    if let Some(trace) = &told.trace {
        draw_statements(alloc, file, &told.statements, trace, &mut drawing)?;
    }
    if let Some(not_met) = not_met {
        draw_unmet(alloc, file, not_met, &mut drawing)?;
    }
    drawing.into_svg()
}
