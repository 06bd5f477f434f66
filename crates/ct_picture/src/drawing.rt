//! A picture that is drawn: a row for each statement, delivery and text.

use crate::columns::{Columns, MARGIN, ends_of};
use crate::svg::{LONGEST, LONGEST_NAME, STYLE, shown, width_of};
use ct_orders::{Delivery, TracedStatement};
use ct_outcomes::Named;
use ct_report::{label_text, push_escaped};
use ct_script::Trace;
use ct_sources::Sources;
use ic_base::NoMemory;
use ic_principal::{Bytes, Principal};
use ic_state::Response;
use std::alloc::Global;

/// The height of a row.
const ROW: usize = 34;

/// Where the names of the columns are, from above.
const TOP: usize = 22;

// How its arrow is drawn.
fn class_of(delivery: &Delivery<'_>) -> &'static str {
    match delivery {
        Delivery::Call { .. } => "call",
        Delivery::Answer { response, .. } => match response {
            Response::Reply(_) => "answer",
            Response::Reject { .. } => "answer bad",
        },
    }
}

// What is sent, without the dot or the blank in front.
fn bare(label: &[u8]) -> &[u8] {
    match label.first() {
        Some(b'.') | Some(b' ') => label.get(1..).unwrap_or(label),
        _ => label,
    }
}

/// A picture that is drawn: its columns, how many rows are there, and how far to the right texts go.
#[derive(Drop)]
pub(crate) struct Drawing<'t> {
    alloc: Global,
    sources: &'t Sources,
    columns: Columns,
    rows: usize,
    right: usize,
    lines: String,
}

impl<'t> Drawing<'t> {
    /// Nothing is drawn yet.
    pub(crate) fn new(alloc: Global, sources: &'t Sources, columns: Columns) -> Drawing<'t> {
        Drawing {
            alloc,
            sources,
            columns,
            rows: 0,
            right: 0,
            lines: String::new(alloc),
        }
    }

    // Where the last row is, from above.
    fn bottom(&self) -> usize {
        TOP.saturating_add(ROW.saturating_mul(self.rows))
    }

    fn next_row(&mut self) -> usize {
        self.rows = self.rows.saturating_add(1);
        self.bottom()
    }

    // A text that begins at a place.
    fn text(&mut self, class: &str, x: usize, y: usize, text: &[u8]) -> Result<(), NoMemory> {
        let end = x.saturating_add(width_of(text, LONGEST));
        self.right = self.right.max(end);
        let text = shown(self.alloc, text, LONGEST)?;
        let front = format!(in self.alloc; "<text class=\"{class}\" x=\"{x}\" y=\"{y}\">")?;
        self.lines.push_str(front.as_str())?;
        self.lines.push_str(text.as_str())?;
        self.lines.push_str("</text>\n")
    }

    /// A text in a row of its own.
    pub(crate) fn row(&mut self, class: &str, text: &[u8]) -> Result<(), NoMemory> {
        let y = self.next_row();
        self.text(class, MARGIN, y, text)
    }

    // An arrow from a place to another.
    fn arrow(&mut self, class: &str, from: usize, to: usize, y: usize) -> Result<(), NoMemory> {
        let line = format!(in self.alloc;
            "<path class=\"{class}\" d=\"M{from},{y} H{to}\" marker-end=\"url(#head)\"/>\n"
        )?;
        self.lines.push_str(line.as_str())
    }

    // An arrow from a place to itself.
    fn loop_at(&mut self, class: &str, x: usize, y: usize) -> Result<(), NoMemory> {
        let above = y.saturating_sub(12);
        let line = format!(in self.alloc;
            "<path class=\"{class}\" d=\"M{x},{above} h40 v12 h-38\" marker-end=\"url(#head)\"/>\n"
        )?;
        self.lines.push_str(line.as_str())
    }

    // An arrow, and what is sent above it.
    fn delivery(&mut self, names: &[Named], delivery: &Delivery<'_>) -> Result<(), NoMemory> {
        let (sender, receiver) = ends_of(delivery);
        let from = self.columns.middle_of(&sender);
        let to = self.columns.middle_of(&receiver);
        let class = class_of(delivery);
        let label = label_text(self.alloc, self.sources, names, delivery)?;
        let y = self.next_row();
        if from == to {
            self.loop_at(class, from, y)?;
            self.text(class, from.saturating_add(48), y, bare(&label.items))
        } else {
            self.arrow(class, from, to, y)?;
            let x = from.min(to).saturating_add(8);
            self.text(class, x, y.saturating_sub(6), bare(&label.items))
        }
    }

    // A text beside the line of a canister.
    fn beside(&mut self, class: &str, id: &Principal, text: &[u8]) -> Result<(), NoMemory> {
        let x = self.columns.middle_of(id).saturating_add(8);
        let y = self.next_row().saturating_sub(ROW / 2);
        self.text(class, x, y, text)
    }

    // What canisters said in the delivery with a number, as far as it is kept.
    fn texts(&mut self, trace: &Trace, number: u64) -> Result<(), NoMemory> {
        for spoken in &trace.spoken {
            if spoken.delivery == number {
                let mut text = Vec::new(self.alloc);
                push_escaped(self.alloc, &spoken.said.text.items, &mut text)?;
                self.beside("said", &spoken.canister, &text)?;
            }
        }
        Ok(())
    }

    // Which canisters trapped in the delivery with a number, as far as it is known.
    fn traps(&mut self, trace: &Trace, number: u64) -> Result<(), NoMemory> {
        for fallen in &trace.trapped {
            if fallen.delivery == number {
                self.beside("bad", &fallen.canister, b"\xe2\x9c\x95 trapped")?;
            }
        }
        Ok(())
    }

    /// The deliveries of a statement, with what canisters said.
    pub(crate) fn deliveries(
        &mut self,
        statement: &TracedStatement<'_>,
        trace: &Trace,
    ) -> Result<(), NoMemory> {
        let earlier = statement.earlier;
        if earlier > 0 {
            let told = format!(in self.alloc; "({earlier} before these)")?;
            self.row("statement", told.as_bytes())?;
        }
        for traced in &statement.deliveries {
            self.delivery(&statement.names.items, &traced.delivery)?;
            self.texts(trace, traced.number)?;
            self.traps(trace, traced.number)?;
        }
        Ok(())
    }

    // Adds the names of the columns, and a line down from each.
    fn push_columns(&self, out: &mut String) -> Result<(), NoMemory> {
        let begin = TOP.saturating_add(8);
        let end = self.bottom().saturating_add(8);
        for (place, name) in self.columns.names.iter().enumerate() {
            let x = self.columns.middle(place);
            let name = shown(self.alloc, &name.items, LONGEST_NAME)?;
            let line = format!(in self.alloc;
                "<path class=\"life\" d=\"M{x},{begin} V{end}\"/><text x=\"{x}\" y=\"{TOP}\" text-anchor=\"middle\">"
            )?;
            out.push_str(line.as_str())?;
            out.push_str(name.as_str())?;
            out.push_str("</text>\n")?;
        }
        Ok(())
    }

    /// The whole picture.
    pub(crate) fn into_svg(self) -> Result<Bytes, NoMemory> {
        let columns = self.columns.width.saturating_mul(self.columns.ids.len());
        let inside = self.right.max(columns.saturating_add(MARGIN));
        let width = inside.saturating_add(MARGIN);
        let height = self.bottom().saturating_add(ROW);
        let mut out = format!(in self.alloc;
            "<svg xmlns=\"http://www.w3.org/2000/svg\" width=\"{width}\" height=\"{height}\" viewBox=\"0 0 {width} {height}\">\n"
        )?;
        out.push_str(STYLE)?;
        self.push_columns(&mut out)?;
        out.push_str(self.lines.as_str())?;
        out.push_str("</svg>\n")?;
        Ok(Bytes {
            items: out.into_bytes(),
        })
    }
}
