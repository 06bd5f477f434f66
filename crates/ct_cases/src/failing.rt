use ct_file::Span;
use ct_run::{Names, Unmet};

/// A case in which a statement is not met: where that is, what is told of it, what names stand for, and the deliveries
/// that led there.
#[derive(Drop)]
pub struct Failing<'i> {
    pub span: Span,
    pub unmet: Unmet<'i>,
    pub names: Names,
    pub order: Vec<usize>,
}
