use ct_file::Span;
use ct_outcomes::{At, Came};

/// What is expected of a statement.
#[derive(Clone, Copy)]
pub enum Wanted {
    /// Any reply, where no outcomes are written.
    Reply,
    /// The outcomes that are written there.
    Written(Span),
    /// A canister that is there.
    Canister,
}

/// What came of a statement that is not met, and where a reply is read.
pub struct Unmet<'i> {
    pub wanted: Wanted,
    pub came: Came,
    pub at: Option<At<'i>>,
}

impl<'i> Drop for Unmet<'i> {
    fn drop(self) {
        let Unmet {
            wanted: _,
            came: _came,
            at: _,
        } = self;
    }
}

/// A statement that is not met: how many come before it in the test, and where it is in the file.
pub struct Failure<'i> {
    pub place: usize,
    pub span: Span,
    pub unmet: Unmet<'i>,
}

impl<'i> Drop for Failure<'i> {
    fn drop(self) {
        let Failure {
            place: _,
            span: _,
            unmet: _unmet,
        } = self;
    }
}
