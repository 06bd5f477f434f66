ghost use Rattle.std.specs.Prelude.{◌≡◌};
ghost use Rattle.ct_file.specs.Words.{spelling};

use std::fmt;

/// A word that has a meaning in the grammar of test files. It may be a name as well.
#[derive(Clone, Copy, Debug, PartialEq, Eq)]
pub enum Keyword {
    User,
    Time,
    As,
    Canister,
    Principal,
    With,
    Cycles,
    Call,
    Query,
    Upgrade,
    Reinstall,
    Replies,
    Rejects,
    Refused,
    Or,
    Test,
    Interleave,
}

impl Keyword {
    /// How the word is written.
    #[tactic(auto, unfolding(crate::specs::Words::spelling))]
    pub fn spelling(self) -> &'static str
        ensures { result.now ≡ spelling self }
    {
        match self {
            Keyword::User => "user",
            Keyword::Time => "time",
            Keyword::As => "as",
            Keyword::Canister => "canister",
            Keyword::Principal => "principal",
            Keyword::With => "with",
            Keyword::Cycles => "cycles",
            Keyword::Call => "call",
            Keyword::Query => "query",
            Keyword::Upgrade => "upgrade",
            Keyword::Reinstall => "reinstall",
            Keyword::Replies => "replies",
            Keyword::Rejects => "rejects",
            Keyword::Refused => "refused",
            Keyword::Or => "or",
            Keyword::Test => "test",
            Keyword::Interleave => "interleave",
        }
    }
}

impl fmt::Display for Keyword {
    fn fmt<W: fmt::Write>(&self, f: &mut fmt::Formatter<W>) -> fmt::Result {
        f.write_str(self.spelling())
    }
}
