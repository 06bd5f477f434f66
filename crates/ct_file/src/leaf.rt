use cd_tokens::PlacedToken;
use std::marker::Model;

/// A part of a text: the offsets of its first byte, and of the token after it.
#[derive(Clone, Copy, Debug, PartialEq, Eq)]
pub struct Span {
    pub start: usize,
    pub end: usize,
}

/// A name. Contracts see its bytes.
#[derive(Drop)]
pub struct Name<'a> {
    pub bytes: &'a [u8],
    pub place: usize,
}

impl<'a> Model for Name<'a> {
    ghost use Rattle.std.specs.Prelude.{List, ℕ};

    ghost Value = { List ℕ };

    ghost view = { λ n. n.bytes.now };
}

/// A text, as it is written between its quotes. Contracts see that.
#[derive(Drop)]
pub struct Quoted<'a> {
    pub written: &'a [u8],
    pub place: usize,
}

impl<'a> Model for Quoted<'a> {
    ghost use Rattle.std.specs.Prelude.{List, ℕ};

    ghost Value = { List ℕ };

    ghost view = { λ q. q.written.now };
}

/// A number, and how it is written. Contracts see both.
#[derive(Drop)]
pub struct Number<'a> {
    pub written: &'a [u8],
    pub value: u128,
    pub place: usize,
}

impl<'a> Model for Number<'a> {
    ghost use Rattle.ct_file.specs.Number.{WrittenNumber};

    ghost Value = { WrittenNumber };

    ghost view = { λ n. record { written = n.written.now; value = n.value } };
}

/// The tokens between the parentheses of arguments. Contracts see these.
#[derive(Drop)]
pub struct Arguments<'a> {
    pub items: Vec<PlacedToken<'a>>,
    /// The place of the first parenthesis.
    pub place: usize,
    /// The place of the last one.
    pub end: usize,
}

impl<'a> Model for Arguments<'a> {
    ghost use Rattle.std.specs.Prelude.{List};
    ghost use Rattle.cd_tokens.specs.Placed.{placed_views};
    ghost use Rattle.cd_tokens.specs.Token.{Token};

    ghost Value = { List Token };

    ghost view = { λ a. placed_views a.items.items };
}

/// The arguments of an installation, which may be left out. Contracts see them alone.
#[derive(Drop)]
pub struct Installed<'a> {
    pub arguments: Option<Arguments<'a>>,
    /// The place of the token in whose place they would be.
    pub place: usize,
}

impl<'a> Model for Installed<'a> {
    ghost use Rattle.std.specs.Prelude.{List, Option};
    ghost use Rattle.cd_tokens.specs.Token.{Token};

    ghost Value = { Option (List Token) };

    ghost view = { λ i. i.arguments };
}
