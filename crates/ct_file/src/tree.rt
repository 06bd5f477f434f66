use crate::leaf::{Arguments, Installed, Name, Number, Quoted, Span};
use std::marker::Model;

/// A name or a text after a dot: a method of a canister.
#[derive(Drop)]
pub enum Method<'a> {
    Word(Name<'a>),
    Text(Quoted<'a>),
}

/// What an answer may be.
#[derive(Drop)]
pub enum Outcome<'a> {
    /// A reply, with these values where they are given.
    Replies(Option<Arguments<'a>>),
    /// A reject, with this code and with this part of its text where they are given.
    Rejects {
        code: Option<Number<'a>>,
        text: Option<Quoted<'a>>,
    },
    /// The inspection does not accept the call.
    Refused,
}

/// The outcomes that are expected; there are none where they are left out. Contracts see the list.
#[derive(Drop)]
pub struct Expected<'a> {
    pub items: Vec<Outcome<'a>>,
    pub span: Span,
}

impl<'a> Model for Expected<'a> {
    ghost use Rattle.std.specs.Prelude.{List};
    ghost use Rattle.ct_file.specs.declared.tree.Outcome.{Outcome};

    ghost Value = { List Outcome };

    ghost view = { λ e. e.items.items };
}

/// A call or a query: of which method, with what, and what must come back.
#[derive(Drop)]
pub struct Message<'a> {
    pub canister: Name<'a>,
    pub method: Method<'a>,
    pub arguments: Arguments<'a>,
    pub expected: Expected<'a>,
}

/// An upgrade or a reinstallation: of which canister, to which module and interface.
#[derive(Drop)]
pub struct Change<'a> {
    pub canister: Name<'a>,
    pub wasm: Quoted<'a>,
    pub interface: Option<Quoted<'a>>,
    pub arguments: Installed<'a>,
    pub expected: Expected<'a>,
}

/// What is done to a canister.
#[derive(Drop)]
pub enum Action<'a> {
    Call(Message<'a>),
    Query(Message<'a>),
    Upgrade(Change<'a>),
    Reinstall(Change<'a>),
}

/// An action, and the name after `as` of who does it. Contracts see these two.
#[derive(Drop)]
pub struct Move<'a> {
    pub by: Option<Name<'a>>,
    pub action: Action<'a>,
    pub span: Span,
}

impl<'a> Model for Move<'a> {
    ghost use Rattle.ct_file.specs.WrittenMove.{WrittenMove};

    ghost Value = { WrittenMove };

    ghost view = { λ m. record { by = m.by; action = m.action } };
}

/// A user that is named, with the text of its principal or without one.
#[derive(Drop)]
pub struct User<'a> {
    pub name: Name<'a>,
    pub principal: Option<Quoted<'a>>,
}

/// Users, one at least. Contracts see the list.
#[derive(Drop)]
pub struct Users<'a> {
    pub items: Vec<User<'a>>,
}

impl<'a> Model for Users<'a> {
    ghost use Rattle.std.specs.Prelude.{List};
    ghost use Rattle.ct_file.specs.declared.tree.User.{User};

    ghost Value = { List User };

    ghost view = { λ u. u.items.items };
}

/// A canister that is made: its module, its interface and what it is made with.
#[derive(Drop)]
pub struct Creation<'a> {
    pub wasm: Quoted<'a>,
    pub interface: Quoted<'a>,
    pub arguments: Installed<'a>,
    pub cycles: Option<Number<'a>>,
    pub expected: Expected<'a>,
}

/// Where a canister comes from.
#[derive(Drop)]
pub enum Origin<'a> {
    /// It is made.
    Made(Creation<'a>),
    /// It is there, under the principal of a text.
    Principal {
        id: Quoted<'a>,
        interface: Quoted<'a>,
    },
    /// It is there, as what the name means.
    Named {
        id: Name<'a>,
        interface: Quoted<'a>,
    },
}

/// What a statement says.
#[derive(Drop)]
pub enum StatementKind<'a> {
    Users(Users<'a>),
    Time(Number<'a>),
    /// A canister, and the name after `as` of who makes it.
    Canister {
        by: Option<Name<'a>>,
        name: Name<'a>,
        origin: Origin<'a>,
    },
    Move(Move<'a>),
}

/// A statement. Contracts see what it says.
#[derive(Drop)]
pub struct Statement<'a> {
    pub kind: StatementKind<'a>,
    pub span: Span,
}

impl<'a> Model for Statement<'a> {
    ghost use Rattle.ct_file.specs.declared.tree.StatementKind.{StatementKind};

    ghost Value = { StatementKind };

    ghost view = { λ s. s.kind };
}

/// Statements in their order. Contracts see the list.
#[derive(Drop)]
pub struct Statements<'a> {
    pub items: Vec<Statement<'a>>,
}

impl<'a> Model for Statements<'a> {
    ghost use Rattle.std.specs.Prelude.{List};
    ghost use Rattle.ct_file.specs.declared.tree.StatementKind.{StatementKind};

    ghost Value = { List StatementKind };

    ghost view = { λ s. s.items.items };
}

/// Moves whose messages are delivered in every order, one at least. Contracts see the list.
#[derive(Drop)]
pub struct Interleave<'a> {
    pub items: Vec<Move<'a>>,
    /// The place of the word `interleave`.
    pub place: usize,
}

impl<'a> Model for Interleave<'a> {
    ghost use Rattle.std.specs.Prelude.{List};
    ghost use Rattle.ct_file.specs.WrittenMove.{WrittenMove};

    ghost Value = { List WrittenMove };

    ghost view = { λ i. i.items.items };
}

/// A part of a test.
#[derive(Drop)]
pub enum Step<'a> {
    Statement(Statement<'a>),
    Interleave(Interleave<'a>),
}

/// The parts of a test, in order. Contracts see the list.
#[derive(Drop)]
pub struct Steps<'a> {
    pub items: Vec<Step<'a>>,
}

impl<'a> Model for Steps<'a> {
    ghost use Rattle.std.specs.Prelude.{List};
    ghost use Rattle.ct_file.specs.declared.tree.Step.{Step};

    ghost Value = { List Step };

    ghost view = { λ s. s.items.items };
}

#[derive(Drop)]
pub struct Test<'a> {
    pub name: Quoted<'a>,
    pub steps: Steps<'a>,
}

/// Tests in their order. Contracts see the list.
#[derive(Drop)]
pub struct Tests<'a> {
    pub items: Vec<Test<'a>>,
}

impl<'a> Model for Tests<'a> {
    ghost use Rattle.std.specs.Prelude.{List};
    ghost use Rattle.ct_file.specs.declared.tree.Test.{Test};

    ghost Value = { List Test };

    ghost view = { λ t. t.items.items };
}

/// A test file: the statements before its tests, and the tests.
pub struct File<'a> {
    pub preamble: Statements<'a>,
    pub tests: Tests<'a>,
}

// Not derived, so that it is proved here and not in each crate that drops one.
impl<'a> Drop for File<'a> {
    fn drop(self) {
        let File {
            preamble: _preamble,
            tests: _tests,
        } = self;
    }
}
