use cd_did::Method;
use cd_tokens::Piece;
use ct_file::{Arguments, Span};
use ct_scope::InterfaceId;
use ic_principal::{Principal, Text};
use std::marker::Model;

/// Arguments, or the values of an outcome, and the slots of the names that they use, in order. Contracts see the
/// tokens and the slots.
#[derive(Drop)]
pub struct Filled<'f, 'a> {
    pub arguments: &'f Arguments<'a>,
    pub names: Vec<usize>,
}

impl<'f, 'a> Model for Filled<'f, 'a> {
    ghost use Rattle.ct_check.specs.Filling.{Filling};

    ghost Value = { Filling };

    ghost view = { λ f. record { tokens = f.arguments.now; names = f.names.items } };
}

/// What an answer may be. Names that are bound get the next slots, in order.
#[derive(Drop)]
pub enum CheckedOutcome<'f, 'a> {
    /// A reply, with these values where they are given.
    Replies(Option<Filled<'f, 'a>>),
    /// A reject, with this code and with this part of its text where they are given.
    Rejects {
        code: Option<u128>,
        text: Option<Text>,
    },
    /// The inspection does not accept the call.
    Refused,
}

/// The outcomes that are expected; there are none where they are left out. Contracts see the list.
#[derive(Drop)]
pub struct CheckedOutcomes<'f, 'a> {
    pub items: Vec<CheckedOutcome<'f, 'a>>,
    pub span: Span,
}

impl<'f, 'a> Model for CheckedOutcomes<'f, 'a> {
    ghost use Rattle.std.specs.Prelude.{List};
    ghost use Rattle.ct_check.specs.declared.checked.CheckedOutcome.{CheckedOutcome};

    ghost Value = { List CheckedOutcome };

    ghost view = { λ o. o.items.items };
}

/// A call or a query: of the canister in a slot, by a method of an interface.
#[derive(Drop)]
pub struct CheckedMessage<'f, 'i, 'a> {
    pub canister: usize,
    pub interface: InterfaceId,
    pub name: Text,
    pub method: Method<'i>,
    pub arguments: Filled<'f, 'a>,
    pub expected: CheckedOutcomes<'f, 'a>,
}

/// An upgrade or a reinstallation of the canister in a slot, to the module of a file.
#[derive(Drop)]
pub struct CheckedChange<'f, 'a> {
    pub canister: usize,
    pub wasm: usize,
    /// The interface in use before.
    pub before: InterfaceId,
    /// The interface of its file, or else the one in use.
    pub interface: InterfaceId,
    pub arguments: Option<Filled<'f, 'a>>,
    pub expected: CheckedOutcomes<'f, 'a>,
}

/// What is done to a canister.
#[derive(Drop)]
pub enum CheckedAction<'f, 'i, 'a> {
    Call(CheckedMessage<'f, 'i, 'a>),
    Query(CheckedMessage<'f, 'i, 'a>),
    Upgrade(CheckedChange<'f, 'a>),
    Reinstall(CheckedChange<'f, 'a>),
}

/// An action, and the slot of who does it. Contracts see these two.
#[derive(Drop)]
pub struct CheckedMove<'f, 'i, 'a> {
    pub by: usize,
    pub action: CheckedAction<'f, 'i, 'a>,
    pub span: Span,
}

impl<'f, 'i, 'a> Model for CheckedMove<'f, 'i, 'a> {
    ghost use Rattle.ct_check.specs.Moving.{Moving};

    ghost Value = { Moving };

    ghost view = { λ m. record { by = m.by; action = m.action } };
}

/// A canister that is made of the module of a file.
#[derive(Drop)]
pub struct CheckedCreation<'f, 'a> {
    pub wasm: usize,
    pub interface: InterfaceId,
    pub arguments: Option<Filled<'f, 'a>>,
    pub cycles: Option<u128>,
    pub expected: CheckedOutcomes<'f, 'a>,
}

/// Where a canister comes from.
#[derive(Drop)]
pub enum CheckedOrigin<'f, 'a> {
    /// It is made.
    Made(CheckedCreation<'f, 'a>),
    /// It is there.
    Principal {
        id: Principal,
        interface: InterfaceId,
    },
    /// It is there, as what the name in a slot stands for.
    Named {
        slot: usize,
        interface: InterfaceId,
    },
}

/// A user, and its principal.
#[derive(Drop)]
pub struct CheckedUser<'a> {
    pub name: Piece<'a>,
    pub principal: Principal,
}

/// Users, one at least. Contracts see the list.
#[derive(Drop)]
pub struct CheckedUsers<'a> {
    pub items: Vec<CheckedUser<'a>>,
}

impl<'a> Model for CheckedUsers<'a> {
    ghost use Rattle.std.specs.Prelude.{List};
    ghost use Rattle.ct_check.specs.declared.checked.CheckedUser.{CheckedUser};

    ghost Value = { List CheckedUser };

    ghost view = { λ u. u.items.items };
}

/// What a statement says. Users get the next slots in order, and a canister the next one.
#[derive(Drop)]
pub enum CheckedKind<'f, 'i, 'a> {
    Users(CheckedUsers<'a>),
    Time(u128),
    /// A canister, and the slot of who makes it.
    Canister {
        by: usize,
        name: Piece<'a>,
        origin: CheckedOrigin<'f, 'a>,
    },
    Move(CheckedMove<'f, 'i, 'a>),
}

/// A statement. Contracts see what it says.
#[derive(Drop)]
pub struct CheckedStatement<'f, 'i, 'a> {
    pub kind: CheckedKind<'f, 'i, 'a>,
    pub span: Span,
}

impl<'f, 'i, 'a> Model for CheckedStatement<'f, 'i, 'a> {
    ghost use Rattle.ct_check.specs.declared.checked.CheckedKind.{CheckedKind};

    ghost Value = { CheckedKind };

    ghost view = { λ s. s.kind };
}

/// Statements in their order. Contracts see the list.
#[derive(Drop)]
pub struct CheckedStatements<'f, 'i, 'a> {
    pub items: Vec<CheckedStatement<'f, 'i, 'a>>,
}

impl<'f, 'i, 'a> Model for CheckedStatements<'f, 'i, 'a> {
    ghost use Rattle.std.specs.Prelude.{List};
    ghost use Rattle.ct_check.specs.declared.checked.CheckedKind.{CheckedKind};

    ghost Value = { List CheckedKind };

    ghost view = { λ s. s.items.items };
}

/// Moves whose messages are delivered in every order, one at least. Contracts see the list.
#[derive(Drop)]
pub struct CheckedInterleave<'f, 'i, 'a> {
    pub items: Vec<CheckedMove<'f, 'i, 'a>>,
    /// The place of the word `interleave`.
    pub place: usize,
}

impl<'f, 'i, 'a> Model for CheckedInterleave<'f, 'i, 'a> {
    ghost use Rattle.std.specs.Prelude.{List};
    ghost use Rattle.ct_check.specs.Moving.{Moving};

    ghost Value = { List Moving };

    ghost view = { λ i. i.items.items };
}

/// A part of a test.
#[derive(Drop)]
pub enum CheckedStep<'f, 'i, 'a> {
    Statement(CheckedStatement<'f, 'i, 'a>),
    Interleave(CheckedInterleave<'f, 'i, 'a>),
}

/// The parts of a test, in order. Contracts see the list.
#[derive(Drop)]
pub struct CheckedSteps<'f, 'i, 'a> {
    pub items: Vec<CheckedStep<'f, 'i, 'a>>,
}

impl<'f, 'i, 'a> Model for CheckedSteps<'f, 'i, 'a> {
    ghost use Rattle.std.specs.Prelude.{List};
    ghost use Rattle.ct_check.specs.declared.checked.CheckedStep.{CheckedStep};

    ghost Value = { List CheckedStep };

    ghost view = { λ s. s.items.items };
}

#[derive(Drop)]
pub struct CheckedTest<'f, 'i, 'a> {
    pub name: Text,
    pub steps: CheckedSteps<'f, 'i, 'a>,
}

/// Tests in their order. Contracts see the list.
#[derive(Drop)]
pub struct CheckedTests<'f, 'i, 'a> {
    pub items: Vec<CheckedTest<'f, 'i, 'a>>,
}

impl<'f, 'i, 'a> Model for CheckedTests<'f, 'i, 'a> {
    ghost use Rattle.std.specs.Prelude.{List};
    ghost use Rattle.ct_check.specs.declared.checked.CheckedTest.{CheckedTest};

    ghost Value = { List CheckedTest };

    ghost view = { λ t. t.items.items };
}

/// A test file of which all holds that must.
pub struct Checked<'f, 'i, 'a> {
    pub preamble: CheckedStatements<'f, 'i, 'a>,
    pub tests: CheckedTests<'f, 'i, 'a>,
}

// Not derived, so that it is proved here and not in each crate that drops one.
impl<'f, 'i, 'a> Drop for Checked<'f, 'i, 'a> {
    fn drop(self) {
        let Checked {
            preamble: _preamble,
            tests: _tests,
        } = self;
    }
}
