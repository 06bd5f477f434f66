ghost use Rattle.std.specs.Prelude.{◌≡◌};
ghost use Rattle.cd_codec.specs.View.{view};
ghost use Rattle.ct_patterns.specs.Views.{part_view};
ghost use Rattle.ct_patterns.specs.Met.{natural_leaf, integer_leaf, bytes_leaf, method_leaf, same_leaf, same_layer, layer, layer_view};

use crate::step::Part;
use cd_codec::Value;
use cd_tokens::Piece;

/// A value without parts: its kind, and what it is.
#[derive(Drop)]
pub(crate) struct Leaf<'v> {
    pub(crate) kind: u8,
    pub(crate) natural: u128,
    pub(crate) integer: i128,
    pub(crate) bytes: Piece<'v>,
    pub(crate) method: Piece<'v>,
}

/// A value, apart from what its parts are.
#[derive(Drop)]
pub(crate) enum Layer<'v> {
    Leaf(Leaf<'v>),
    Opt(&'v Value),
    Seq(&'v [Value]),
    Rec(&'v [(u32, Value)]),
    Var(u32, &'v Value),
}

fn natural<'v>(kind: u8, natural: u128) -> Leaf<'v>
    ensures { result ≡ natural_leaf kind natural }
{
    Leaf {
        kind,
        natural,
        integer: 0,
        bytes: Piece { bytes: &[] },
        method: Piece { bytes: &[] },
    }
}

fn integer<'v>(kind: u8, integer: i128) -> Leaf<'v>
    ensures { result ≡ integer_leaf kind integer }
{
    Leaf {
        kind,
        natural: 0,
        integer,
        bytes: Piece { bytes: &[] },
        method: Piece { bytes: &[] },
    }
}

fn method<'v>(kind: u8, bytes: &'v [u8], method: &'v [u8]) -> Leaf<'v>
    ensures { result ≡ method_leaf kind bytes.now method.now }
{
    Leaf {
        kind,
        natural: 0,
        integer: 0,
        bytes: Piece { bytes },
        method: Piece { bytes: method },
    }
}

fn bytes<'v>(kind: u8, bytes: &'v [u8]) -> Leaf<'v>
    ensures { result ≡ bytes_leaf kind bytes.now }
{
    method(kind, bytes, &[])
}

impl<'v> Leaf<'v> {
    fn is_same(&self, other: &Leaf<'_>) -> bool
        ensures { result ≡ same_leaf self.now other.now }
    {
        self.kind == other.kind
            && self.natural == other.natural
            && self.integer == other.integer
            && self.bytes.bytes == other.bytes.bytes
            && self.method.bytes == other.method.bytes
    }
}

#[tactic(auto, using(cd_codec::proofs::Views::layers))]
fn layer_of_value(value: &Value) -> Layer<'_>
    ensures { layer_view result ≡ layer (view value.now) }
{
    match value {
        Value::Null => Layer::Leaf(natural(0, 0)),
        Value::Bool(b) => Layer::Leaf(natural(1, u128::from(*b))),
        Value::Nat(n) => Layer::Leaf(natural(2, *n)),
        Value::Nat8(n) => Layer::Leaf(natural(3, u128::from(*n))),
        Value::Nat16(n) => Layer::Leaf(natural(4, u128::from(*n))),
        Value::Nat32(n) => Layer::Leaf(natural(5, u128::from(*n))),
        Value::Nat64(n) => Layer::Leaf(natural(6, u128::from(*n))),
        Value::Int(z) => Layer::Leaf(integer(7, *z)),
        Value::Int8(z) => Layer::Leaf(integer(8, i128::from(*z))),
        Value::Int16(z) => Layer::Leaf(integer(9, i128::from(*z))),
        Value::Int32(z) => Layer::Leaf(integer(10, i128::from(*z))),
        Value::Int64(z) => Layer::Leaf(integer(11, i128::from(*z))),
        Value::Text(text) => Layer::Leaf(bytes(12, text.items.as_bytes())),
        Value::Reserved => Layer::Leaf(natural(13, 0)),
        Value::Func {
            service,
            method: name,
        } => Layer::Leaf(method(14, service.bytes(), name.items.as_bytes())),
        Value::Service(id) => Layer::Leaf(bytes(15, id.bytes())),
        Value::Principal(id) => Layer::Leaf(bytes(16, id.bytes())),
        Value::Blob(blob) => Layer::Leaf(bytes(17, &blob.items)),
        Value::Opt(part) => match part {
            None => Layer::Leaf(natural(18, 0)),
            Some(part) => Layer::Opt(part),
        },
        Value::Seq(values) => Layer::Seq(&values.items),
        Value::Rec(fields) => Layer::Rec(&fields.items),
        Value::Var { position, part } => Layer::Var(*position, part),
    }
}

/// The layer of a value.
pub(crate) fn layer_of(part: Part<'_>) -> Layer<'_>
    ensures { layer_view result ≡ layer (part_view part.entry) }
{
    match part {
        Part::Value(value) => layer_of_value(value),
        Part::Byte(byte) => Layer::Leaf(natural(3, u128::from(byte))),
    }
}

/// Whether a value is this one, which has no parts.
pub(crate) fn is_same(value: &Value, part: Part<'_>) -> bool
    ensures { result ≡ same_layer (layer (view value.now)) (layer (part_view part.entry)) }
{
    match layer_of_value(value) {
        Layer::Leaf(leaf) => match layer_of(part) {
            Layer::Leaf(other) => leaf.is_same(&other),
            Layer::Opt(_) => false,
            Layer::Seq(_) => false,
            Layer::Rec(_) => false,
            Layer::Var(_, _) => false,
        },
        Layer::Opt(_) => false,
        Layer::Seq(_) => false,
        Layer::Rec(_) => false,
        Layer::Var(_, _) => false,
    }
}
