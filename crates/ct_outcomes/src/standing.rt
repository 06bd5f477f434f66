ghost use Rattle.std.specs.Prelude.{◌≡◌, ◌++◌, ◌∷◌, [], List, ℕ, IfOk, None};
ghost use Rattle.std.specs.Fmt.{decimal};
ghost use Rattle.cd_codec.specs.View.{view};
ghost use Rattle.cd_plain.specs.Printed.{value_text};
ghost use Rattle.ct_patterns.specs.Views.{part_view};
ghost use Rattle.ct_outcomes.specs.Answers.{reference_in};
ghost use Rattle.ct_outcomes.specs.Standings.{standing_of, principal_of, stands_for};

use cd_codec::Value;
use cd_plain::print;
use cd_types::{TyRef, TypeTable};
use ct_patterns::Part;
use ic_base::NoMemory;
use ic_principal::{Bytes, Principal};
use std::alloc::Global;
use std::slice;

/// What a name stands for.
#[derive(Drop)]
pub enum Standing {
    /// `principal` and its text, as of a user, a canister, or a value that is a principal.
    Principal(Principal),
    /// `service` and its text.
    Service(Principal),
    /// Any other value, by its plain text.
    Value(Bytes),
}

// A text without its first and its last byte.
fn inner(alloc: Global, text: &[u8]) -> Result<Bytes, NoMemory>
    ensures { (middle : List ℕ) → text.now ≡ 40 ∷ (middle ++ 41 ∷ []) → IfOk result (λ b. b ≡ middle) }
{
    match text {
        [_, inner @ .., _] => Ok(Bytes {
            items: Vec::from_slice(alloc, inner)?,
        }),
        _ => Ok(Bytes {
            items: Vec::new(alloc),
        }),
    }
}

// The plain text of a value, which is printed in parentheses.
fn plain_text(alloc: Global, table: &TypeTable, ty: TyRef, value: &Value) -> Result<Bytes, NoMemory>
    ensures { IfOk result (λ text. text ≡ value_text None table.now ty (view value.now)) }
{
    let printed = print(alloc, table, &[ty], slice::from_ref(value))?;
    inner(alloc, &printed.items)
}

// A principal or a service, which is kept as itself.
#[tactic(auto, using(cd_codec::proofs::Views::layers))]
fn reference_in(value: &Value) -> Option<Standing>
    ensures { result ≡ reference_in (view value.now) }
{
    match value {
        Value::Principal(id) => Some(Standing::Principal(*id)),
        Value::Service(id) => Some(Standing::Service(*id)),
        Value::Null | Value::Bool(_) | Value::Nat(_) | Value::Int(_) | Value::Reserved => None,
        Value::Nat8(_) | Value::Nat16(_) | Value::Nat32(_) | Value::Nat64(_) => None,
        Value::Int8(_) | Value::Int16(_) | Value::Int32(_) | Value::Int64(_) => None,
        Value::Text(_) | Value::Func { .. } | Value::Blob(_) | Value::Seq(_) => None,
        Value::Opt(part) => match part {
            None => None,
            Some(_) => None,
        },
        Value::Rec(_) | Value::Var { .. } => None,
    }
}

fn byte_text(alloc: Global, byte: u8) -> Result<Bytes, NoMemory>
    ensures { IfOk result (λ text. text ≡ decimal byte) }
{
    let text = format!(in alloc; "{byte}")?;
    Ok(Bytes {
        items: text.into_bytes(),
    })
}

impl Standing {
    // What a name stands for that is bound to a value.
    fn of_value(
        alloc: Global,
        table: &TypeTable,
        ty: TyRef,
        value: &Value,
    ) -> Result<Standing, NoMemory>
        ensures { IfOk result (λ standing. standing ≡ standing_of table.now ty (view value.now)) }
    {
        match reference_in(value) {
            Some(standing) => Ok(standing),
            None => Ok(Standing::Value(plain_text(alloc, table, ty, value)?)),
        }
    }

    /// What a name stands for that is bound to a value of a type, or to a byte of a `vec nat8`.
    pub fn of_part(
        alloc: Global,
        table: &TypeTable,
        ty: TyRef,
        part: Part<'_>,
    ) -> Result<Standing, NoMemory>
        ensures { IfOk result (λ standing. standing ≡ standing_of table.now ty (part_view part.entry)) }
    {
        match part {
            Part::Byte(byte) => Ok(Standing::Value(byte_text(alloc, byte)?)),
            Part::Value(value) => Standing::of_value(alloc, table, ty, value),
        }
    }

    /// The principal of a user, a canister, or a value that is a principal or a service.
    pub fn principal(&self) -> Option<Principal>
        ensures { result ≡ principal_of self.now }
    {
        match self {
            Standing::Principal(id) => Some(*id),
            Standing::Service(id) => Some(*id),
            Standing::Value(_) => None,
        }
    }

    /// Whether `principal` and the text of this one is what the name stands for.
    pub(crate) fn is_principal(&self, wanted: &Principal) -> bool
        ensures { result ≡ stands_for wanted.now self.now }
    {
        match self {
            Standing::Principal(id) => id == wanted,
            Standing::Service(_) => false,
            Standing::Value(_) => false,
        }
    }
}
