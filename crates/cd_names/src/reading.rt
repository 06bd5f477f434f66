ghost use Rattle.std.specs.Prelude.{◌≡◌, ℕ, ◌∷◌, [], List, true, IfOk, IfErr, OnOk};
ghost use Rattle.std.specs.BTreeSet.{contains};
ghost use Rattle.std.specs.Option.{option_or};
ghost use Rattle.std.specs.Ordering.{nat_cmp};
ghost use Rattle.ic_base.specs.declared.read_error.ReadError.TheVariants.{NoMemory};
ghost use Rattle.cd_tokens.specs.Token as token;
ghost use Rattle.cd_tokens.specs.Lexed.{IsTokens};
ghost use Rattle.cd_tokens.specs.View.{token_view, token_views};
ghost use Rattle.cd_names.specs.Names.{name_for, named, Names};

use crate::ids::ids_of;
use crate::names::FieldNames;
use cd_tokens::{Token, name_of, tokens_of};
use cd_types::{TypeTable, field_id};
use ic_base::{NoMemory, ReadError};
use std::alloc::Global;
use std::collections::BTreeSet;

// The name of a token, if it has one with one of the ids, and the id has no name yet.
fn add_token(
    alloc: Global,
    ids: &BTreeSet<u32>,
    token: &Token<'_>,
    names: &mut FieldNames,
) -> Result<(), ReadError>
    ensures ok { OnOk result ((id : ℕ) → name_for names.new id ≡ option_or (name_for names.old id) (named (contains nat_cmp ids.now) (token_view token.now ∷ []) id)) }
    ensures failed { IfErr result (λ e. e ≡ NoMemory) }
{
    match name_of(alloc, token) {
        Ok(name) => {
            if ids.contains(&field_id(name.items.as_str())) {
                names.add(name)?;
            }
            Ok(())
        }
        Err(ReadError::Refused) => Ok(()),
        Err(ReadError::NoMemory) => Err(ReadError::NoMemory),
    }
}

fn add_tokens(
    alloc: Global,
    ids: &BTreeSet<u32>,
    tokens: &[Token<'_>],
    names: &mut FieldNames,
) -> Result<(), ReadError>
    requires { names.old ≡ [] }
    ensures ok { OnOk result ((id : ℕ) → name_for names.new id ≡ named (contains nat_cmp ids.now) (token_views tokens.now) id) }
    ensures failed { IfErr result (λ e. e ≡ NoMemory) }
{
    for token in tokens {
        add_token(alloc, ids, token, names)?;
    }
    Ok(())
}

// The names of tokens, for the ids of a table.
fn names_among(
    alloc: Global,
    table: &TypeTable,
    tokens: &[Token<'_>],
) -> Result<FieldNames, ReadError>
    ensures ok { IfOk result (Names table.now (token_views tokens.now)) }
    ensures failed { IfErr result (λ e. e ≡ NoMemory) }
{
    let ids = ids_of(alloc, table)?;
    let mut names = FieldNames::new(alloc);
    match add_tokens(alloc, &ids, tokens, &mut names) {
        Ok(()) => Ok(names),
        Err(e) => Err(e),
    }
}

/// Names for the ids that the records and variants of a table have: the words and strings of the
/// text that the types come from, as an interface file, comments left out. `Refused`: the text has
/// no tokens. Time and memory grow with the text and the table, time times the logarithm of the
/// number of ids.
pub fn names_of(alloc: Global, table: &TypeTable, text: &[u8]) -> Result<FieldNames, ReadError>
    ensures found { IfOk result (λ names. (tokens : List token.Token) × IsTokens true tokens text.now × Names table.now tokens names) }
    // A text that has tokens is not refused.
    ensures only { (tokens : List token.Token) → IsTokens true tokens text.now → IfErr result (λ e. e ≡ NoMemory) }
{
    match tokens_of(alloc, true, text) {
        Ok(tokens) => names_among(alloc, table, &tokens),
        Err(e) => Err(e),
    }
}
