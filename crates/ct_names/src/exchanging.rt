ghost use Rattle.std.specs.Prelude.{◌≡◌, ◌++◌, ◌∷◌, [], IfOk, OnOk, map, option_map};
ghost use Rattle.cd_tokens.specs.Placed.{placed_view, placed_views};
ghost use Rattle.cd_tokens.specs.View.{token_view, token_views};
ghost use Rattle.ct_names.specs.Exchange.{Meanings, is_string, is_principal, written, read_for, places, all_at, count, exchanged, exchanged_by, exchanged_places, exchanged_places_by, used_names};

use crate::meaning::Meaning;
use crate::role::{Before, Role};
use cd_tokens::{PlacedToken, Token, rest_of, starts_word};
use ic_base::NoMemory;
use std::alloc::Global;

// Adds tokens, all at one place.
fn push_all<'a>(
    tokens: &[Token<'a>],
    place: usize,
    out: &mut Vec<PlacedToken<'a>>,
) -> Result<(), NoMemory>
    ensures tokens { OnOk result (placed_views out.new.items ≡ placed_views out.old.items ++ token_views tokens.now) }
    ensures places { OnOk result (places out.new.items ≡ places out.old.items ++ all_at place (token_views tokens.now)) }
{
    for token in tokens {
        out.push(PlacedToken {
            token: token.copy(),
            place,
        })?;
    }
    Ok(())
}

// Whether the tokens are one string.
fn is_string(tokens: &[Token<'_>]) -> bool
    ensures { result ≡ is_string (token_views tokens.now) }
{
    match tokens {
        [token] => match token {
            Token::Quoted(_) => true,
            Token::Run(_) => false,
            Token::Mark(_) => false,
            Token::Arrow => false,
        },
        _ => false,
    }
}

// Whether the tokens are a principal or a service.
fn is_principal(tokens: &[Token<'_>]) -> bool
    ensures { result ≡ is_principal (token_views tokens.now) }
{
    (starts_word(tokens, b"principal") || starts_word(tokens, b"service"))
        && is_string(rest_of(tokens))
}

// A principal or a service without its first word, where it is wanted so.
fn written<'m, 'a>(alone: bool, tokens: &'m [Token<'a>]) -> &'m [Token<'a>]
    ensures { token_views result.now ≡ written alone (token_views tokens.now) }
{
    if alone && is_principal(tokens) {
        rest_of(tokens)
    } else {
        tokens
    }
}

fn push_copy<'a>(placed: &PlacedToken<'a>, out: &mut Vec<PlacedToken<'a>>) -> Result<(), NoMemory>
    ensures tokens { OnOk result (placed_views out.new.items ≡ placed_views out.old.items ++ placed_view placed.now ∷ []) }
    ensures places { OnOk result (places out.new.items ≡ places out.old.items ++ placed.now.place ∷ []) }
{
    out.push(placed.copy())?;
    Ok(())
}

// Adds what is read in place of a token, of what its name stands for, if it is known.
fn push_read<'a>(
    role: Role,
    placed: &PlacedToken<'a>,
    meaning: Option<&Meaning<'a>>,
    out: &mut Vec<PlacedToken<'a>>,
) -> Result<(), NoMemory>
    ensures tokens { OnOk result (placed_views out.new.items ≡ placed_views out.old.items ++ read_for role (option_map (λ m. m.now) meaning.entry) (placed_view placed.now)) }
    ensures places { OnOk result (places out.new.items ≡ places out.old.items ++ all_at placed.now.place (read_for role (option_map (λ m. m.now) meaning.entry) (placed_view placed.now))) }
{
    match role {
        Role::Used { alone } => match meaning {
            None => push_copy(placed, out),
            Some(meaning) => push_all(written(alone, &meaning.items), placed.place, out),
        },
        Role::Bound | Role::Other => push_copy(placed, out),
    }
}

fn count(role: Role) -> usize
    ensures { result ≡ count role }
{
    match role {
        Role::Used { .. } => 1,
        Role::Bound | Role::Other => 0,
    }
}

/// The tokens with each use of a name exchanged for what it stands for; `meanings` has these in the
/// order of the uses. Time and memory grow with the tokens that are read.
pub fn exchange<'a>(
    alloc: Global,
    tokens: &[PlacedToken<'a>],
    meanings: &[Meaning<'a>],
) -> Result<Vec<PlacedToken<'a>>, NoMemory>
    // The tokens are those that are read in place of the names, by the meanings in their order, and by a function that gives them.
    ensures listed { IfOk result (λ read. placed_views read.items ≡ exchanged_by meanings.now (placed_views tokens.now)) }
    ensures tokens { (meaning : Meanings) → meanings.now ≡ map meaning (used_names (placed_views tokens.now)) → IfOk result (λ read. placed_views read.items ≡ exchanged meaning (placed_views tokens.now)) }
    // Each has the place of the token in whose place it is read.
    ensures listed_places { IfOk result (λ read. places read.items ≡ exchanged_places_by meanings.now tokens.now) }
    ensures places { (meaning : Meanings) → meanings.now ≡ map meaning (used_names (placed_views tokens.now)) → IfOk result (λ read. places read.items ≡ exchanged_places meaning tokens.now) }
{
    let mut read = Vec::with_capacity(alloc, tokens.len())?;
    let mut before = Before::Value;
    let mut used = 0;
    for (index, placed) in tokens.iter().enumerate() {
        let rest = tokens.split_at(index + 1).1;
        let role = before.role(&placed.token, rest);
        push_read(role, placed, meanings.get(used), &mut read)?;
        used += count(role);
        before = before.after(&placed.token, rest);
    }
    Ok(read)
}
