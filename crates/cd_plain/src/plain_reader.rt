ghost use Rattle.std.specs.Prelude.{◌≡◌, ◌≤◌, ◌<◌, ◌^◌, IfSome, true, false, codes, drop, option_map};
ghost use Rattle.cd_tokens.specs.ReadLabel.{name_of as token_name};
ghost use Rattle.ic_base.specs.Gives.{Gives};
ghost use Rattle.cd_codec.specs.Content.{plain, func};
ghost use Rattle.cd_codec.specs.View.{view};
ghost use Rattle.cd_tokens.specs.ReadNumeral.{is_between};
ghost use Rattle.cd_tokens.specs.View.{token_views};
ghost use Rattle.cd_plain.specs.ReadPlain.{first_at, word_at, principal_said, after_word, natural_at, integer_at, taken, takes_memory, text_at, principal_text_at, bool_at, func_at, method_at, primitive_at, alone, string_at};

use cd_codec::Value;
use cd_tokens::{
    Token, integer_of, name_of, natural_of, rest_of, starts_mark, starts_word, text_of,
    unescaped_of,
};
use cd_types::Prim;
use ic_base::ReadError;
use ic_principal::{Principal, Text};
use std::alloc::Global;

#[tactic(auto, unfolding(crate::specs::ReadPlain::natural_at))]
fn any_natural<'t, 'a>(tokens: &'t [Token<'a>]) -> Option<(u128, &'t [Token<'a>])>
    ensures { option_map (λ x. (x.0, token_views x.1.now)) result ≡ natural_at (2 ^ 128) (token_views tokens.now) }
{
    match tokens {
        [] => None,
        [first, rest @ ..] => match first {
            Token::Run(run) => match natural_of(run.bytes) {
                Some(n) => Some((n, rest)),
                None => None,
            },
            Token::Quoted(_) | Token::Mark(_) | Token::Arrow => None,
        },
    }
}

/// A natural number below the limit.
#[tactic(auto, using(crate::proofs::Narrow::narrower, crate::proofs::Narrow::too_large, crate::proofs::Narrow::no_number))]
pub fn natural_below<'t, 'a>(
    tokens: &'t [Token<'a>],
    limit: u128,
) -> Option<(u128, &'t [Token<'a>])>
    ensures value { option_map (λ x. (x.0, token_views x.1.now)) result ≡ natural_at limit (token_views tokens.now) }
    ensures bound { IfSome result (λ x. x.0 < limit) }
{
    match any_natural(tokens) {
        None => None,
        Some((n, rest)) => { if n < limit { Some((n, rest)) } else { None } }
    }
}

/// An integer from -half to half - 1.
#[tactic(auto, unfolding(crate::specs::ReadPlain::integer_at), using(crate::proofs::Narrow::inside))]
fn integer_within<'t, 'a>(tokens: &'t [Token<'a>], half: u128) -> Option<(i128, &'t [Token<'a>])>
    requires { half ≤ 2 ^ 127 }
    ensures value { option_map (λ x. (x.0, token_views x.1.now)) result ≡ integer_at half (token_views tokens.now) }
    ensures bound { IfSome result (λ x. is_between half x.0 ≡ true) }
{
    match tokens {
        [] => None,
        [first, rest @ ..] => match first {
            Token::Run(run) => match integer_of(run.bytes, half) {
                Some(z) => Some((z, rest)),
                None => None,
            },
            Token::Quoted(_) | Token::Mark(_) | Token::Arrow => None,
        },
    }
}

/// The bytes of a string.
#[tactic(auto, unfolding(crate::specs::ReadPlain::string_at))]
pub fn string_of<'t, 'a>(
    alloc: Global,
    tokens: &'t [Token<'a>],
) -> Result<(Vec<u8>, &'t [Token<'a>]), ReadError>
    ensures { Gives (λ x. (x.0.items, token_views x.1.now)) result (string_at (token_views tokens.now)) }
{
    match tokens {
        [] => Err(ReadError::Refused),
        [first, rest @ ..] => match first {
            Token::Quoted(string) => {
                let bytes = unescaped_of(alloc, string.bytes)?;
                Ok((bytes, rest))
            }
            Token::Run(_) | Token::Mark(_) | Token::Arrow => Err(ReadError::Refused),
        },
    }
}

#[tactic(auto, unfolding(crate::specs::ReadPlain::text_at))]
fn text_at<'t, 'a>(
    alloc: Global,
    tokens: &'t [Token<'a>],
) -> Result<(Text, &'t [Token<'a>]), ReadError>
    ensures { Gives (λ x. (x.0, token_views x.1.now)) result (text_at (token_views tokens.now)) }
{
    match tokens {
        [] => Err(ReadError::Refused),
        [first, rest @ ..] => match first {
            Token::Quoted(string) => {
                let text = text_of(alloc, string.bytes)?;
                Ok((text, rest))
            }
            Token::Run(_) | Token::Mark(_) | Token::Arrow => Err(ReadError::Refused),
        },
    }
}

fn principal_of(alloc: Global, written: &[u8]) -> Result<Principal, ReadError>
    ensures { Gives (λ p. p) result (principal_said written.now) }
{
    let text = text_of(alloc, written)?;
    match Principal::from_text(text.items.as_str()) {
        Ok(principal) => Ok(principal),
        Err(_) => Err(ReadError::Refused),
    }
}

// The text of a principal, of the first token.
#[tactic(auto, unfolding(crate::specs::ReadPlain::principal_text_at))]
fn principal_at(alloc: Global, tokens: &[Token<'_>]) -> Result<Principal, ReadError>
    ensures { Gives (λ p. (p, drop 1 (token_views tokens.now))) result (principal_text_at (token_views tokens.now)) }
{
    match tokens {
        [] => Err(ReadError::Refused),
        [first, ..] => match first {
            Token::Quoted(string) => principal_of(alloc, string.bytes),
            Token::Run(_) | Token::Mark(_) | Token::Arrow => Err(ReadError::Refused),
        },
    }
}

/// A word, and the text of a principal.
pub fn principal_after(
    alloc: Global,
    word: &[u8],
    tokens: &[Token<'_>],
) -> Result<Principal, ReadError>
    ensures { Gives (λ p. (p, drop 1 (drop 1 (token_views tokens.now)))) result (after_word word.now principal_text_at (token_views tokens.now)) }
{
    if starts_word(tokens, word) {
        principal_at(alloc, rest_of(tokens))
    } else {
        Err(ReadError::Refused)
    }
}

fn name_at<'t, 'a>(
    alloc: Global,
    tokens: &'t [Token<'a>],
) -> Result<(Text, &'t [Token<'a>]), ReadError>
    ensures { Gives (λ x. (x.0, token_views x.1.now)) result (first_at token_name (token_views tokens.now)) }
{
    match tokens {
        [] => Err(ReadError::Refused),
        [first, rest @ ..] => {
            let name = name_of(alloc, first)?;
            Ok((name, rest))
        }
    }
}

fn method_at<'t, 'a>(
    alloc: Global,
    tokens: &'t [Token<'a>],
) -> Result<(Text, &'t [Token<'a>]), ReadError>
    ensures { Gives (λ x. (x.0, token_views x.1.now)) result (method_at (token_views tokens.now)) }
{
    if starts_mark(tokens, b'.') {
        name_at(alloc, rest_of(tokens))
    } else {
        Err(ReadError::Refused)
    }
}

/// A method of a service.
#[tactic(auto, using(cd_codec::proofs::Views::layers), unfolding(crate::specs::ReadPlain::func_at))]
pub fn func_of<'t, 'a>(
    alloc: Global,
    left: u32,
    tokens: &'t [Token<'a>],
) -> Result<(Value, u32, &'t [Token<'a>]), ReadError>
    ensures { Gives (λ x. (view x.0, x.1, token_views x.2.now)) result (alone (λ f. plain (func f.0 f.1)) func_at left (token_views tokens.now)) }
{
    if !starts_word(tokens, b"func") {
        return Err(ReadError::Refused);
    }
    match principal_at(alloc, rest_of(tokens)) {
        Err(error) => Err(error),
        Ok(service) => {
            let (method, rest) = method_at(alloc, rest_of(rest_of(tokens)))?;
            Ok((Value::Func { service, method }, left, rest))
        }
    }
}

#[tactic(auto, unfolding(crate::specs::ReadPlain::bool_at))]
fn bool_of<'t, 'a>(tokens: &'t [Token<'a>]) -> Option<(bool, &'t [Token<'a>])>
    ensures { option_map (λ x. (x.0, token_views x.1.now)) result ≡ bool_at (token_views tokens.now) }
{
    if starts_word(tokens, b"true") {
        Some((true, rest_of(tokens)))
    } else if starts_word(tokens, b"false") {
        Some((false, rest_of(tokens)))
    } else {
        None
    }
}

fn null_of<'t, 'a>(tokens: &'t [Token<'a>]) -> Option<&'t [Token<'a>]>
    ensures { option_map (λ rest. (true, token_views rest.now)) result ≡ word_at (codes "null") true (token_views tokens.now) }
{
    if starts_word(tokens, b"null") {
        Some(rest_of(tokens))
    } else {
        None
    }
}

// A value that takes no memory; none of a text or a principal.
#[tactic(auto, using(cd_codec::proofs::Views::layers), unfolding(crate::specs::ReadPlain::primitive_at))]
fn small_of<'t, 'a>(prim: Prim, tokens: &'t [Token<'a>]) -> Option<(Value, &'t [Token<'a>])>
    ensures { takes_memory prim ≡ false → option_map (λ x. (view x.0, token_views x.1.now)) result ≡ taken plain (primitive_at prim) (token_views tokens.now) }
{
    match prim {
        Prim::Null => {
            let rest = null_of(tokens)?;
            Some((Value::Null, rest))
        }
        Prim::Reserved => {
            let rest = null_of(tokens)?;
            Some((Value::Reserved, rest))
        }
        Prim::Bool => {
            let (b, rest) = bool_of(tokens)?;
            Some((Value::Bool(b), rest))
        }
        Prim::Nat => {
            let (n, rest) = any_natural(tokens)?;
            Some((Value::Nat(n), rest))
        }
        Prim::Nat8 => {
            let (n, rest) = natural_below(tokens, 1 << 8)?;
            Some((Value::Nat8(n as u8), rest))
        }
        Prim::Nat16 => {
            let (n, rest) = natural_below(tokens, 1 << 16)?;
            Some((Value::Nat16(n as u16), rest))
        }
        Prim::Nat32 => {
            let (n, rest) = natural_below(tokens, 1 << 32)?;
            Some((Value::Nat32(n as u32), rest))
        }
        Prim::Nat64 => {
            let (n, rest) = natural_below(tokens, 1 << 64)?;
            Some((Value::Nat64(n as u64), rest))
        }
        Prim::Int => {
            let (z, rest) = integer_within(tokens, 1 << 127)?;
            Some((Value::Int(z), rest))
        }
        Prim::Int8 => {
            let (z, rest) = integer_within(tokens, 1 << 7)?;
            Some((Value::Int8(z as i8), rest))
        }
        Prim::Int16 => {
            let (z, rest) = integer_within(tokens, 1 << 15)?;
            Some((Value::Int16(z as i16), rest))
        }
        Prim::Int32 => {
            let (z, rest) = integer_within(tokens, 1 << 31)?;
            Some((Value::Int32(z as i32), rest))
        }
        Prim::Int64 => {
            let (z, rest) = integer_within(tokens, 1 << 63)?;
            Some((Value::Int64(z as i64), rest))
        }
        Prim::Text | Prim::Principal | Prim::Empty => None,
    }
}

/// A value of a primitive type. `left` is answered as it is.
#[tactic(auto, using(cd_codec::proofs::Views::layers), unfolding(crate::specs::ReadPlain::primitive_at))]
pub fn primitive_of<'t, 'a>(
    alloc: Global,
    prim: Prim,
    left: u32,
    tokens: &'t [Token<'a>],
) -> Result<(Value, u32, &'t [Token<'a>]), ReadError>
    ensures { Gives (λ x. (view x.0, x.1, token_views x.2.now)) result (alone plain (primitive_at prim) left (token_views tokens.now)) }
{
    match prim {
        Prim::Text => {
            let (text, rest) = text_at(alloc, tokens)?;
            Ok((Value::Text(text), left, rest))
        }
        Prim::Principal => match principal_after(alloc, b"principal", tokens) {
            Ok(principal) => {
                let rest = rest_of(rest_of(tokens));
                Ok((Value::Principal(principal), left, rest))
            }
            Err(error) => Err(error),
        },
        _ => {
            let (value, rest) = small_of(prim, tokens).ok_or(ReadError::Refused)?;
            Ok((value, left, rest))
        }
    }
}
