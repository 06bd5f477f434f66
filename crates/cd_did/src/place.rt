ghost use Rattle.std.specs.Prelude.{◌≡◌, ◌≤◌, ◌<◌, ◌^◌, IfOk, IfSome, is_none, is_ok, length};
ghost use Rattle.cd_did.specs.InterfaceOf.{interface_in};

use crate::fault::DidFault;
use crate::interface::read_interface;
use crate::names::Names;
use crate::settled::settled;
use crate::targets::Ended;
use crate::walk::{Sought, tokens_before};
use cd_grammar::{File, file_of};
use cd_tokens::{Token, placed_tokens_of, tokens_of};
use ic_base::{NoMemory, ReadError};
use std::alloc::{AllocError, Global};

// The front of a text that is UTF-8.
fn utf8_front(text: &[u8]) -> &[u8]
    ensures { length result.now ≤ length text.now }
{
    match str::from_utf8(text) {
        Ok(_) => text,
        Err(error) => {
            let (front, _) = text.split_at(error.valid_up_to());
            front
        }
    }
}

// How many tokens come before a name that no definition has, or before what has not its shape.
fn before_name(
    alloc: Global,
    fault: DidFault,
    file: &File,
    tokens: &[Token<'_>],
) -> Result<usize, NoMemory>
    requires { length file.now.definitions < 2 ^ 32 }
{
    let names = Names::of(alloc, file)?;
    if let DidFault::Unbound = fault {
        return tokens_before(alloc, Sought::Unbound(&names), tokens);
    }
    match settled(alloc, &names) {
        Ok(ends) => {
            let ended = Ended {
                alloc,
                names: &names,
                ends: &ends,
            };
            tokens_before(alloc, Sought::Shape(&ended), tokens)
        }
        Err(DidFault::NoMemory) => Err(AllocError),
        Err(_) => Ok(tokens.len()),
    }
}

// How many tokens come before the one at which a fault of the text is seen.
fn before_fault(
    alloc: Global,
    fault: DidFault,
    text: &[u8],
    tokens: &[Token<'_>],
) -> Result<usize, NoMemory>
    requires { length text.now < 2 ^ 32 }
{
    let sought = match fault {
        DidFault::Unbound | DidFault::Shape => {
            return match file_of(alloc, text) {
                Ok(file) => before_name(alloc, fault, &file, tokens),
                Err(ReadError::Refused) => Ok(tokens.len()),
                Err(ReadError::NoMemory) => Err(AllocError),
            };
        }
        DidFault::Float => Sought::Float,
        DidFault::TooMany => Sought::TooMany,
        DidFault::Repeated { definition } | DidFault::Vacuous { definition } => {
            Sought::Definition(definition)
        }
        DidFault::NotInterface | DidFault::NoMemory => Sought::End,
    };
    tokens_before(alloc, sought, tokens)
}

// The place of the token at which a fault of the text is seen, or where no token can be read, or the
// text's end.
fn place_of(alloc: Global, fault: DidFault, text: &[u8]) -> Result<usize, NoMemory>
    requires { length text.now < 2 ^ 32 }
{
    let placed = placed_tokens_of(alloc, true, utf8_front(text))?;
    let end = placed.stop.unwrap_or(utf8_front(text).len());
    let (front, _) = text.split_at(end);
    match tokens_of(alloc, true, front) {
        Ok(tokens) => {
            let before = before_fault(alloc, fault, text, &tokens)?;
            match placed.items.get(before) {
                Some(token) => Ok(token.place),
                None => Ok(end),
            }
        }
        Err(ReadError::Refused) => Ok(end),
        Err(ReadError::NoMemory) => Err(AllocError),
    }
}

/// Where the fault that `read_interface` answers of a text is seen, as the offset of a byte: of the
/// token with which no file goes on, or that is no token, or the text's length where it ends too early
/// (`NotInterface`); of a float; of the name of the definition (`Repeated`, `Vacuous`); of a name
/// without a definition; of a label or a name of a method that is there twice, of the type of a method
/// that is no function, or of the service that is none (`Shape`); of the first type with parts that is
/// one too many. The place is advice.
pub fn fault_place(alloc: Global, text: &[u8]) -> Result<Option<usize>, NoMemory>
    requires { length text.now < 2 ^ 32 }
    // There is none exactly where the text says an interface.
    ensures none { IfOk result (λ place. is_none place ≡ is_ok (interface_in text.now)) }
    ensures within { IfOk result (λ place. IfSome place (λ p. p ≤ length text.now)) }
{
    match read_interface(alloc, text) {
        Ok(_) => Ok(None),
        Err(DidFault::NoMemory) => Err(AllocError),
        Err(fault) => match place_of(alloc, fault, text) {
            Ok(place) => Ok(Some(place.min(text.len()))),
            Err(e) => Err(e),
        },
    }
}
