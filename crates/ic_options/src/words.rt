ghost use Rattle.std.specs.Prelude.{◌≡◌, None, IfOk, IfErr, IsTrue, is_err, map, string_bytes};
ghost use Rattle.std.specs.IoError.{error_kind};
ghost use Rattle.std.specs.Vec.Iter.{into_iter_items};
ghost use Rattle.ic_options.specs.Options.{options_of};

use ic_base::NoMemory;
use std::alloc::{AllocError, Global};
use std::env::Args;
use std::io::{self, ErrorKind};

/// The words of the process, of which the first is the program's name. Where they cannot be read, as
/// where one of them is no UTF-8, these are words that no command line accepts.
pub fn words_of(alloc: Global, args: io::Result<Args>) -> Result<Vec<String>, NoMemory>
    ensures given { IfOk args (λ given. IfOk result (λ words. words.items ≡ into_iter_items given)) }
    ensures no_memory { IfErr args (λ error. error_kind error ≡ ErrorKind.OutOfMemory → IsTrue (is_err result)) }
    ensures refused { IfErr args (λ error. IfOk result (λ words. options_of (map string_bytes words.items) ≡ None)) }
{
    match args {
        Ok(given) => given_words(alloc, given),
        Err(error) if error.kind() == ErrorKind::OutOfMemory => Err(AllocError),
        Err(_) => refused_words(alloc),
    }
}

/// The words of the process as a list.
pub fn given_words(alloc: Global, given: Args) -> Result<Vec<String>, NoMemory>
    ensures { IfOk result (λ words. words.items ≡ into_iter_items given) }
{
    let mut words = Vec::new(alloc);
    for word in given {
        words.push(word)?;
    }
    Ok(words)
}

#[tactic(auto, using(crate::proofs::Refused::no_option))]
fn refused_words(alloc: Global) -> Result<Vec<String>, NoMemory>
    ensures { IfOk result (λ words. options_of (map string_bytes words.items) ≡ None) }
{
    let mut words = Vec::new(alloc);
    words.push(String::from_str(alloc, "replica")?)?;
    words.push(String::from_str(alloc, "no text")?)?;
    Ok(words)
}
