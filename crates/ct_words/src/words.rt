ghost use Rattle.std.specs.Prelude.{◌≡◌, None, IfOk, IfErr, IsTrue, is_err, map, string_bytes};
ghost use Rattle.std.specs.IoError.{error_kind};
ghost use Rattle.std.specs.Vec.Iter.{into_iter_items};
ghost use Rattle.ct_words.specs.Options.{options_of};

use ic_base::NoMemory;
use ic_options::given_words;
use std::alloc::{AllocError, Global};
use std::env::Args;
use std::io::{self, ErrorKind};

/// The words of the process, of which the first is the program's name. Where they cannot be read, as
/// where one of them is no UTF-8, these are words that no command line accepts.
pub fn words_of(alloc: Global, args: io::Result<Args>) -> Result<Vec<String>, NoMemory>
    ensures given { IfOk args (λ given. IfOk result (λ words. words.items ≡ into_iter_items given)) }
    ensures no_memory { IfErr args (λ error. error_kind error ≡ ErrorKind.OutOfMemory → IsTrue (is_err result)) }
    ensures refused { IfErr args (λ error. IfOk result (λ words. options_of (map string_bytes words.items) ≡ None)) }
{
    match args {
        Ok(given) => given_words(alloc, given),
        Err(error) if error.kind() == ErrorKind::OutOfMemory => Err(AllocError),
        Err(_) => refused_words(alloc),
    }
}

// No file is named.
#[tactic(auto, using(crate::proofs::Refused::no_file))]
fn refused_words(alloc: Global) -> Result<Vec<String>, NoMemory>
    ensures { IfOk result (λ words. options_of (map string_bytes words.items) ≡ None) }
{
    let mut words = Vec::new(alloc);
    words.push(String::from_str(alloc, "canister_test")?)?;
    Ok(words)
}
