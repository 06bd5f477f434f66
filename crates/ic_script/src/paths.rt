ghost use Rattle.std.specs.Prelude.{◌≡◌, ◌==◌, ◌<◌, length, map, IfOk};
ghost use Rattle.std.specs.List.{list_all, slice_split};
ghost use Rattle.ic_script.specs.Line.{Agrees};
ghost use Rattle.ic_script.specs.Steps.{each};
ghost use Rattle.ic_script.specs.Paths.{are_few, is_short, paths_in, label_word, labels_word, paths_word};

use crate::command::Paths;
use crate::line_cause::LineError;
use hex::FromHexError;
use ic_base::NoMemory;
use ic_principal::{Bytes, Path};
use std::alloc::Global;

const MOST_PATHS: usize = 64;

const MOST_LABELS: usize = 8;

/// Whether a word has no more paths, and no more labels in each, than it may have.
#[tactic(auto, unfolding(crate::specs::Paths::are_few))]
pub fn are_few(word: &str) -> bool
    ensures { result ≡ are_few word.now }
{
    piece_count(word, ',') <= MOST_PATHS && all_short(word)
}

fn all_short(word: &str) -> bool
    ensures { result ≡ list_all is_short (paths_in word.now) }
{
    word.split(',').all(|path| is_short(path))
}

fn is_short(path: &str) -> bool
    ensures { result ≡ is_short path.now }
{
    piece_count(path, '/') <= MOST_LABELS
}

/// The paths that a word spells, with commas between.
pub fn paths(alloc: Global, word: &str) -> Result<Paths, LineError>
    ensures { Agrees result (paths_word word.now) }
{
    let words = pieces(alloc, word, ',')?;
    all_paths(alloc, &words)
}

fn all_paths(alloc: Global, words: &[&str]) -> Result<Paths, LineError>
    ensures { Agrees result (each labels_word (map (λ w. w.now) words.now)) }
{
    let mut items = Vec::new(alloc);
    for word in words {
        let path = labels(alloc, word)?;
        let Ok(()) = items.push(path) else {
            return Err(LineError::NoMemory);
        };
    }
    Ok(Paths { items })
}

// The labels that a word spells, with slashes between.
fn labels(alloc: Global, word: &str) -> Result<Path, LineError>
    ensures { Agrees result (labels_word word.now) }
{
    let words = pieces(alloc, word, '/')?;
    all_labels(alloc, &words)
}

fn all_labels(alloc: Global, words: &[&str]) -> Result<Path, LineError>
    ensures { Agrees result (each label_word (map (λ w. w.now) words.now)) }
{
    let mut labels = Vec::new(alloc);
    for word in words {
        let label = label(alloc, word)?;
        let Ok(()) = labels.push(label) else {
            return Err(LineError::NoMemory);
        };
    }
    Ok(Path { labels })
}

// The label that a word spells in hexadecimal digits. A dash is no label.
fn label(alloc: Global, word: &str) -> Result<Bytes, LineError>
    ensures { Agrees result (label_word word.now) }
{
    if word.is_empty() {
        return Err(LineError::Hex);
    }
    match hex::decode(alloc, word) {
        Ok(items) => Ok(Bytes { items }),
        Err(FromHexError::OutOfMemory) => Err(LineError::NoMemory),
        Err(_) => Err(LineError::Hex),
    }
}

fn pieces(alloc: Global, word: &str, separator: char) -> Result<Vec<&str>, NoMemory>
    requires { separator < 128 }
    ensures { IfOk result (λ v. map (λ x. x.now) v.items ≡ slice_split (λ byte. byte == separator) word.now) }
{
    word.split(separator).collect(alloc)
}

fn piece_count(word: &str, separator: char) -> usize
    requires { separator < 128 }
    ensures { result ≡ length (slice_split (λ byte. byte == separator) word.now) }
{
    word.split(separator).count()
}
