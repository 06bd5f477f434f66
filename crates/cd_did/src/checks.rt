ghost use Rattle.std.specs.Prelude.{◌≡◌, ◌<◌, length, map, IfSome, []};
ghost use Rattle.std.specs.List.{list_all};
ghost use Rattle.cd_did.specs.Faults.{all_parts, repeated};
ghost use Rattle.cd_grammar.specs.Fits.{parts_of, all_in_main};
ghost use Rattle.cd_did.specs.Tests.{passes};

use crate::names::Names;
use cd_grammar::{File, Main, Part, Written};
use ic_principal::Bytes;

/// A test of a type where it stands.
#[derive(Drop)]
pub(crate) enum Test<'n, 'a> {
    /// It is no float.
    NoFloat,
    /// If it is a name, one of the definitions has it.
    Bound(&'n Names<'a>),
}

/// The place of the first definition whose name one before has.
pub(crate) fn repeated_of(names: &Names<'_>) -> Option<usize>
    ensures value { result ≡ repeated [] 0 names.now.definitions }
    ensures bound { IfSome result (λ place. place < length names.now.definitions) }
{
    for (place, (name, _)) in names.definitions().iter().enumerate() {
        if names.has_before(place, &name.items) {
            return Some(place);
        }
    }
    None
}

fn passes(test: &Test<'_, '_>, part: &Part) -> bool
    ensures { result ≡ passes test.now part.now }
{
    match test {
        Test::NoFloat => match part {
            Part::Float => false,
            _ => true,
        },
        Test::Bound(names) => match part {
            Part::Name(name) => names.has(&name.items),
            _ => true,
        },
    }
}

fn all_pass(test: &Test<'_, '_>, parts: &[Part]) -> bool
    ensures { result ≡ list_all (passes test.now) parts.now }
{
    for part in parts {
        if !passes(test, part) {
            return false;
        }
    }
    true
}

// Of parts with labels: fields, methods or definitions.
fn rows_pass<L>(test: &Test<'_, '_>, rows: &[(L, Part)]) -> bool
    ensures { result ≡ list_all (passes test.now) (map (λ r. r.1) rows.now) }
{
    for (_, part) in rows {
        if !passes(test, part) {
            return false;
        }
    }
    true
}

fn type_passes(test: &Test<'_, '_>, written: &Written) -> bool
    ensures { result ≡ list_all (passes test.now) (parts_of written.now) }
{
    match written {
        Written::Opt(part) => passes(test, part),
        Written::Seq(part) => passes(test, part),
        Written::Rec(fields) => rows_pass(test, &fields.items),
        Written::Var(cases) => rows_pass(test, &cases.items),
        Written::Func { args, results, .. } => {
            all_pass(test, &args.items) && all_pass(test, &results.items)
        }
        Written::Service(methods) => rows_pass(test, &methods.items),
    }
}

fn types_pass(test: &Test<'_, '_>, types: &[Written]) -> bool
    ensures { result ≡ list_all (λ written. list_all (passes test.now) (parts_of written)) types.now }
{
    for written in types {
        if !type_passes(test, written) {
            return false;
        }
    }
    true
}

fn definitions_pass(test: &Test<'_, '_>, definitions: &[(Bytes, Part)]) -> bool
    ensures { result ≡ list_all (λ d. passes test.now d.1) definitions.now }
{
    rows_pass(test, definitions)
}

fn main_passes(test: &Test<'_, '_>, main: &Option<Main>) -> bool
    ensures { result ≡ all_in_main (passes test.now) main.now }
{
    match main {
        None => true,
        Some(main) => all_pass(test, &main.tuple.items) && passes(test, &main.service),
    }
}

/// Whether each type that is in the file passes.
pub(crate) fn file_passes(test: &Test<'_, '_>, file: &File) -> bool
    ensures { result ≡ all_parts (passes test.now) file.now }
{
    types_pass(test, &file.types)
        && definitions_pass(test, &file.definitions)
        && main_passes(test, &file.main)
}
