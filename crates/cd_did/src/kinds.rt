ghost use Rattle.std.specs.Prelude.{◌≡◌};
ghost use Rattle.cd_did.specs.Faults.{type_at_place};
ghost use Rattle.cd_did.specs.Entries.{is_method};
ghost use Rattle.cd_did.specs.Kinds.{is_kind};
ghost use Rattle.cd_did.specs.Formed.{is_served};

use crate::targets::{Ended, found_of};
use cd_grammar::{Part, Written};

/// What a name has to stand for.
#[derive(Clone, Copy)]
enum Kind {
    Func,
    Service,
}

fn is_at(kind: Kind, types: &[Written], part: &Part) -> bool
    ensures { result ≡ is_kind kind (type_at_place types.now part.now) }
{
    match part {
        Part::Place(place) => match types.get(*place) {
            None => false,
            Some(written) => match written {
                Written::Func { .. } => matches!(kind, Kind::Func),
                Written::Service(_) => matches!(kind, Kind::Service),
                _ => false,
            },
        },
        _ => false,
    }
}

/// Whether the type of a method is a function.
pub(crate) fn is_method(ended: &Ended<'_, '_>, part: &Part) -> bool
    ensures { result ≡ is_method ended.now.names.now ended.now.ends.now part.now }
{
    is_at(Kind::Func, &ended.names.file().types, found_of(ended, part))
}

/// Whether the service is one.
pub(crate) fn is_served(ended: &Ended<'_, '_>) -> bool
    ensures { result ≡ is_served ended.now.names.now ended.now.ends.now ended.now.names.now.main }
{
    let file = ended.names.file();
    match &file.main {
        None => true,
        Some(main) => is_at(Kind::Service, &file.types, found_of(ended, &main.service)),
    }
}
