ghost use Rattle.std.specs.Prelude.{◌≡◌, [], map, IfOk, IfErr};
ghost use Rattle.ic_base.specs.declared.read_error.ReadError.TheVariants.{NoMemory};
ghost use Rattle.cd_types.specs.declared.entry.Entry.TheVariants as entries;
ghost use Rattle.cd_did.specs.Entries.{EntryOf, EntriesOf};
ghost use Rattle.cd_did.specs.Formed.{IsFormed, AllFormed};
ghost use Rattle.cd_did.specs.Sorted.{Refuses};
ghost use Rattle.cd_did.specs.Targets.{target};

use crate::named::methods_of;
use crate::sorted::{Rows, fields_of};
use crate::targets::{Ended, target_of, targets_of};
use cd_grammar::{Part, Written};
use cd_types::{Entry, TyRefs};
use ic_base::{NoMemory, ReadError};
use ic_principal::Bytes;

// The arguments and the results of a function.
fn tuples_of(
    ended: &Ended<'_, '_>,
    args: &[Part],
    results: &[Part],
) -> Result<(TyRefs, TyRefs), NoMemory>
    ensures { IfOk result (λ x. (x.0 ≡ map (target ended.now.names.now.definitions ended.now.ends.now) args.now) × (x.1 ≡ map (target ended.now.names.now.definitions ended.now.ends.now) results.now)) }
{
    match targets_of(ended, args) {
        Ok(args) => match targets_of(ended, results) {
            Ok(results) => Ok((args, results)),
            Err(e) => Err(e),
        },
        Err(e) => Err(e),
    }
}

// The annotations are in the order in which they are written.
fn func_of(
    ended: &Ended<'_, '_>,
    args: &[Part],
    results: &[Part],
    notes: &Bytes,
) -> Result<Entry, ReadError>
    ensures ok { IfOk result (λ entry. entry ≡ entries.Func (map (target ended.now.names.now.definitions ended.now.ends.now) args.now) (map (target ended.now.names.now.definitions ended.now.ends.now) results.now) notes.now) }
    ensures refused { IfErr result (λ e. e ≡ NoMemory) }
{
    match tuples_of(ended, args, results) {
        Ok(tuples) => match notes.copy() {
            Ok(notes) => {
                let (args, results) = tuples;
                Ok(Entry::Func {
                    args,
                    results,
                    notes,
                })
            }
            Err(_) => Err(ReadError::NoMemory),
        },
        Err(_) => Err(ReadError::NoMemory),
    }
}

// The entry of a type. `Refused`: it has not the shape of one.
fn entry_of(ended: &Ended<'_, '_>, written: &Written) -> Result<Entry, ReadError>
    ensures ok { IfOk result (λ entry. EntryOf ended.now.names.now ended.now.ends.now written.now entry × IsFormed ended.now.names.now ended.now.ends.now written.now) }
    ensures refused { IfErr result (λ e. Refuses e (IsFormed ended.now.names.now ended.now.ends.now written.now → ⊥)) }
{
    match written {
        Written::Opt(part) => Ok(Entry::Opt(target_of(ended, part))),
        Written::Seq(part) => Ok(Entry::Seq(target_of(ended, part))),
        Written::Rec(fields) => fields_of(ended, Rows::Fields, &fields.items),
        Written::Var(cases) => fields_of(ended, Rows::Cases, &cases.items),
        Written::Func {
            args,
            results,
            notes,
        } => func_of(ended, &args.items, &results.items, notes),
        Written::Service(methods) => methods_of(ended, &methods.items),
    }
}

fn add_entries(ended: &Ended<'_, '_>, made: &mut Vec<Entry>) -> Result<(), ReadError>
    requires { made.old.items ≡ [] }
    ensures ok { IfOk result (λ done. EntriesOf ended.now.names.now ended.now.ends.now made.new.items × AllFormed ended.now.names.now ended.now.ends.now) }
    ensures refused { IfErr result (λ e. Refuses e (AllFormed ended.now.names.now ended.now.ends.now → ⊥)) }
{
    let file = ended.names.file();
    for written in &file.types {
        match entry_of(ended, written) {
            Ok(entry) => made.push(entry)?,
            Err(e) => return Err(e),
        }
    }
    Ok(())
}

/// The entries of all types. `Refused`: one has not the shape of a type.
pub(crate) fn entries_of(ended: &Ended<'_, '_>) -> Result<Vec<Entry>, ReadError>
    ensures ok { IfOk result (λ made. EntriesOf ended.now.names.now ended.now.ends.now made.items × AllFormed ended.now.names.now ended.now.ends.now) }
    ensures refused { IfErr result (λ e. Refuses e (AllFormed ended.now.names.now ended.now.ends.now → ⊥)) }
{
    let mut made = Vec::new(ended.alloc);
    match add_entries(ended, &mut made) {
        Ok(()) => Ok(made),
        Err(e) => Err(e),
    }
}
