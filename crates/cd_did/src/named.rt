ghost use Rattle.std.specs.Prelude.{◌≡◌, [], List, ℕ, bytes_eq, map, true, false, IfOk, IfErr};
ghost use Rattle.std.specs.List.{list_all, IsDistinct};
ghost use Rattle.std.specs.Str.{is_utf8};
ghost use Rattle.cd_types.specs.declared.entry.TyRef.{TyRef};
ghost use Rattle.cd_types.specs.declared.entry.Entry.TheVariants as entries;
ghost use Rattle.cd_types.specs.IsOrdered.{names_rise, names_rise_after};
ghost use Rattle.cd_did.specs.Entries.{AreNamed, is_method};
ghost use Rattle.cd_did.specs.Sorted.{Refuses, row};

use crate::kinds::is_method;
use crate::targets::{Ended, target_of};
use cd_grammar::Part;
use cd_types::{Entry, Methods, TyRef};
use ic_base::ReadError;
use ic_principal::Text;

fn text_of(name: &Text) -> &str
    ensures value { result.now ≡ name.now }
    ensures utf8 { is_utf8 name.now ≡ true }
{
    let text = name.items.as_str();
    let _bytes = text.as_bytes();
    text
}

// Names are UTF-8.
fn names_rise_after(last: &Text, rows: &[(Text, TyRef)]) -> bool
    ensures value { result ≡ names_rise_after last.now (map (λ m. m.0) rows.now) }
    ensures utf8 { list_all is_utf8 (map (λ m. m.0) rows.now) ≡ true }
{
    let mut last = last;
    let mut rise = true;
    for (name, _) in rows {
        rise &= text_of(last) < text_of(name);
        last = name;
    }
    rise
}

// Whether the names strictly rise.
fn names_rise(rows: &[(Text, TyRef)]) -> bool
    ensures value { result ≡ names_rise (map (λ m. m.0) rows.now) }
    ensures utf8 { list_all is_utf8 (map (λ m. m.0) rows.now) ≡ true }
{
    match rows {
        [] => true,
        [(first, _), rest @ ..] => {
            let _utf8 = text_of(first);
            names_rise_after(first, rest)
        }
    }
}

// The rows are put in the order of their names. `Refused`: two are equal.
fn sort_rows(rows: &mut Vec<(Text, TyRef)>) -> Result<(), ReadError>
    ensures ok { IfOk result (λ done. AreNamed rows.old.items rows.new.items) }
    ensures refused { IfErr result (λ e. Refuses e (IsDistinct bytes_eq (map (λ r. r.0) rows.old.items) → ⊥)) }
{
    rows.sort_by(|a, b| text_of(&a.0).cmp(text_of(&b.0)))?;
    if names_rise(rows) {
        Ok(())
    } else {
        Err(ReadError::Refused)
    }
}

// The references that stand for the types of some methods. `Refused`: one is no function.
fn add_rows(
    ended: &Ended<'_, '_>,
    methods: &[(Text, Part)],
    rows: &mut Vec<(Text, TyRef)>,
) -> Result<(), ReadError>
    requires { rows.old.items ≡ [] }
    ensures ok { IfOk result (λ done. (rows.new.items ≡ map (row ended.now.names.now.definitions ended.now.ends.now) methods.now) × (list_all (λ m. is_method ended.now.names.now ended.now.ends.now m.1) methods.now ≡ true)) }
    ensures refused { IfErr result (λ e. Refuses e (list_all (λ m. is_method ended.now.names.now ended.now.ends.now m.1) methods.now ≡ false)) }
{
    for (name, part) in methods {
        if !is_method(ended, part) {
            return Err(ReadError::Refused);
        }
        rows.push((name.copy()?, target_of(ended, part)))?;
    }
    Ok(())
}

/// The entry of a service. `Refused`: two names are equal, or the type of a method is no function.
pub(crate) fn methods_of(
    ended: &Ended<'_, '_>,
    methods: &[(Text, Part)],
) -> Result<Entry, ReadError>
    ensures ok { IfOk result (λ entry. ((sorted : List (List ℕ × TyRef)) × (entry ≡ entries.Service sorted) × AreNamed (map (row ended.now.names.now.definitions ended.now.ends.now) methods.now) sorted × (list_all (λ m. is_method ended.now.names.now ended.now.ends.now m.1) methods.now ≡ true)) × (IsDistinct bytes_eq (map (λ m. m.0) methods.now) × (list_all (λ m. is_method ended.now.names.now ended.now.ends.now m.1) methods.now ≡ true))) }
    ensures refused { IfErr result (λ e. Refuses e (IsDistinct bytes_eq (map (λ m. m.0) methods.now) × (list_all (λ m. is_method ended.now.names.now ended.now.ends.now m.1) methods.now ≡ true) → ⊥)) }
{
    let mut items = Vec::new(ended.alloc);
    match add_rows(ended, methods, &mut items) {
        Ok(()) => match sort_rows(&mut items) {
            Ok(()) => Ok(Entry::Service(Methods { items })),
            Err(e) => Err(e),
        },
        Err(e) => Err(e),
    }
}
