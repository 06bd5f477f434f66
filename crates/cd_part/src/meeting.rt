ghost use Rattle.std.specs.Prelude.{◌≡◌, ◌<◌, ◌+◌, ◌++◌, ◌∷◌, [], List, ℕ, None, true, length, replicate, IfOk, OnOk, IsTrue};
ghost use Rattle.std.specs.List.{list_all};
ghost use Rattle.cd_types.specs.declared.entry.TyRef.TheVariants.{Index};
ghost use Rattle.cd_types.specs.IsInside.{is_inside};
ghost use Rattle.cd_types.specs.IsTable.{is_table};
ghost use Rattle.cd_part.specs.Places.{place_of, renamed};
ghost use Rattle.cd_part.specs.Meets.{Meets, part_count, unmet};

use crate::parts::{push_parts, push_types};
use cd_types::{TyRef, TypeTable};
use ic_base::{NoMemory, Stack};
use std::alloc::Global;
use std::marker::Model;

/// The entries of a table that were met so far. Contracts see the table's entries, and the numbers
/// of those that were met, in the order of meeting.
#[derive(Drop)]
pub(crate) struct Meeting<'a> {
    table: &'a TypeTable,
    met: Vec<u32>,
    // For each entry of the table the place at which it was met.
    places: Vec<Option<u32>>,
}

impl<'a> Model for Meeting<'a> {
    ghost use Rattle.std.specs.Prelude.{◌≡◌, ◌≤◌, ◌+◌, ℕ, List, length};
    ghost use Rattle.cd_types.specs.declared.entry.Entry.{Entry};
    ghost use Rattle.cd_part.specs.Places.{HasPlaces};
    ghost use Rattle.cd_part.specs.Meets.{unmet};

    ghost Value = { List Entry × List ℕ };

    ghost view = { λ m. (m.table.now, m.met.items) };

    ghost invariant = { λ m. HasPlaces m.places.items m.met.items × (length m.places.items ≡ length m.table.now) × (length m.table.now ≤ 10000)
        × (length m.met.items + unmet (λ entry. 1) m.met.items 0 m.table.now ≡ length m.table.now) };
}

// The places of the entries of a table of which none was met.
fn no_places(alloc: Global, count: u32) -> Result<Vec<Option<u32>>, NoMemory>
    ensures { IfOk result (λ places. places.items ≡ replicate count None) }
{
    vec![in alloc; None; count as usize]
}

impl<'a> Meeting<'a> {
    fn of(alloc: Global, table: &'a TypeTable) -> Result<Meeting<'a>, NoMemory>
        ensures nothing { IfOk result (λ meeting. meeting ≡ (table.now, [])) }
        ensures formed { OnOk result (IsTrue (is_table table.now)) }
    {
        let places = no_places(alloc, table.len())?;
        Ok(Meeting {
            table,
            met: Vec::new(alloc),
            places,
        })
    }

    /// The table.
    pub(crate) fn table(&self) -> &'a TypeTable
        ensures { result.now ≡ self.now.0 }
    {
        self.table
    }

    /// The numbers of the entries that were met.
    pub(crate) fn met(&self) -> &[u32]
        ensures { result.now ≡ self.now.1 }
    {
        &self.met
    }

    /// The place at which an entry was met, if it was.
    fn place(&self, entry: u32) -> Option<u32>
        ensures { result ≡ place_of self.now.1 entry }
    {
        match self.places.get(entry as usize) {
            Some(place) => *place,
            None => None,
        }
    }

    /// The reference by the place at which its entry was met.
    pub(crate) fn renamed(&self, ty: TyRef) -> TyRef
        ensures { result ≡ renamed self.now.1 ty }
    {
        match ty {
            TyRef::Prim(_) => ty,
            TyRef::Index(entry) => match self.place(entry) {
                Some(place) => TyRef::Index(place),
                None => ty,
            },
        }
    }

    // Notes that an entry is met.
    fn note(&mut self, entry: u32) -> Result<(), NoMemory>
        requires unmet { place_of self.old.1 entry ≡ None }
        requires inside { entry < length self.old.0 }
        ensures table { self.new.0 ≡ self.old.0 }
        ensures met { OnOk result (self.new.1 ≡ self.old.1 ++ entry ∷ []) }
    {
        let place = self.met.len() as u32;
        self.met.push(entry)?;
        self.places[entry as usize] = Some(place);
        Ok(())
    }

    // Meets an entry: if it was not met, its parts are to be met next.
    fn meet_entry(&mut self, number: u32, todo: &mut Stack<TyRef>) -> Result<(), NoMemory>
        requires inside { number < length self.old.0 }
        ensures table { self.new.0 ≡ self.old.0 }
        ensures meets { OnOk result ((after : List ℕ) → Meets self.old.0 todo.new self.new.1 after → Meets self.old.0 (Index number ∷ todo.old) self.old.1 after) }
        ensures fewer { OnOk result (length todo.new + unmet part_count self.new.1 0 self.old.0 ≡ length todo.old + unmet part_count self.old.1 0 self.old.0) }
        ensures inside { OnOk result (list_all (is_inside (length self.old.0)) todo.old ≡ true → list_all (is_inside (length self.old.0)) todo.new ≡ true) }
    {
        if self.place(number).is_some() {
            return Ok(());
        }
        match self.table.entry(number) {
            None => unreachable!(),
            Some(entry) => {
                self.note(number)?;
                push_parts(entry, todo)?;
                Ok(())
            }
        }
    }

    // Meets a type, as Meets does.
    fn meet(&mut self, ty: TyRef, todo: &mut Stack<TyRef>) -> Result<(), NoMemory>
        requires inside { is_inside (length self.old.0) ty ≡ true }
        ensures table { self.new.0 ≡ self.old.0 }
        ensures meets { OnOk result ((after : List ℕ) → Meets self.old.0 todo.new self.new.1 after → Meets self.old.0 (ty ∷ todo.old) self.old.1 after) }
        ensures fewer { OnOk result (length todo.new + unmet part_count self.new.1 0 self.old.0 ≡ length todo.old + unmet part_count self.old.1 0 self.old.0) }
        ensures inside { OnOk result (list_all (is_inside (length self.old.0)) todo.old ≡ true → list_all (is_inside (length self.old.0)) todo.new ≡ true) }
    {
        match ty {
            TyRef::Prim(_) => Ok(()),
            TyRef::Index(number) => self.meet_entry(number, todo),
        }
    }
}

/// The entries that are met from some types, with their table.
pub(crate) fn met_from<'a>(
    alloc: Global,
    table: &'a TypeTable,
    types: &[TyRef],
) -> Result<Meeting<'a>, NoMemory>
    requires { list_all (is_inside (length table.now)) types.now ≡ true }
    ensures table { IfOk result (λ meeting. meeting.0 ≡ table.now) }
    ensures met { IfOk result (λ meeting. Meets table.now types.now [] meeting.1) }
    ensures formed { OnOk result (IsTrue (is_table table.now)) }
{
    let mut meeting = Meeting::of(alloc, table)?;
    let mut todo = Stack::new(alloc);
    push_types(types, &mut todo)?;
    while let Some(ty) = todo.pop() {
        meeting.meet(ty, &mut todo)?;
    }
    Ok(meeting)
}
