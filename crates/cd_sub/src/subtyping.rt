ghost use Rattle.std.specs.Prelude.{◌≡◌, ◌↔◌, ◌⊎◌, ◌<◌, IfOk, IsOk, IsTrue, length};
ghost use Rattle.cd_types.specs.declared.entry.TyRef.TheVariants.{Index};
ghost use Rattle.cd_types.specs.IsInside.{is_inside};
ghost use Rattle.cd_sub.specs.Sub.{Sub};
ghost use Rattle.cd_sub.specs.Below.{below};
ghost use Rattle.cd_sub.specs.IsPrimitive.{IsPrimitive};

use crate::part_free::is_part_free_subtype;
use crate::parts::Side;
use crate::search::{Mark, decide};
use cd_types::{TyRef, TypeTable};
use ic_base::NoMemory;
use std::alloc::Global;
use std::marker::Model;

/// Answers whether types of one table are subtypes of types of another, and keeps what it finds
/// out: a pair of entries that was decided is looked up. Contracts see the two tables.
#[derive(Drop)]
pub struct Subtyping<'a> {
    alloc: Global,
    first: &'a TypeTable,
    second: &'a TypeTable,
    marks: Vec<Mark>,
}

impl<'a> Model for Subtyping<'a> {
    ghost use Rattle.std.specs.Prelude.{List};
    ghost use Rattle.cd_types.specs.declared.entry.Entry.{Entry};
    ghost use Rattle.cd_sub.specs.Marks.{Knows};

    ghost Value = { List Entry × List Entry };

    ghost view = { λ s. (s.first.now, s.second.now) };

    ghost invariant = { λ s. Knows s.first.now s.second.now s.marks.items };
}

impl<'a> Subtyping<'a> {
    /// Nothing is known yet. Memory is taken by the first question about two entries: a byte for
    /// each pair of entries and side.
    pub fn new(alloc: Global, first: &'a TypeTable, second: &'a TypeTable) -> Subtyping<'a>
        ensures { result ≡ (first.now, second.now) }
    {
        Subtyping {
            alloc,
            first,
            second,
            marks: Vec::new(alloc),
        }
    }

    /// Whether the type of the first table is a subtype of the type of the second.
    pub fn is_subtype(&mut self, a: TyRef, b: TyRef) -> Result<bool, NoMemory>
        requires a { IsTrue (is_inside (length self.old.0) a) }
        requires b { IsTrue (is_inside (length self.old.1) b) }
        ensures tables { self.new ≡ self.old }
        ensures answer { IfOk result (λ yes. IsTrue yes ↔ Sub self.old.0 a self.old.1 b) }
        ensures test { IfOk result (λ yes. yes ≡ below self.old.0 a self.old.1 b) }
        ensures answers { IsPrimitive a ⊎ IsPrimitive b → IsOk result }
    {
        match (a, b) {
            (TyRef::Index(i), TyRef::Index(j)) => self.is_entry_subtype(i, j),
            _ => Ok(is_part_free_subtype(self.first, a, self.second, b)),
        }
    }

    fn is_entry_subtype(&mut self, i: u32, j: u32) -> Result<bool, NoMemory>
        requires i { i < length self.old.0 }
        requires j { j < length self.old.1 }
        ensures tables { self.new ≡ self.old }
        ensures answer { IfOk result (λ yes. IsTrue yes ↔ Sub self.old.0 (Index i) self.old.1 (Index j)) }
    {
        let side = Side {
            lower: self.first,
            upper: self.second,
            turned: false,
        };
        let place = side.place(i, j);
        if self.marks.is_empty() {
            let pairs = self.first.len() as usize * self.second.len() as usize;
            self.marks = vec![in self.alloc; Mark::Unknown; 2 * pairs]?;
        }
        let answer = decide(self.alloc, self.first, self.second, &mut self.marks, place);
        if answer.is_err() {
            self.marks = Vec::new(self.alloc);
        }
        answer
    }
}

/// Whether a type of one table is a subtype of a type of another (Candid specification,
/// "Subtyping"). Two primitive types are decided without taking memory.
pub fn subtype(
    alloc: Global,
    t1: &TypeTable,
    a: TyRef,
    t2: &TypeTable,
    b: TyRef,
) -> Result<bool, NoMemory>
    requires a { IsTrue (is_inside (length t1.now) a) }
    requires b { IsTrue (is_inside (length t2.now) b) }
    ensures answer { IfOk result (λ yes. IsTrue yes ↔ Sub t1.now a t2.now b) }
    ensures answers { IsPrimitive a ⊎ IsPrimitive b → IsOk result }
{
    Subtyping::new(alloc, t1, t2).is_subtype(a, b)
}
