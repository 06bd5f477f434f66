ghost use Rattle.std.specs.Prelude.{[], ◌≡◌, ◌<◌, ◌*◌, ◌/◌, ◌%◌, length, not, IfOk, IsTrue, slice_get, Some};
ghost use Rattle.std.specs.Option.{option_and_then};
ghost use Rattle.std.specs.Ordering.{nat_cmp};
ghost use Rattle.std.specs.Cmp.Lexicographic.{slice_cmp};
ghost use Rattle.cd_types.specs.IsOrdered.{is_ordered};
ghost use Rattle.cd_sub.specs.Rising.{Rising};
ghost use Rattle.cd_sub.specs.Parts.{place_of, verdict, part_at, labelled_part, field_parts, case_parts};
ghost use Rattle.cd_sub.specs.Parts.{method_parts, sequence_parts, entry_parts};
ghost use Rattle.cd_sub.specs.Pairs.{pair_parts};

use crate::labels::{method_name, type_of_field, type_of_method};
use crate::part_free::{is_part_free_subtype, may_miss};
use cd_types::{Entry, TyRef, TypeTable};
use ic_base::NoMemory;
use ic_principal::Text;

/// What is under a label: an expected field of a record, a case of a variant, or an expected
/// method of a service. A sequence is like a record whose labels are places.
#[derive(Clone, Copy)]
pub(crate) enum Labelled {
    Field,
    Case,
    Method,
}

/// The tables of a lower type and of an upper one, the possible subtype and the possible
/// supertype. Turned, the lower type is of the second table: so it is with a function's arguments.
#[derive(Clone, Copy)]
pub(crate) struct Side<'a> {
    pub lower: &'a TypeTable,
    pub upper: &'a TypeTable,
    pub turned: bool,
}

impl<'a> Side<'a> {
    fn exchanged(&self) -> Side<'a>
        ensures lower { result.lower.now ≡ self.now.upper.now }
        ensures upper { result.upper.now ≡ self.now.lower.now }
        ensures turned { result.turned ≡ not self.now.turned }
    {
        Side {
            lower: self.upper,
            upper: self.lower,
            turned: !self.turned,
        }
    }

    /// The place of a pair of entries among the marks.
    #[inline(always)]
    pub(crate) fn place(&self, lower: u32, upper: u32) -> u32
        requires lower { lower < length self.now.lower.now }
        requires upper { upper < length self.now.upper.now }
        ensures { result ≡ place_of self.now.lower.now self.now.upper.now self.now.turned lower upper }
    {
        let width = self.upper.len();
        let half = self.lower.len() * width;
        let before = if self.turned { half } else { 0 };
        before + (lower * width + upper)
    }

    /// Notes a pair of entries as a part to be shown, and decides every other pair at once.
    #[inline(always)]
    fn part(&self, a: TyRef, b: TyRef, found: &mut Vec<u32>) -> Result<bool, NoMemory>
        ensures { let parts = part_at self.now.lower.now self.now.upper.now self.now.turned a b in
            IfOk result (λ fits. verdict fits found.new.items ≡ parts found.old.items) }
    {
        match (a, b) {
            (TyRef::Index(i), TyRef::Index(j)) if i < self.lower.len() && j < self.upper.len() => {
                found.push(self.place(i, j))?;
                Ok(true)
            }
            _ => Ok(is_part_free_subtype(self.lower, a, self.upper, b)),
        }
    }

    /// Decides the type under a label and the type under the same label on the other side, if there
    /// is one, or notes them as a part.
    #[inline(always)]
    fn labelled(
        &self,
        label: Labelled,
        other: Option<TyRef>,
        ty: TyRef,
        found: &mut Vec<u32>,
    ) -> Result<bool, NoMemory>
        ensures { let parts = labelled_part label self.now.lower.now self.now.upper.now self.now.turned other ty in
            IfOk result (λ fits. verdict fits found.new.items ≡ parts found.old.items) }
    {
        match (label, other) {
            (Labelled::Field, None) => Ok(may_miss(self.upper, ty)),
            (Labelled::Case, None) | (Labelled::Method, None) => Ok(false),
            (Labelled::Field, Some(present)) => self.part(present, ty, found),
            (Labelled::Case, Some(expected)) => self.part(ty, expected, found),
            (Labelled::Method, Some(present)) => self.part(present, ty, found),
        }
    }

    fn fields(
        &self,
        fields: &[(u32, TyRef)],
        expected: &[(u32, TyRef)],
        found: &mut Vec<u32>,
    ) -> Result<bool, NoMemory>
        requires fields { Rising nat_cmp fields.now }
        requires expected { Rising nat_cmp expected.now }
        ensures { let parts = field_parts self.now.lower.now self.now.upper.now self.now.turned fields.now expected.now in
            IfOk result (λ fits. verdict fits found.new.items ≡ parts found.old.items) }
    {
        let mut at = 0;
        for (id, ty) in expected {
            let (next, present) = type_of_field(fields, at, *id);
            at = next;
            if !self.labelled(Labelled::Field, present, *ty, found)? {
                return Ok(false);
            }
        }
        Ok(true)
    }

    fn cases(
        &self,
        cases: &[(u32, TyRef)],
        expected: &[(u32, TyRef)],
        found: &mut Vec<u32>,
    ) -> Result<bool, NoMemory>
        requires cases { Rising nat_cmp cases.now }
        requires expected { Rising nat_cmp expected.now }
        ensures { let parts = case_parts self.now.lower.now self.now.upper.now self.now.turned cases.now expected.now in
            IfOk result (λ fits. verdict fits found.new.items ≡ parts found.old.items) }
    {
        let mut at = 0;
        for (id, ty) in cases {
            let (next, wanted) = type_of_field(expected, at, *id);
            at = next;
            if !self.labelled(Labelled::Case, wanted, *ty, found)? {
                return Ok(false);
            }
        }
        Ok(true)
    }

    fn methods(
        &self,
        methods: &[(Text, TyRef)],
        expected: &[(Text, TyRef)],
        found: &mut Vec<u32>,
    ) -> Result<bool, NoMemory>
        requires methods { Rising (slice_cmp nat_cmp) methods.now }
        requires expected { Rising (slice_cmp nat_cmp) expected.now }
        ensures { let parts = method_parts self.now.lower.now self.now.upper.now self.now.turned methods.now expected.now in
            IfOk result (λ fits. verdict fits found.new.items ≡ parts found.old.items) }
    {
        let mut at = 0;
        for method in expected {
            let (next, present) = type_of_method(methods, at, method_name(method));
            at = next;
            if !self.labelled(Labelled::Method, present, method.1, found)? {
                return Ok(false);
            }
        }
        Ok(true)
    }

    fn sequence(
        &self,
        types: &[TyRef],
        expected: &[TyRef],
        found: &mut Vec<u32>,
    ) -> Result<bool, NoMemory>
        ensures { let parts = sequence_parts self.now.lower.now self.now.upper.now self.now.turned types.now expected.now in
            IfOk result (λ fits. verdict fits found.new.items ≡ parts found.old.items) }
    {
        for (at, ty) in expected.iter().enumerate() {
            if !self.labelled(Labelled::Field, types.get(at).copied(), *ty, found)? {
                return Ok(false);
            }
        }
        Ok(true)
    }

    fn func(
        &self,
        args: &[TyRef],
        results: &[TyRef],
        expected_args: &[TyRef],
        expected_results: &[TyRef],
        found: &mut Vec<u32>,
    ) -> Result<bool, NoMemory>
        ensures { let of_args = sequence_parts self.now.upper.now self.now.lower.now (not self.now.turned) expected_args.now args.now in
            let of_results = sequence_parts self.now.lower.now self.now.upper.now self.now.turned results.now expected_results.now in
            IfOk result (λ fits. verdict fits found.new.items ≡ option_and_then of_results (of_args found.old.items)) }
    {
        Ok(
            self.exchanged().sequence(expected_args, args, found)?
                && self.sequence(results, expected_results, found)?,
        )
    }

    fn entries(&self, x: &Entry, y: &Entry, found: &mut Vec<u32>) -> Result<bool, NoMemory>
        requires x { IsTrue (is_ordered x.now) }
        requires y { IsTrue (is_ordered y.now) }
        requires none { found.old.items ≡ [] }
        ensures { let parts = entry_parts self.now.lower.now self.now.upper.now self.now.turned x.now y.now in
            IfOk result (λ fits. verdict fits found.new.items ≡ parts) }
    {
        match (x, y) {
            (_, Entry::Opt(_)) => Ok(true),
            (Entry::Seq(a), Entry::Seq(b)) => self.part(*a, *b, found),
            (Entry::Rec(fields), Entry::Rec(expected)) => self.fields(
                &fields.items,
                &expected.items,
                found,
            ),
            (Entry::Var(cases), Entry::Var(expected)) => self.cases(
                &cases.items,
                &expected.items,
                found,
            ),
            (
                Entry::Func {
                    args,
                    results,
                    notes,
                },
                Entry::Func {
                    args: expected_args,
                    results: expected_results,
                    notes: expected_notes,
                },
            ) => Ok(
                notes.items == expected_notes.items
                    && self.func(
                        &args.items,
                        &results.items,
                        &expected_args.items,
                        &expected_results.items,
                        found,
                    )?,
            ),
            (Entry::Service(methods), Entry::Service(expected)) => self.methods(
                &methods.items,
                &expected.items,
                found,
            ),
            _ => Ok(false),
        }
    }

    /// Replaces what was found by the parts of the pair of entries with this number, and answers
    /// whether a rule fits if they do.
    pub(crate) fn pair(&self, number: u32, found: &mut Vec<u32>) -> Result<bool, NoMemory>
        requires { number < length self.now.lower.now * length self.now.upper.now }
        ensures { let parts = pair_parts self.now.lower.now self.now.upper.now self.now.turned number in
            IfOk result (λ fits. verdict fits found.new.items ≡ parts) }
    {
        found.clear();
        let width = self.upper.len();
        match (
            self.lower.entry(number / width),
            self.upper.entry(number % width),
        ) {
            (Some(x), Some(y)) => self.entries(x, y, found),
            _ => Ok(false),
        }
    }
}
