ghost use Rattle.std.specs.Prelude.{◌≡◌, ◌≤◌, ◌+◌, IfOk, length, slice_get};
ghost use Rattle.ic_base.specs.Gives.{Gives};
ghost use Rattle.cd_codec.specs.Measure.{number, number_each};
ghost use Rattle.cd_codec.specs.View.{view, views};
ghost use Rattle.cd_coerce.specs.Step.{setting};
ghost use Rattle.cd_coerce.specs.Decoded.{fits, unfit_from, argument_at, arguments_from};

use crate::step::Coercion;
use cd_codec::Value;
use cd_sub::may_miss;
use cd_types::TyRef;
use ic_base::{NoMemory, ReadError};

impl<'a> Coercion<'a> {
    /// Whether the argument at this place has a subtype of the type, or is missing and may be.
    fn fits(&mut self, types: &[TyRef], place: usize, u: TyRef) -> Result<bool, NoMemory>
        ensures tables { self.new ≡ self.old }
        ensures test { IfOk result (λ yes. yes ≡ fits (setting self.old.0.0 self.old.0.1) (slice_get types.now place) u) }
    {
        match types.get(place) {
            Some(t) => self.is_below(*t, u),
            None => Ok(may_miss(self.expected, u)),
        }
    }

    /// The least expected argument that does not fit.
    pub(crate) fn unfit(
        &mut self,
        types: &[TyRef],
        expected: &[TyRef],
    ) -> Result<Option<u32>, NoMemory>
        requires { length expected.now ≤ 10000 }
        ensures tables { self.new ≡ self.old }
        ensures least { IfOk result (λ place. place ≡ unfit_from (setting self.old.0.0 self.old.0.1) 0 types.now expected.now) }
    {
        for place in 0..expected.len() {
            if !self.fits(types, place, expected[place])? {
                return Ok(Some(place as u32));
            }
        }
        Ok(None)
    }

    /// The argument at this place, read at the type.
    fn argument(
        &mut self,
        types: &[TyRef],
        values: &[Value],
        place: usize,
        u: TyRef,
    ) -> Result<Value, ReadError>
        ensures tables { self.new.0 ≡ self.old.0 }
        ensures value { Gives view result (argument_at (setting self.old.0.0 self.old.0.1) (slice_get types.now place) (slice_get (views values.now) place) u) }
        ensures counted { IfOk result (λ v. number (view v) + self.new.1 ≡ self.old.1) }
    {
        match types.get(place) {
            None => self.missing(u),
            Some(t) => match values.get(place) {
                None => Err(ReadError::Refused),
                Some(value) => self.read(value, *t, u),
            },
        }
    }

    /// Each argument, read at the expected types.
    pub(crate) fn arguments(
        &mut self,
        types: &[TyRef],
        values: &[Value],
        expected: &[TyRef],
    ) -> Result<Vec<Value>, ReadError>
        ensures tables { self.new.0 ≡ self.old.0 }
        ensures values { Gives (λ vs. views vs.items) result (arguments_from (setting self.old.0.0 self.old.0.1) 0 types.now (views values.now) expected.now) }
        ensures counted { IfOk result (λ vs. number_each (views vs.items) + self.new.1 ≡ self.old.1) }
    {
        let mut items = Vec::new(self.alloc);
        for place in 0..expected.len() {
            let value = self.argument(types, values, place, expected[place])?;
            items.push(value)?;
        }
        Ok(items)
    }
}
