ghost use Rattle.std.specs.Prelude.{◌≡◌, ℕ, suc, ◌+◌, IfOk, Option, Some, length, true, ◌&&◌};
ghost use Rattle.cd_types.specs.IsInside.{is_inside};
ghost use Rattle.ic_base.specs.Gives.{Gives};
ghost use Rattle.cd_codec.specs.Content.{Content, plain, reserved, none, some};
ghost use Rattle.cd_codec.specs.Measure.{number};
ghost use Rattle.cd_codec.specs.View.{view};
ghost use Rattle.cd_coerce.specs.declared.plain.OptRule.TheVariants.{Inner, Constituent};
ghost use Rattle.cd_coerce.specs.Read.{coercions, coerced};
ghost use Rattle.cd_coerce.specs.Step.{setting, opt_rule, lifted, coerced_by, Settles, number_by};

use crate::plain::{OptRule, opt_rule_of, plain_of};
use crate::shapes::{Way, is_outside_subtype, opt_of, way_of};
use cd_codec::Value;
use cd_sub::{Subtyping, may_miss};
use cd_types::{TyRef, TypeTable};
use ic_base::{NoMemory, ReadError};
use std::alloc::{AllocError, Global};
use std::marker::Model;

/// Values read at types of one table as values of types of another. Contracts see both tables, and
/// how many values may still be made.
#[derive(Drop)]
pub(crate) struct Coercion<'a> {
    pub(crate) alloc: Global,
    /// The table of the types on the wire.
    pub(crate) wire: &'a TypeTable,
    /// The table of the expected types.
    pub(crate) expected: &'a TypeTable,
    pub(crate) subtyping: Subtyping<'a>,
    /// How many values may still be made.
    pub(crate) left: u32,
}

impl<'a> Model for Coercion<'a> {
    ghost use Rattle.std.specs.Prelude.{◌≡◌, ℕ, List};
    ghost use Rattle.cd_types.specs.declared.entry.Entry.{Entry};

    ghost Value = { (List Entry × List Entry) × ℕ };

    ghost view = { λ c. ((c.wire.now, c.expected.now), c.left) };

    ghost invariant = { λ c. c.subtyping ≡ (c.wire.now, c.expected.now) };
}

/// A step of a coercion: how a value is read at a type, as far as that is settled without its parts.
pub(crate) enum Step {
    /// It is read as this.
    Done(Value),
    /// It is some of a value of the first type, read at the second.
    Inner(TyRef, TyRef),
    /// Its parts are to be read, at a type that is no opt; the result is some of that value if it
    /// is to be lifted.
    Parts(TyRef, bool),
}

impl<'a> Coercion<'a> {
    /// A coercion that makes at most that many values.
    pub(crate) fn new(
        alloc: Global,
        wire: &'a TypeTable,
        expected: &'a TypeTable,
        most_values: u32,
    ) -> Coercion<'a>
        ensures { result ≡ ((wire.now, expected.now), most_values) }
    {
        Coercion {
            alloc,
            wire,
            expected,
            subtyping: Subtyping::new(alloc, wire, expected),
            left: most_values,
        }
    }

    /// Takes one from the values that may still be made.
    #[inline(always)]
    pub(crate) fn count(&mut self) -> Result<(), NoMemory>
        ensures tables { self.new.0 ≡ self.old.0 }
        ensures counted { IfOk result (λ done. suc self.new.1 ≡ self.old.1) }
    {
        if self.left == 0 {
            return Err(AllocError);
        }
        self.left -= 1;
        Ok(())
    }

    fn are_inside(&self, t: TyRef, u: TyRef) -> bool
        ensures { result ≡ (is_inside (length self.now.0.0) t && is_inside (length self.now.0.1) u) }
    {
        self.wire.contains(t) && self.expected.contains(u)
    }

    /// Whether the one type is a subtype of the other.
    pub(crate) fn is_below(&mut self, t: TyRef, u: TyRef) -> Result<bool, NoMemory>
        ensures tables { self.new ≡ self.old }
        ensures test { IfOk result (λ yes. yes ≡ (setting self.old.0.0 self.old.0.1).below t u) }
    {
        if self.are_inside(t, u) {
            self.subtyping.is_subtype(t, u)
        } else {
            Ok(is_outside_subtype(self.expected, t, u))
        }
    }

    /// Some of what was read, where it is lifted.
    #[inline(always)]
    pub(crate) fn wrap(
        &mut self,
        lift: bool,
        read: Result<Value, ReadError>,
    ) -> Result<Value, ReadError>
        ensures tables { self.new.0 ≡ self.old.0 }
        ensures lifts { (content : Option Content) → Gives view read content → Gives view result (lifted lift content) }
        ensures counted { (total : ℕ) → IfOk read (λ v. number (view v) + self.old.1 ≡ total) → IfOk result (λ v. number (view v) + self.new.1 ≡ total) }
    {
        if !lift {
            return read;
        }
        let value = read?;
        self.count()?;
        Ok(Value::some(self.alloc, value)?)
    }

    /// At a type that is no opt.
    #[inline(always)]
    fn settle_own(
        &mut self,
        value: &Value,
        t: TyRef,
        u: TyRef,
        lift: bool,
    ) -> Result<Step, ReadError>
        ensures tables { self.new.0 ≡ self.old.0 }
        ensures settles { Settles (lifted lift ((coercions (setting self.old.0.0 self.old.0.1) (view value.now)).own t u)) (coerced_by (setting self.old.0.0 self.old.0.1) (view value.now) t) result }
        ensures counted { IfOk result (λ step. number_by step + self.new.1 ≡ suc self.old.1) }
    {
        match plain_of(self.expected, value, u)? {
            None => Ok(Step::Parts(u, lift)),
            Some(done) => {
                let done = self.wrap(lift, Ok(done))?;
                Ok(Step::Done(done))
            }
        }
    }

    /// Some of a value, at an opt.
    fn settle_inner(&mut self, value: &Value, t: TyRef, w: TyRef) -> Result<Step, ReadError>
        requires { opt_rule (view value.now) ≡ Inner }
        ensures tables { self.new.0 ≡ self.old.0 }
        ensures settles { Settles ((coercions (setting self.old.0.0 self.old.0.1) (view value.now)).opt t w) (coerced_by (setting self.old.0.0 self.old.0.1) (view value.now) t) result }
        ensures counted { IfOk result (λ step. number_by step + self.new.1 ≡ suc self.old.1) }
    {
        match opt_of(self.wire, t) {
            None => Err(ReadError::Refused),
            Some(x) => {
                if self.is_below(x, w)? {
                    Ok(Step::Inner(x, w))
                } else {
                    Ok(Step::Done(Value::none()))
                }
            }
        }
    }

    /// A value that is neither null, reserved nor an opt, at an opt of the constituent type w.
    fn settle_constituent(&mut self, value: &Value, t: TyRef, w: TyRef) -> Result<Step, ReadError>
        requires { opt_rule (view value.now) ≡ Constituent }
        ensures tables { self.new.0 ≡ self.old.0 }
        ensures settles { Settles ((coercions (setting self.old.0.0 self.old.0.1) (view value.now)).opt t w) (coerced_by (setting self.old.0.0 self.old.0.1) (view value.now) t) result }
        ensures counted { IfOk result (λ step. number_by step + self.new.1 ≡ suc self.old.1) }
    {
        if may_miss(self.expected, w) {
            return Ok(Step::Done(Value::none()));
        }
        if self.is_below(t, w)? {
            self.settle_own(value, t, w, true)
        } else {
            Ok(Step::Done(Value::none()))
        }
    }

    #[inline(never)]
    fn settle_opt(&mut self, value: &Value, t: TyRef, w: TyRef) -> Result<Step, ReadError>
        ensures tables { self.new.0 ≡ self.old.0 }
        ensures settles { Settles ((coercions (setting self.old.0.0 self.old.0.1) (view value.now)).opt t w) (coerced_by (setting self.old.0.0 self.old.0.1) (view value.now) t) result }
        ensures counted { IfOk result (λ step. number_by step + self.new.1 ≡ suc self.old.1) }
    {
        match opt_rule_of(value) {
            OptRule::ToNone => Ok(Step::Done(Value::none())),
            OptRule::Inner => self.settle_inner(value, t, w),
            OptRule::Constituent => self.settle_constituent(value, t, w),
        }
    }

    /// How a value of the type t is read at the type u.
    #[inline(always)]
    pub(crate) fn settle(&mut self, value: &Value, t: TyRef, u: TyRef) -> Result<Step, ReadError>
        ensures tables { self.new.0 ≡ self.old.0 }
        ensures settles { Settles (coerced (setting self.old.0.0 self.old.0.1) (view value.now) t u) (coerced_by (setting self.old.0.0 self.old.0.1) (view value.now) t) result }
        ensures counted { IfOk result (λ step. number_by step + self.new.1 ≡ suc self.old.1) }
    {
        match way_of(self.expected, u) {
            Way::Reserved => Ok(Step::Done(reserved_value())),
            Way::Opt(w) => self.settle_opt(value, t, w),
            Way::Own => self.settle_own(value, t, u, false),
        }
    }
}

#[tactic(auto, using(cd_codec::proofs::Views::layers))]
fn reserved_value() -> Value
    ensures { view result ≡ plain reserved }
{
    Value::Reserved
}

/// Some of what was read.
pub(crate) fn some_read(alloc: Global, read: Result<Value, ReadError>) -> Result<Value, ReadError>
    ensures lifts { (content : Option Content) → Gives view read content → Gives view result (lifted true content) }
    ensures counted { (left total : ℕ) → IfOk read (λ v. suc (number (view v)) + left ≡ total) → IfOk result (λ v. number (view v) + left ≡ total) }
{
    let value = read?;
    Ok(Value::some(alloc, value)?)
}
