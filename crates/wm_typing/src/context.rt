ghost use Rattle.std.specs.Prelude.{slice_get};
ghost use Rattle.wm_typing.specs.Context.{type_of, indirect_type};
ghost use Rattle.wm_typing.specs.Checks.{Gives};

use crate::fault::BodyFault;
use crate::locals::Locals;
use std::marker::Model;
use wm_tree::{FuncType, GlobalType, ValType};

/// What a function's body may name (WebAssembly Core 1.0, 3.1.1).
#[derive(Debug, Drop)]
pub struct Context<'a> {
    /// The types of the module.
    pub types: &'a [FuncType],
    /// The index of each function's type, the imported functions first.
    pub functions: &'a [u32],
    /// The number by which the host knows each imported function.
    pub hosts: &'a [u32],
    /// The types of the globals.
    pub globals: &'a [GlobalType],
    /// Whether the module has a table.
    pub has_table: bool,
    /// Whether the module has a memory.
    pub has_memory: bool,
    /// The types of the function's parameters.
    pub params: &'a [ValType],
    /// The types of its locals, counted after the parameters.
    pub locals: &'a Locals<'a>,
    /// The type of the function's result.
    pub result: Option<ValType>,
}

impl<'a> Model for Context<'a> {
    ghost use Rattle.std.specs.Prelude.{◌++◌, length};
    ghost use Rattle.wm_typing.specs.Context.{Context};

    ghost Value = { Context };

    ghost view = { λ c. record {
      types = c.types.now;
      functions = c.functions.now;
      hosts = c.hosts.now;
      globals = c.globals.now;
      has_table = c.has_table;
      has_memory = c.has_memory;
      locals = c.params.now ++ c.locals.now;
      params = length c.params.now;
      result = c.result;
    } };
}

impl<'a> Context<'a> {
    /// The type of the function at that index.
    pub(crate) fn type_of(&self, index: u32) -> Result<&'a FuncType, BodyFault>
        ensures { Gives (λ t. t.now) result (type_of self.now index) }
    {
        let types = self.types;
        match self.functions.get(index as usize) {
            Some(t) => types.get(*t as usize).ok_or(BodyFault::Untyped),
            None => Err(BodyFault::Untyped),
        }
    }

    /// The type that an indirect call names.
    pub(crate) fn indirect_type(&self, index: u32) -> Result<&'a FuncType, BodyFault>
        ensures { Gives (λ t. t.now) result (indirect_type self.now index) }
    {
        if self.has_table {
            let types = self.types;
            types.get(index as usize).ok_or(BodyFault::Untyped)
        } else {
            Err(BodyFault::Untyped)
        }
    }

    /// The type of a parameter or a local.
    pub(crate) fn local(&self, index: u32) -> Result<ValType, BodyFault>
        ensures { Gives (λ t. t) result (slice_get self.now.locals index) }
    {
        let place = index as usize;
        let params = self.params;
        if place < params.len() {
            return Ok(params[place]);
        }
        match self.locals.get(place - params.len()) {
            Some(t) => Ok(t),
            None => Err(BodyFault::Untyped),
        }
    }

    /// The type of a global.
    pub(crate) fn global(&self, index: u32) -> Result<GlobalType, BodyFault>
        ensures { Gives (λ g. g) result (slice_get self.now.globals index) }
    {
        match self.globals.get(index as usize) {
            Some(g) => Ok(*g),
            None => Err(BodyFault::Untyped),
        }
    }
}
