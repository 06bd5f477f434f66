ghost use Rattle.std.specs.Prelude.{◌≡◌, ◌++◌, MatchOption, IfSome, bytes_eq, length, option_map, true};
ghost use Rattle.std.specs.List.{list_all};
ghost use Rattle.std.specs.Option.{option_copied};
ghost use Rattle.cd_types.specs.IsInside.{is_inside};
ghost use Rattle.cd_types.specs.IsTable.{is_func_at, is_well_formed};
ghost use Rattle.cd_did.specs.Methods.{Function, IsMethod, entry_at, methods_at, function_at, type_named, method_in};

use crate::fault::Interface;
use cd_types::{Entry, TyRef, TypeTable};
use ic_principal::Text;
use std::marker::Model;

/// The function type of a method: its arguments, its results, and its annotations in their order,
/// 1 query, 2 oneway, 3 composite_query. Contracts see these.
#[derive(Drop)]
pub struct Method<'a> {
    pub args: &'a [TyRef],
    pub results: &'a [TyRef],
    pub notes: &'a [u8],
}

impl<'a> Model for Method<'a> {
    ghost use Rattle.cd_did.specs.Methods.{Function};

    ghost Value = { Function };

    ghost view = { λ m. record { args = m.args.now; results = m.results.now; notes = m.notes.now } };
}

// The entry that a reference names.
fn entry_at(table: &TypeTable, ty: TyRef) -> Option<&Entry>
    ensures value { option_copied result ≡ entry_at table.now ty }
    ensures well_formed { IfSome result (λ entry. is_well_formed table.now entry.now ≡ true) }
{
    match ty {
        TyRef::Prim(_) => None,
        TyRef::Index(index) => table.entry(index),
    }
}

// The methods of a service.
fn methods_at(table: &TypeTable, service: TyRef) -> Option<&[(Text, TyRef)]>
    ensures value { option_map (λ methods. methods.now) result ≡ methods_at table.now service }
    ensures functions { IfSome result (λ methods. list_all (λ m. is_func_at table.now m.1) methods.now ≡ true) }
{
    match entry_at(table, service) {
        None => None,
        Some(entry) => match entry {
            Entry::Service(methods) => Some(&methods.items),
            _ => None,
        },
    }
}

fn is_called(other: &Text, name: &str) -> bool
    ensures { result ≡ bytes_eq other.now name.now }
{
    other.items.as_str() == name
}

// The type of the method with the name.
fn type_named(methods: &[(Text, TyRef)], name: &str) -> Option<TyRef>
    ensures { result ≡ type_named methods.now name.now }
{
    for (other, ty) in methods {
        if is_called(other, name) {
            return Some(*ty);
        }
    }
    None
}

// The function that a type is.
fn function_at(table: &TypeTable, ty: TyRef) -> Option<Method<'_>>
    ensures value { result ≡ function_at table.now ty }
    ensures within { IfSome result (λ function. list_all (is_inside (length table.now)) (function.args ++ function.results) ≡ true) }
{
    match entry_at(table, ty) {
        None => None,
        Some(entry) => match entry {
            Entry::Func {
                args,
                results,
                notes,
            } => Some(Method {
                args: &args.items,
                results: &results.items,
                notes: &notes.items,
            }),
            _ => None,
        },
    }
}

impl Interface {
    /// The types that the service is installed with, those before its `->`: none, where it has none
    /// or there is no service.
    pub fn init(&self) -> &[TyRef]
        ensures { result.now ≡ self.now.init }
    {
        &self.init.items
    }

    /// The service's method of this name. `None`: it has none of the name, or there is no service.
    /// Time grows with the number of the service's methods.
    pub fn method(&self, name: &str) -> Option<Method<'_>>
        ensures method { MatchOption result ((function : Function) → IsMethod self.now name.now function → ⊥) (IsMethod self.now name.now) }
        ensures found { result ≡ method_in self.now name.now }
        // Its types are within the table: those of either list, and of both.
        ensures args { IfSome result (λ function. list_all (is_inside (length self.now.table)) function.args ≡ true) }
        ensures results { IfSome result (λ function. list_all (is_inside (length self.now.table)) function.results ≡ true) }
        ensures within { IfSome result (λ function. list_all (is_inside (length self.now.table)) (function.args ++ function.results) ≡ true) }
    {
        match self.service {
            None => None,
            Some(service) => match methods_at(&self.table, service) {
                None => None,
                Some(methods) => match type_named(methods, name) {
                    None => None,
                    Some(ty) => function_at(&self.table, ty),
                },
            },
        }
    }
}
