ghost use Rattle.std.specs.Prelude.{◌≡◌, ◌+◌, ◌≤◌, true, Some, None, length, map, replicate, IfOk};
ghost use Rattle.wm_semantics.specs.Instance as specs;

use crate::constants::constant_of;
use ic_base::NoMemory;
use std::alloc::Global;
use wm_tree::Element;

/// Writes the functions over the entries from a place on.
fn lay(table: &mut [Option<u32>], at: usize, functions: &[u32])
    requires { at + length functions.now ≤ length table.old }
    ensures { table.new ≡ specs.laid at (map (λ f. Some f) functions.now) table.old }
{
    for (place, function) in functions.iter().enumerate() {
        table[at + place] = Some(*function);
    }
}

/// Writes the functions of an element segment to the table.
fn lay_element(table: &mut [Option<u32>], element: &Element)
    requires { specs.constant_of element.now.offset + length element.now.functions ≤ length table.old }
    ensures { table.new ≡ specs.laid (specs.constant_of element.now.offset) (map (λ f. Some f) element.now.functions) table.old }
{
    let at = constant_of(&element.offset.items);
    lay(table, at as usize, &element.functions.items);
}

/// The table with the element segments written to it, one after the other.
pub(crate) fn table_of(
    alloc: Global,
    size: u32,
    elements: &[Element],
) -> Result<Vec<Option<u32>>, NoMemory>
    requires { specs.elements_fit size elements.now ≡ true }
    ensures { IfOk result (λ table. table.items ≡ specs.with_elements elements.now (replicate size None)) }
{
    let mut table = vec![in alloc; None; size as usize]?;
    for element in elements {
        lay_element(&mut table, element);
    }
    Ok(table)
}
