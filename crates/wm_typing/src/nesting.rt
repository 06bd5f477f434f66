ghost use Rattle.std.specs.Prelude.{◌≤◌, ◌↔◌, IsTrue};
ghost use Rattle.wm_tree.specs.Seq.{IsFlat};
ghost use Rattle.wm_tree.specs.TreeOf.{tree_of};
ghost use Rattle.wm_typing.specs.Nesting.{nesting};

use wm_tree::{Class, Instr, class_of};

/// Whether at most that many blocks nest in a body.
pub fn nests_within(body: &[Instr], most: u32) -> bool
    requires { IsFlat body.now }
    ensures { IsTrue result ↔ (nesting (tree_of body.now) ≤ most) }
{
    let mut open: u32 = 0;
    for instr in body {
        match class_of(instr) {
            Class::Opens { .. } if open == most => return false,
            Class::Opens { .. } => open += 1,
            Class::Closes => open = open.saturating_sub(1),
            _ => {}
        }
    }
    true
}
