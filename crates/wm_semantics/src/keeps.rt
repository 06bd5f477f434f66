use crate::host::Host;

/// A host with a relation between itself, the store and what is used, before and after, that each of
/// its answers keeps. A layer above writes this for its host, to learn what a whole run keeps.
pub trait Keeps: Host {
    ghost use Rattle.std.specs.Prelude.{ℕ};
    ghost use Rattle.wm_semantics.specs.Keeps.{Change, IsKept};

    ghost kept: { Change Self };

    ghost is_kept: { (limit : ℕ) → IsKept Self.answers limit kept };
}
