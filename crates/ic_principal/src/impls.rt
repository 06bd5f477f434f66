// Principals are ordered as the lists of their bytes, and shown as their texts.
ghost use Rattle.std.specs.Prelude.{Some, nat_eq, refl};
ghost use Rattle.std.specs.Ordering.{nat_cmp};
ghost use Rattle.std.specs.Cmp.Lexicographic.{pointwise, slice_cmp, nat_list_eq_equiv, nat_list_cmp_total, texts_ties, texts_po};
ghost use Rattle.std.specs.Cmp.{partial_equiv_from_equiv};
ghost use Rattle.ic_principal.specs.Text.{text_of};

use crate::principal::Principal;
use std::cmp::Ordering;
use std::fmt;

impl PartialEq for Principal {
    ghost eq = { pointwise nat_eq };

    ghost laws = { partial_equiv_from_equiv nat_list_eq_equiv };

    fn eq(&self, other: &Principal) -> bool {
        let (a, b) = (self.front(), other.front());
        if a.0 != b.0 || a.1 != b.1 || self.len() != other.len() {
            return false;
        }
        self.len() <= 16 || self.bytes() == other.bytes()
    }
}

impl Eq for Principal {
    ghost laws = { nat_list_eq_equiv };
}

impl PartialOrd for Principal {
    ghost partial_cmp = { λ p q. Some (slice_cmp nat_cmp p q) };

    ghost laws = { texts_po };

    fn partial_cmp(&self, other: &Principal) -> Option<Ordering> {
        Some(self.cmp(other))
    }
}

impl Ord for Principal {
    ghost cmp = { slice_cmp nat_cmp };

    ghost total = { nat_list_cmp_total };

    ghost matches_partial_cmp = { λ p q. refl };

    ghost matches_eq = { texts_ties };

    fn cmp(&self, other: &Principal) -> Ordering {
        let (head, others) = (self.front().0, other.front().0);
        if head != others {
            return head.cmp(&others);
        }
        if self == other {
            return Ordering::Equal;
        }
        self.bytes().cmp(other.bytes())
    }
}

impl fmt::Display for Principal {
    ghost output = { λ p. Some (text_of p) };

    fn fmt<W: fmt::Write>(&self, f: &mut fmt::Formatter<W>) -> fmt::Result {
        f.write_str(self.spelled().as_str())
    }
}

impl fmt::Debug for Principal {
    fn fmt<W: fmt::Write>(&self, f: &mut fmt::Formatter<W>) -> fmt::Result {
        f.write_str(self.spelled().as_str())
    }
}
