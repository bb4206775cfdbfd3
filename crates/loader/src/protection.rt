// Protection: a set of groups, one bit a group, and whether reading is protected too.
ghost use Rattle.std.specs.Prelude.{◌≡◌, ◌-◌, ◌≤◌, ◌<◌};
ghost use Rattle.loader.specs.Protection.{none, with_group, with_read, join_of, any_of};

use basis::units::Group;

/// Which groups are protected, the lowest by the lowest bit, and whether reading is.
// The groups are bits and no set: C holds them, and there is no heap.
#[derive(Clone, Copy, Debug, PartialEq, Eq)]
pub struct Protection {
    pub groups: u64,
    pub read: bool,
}

impl Protection {
    /// Nothing is protected.
    pub fn none() -> Protection
        ensures { result ≡ none }
    {
        Protection {
            groups: 0,
            read: false,
        }
    }

    /// One group more, of at most 64.
    pub fn with_group(self, group: Group) -> Protection
        requires { group.0 < 64 }
        ensures { result ≡ with_group self group.0 }
    {
        Protection {
            groups: self.groups | (1 << group.0),
            ..self
        }
    }

    /// Reading too.
    pub fn with_read(self) -> Protection
        ensures { result ≡ with_read self }
    {
        Protection { read: true, ..self }
    }

    /// What either protects.
    pub fn join(self, added: Protection) -> Protection
        ensures { result ≡ join_of self added }
    {
        Protection {
            groups: self.groups | added.groups,
            read: self.read | added.read,
        }
    }

    /// Whether one of the groups from `from` up to, and without, `to` is protected.
    // A `for` and no library `any`: `any_of` is a recursion over the groups, and each turn keeps what is left of it.
    #[tactic(auto, using(crate::proofs::Turns::groups))]
    pub fn any(self, from: Group, to: Group) -> bool
        requires { to.0 ≤ 64 }
        ensures { result ≡ any_of self.groups from.0 (to.0 - from.0) }
    {
        for g in from.0..to.0 {
            if (self.groups >> g) % 2 == 1 {
                return true;
            }
        }
        false
    }
}
