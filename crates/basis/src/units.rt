// A byte address, a page number and a group number are three things, so each has a type of its own.
// Every conversion rounds down.
ghost use Rattle.std.specs.Prelude.{◌≡◌, ◌^◌, ◌<◌};
ghost use Rattle.basis.specs.Units.{page_of, group_of, page_group_of, start_of};

use crate::board::{GROUP, GROUP_PAGES, PAGE};

/// The address of a byte of flash.
#[derive(Clone, Copy, Debug, PartialEq, Eq, PartialOrd, Ord)]
pub struct Address(pub u32);

/// The number of a page: 512 bytes.
#[derive(Clone, Copy, Debug, PartialEq, Eq)]
pub struct Page(pub u32);

/// The number of a group: 4 pages, which are protected together.
#[derive(Clone, Copy, Debug, PartialEq, Eq)]
pub struct Group(pub u32);

impl From<Address> for Page {
    ghost from_gives = { λ a p. p.0 ≡ page_of a.0 };

    /// The page that holds the address.
    fn from(address: Address) -> Page {
        Page(address.0 / PAGE)
    }
}

impl From<Address> for Group {
    ghost from_gives = { λ a g. g.0 ≡ group_of a.0 };

    /// The group that holds the address.
    fn from(address: Address) -> Group {
        Group(address.0 / GROUP)
    }
}

impl From<Page> for Group {
    ghost from_gives = { λ p g. g.0 ≡ page_group_of p.0 };

    /// The group that holds the page.
    fn from(page: Page) -> Group {
        Group(page.0 / GROUP_PAGES)
    }
}

impl Page {
    /// The page's first address. The page of any address is low enough.
    pub fn start(self) -> Address
        requires { self.0 < 2 ^ 23 }
        ensures { result.0 ≡ start_of self.0 }
    {
        Address(self.0 * PAGE)
    }
}
