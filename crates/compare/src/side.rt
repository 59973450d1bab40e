// A node as its peer meets it: its generations and what stands beside them on its card.
ghost use Rattle.std.specs.Prelude.{◌≡◌};
ghost use Rattle.compare.specs.Sides.{blank, same_current, tracks, remembers, same_bitmap, left_behind, shares_ancestor, is_primary, role_where, can_take};

#[derive(Clone, Copy, PartialEq, Eq, Debug)]
pub enum Role {
    Primary,
    Secondary,
}

// The generations are identifiers; 0 is none, as a card and a frame have it.
#[derive(Clone, Copy, PartialEq, Eq, Debug)]
pub struct Side {
    pub current: u64,
    // The one since which the bitmap marks what was written.
    pub bitmap: u64,
    // The two generations before that one.
    pub recent: u64,
    pub older: u64,
    pub consistent: bool,
    // The card's primary field; `role` is what the node is now.
    pub primary: bool,
    pub role: Role,
    // How many bits its bitmap has set.
    pub bits: u64,
}

impl From<bool> for Role {
    ghost from_gives = { λ primary r. r ≡ role_where primary };

    fn from(primary: bool) -> Role {
        if primary {
            Role::Primary
        } else {
            Role::Secondary
        }
    }
}

impl Role {
    // Asked so often that it has a name.
    pub fn is_primary(self) -> bool
        ensures { result ≡ is_primary self }
    {
        self == Role::Primary
    }
}

impl Side {
    pub(crate) fn is_blank(self) -> bool
        ensures { result ≡ blank self }
    {
        self.current == 0
    }

    pub(crate) fn same_current(self, other: Side) -> bool
        ensures { result ≡ same_current self other }
    {
        self.current == other.current
    }

    pub(crate) fn tracks(self, other: Side) -> bool
        ensures { result ≡ tracks self other }
    {
        other.current == self.bitmap
    }

    pub(crate) fn remembers(self, other: Side) -> bool
        ensures { result ≡ remembers self other }
    {
        [self.recent, self.older].contains(&other.current)
    }

    pub(crate) fn same_bitmap(self, other: Side) -> bool
        ensures { result ≡ same_bitmap self other }
    {
        self.bitmap == other.bitmap && self.bitmap != 0
    }

    fn left_behind(self, generation: u64) -> bool
        ensures { result ≡ left_behind generation self }
    {
        generation != 0 && [self.bitmap, self.recent, self.older].contains(&generation)
    }

    pub(crate) fn shares_ancestor(self, other: Side) -> bool
        ensures { result ≡ shares_ancestor self other }
    {
        // Written out: a chain over the three would need a function of its own.
        other.left_behind(self.bitmap)
            || other.left_behind(self.recent)
            || other.left_behind(self.older)
    }

    pub(crate) fn can_take(self, source: Side) -> bool
        ensures { result ≡ can_take self source }
    {
        !self.role.is_primary() && source.consistent
    }
}
