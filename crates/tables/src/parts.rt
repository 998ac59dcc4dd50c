// Trying the parts of one set.
ghost use Rattle.std.specs.Prelude.{ℕ, ◌<◌, get_or};
ghost use Rattle.kep.specs.inner.BestFilling.{looked, mark, Tries, CanTry};

use crate::fours::try_fours;

// What trying comes to: the greatest value that a part brought, and how many parts were tried. A part brings what it offers, and the
// entry of what it leaves.
#[derive(Clone, Copy)]
pub(crate) struct Found {
    pub most: u32,
    pub tried: usize,
}

// Tries the nonempty parts of a set that is not marked, from the set itself down by number; the last is the first that brings `all`, what a
// marked part does that serves every member with the best of the rest. Where few sets are marked, groups of parts in which none is are passed
// over: that changes the time alone.
pub(crate) fn try_parts(s: usize, few: bool, all: u32, offers: &[u32], table: &[u32]) -> Found
    requires can_try { CanTry offers.now table.now all s }
    requires unmarked { get_or offers.now s 0 < mark }
    ensures { Tries (looked offers.now table.now s) all s result.most result.tried }
{
    let others = (s - 1) & s;
    if others == 0 {
        // It has no other part.
        return Found { most: 0, tried: 1 };
    }
    let a = s - others;
    let b = others - ((others - 1) & others);
    // Told apart here, so that neither loop asks.
    if few {
        try_fours::<true>(s, a, b, all, offers, table)
    } else {
        try_fours::<false>(s, a, b, all, offers, table)
    }
}
