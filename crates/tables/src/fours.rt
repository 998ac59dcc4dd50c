// The parts of a set by fours. For a part t of what is left of the set without its two lowest vertices, from there down, four come one
// after the other: t with both vertices, with the second, with the first, and t alone. So the loads for four parts do not wait for each other.
ghost use Rattle.std.specs.Prelude.{false, [], ◌∷◌, ◌≡◌, ℕ, max, ◌+◌, ◌-◌, ◌≤◌, ◌<◌, eqb, get_or, drop};
ghost use Rattle.kep.specs.Sets.{Part};
ghost use Rattle.kep.specs.Trying.{tried_of};
ghost use Rattle.kep.specs.inner.BestFilling.{looked, mark, Tries, CanTry, TwoAside, Unmarked};

use crate::parts::Found;
use crate::worths::MARK;

// Tries all nonempty parts of a set of two vertices or more; a is its lowest vertex alone, b the next. The last t is empty, and is not tried
// alone. With FEW a group in which none is marked is passed over.
// Not inlined, so that its loop has all registers; so what it is lent comes one by one, in registers too.
#[inline(never)]
pub(crate) fn try_fours<const FEW: bool>(
    s: usize,
    a: usize,
    b: usize,
    all: u32,
    offers: &[u32],
    table: &[u32],
) -> Found
    requires two_aside { TwoAside s a b }
    requires can_try { CanTry offers.now table.now all s }
    ensures { Tries (looked offers.now table.now s) all s result.most result.tried }
{
    let fours = Fours {
        s,
        all,
        a,
        b,
        offers,
        table,
        later: &offers[b..],
        beyond: &table[b..],
    };
    let rest = s - a - b;
    let mut most: u32 = 0;
    let mut before: usize = 0;
    // No range has these steps.
    let mut t = rest;
    while t != 0 {
        if !FEW || fours.is_one_marked(t) {
            let three = fours.three(rest - t, t);
            most = three.greatest(most).max(fours.alone(rest - t, t));
            if most == all {
                return Found {
                    most,
                    tried: before + three.place_of(all),
                };
            }
        }
        before += 4;
        t = (t - 1) & rest;
    }
    let three = fours.three(rest, 0);
    Found {
        most: three.greatest(most),
        tried: before + three.place_of(all).min(3),
    }
}

// What the groups of a set's parts are looked up in. The set and `all` are there for what is known of the slices.
#[derive(Clone, Copy)]
struct Fours<'a> {
    s: usize,
    all: u32,
    a: usize,
    b: usize,
    offers: &'a [u32],
    table: &'a [u32],
    // The same from b on.
    later: &'a [u32],
    beyond: &'a [u32],
    ghost two_aside: { TwoAside s a b },
    ghost can_try: { CanTry offers.now table.now all s },
    ghost later_is: { later.now ≡ drop b offers.now },
    ghost beyond_is: { beyond.now ≡ drop b table.now },
}

impl Fours<'_> {
    // Is one of the four parts of the group of t marked?
    fn is_one_marked(&self, t: usize) -> bool
        requires { t + self.now.a + self.now.b ≤ self.now.s }
        ensures { result ≡ false → Unmarked self.now.offers.now self.now.a self.now.b t }
    {
        let with_b = self.later[t + self.a] | self.later[t];
        with_b | self.offers[t + self.a] | self.offers[t] >= MARK
    }

    // What the first three parts of the group of t bring; u is what t leaves without both vertices.
    fn three(&self, u: usize, t: usize) -> Three
        requires inside { Part t (self.now.s - self.now.a - self.now.b) }
        requires leaves { u + t ≡ self.now.s - self.now.a - self.now.b }
        ensures both { result.both ≡ looked self.now.offers.now self.now.table.now self.now.s (self.now.b + (t + self.now.a)) }
        ensures second { result.second ≡ looked self.now.offers.now self.now.table.now self.now.s (self.now.b + t) }
        ensures first { result.first ≡ looked self.now.offers.now self.now.table.now self.now.s (t + self.now.a) }
    {
        Three {
            both: self.later[t + self.a] + self.table[u],
            second: self.later[t] + self.table[u + self.a],
            first: self.offers[t + self.a] + self.beyond[u],
        }
    }

    // And what t alone brings.
    fn alone(&self, u: usize, t: usize) -> u32
        requires inside { Part t (self.now.s - self.now.a - self.now.b) }
        requires leaves { u + t ≡ self.now.s - self.now.a - self.now.b }
        requires some { 0 < t }
        ensures { result ≡ looked self.now.offers.now self.now.table.now self.now.s t }
    {
        self.offers[t] + self.beyond[u + self.a]
    }
}

// What the first three parts of a group bring.
#[derive(Clone, Copy)]
struct Three {
    both: u32,
    second: u32,
    first: u32,
}

impl Three {
    // The greatest of them and of what was brought before.
    fn greatest(self, most: u32) -> u32
        ensures { result ≡ max most (max self.both (max self.second self.first)) }
    {
        most.max(self.both.max(self.second.max(self.first)))
    }

    // Which of a group's four parts is the first that brings `all`; the fourth where none of the three does.
    fn place_of(self, all: u32) -> usize
        ensures { (x : ℕ) → result ≡ tried_of (λ y. eqb y all) (self.both ∷ self.second ∷ self.first ∷ x ∷ []) }
    {
        if self.both == all {
            1
        } else if self.second == all {
            2
        } else if self.first == all {
            3
        } else {
            4
        }
    }
}
