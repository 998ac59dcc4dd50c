// The vertices of a set as a loop goes over them: the lowest first.
ghost use Rattle.std.specs.Iterator.{at_most};
ghost use Rattle.exchanges.specs.inner.Vertices.{Takes};

// What is left of the set, of any width. No `VertexSet` (sets): that is of 16 bits, and a turn needs the bit at full width, as the
// places of a table are counted.
#[derive(Drop)]
pub(crate) struct Vertices(pub usize);

impl Iterator for Vertices {
    // The vertex, behind its bit.
    type Item = (usize, usize);

    ghost next_gives = { λ old told new. Takes old.0 told new.0 };

    ghost remaining = { λ s. at_most s.0 };

    fn next(&mut self) -> Option<(usize, usize)> {
        if self.0 == 0 {
            return None;
        }
        let rest = (self.0 - 1) & self.0;
        let bit = self.0 - rest;
        let v = self.0.trailing_zeros() as usize;
        self.0 = rest;
        Some((bit, v))
    }
}
