// Text in fixed memory, written word by word.
ghost use Rattle.std.specs.Prelude.{◌≡◌, ◌≤◌, ℕ, List, [], length, take};
ghost use Rattle.report.specs.Text.{decimal};
ghost use Rattle.report.specs.inner.Writing.{pushed};

use std::marker::Model;

// No text that is printed is longer.
pub const ROOM: usize = 1024;

// What was pushed, as far as there is room for it.
// No `Display` with `write!`: their contracts do not say when a write succeeds, and `report` promises the whole text.
#[derive(Drop)]
pub(crate) struct Text {
    bytes: [u8; ROOM],
    end: usize,
}

impl Model for Text {
    ghost Value = { List ℕ };

    ghost view = { λ t. take t.end t.bytes };

    ghost invariant = { λ t. t.end ≤ 1024 };
}

impl Text {
    pub(crate) fn new() -> Text
        ensures { result ≡ [] }
    {
        Text {
            bytes: [0; ROOM],
            end: 0,
        }
    }

    pub(crate) fn as_bytes(&self) -> &[u8]
        ensures text { result.now ≡ self.now }
        ensures short { length result.now ≤ 1024 }
    {
        &self.bytes[..self.end]
    }

    // As much of the word as there is room for.
    pub(crate) fn push(&mut self, word: &[u8])
        ensures { self.new ≡ pushed self.old word.now }
    {
        let fitting = word.len().min(ROOM - self.end);
        let end = self.end + fitting;
        self.bytes[self.end..end].copy_from_slice(&word[..fitting]);
        self.end = end;
    }

    // In base ten: the digits of a tenth of the number, and its last.
    pub(crate) fn push_number(&mut self, n: usize)
        ensures { self.new ≡ pushed self.old (decimal n) }
    {
        if 10 <= n {
            self.push_number(n / 10);
        }
        self.push(&[b'0' + (n % 10) as u8]);
    }
}
