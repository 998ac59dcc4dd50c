// The lines of the text.
ghost use Rattle.std.specs.Prelude.{◌≡◌, ◌++◌, ◌+◌, ◌*◌, ◌≤◌, ◌<◌, length};
ghost use Rattle.pool.specs.Refusals.{number_of};
ghost use Rattle.report.specs.Text.{line_feed, decimal, kind_word, record_line, record_lines, served_line, refused_line};
ghost use Rattle.report.specs.inner.Writing.{pushed};

use crate::text::Text;
use plans::{ExchangeKind, PlanRecord};
use pool::Refusal;

impl Text {
    // `served S of M`, and a line for each record.
    pub(crate) fn push_plan(&mut self, served: u8, members: u8, records: &[[u8; PlanRecord::WIDTH]])
        ensures text { self.new ≡ pushed self.old (served_line served members ++ record_lines records.now) }
        ensures short { length (served_line served members ++ record_lines records.now) ≤ 18 + 62 * length records.now }
    {
        self.push_numbers(
            b"served ",
            usize::from(served),
            b" of ",
            usize::from(members),
        );
        for bytes in records {
            self.push_record(bytes);
        }
    }

    // `refused N P`.
    // As the first line of `push_plan`, by `push_numbers`. The spot is asked for, since a refusal's fields are public.
    pub(crate) fn push_refused(&mut self, refusal: Refusal)
        requires { refusal.at < 1000 }
        ensures text { self.new ≡ pushed self.old (refused_line (number_of refusal.cause) refusal.at) }
        ensures short { length (refused_line (number_of refusal.cause) refusal.at) ≤ 16 }
    {
        let number = refusal.cause.number();
        self.push_numbers(b"refused ", usize::from(number), b" ", refusal.at);
    }

    // A line of two words, each with a number.
    fn push_numbers(&mut self, word: &[u8], n: usize, next: &[u8], m: usize)
        ensures { self.new ≡ pushed self.old ((word.now ++ decimal n) ++ (next.now ++ decimal m) ++ line_feed) }
    {
        self.push(word);
        self.push_number(n);
        self.push(next);
        self.push_number(m);
        self.push(b"\n");
    }

    // `ring` or `chain`, and the places before the first filler, each after one space.
    fn push_record(&mut self, bytes: &[u8; PlanRecord::WIDTH])
        ensures text { self.new ≡ pushed self.old (record_line bytes.now) }
        ensures short { length (record_line bytes.now) ≤ 62 }
    {
        self.push(kind_word(bytes[PlanRecord::KIND]));
        for place in bytes[..PlanRecord::KIND]
            .iter()
            .take_while(|place| **place != PlanRecord::FILLER)
        {
            self.push(b" ");
            self.push_number(usize::from(*place));
        }
        self.push(b"\n");
    }
}

// What byte 14 of a record is told as.
fn kind_word(kind: u8) -> &'static [u8]
    ensures { result.now ≡ kind_word kind }
{
    match ExchangeKind::try_from(kind) {
        Ok(ExchangeKind::Chain) => b"chain",
        Ok(ExchangeKind::Ring) => b"ring",
        Err(_) => b"ring",
    }
}
