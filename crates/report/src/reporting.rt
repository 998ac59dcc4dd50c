// From the bytes of the two files to the whole text.
ghost use Rattle.std.specs.Prelude.{◌≡◌, ◌≤◌, ◌<◌, T, IfErr, OnOk, OnErr, length};
ghost use Rattle.pool.specs.Refusals.{number_of};
ghost use Rattle.pool.specs.Value.{pool_fits};
ghost use Rattle.report.specs.Text.{refused_line, text_of, text_outcome, text_left, whole_text};
ghost use Rattle.report.specs.inner.Writing.{cleared_text, pushed};

use crate::text::Text;
use clearing::clear_value;
use plans::PlanRecord;
use pool::{Cause, Limits, Pool, Refusal};
use reading::{PoolRecord, read_pool};

// How many bytes of the pool file count as the whole file: two records more than a pool has at most.
pub const COUNTED: usize = PoolRecord::WIDTH * (PoolRecord::MOST + 2);

// Writes the whole text to the front of the buffer and tells its length, if there is room for all of it; `ROOM` bytes always are enough.
// The caller lends the memory, as to all calls here: so the length is told, and no String made.
pub fn report(pool: &[u8], limits: &[u8], out: &mut [u8]) -> Option<usize>
    ensures length { result ≡ text_outcome pool.now limits.now (length out.old) }
    ensures text { out.new ≡ text_left pool.now limits.now out.old }
    ensures short { length (text_of pool.now limits.now) ≤ 1024 }
{
    let counted = &pool[..pool.len().min(COUNTED)];
    let mut text = Text::new();
    compose(counted, limits, &mut text);
    let words = text.as_bytes();
    let length = words.len();
    if out.len() < length {
        return None;
    }
    out[..length].copy_from_slice(words);
    Some(length)
}

// The text: the plan's, or one line that tells the refusal. It is pushed to one that is lent, here and below: to hand it back would copy its memory.
// The bytes of the two files stand side by side, here and below, as `report` is lent them.
fn compose(pool: &[u8], limits: &[u8], text: &mut Text)
    ensures text { text.new ≡ pushed text.old (whole_text pool.now limits.now) }
    ensures short { length (whole_text pool.now limits.now) ≤ 1024 }
{
    if let Err(refusal) = compose_plan(pool, limits, text) {
        text.push_refused(refusal);
    }
}

// A refused pool comes first, then limits that are not two bytes, then what clearing answers.
fn compose_plan(pool: &[u8], limits: &[u8], text: &mut Text) -> Result<(), Refusal>
    ensures text { OnOk result (text.new ≡ pushed text.old (whole_text pool.now limits.now)) }
    ensures short { OnOk result (length (whole_text pool.now limits.now) ≤ 1024) }
    ensures same { OnErr result (text.new ≡ text.old) }
    ensures refusal { IfErr result (λ r. refused_line (number_of r.cause) r.at ≡ whole_text pool.now limits.now) }
    ensures spot { IfErr result (λ r. r.at < 1000) }
{
    let pool = read_pool(pool)?;
    let Some(&[cycle, chain]) = limits.as_array::<2>() else {
        return Err(Cause::Limit.into());
    };
    compose_cleared(pool, Limits { cycle, chain }, text)
}

// The text of a pool that was read, under limits of two bytes.
// No heap: the arrays stand in this frame. `operations` has the same three; a struct that makes them would hand 98,528 bytes back by value.
fn compose_cleared(pool: Pool, limits: Limits, text: &mut Text) -> Result<(), Refusal>
    requires { T (pool_fits pool) }
    ensures text { OnOk result (text.new ≡ pushed text.old (cleared_text pool limits)) }
    ensures short { OnOk result (length (cleared_text pool limits) ≤ 1024) }
    ensures same { OnErr result (text.new ≡ text.old) }
    ensures refusal { IfErr result (λ r. refused_line (number_of r.cause) r.at ≡ cleared_text pool limits) }
    ensures spot { IfErr result (λ r. r.at < 1000) }
{
    let mut exchanges = [0u16; Pool::SETS];
    let mut best = [0u32; Pool::SETS];
    let mut plan = [0u8; PlanRecord::PLAN];
    let cleared = clear_value(pool, limits, &mut exchanges, &mut best, &mut plan)?;
    text.push_plan(
        cleared.served,
        pool.size - pool.altruists,
        &plan.as_chunks().0[..cleared.records],
    );
    Ok(())
}
