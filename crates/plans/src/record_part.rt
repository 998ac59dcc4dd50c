// A plan record, and "record k" of plan bytes: a part of the caller's own slice.
ghost use Rattle.std.specs.Prelude.{◌≡◌};
ghost use Rattle.plans.specs.Record.{record_part, record_place};

use reading::PoolRecord;

// Where code needs a record's width, where a byte of its own stands or what stands behind its vertices, it goes by these names.
// As `PoolRecord` in reading: no value of either is made, so a trait for them would have no use, and no more is derived.
#[derive(Clone, Copy)]
pub struct PlanRecord {}

impl PlanRecord {
    pub const WIDTH: usize = 16;

    pub const KIND: usize = 14;

    pub const SERVED: usize = 15;

    // A byte of 01's form; `Vertices` holds what stands before it.
    pub const FILLER: u8 = 255;

    // How many bytes the largest plan has: a record for each place of a pool.
    pub const PLAN: usize = PlanRecord::WIDTH * PoolRecord::MOST;
}

// The sixteen bytes of record k, where k + 1 whole records stand there; else, as 01 asks, an empty part and no `None`: at the start of the plan.
// By hand and not by `as_chunks`: where the part stands is promised too, also that of the empty one.
pub fn record(plan: &[u8], k: usize) -> &[u8]
    ensures contents { result.now ≡ record_part plan.now k }
    ensures place { result.ref_ptr ≡ record_place plan.entry.ref_ptr plan.now k }
{
    let records = plan.len() / PlanRecord::WIDTH;
    if k < records {
        let at = PlanRecord::WIDTH * k;
        &plan[at..at + PlanRecord::WIDTH]
    } else {
        &plan[0..0]
    }
}
