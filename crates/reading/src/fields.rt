// A pool record: its width, how many a pool has at most, where its fields stand, and the fields of more than one byte.
ghost use Rattle.std.specs.Prelude.{◌≡◌, ◌<◌};
ghost use Rattle.reading.specs.Fields.{pair_at, taken_of, weeks_of, machine_of};

// Where code needs a record's width, the most records of a pool or the first byte of a field, it goes by these names.
// No value of it is made, so no more is derived.
#[derive(Clone, Copy)]
pub struct PoolRecord {}

impl PoolRecord {
    pub const WIDTH: usize = 12;

    pub const MOST: usize = 14;

    pub const KIND: usize = 0;

    pub const CLASS: usize = 1;

    pub const GRADE: usize = 2;

    pub const LEAST: usize = 3;

    pub const TAKEN: usize = 4;

    pub const WEEKS: usize = 8;

    pub const MACHINE: usize = 10;
}

// The bytes of a record, as a part of those that are lent.
pub(crate) type Record = [u8; PoolRecord::WIDTH];

// The classes taken, as a set.
pub(crate) fn taken(bytes: &Record) -> u32
    ensures { result ≡ taken_of bytes.now }
{
    let at = PoolRecord::TAKEN;
    u32::from_le_bytes([bytes[at], bytes[at + 1], bytes[at + 2], bytes[at + 3]])
}

// The weeks waited. As `machine`, it is one call of `pair`, named for the contracts.
pub(crate) fn weeks(bytes: &Record) -> u16
    ensures { result ≡ weeks_of bytes.now }
{
    pair(bytes, PoolRecord::WEEKS)
}

// The machine's number.
pub(crate) fn machine(bytes: &Record) -> u16
    ensures { result ≡ machine_of bytes.now }
{
    pair(bytes, PoolRecord::MACHINE)
}

// The number in two bytes, the low one first.
fn pair(bytes: &Record, at: usize) -> u16
    requires { at < 11 }
    ensures { result ≡ pair_at bytes.now at }
{
    u16::from_le_bytes([bytes[at], bytes[at + 1]])
}
