// Commands out of bytes.
use pool::Limits;
use sets::VertexSet;
use std::array;

// What to run, and on what.
#[derive(Clone, Copy)]
pub(crate) enum Command {
    Set { set: VertexSet, vertex: u8 },
    Limits { cycle: u8, chain: u8 },
    Record { length: u16, k: usize },
    Value { limits: Limits },
}

// The bytes are no command.
#[derive(Clone, Copy)]
pub(crate) struct NoCommand;

impl TryFrom<[u8; 16]> for Command {
    type Error = NoCommand;

    fn try_from(bytes: [u8; 16]) -> Result<Self, NoCommand> {
        let [letter, first, second, third, ..] = bytes;
        let number = u16::from_le_bytes([second, third]);
        match letter {
            b'S' => Ok(Command::Set {
                // The two bytes are the set's number.
                set: VertexSet(number),
                vertex: first,
            }),
            b'L' => Ok(Command::Limits {
                cycle: first,
                chain: second,
            }),
            b'R' => Ok(Command::Record {
                length: number,
                k: usize::from_le_bytes(array::from_fn(|i| bytes[8 + i])),
            }),
            b'V' => Ok(Command::Value {
                limits: Limits {
                    cycle: first,
                    chain: second,
                },
            }),
            _ => Err(NoCommand),
        }
    }
}
