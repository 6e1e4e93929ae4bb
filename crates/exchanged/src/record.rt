// One record of the input.
use base::bytes::Word;
use base::pick;
use layout::Layout;

pub const SIZE: usize = 24;

// The letters in the head of main.rt.
#[derive(Clone, Copy, PartialEq, Eq)]
pub enum Op {
    Start,
    Slot,
    Driver,
    Pop,
    Push,
    PushNotify,
    PushSilent,
    On,
    Off,
}

// A letter that names no op.
#[derive(Clone, Copy)]
pub struct NoOp;

impl TryFrom<u8> for Op {
    type Error = NoOp;

    fn try_from(letter: u8) -> Result<Op, NoOp> {
        match letter {
            b'S' => Ok(Op::Start),
            b'L' => Ok(Op::Slot),
            b'D' => Ok(Op::Driver),
            b'P' => Ok(Op::Pop),
            b'U' => Ok(Op::Push),
            b'Y' => Ok(Op::PushNotify),
            b'N' => Ok(Op::PushSilent),
            b'A' => Ok(Op::On),
            b'O' => Ok(Op::Off),
            _ => Err(NoOp),
        }
    }
}

#[derive(Clone, Copy)]
pub struct Record {
    pub op: Op,
    pub slot: u8,
    pub id: u16,
    pub len: u32,
    pub bytes: [u8; 16],
}

impl Record {
    // Past the end of s there are zeros.
    pub fn read(s: &[u8]) -> Result<Record, NoOp> {
        Ok(Record {
            op: Op::try_from(pick::at(s, 0, 0))?,
            slot: pick::at(s, 1, 0),
            id: u16::read(s, 2),
            len: u32::read(s, 4),
            bytes: desc::load(s, 8),
        })
    }

    // Are its bytes an event area's, and not a slot's?
    pub fn is_area(self) -> bool {
        matches!(self.op, Op::Driver | Op::On | Op::Off)
    }

    // Where its bytes belong.
    pub fn place(self, l: Layout) -> usize {
        match self.op {
            Op::Driver => l.driver,
            Op::On | Op::Off => l.device,
            _ => 16 * usize::from(self.slot),
        }
    }
}
