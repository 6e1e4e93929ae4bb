// A trace's header: ten numbers of 32 bits. A header is run like a record of the op 0, which opens both ends.
ghost use Rattle.std.specs.Prelude.{◌≡◌};
ghost use Rattle.format.specs.Header.{header_of, seed_of, geometry_of};

use base::bytes::Word;
use layout::Layout;

// The op of a header. No record has it.
pub const OP: u8 = 0;

pub const LENGTH: usize = 40;

const MAGIC: u32 = 0x31515650;

#[derive(Clone, Copy, PartialEq, Eq)]
pub struct Header {
    pub region: usize,
    pub every: u32,
    pub records: u32,
}

// The header at the start of s, if it is a good one. The last number is not looked at.
#[tactic(auto, unfolding(crate::specs::Header::header_of, crate::specs::Header::bad_header))]
pub fn read(s: &[u8]) -> Option<Header>
    ensures { result ≡ header_of s.now }
{
    let region = u32::read(s, 20);
    if s.len() < LENGTH || u32::read(s, 0) != MAGIC || 65535 < u32::read(s, 4) || 65536 < region {
        return None;
    }
    Some(Header {
        region: region as usize,
        every: u32::read(s, 28),
        records: u32::read(s, 32),
    })
}

#[tactic(auto, unfolding(crate::specs::Header::seed_of))]
pub fn seed(s: &[u8]) -> u32
    ensures { result ≡ seed_of s.now }
{
    u32::read(s, 24)
}

// Where a header, or a record that opens an end again, has the ring.
#[tactic(auto, unfolding(crate::specs::Header::geometry_of))]
pub fn geometry(op: u8, s: &[u8]) -> Layout
    ensures { result ≡ geometry_of op s.now }
{
    if op == OP {
        return Layout {
            table: u32::read(s, 8) as usize,
            driver: u32::read(s, 12) as usize,
            device: u32::read(s, 16) as usize,
            size: u16::read(s, 4),
        };
    }
    Layout {
        table: u64::read(s, 3) as usize,
        driver: u64::read(s, 11) as usize,
        device: u64::read(s, 19) as usize,
        size: u16::read(s, 1),
    }
}
