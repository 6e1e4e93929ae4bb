// A dump of a ring's region, for people: what its first six bytes say, what a slot's flags mean, and the lines that show it.
#![tactic(auto)]

mod line;

ghost use Rattle.std.specs.Prelude.{◌≡◌};
ghost use Rattle.base.specs.Determined.{both};
ghost use Rattle.text.specs.Text.{written, puts};
ghost use Rattle.dump.specs.Header.{header_of};
ghost use Rattle.dump.specs.Names.{names_of};
ghost use Rattle.dump.specs.Lines.{line_of, told};

use base::bytes::Word;
use text::Line;

// Programs run rings of at most so many slots.
pub const MOST: u16 = 2048;

// The ring's size, and where its table begins in the bytes after the header.
#[derive(Clone, Copy, PartialEq, Eq)]
pub struct Header {
    pub size: u16,
    pub table: u32,
}

// What is wrong with the bytes.
#[derive(Clone, Copy, PartialEq, Eq)]
pub enum BadHeader {
    NoHeader,
    BadSize(u16),
    TableOutside(u32),
}

// The flags by name, and the bits that have none, in their places.
#[derive(Clone, Copy, PartialEq, Eq)]
pub struct Names {
    pub next: bool,
    pub write: bool,
    pub indirect: bool,
    pub avail: bool,
    pub used: bool,
    pub unnamed: u16,
}

#[tactic(auto, unfolding(crate::specs::Header::header_of))]
pub fn read_header(input: &[u8]) -> Result<Header, BadHeader>
    ensures { result ≡ header_of input.now }
{
    if input.len() < 6 {
        return Err(BadHeader::NoHeader);
    }
    let size = u16::read(input, 0);
    let table = u32::read(input, 2);
    if size == 0 || MOST < size {
        return Err(BadHeader::BadSize(size));
    }
    if input.len() - 6 < table as usize {
        return Err(BadHeader::TableOutside(table));
    }
    Ok(Header { size, table })
}

#[tactic(auto, using(crate::proofs::Masks::named), unfolding(crate::proofs::Masks::masks_of))]
pub fn flag_names(flags: u16) -> Names
    ensures { result ≡ names_of flags }
{
    Names {
        next: flags & desc::NEXT != 0,
        write: flags & desc::WRITE != 0,
        indirect: flags & desc::INDIRECT != 0,
        avail: flags & desc::AVAIL != 0,
        used: flags & desc::USED != 0,
        unnamed: flags & !(desc::NEXT | desc::WRITE | desc::INDIRECT | desc::AVAIL | desc::USED),
    }
}

// Line k of what is shown of a dump, at the start of a lent buffer: how long it is, where there is such a line. None has
// more than 160 bytes (`line_short` in proofs/Short.antt); one that does not fit is told by `text::LOST`. (`Some(LOST)` and no
// answer of its own: `puts` has it as a place, and the contract tells that place.)
#[tactic(auto, unfolding(crate::specs::Lines::line_by))]
pub fn line_of(input: &[u8], k: u16, out: &mut [u8]) -> Option<usize>
    ensures { both result out.new ≡ told (puts (line_of input.now k) (written 0 out.old)) }
{
    let mut line = Line::new(out, 0);
    match read_header(input) {
        Ok(header) => line::of_ring(&mut line, input, header, k),
        Err(bad) => line::of_none(&mut line, bad, k),
    }
    match line.at {
        0 => None,
        n => Some(n),
    }
}
