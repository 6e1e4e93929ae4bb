// Fields that a trace forges, by their numbers in the format. A value is taken modulo its field's width. A forged field's
// number and its value (`field, v`) are the record's own two fields, as docs/TRACE.md has them.
ghost use Rattle.std.specs.Prelude.{◌≡◌};
ghost use Rattle.format.specs.Forge as forged;

use cursor::RingCursor;
use layout::Layout;

pub fn low16(v: u64) -> u16
    ensures { result ≡ forged.low16 v }
{
    (v % 65536) as u16
}

// The field of this number gets the value, if it is the field at hand.
pub fn half(old: u16, number: u8, field: u8, v: u64) -> u16
    ensures { result ≡ forged.half_of old number field v }
{
    if field == number { low16(v) } else { old }
}

#[tactic(auto, unfolding(crate::specs::Forge::geometry_of))]
pub fn geometry(l: Layout, field: u8, v: u64) -> Layout
    ensures { result ≡ forged.geometry_of l field v }
{
    match field {
        0 => Layout {
            size: low16(v),
            ..l
        },
        1 => Layout {
            table: v as usize,
            ..l
        },
        2 => Layout {
            driver: v as usize,
            ..l
        },
        3 => Layout {
            device: v as usize,
            ..l
        },
        _ => l,
    }
}

// A cursor whose head and wrap have these numbers.
#[tactic(auto, unfolding(crate::specs::Forge::cursor_of))]
pub fn cursor(c: RingCursor, head: u8, wrap: u8, field: u8, v: u64) -> RingCursor
    ensures { result ≡ forged.cursor_of c head wrap field v }
{
    RingCursor {
        head: half(c.head, head, field, v),
        wrap: if field == wrap { v % 2 == 1 } else { c.wrap },
    }
}
