// A window over the lent table, for reading tools (document 01, "What must change shape"): slot i decoded, or nothing. It
// writes nothing and takes no part in the ring.
#![tactic(auto)]

ghost use Rattle.std.specs.Prelude.{◌≡◌, drop};
ghost use Rattle.window.specs.Window.{window, answer_of, shown_of};

use base::pick;
use desc::Descriptor;

// "a struct with a &[u8] table and its size": the bytes from the table's first on, and how many slots there are.
#[derive(Clone, Copy)]
pub struct Window<'a> {
    pub table: &'a [u8],
    pub size: u16,
}

// The work, on a plain slice: the functions over a Window are thin. A slot that is there is shown as it stands, whatever its
// marks say.
#[tactic(auto, unfolding(crate::specs::Window::shown_of))]
fn decoded(table: &[u8], size: u16, i: u16) -> Option<Descriptor>
    ensures { answer_of result ≡ shown_of table.now size i }
{
    let at = (i as usize) * 16;
    if size <= i {
        return None;
    }
    if pick::ends_by(at, 16, table.len()) {
        return Some(Descriptor::decode(desc::load(table, at)));
    }
    None
}

impl<'a> Window<'a> {
    pub fn new(table: &'a [u8], size: u16) -> Window<'a>
        ensures { result ≡ window table.entry size }
    {
        Window { table, size }
    }

    // "a thin function decodes slot i"
    pub fn slot(self, i: u16) -> Option<Descriptor>
        ensures { answer_of result ≡ shown_of self.entry.table.now self.entry.size i }
    {
        decoded(self.table, self.size, i)
    }
}

// For every caller that keeps no window: its parameters are a plain slice and numbers.
pub fn slot_of(table: &[u8], size: u16, i: u16) -> Option<Descriptor>
    ensures { answer_of result ≡ shown_of table.now size i }
{
    Window::new(table, size).slot(i)
}

// The same of a table that begins at a byte of a larger region; one that begins past the region's end has no bytes.
pub fn slot_at(ring: &[u8], table: usize, size: u16, i: u16) -> Option<Descriptor>
    ensures { answer_of result ≡ shown_of (drop table ring.now) size i }
{
    slot_of(ring.get(table..).unwrap_or_default(), size, i)
}
