// The numbers of a trace, read where they stand; plain ones by `Word::read`. Every read is total: past the end there are
// zeros, and whether a header or a record is whole is asked once, of its length.
ghost use Rattle.std.specs.Prelude.{◌≡◌, get_or, map};
ghost use Rattle.std.proofs.lemmas.List.Edits.{sets};
ghost use Rattle.base.specs.Bytes.{get_of};
ghost use Rattle.format.specs.Input.{bit_at, cursor_at, event_at, numbers_at};

use crate::part;
use base::bytes::Word;
use base::pick;
use cursor::RingCursor;
use event::EventSuppression;

pub fn byte(s: &[u8], k: usize) -> u8
    ensures { result ≡ get_or s.now k 0 }
{
    pick::at(s, k, 0)
}

// A wrap or a flag: one byte that is 0 or 1.
#[tactic(auto, unfolding(crate::specs::Input::bit_at))]
pub fn bit(s: &[u8], k: usize) -> bool
    ensures { result ≡ bit_at s.now k }
{
    byte(s, k) == 1
}

// A head, then a wrap.
pub fn cursor(s: &[u8], k: usize) -> RingCursor
    ensures { result ≡ cursor_at s.now k }
{
    let t = part::from(s, k);
    RingCursor {
        head: u16::read(t, 0),
        wrap: bit(t, 2),
    }
}

// The two words of an event area, which stand first in each record that has them.
#[tactic(auto, unfolding(crate::specs::Input::event_at))]
pub fn event(s: &[u8]) -> EventSuppression
    ensures { result ≡ event_at s.now }
{
    EventSuppression::new(u16::read(s, 1), u16::read(s, 3))
}

// The sixteen bytes of a descriptor, after the op.
pub fn slot(s: &[u8]) -> [u8; 16]
    ensures { result ≡ get_of s.now 1 16 }
{
    desc::load(s, 1)
}

// n numbers into the first entries of a lent slice: the first at `from`, each `stride` bytes after the one before. A place
// past the last there is stays there: no slice reaches so far. (`at` is counted on by hand: the law goes by places, and
// `step_by` over the bytes says nothing of the zeros past the end.)
pub fn numbers<W: Word>(s: &[u8], from: usize, stride: usize, n: u16, into: &mut [W])
    ensures { into.new ≡ sets into.old 0 (map W.of (numbers_at W.width s.now «from» stride n)) }
{
    let k = into.len().min(usize::from(n));
    let mut at = from;
    for x in into[..k].iter_mut() {
        *x = W::read(s, at);
        at = at.saturating_add(stride);
    }
}
