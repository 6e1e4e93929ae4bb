// A line's numbers in decimal. Where a number did not fit, the line is at `text::LOST`: whoever writes the buffer out sees to
// it that a longest line fits, and ends the run where one did not.
ghost use Rattle.std.specs.Prelude.{◌≡◌, [], ◌∷◌, map};
ghost use Rattle.base.specs.Refusals as refusals;
ghost use Rattle.text.specs.Text.{put_text};
ghost use Rattle.text.specs.Line.{written_in};
ghost use Rattle.lines.specs.Line.{status_of, values_of};
ghost use Rattle.lines.specs.Text.{ending, bad_line, put_values, pairs_of};

use crate::answer::{Answer, Number};
use base::{RingError, pick};
use format::part;
use text::Line;

// A number that another follows.
#[tactic(auto, unfolding(crate::specs::Text::put_values))]
pub fn value<V: Number>(line: &mut Line<'_>, x: V)
    ensures lent { line.new.out.ghost_name ≡ line.old.out.ghost_name }
    ensures text { written_in line.new ≡ put_values (V.value x ∷ []) (written_in line.old) }
{
    line.number(x.into(), b' ');
}

// The last number of a line.
pub fn last(line: &mut Line<'_>, x: u64)
    ensures lent { line.new.out.ghost_name ≡ line.old.out.ghost_name }
    ensures text { written_in line.new ≡ put_text (ending x) (written_in line.old) }
{
    line.number(x, b'\n');
}

// A line's start: the op and its status, which stays the line's own number: 0, or a refusal's.
#[tactic(auto, unfolding(crate::specs::Text::put_values))]
pub fn start(line: &mut Line<'_>, op: u8, status: u8)
    ensures lent { line.new.out.ghost_name ≡ line.old.out.ghost_name }
    ensures text { written_in line.new ≡ put_values (op ∷ status ∷ []) (written_in line.old) }
{
    value(line, op);
    value(line, status);
}

pub fn refused(line: &mut Line<'_>, op: u8, e: RingError)
    ensures lent { line.new.out.ghost_name ≡ line.old.out.ghost_name }
    ensures text { written_in line.new ≡ put_values (op ∷ refusals.number_of e ∷ []) (written_in line.old) }
{
    start(line, op, e.number());
}

// A line from its op to its last value.
pub fn answer(line: &mut Line<'_>, op: u8, a: Answer)
    ensures lent { line.new.out.ghost_name ≡ line.old.out.ghost_name }
    ensures text { written_in line.new ≡ put_values (op ∷ status_of a ∷ values_of a) (written_in line.old) }
{
    match a {
        Ok(v) => {
            start(line, op, 0);
            values(line, part::first(&v.list, v.count));
        }
        Err(e) => refused(line, op, e),
    }
}

// The run's last line.
#[tactic(auto, unfolding(text::specs::Text::words))]
pub fn bad(line: &mut Line<'_>)
    ensures lent { line.new.out.ghost_name ≡ line.old.out.ghost_name }
    ensures text { written_in line.new ≡ put_text bad_line (written_in line.old) }
{
    line.put(b"bad\n");
}

pub fn values<V: Number>(line: &mut Line<'_>, s: &[V])
    ensures lent { line.new.out.ghost_name ≡ line.old.out.ghost_name }
    ensures text { written_in line.new ≡ put_values (map V.value s.now) (written_in line.old) }
{
    for x in s {
        value(line, *x);
    }
}

// Each address with its length. Two slices, and none of pairs: they are what a poll is lent and fills.
pub fn pairs(line: &mut Line<'_>, addrs: &[u64], lens: &[u32])
    ensures lent { line.new.out.ghost_name ≡ line.old.out.ghost_name }
    ensures text { written_in line.new ≡ put_values (pairs_of addrs.now lens.now) (written_in line.old) }
{
    for (k, addr) in addrs.iter().enumerate() {
        value(line, *addr);
        value(line, pick::at(lens, k, 0));
    }
}
