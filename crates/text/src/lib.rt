// Text put into a lent buffer, from a place on.
#![tactic(auto)]

ghost use Rattle.std.specs.Prelude.{◌≡◌, min};
ghost use Rattle.text.specs.Text.{number_of, blanks_of, right_of, hex_of, put_text, puts, written};
ghost use Rattle.text.specs.Line.{written_in};

use base::{bytes, pick};

// The place that stands for text that did not fit. Nothing is put there, so it stays: whoever writes the buffer out sees
// it once, at the end. (A number and no Option: it is a place of `put_text`, and so no put has to ask for it.)
pub const LOST: usize = usize::MAX;

// A lent buffer, and the place where it is written next. Each function that puts text into a line has a clause `lent`: that a
// `&mut` inside a `&mut` is still the same buffer, a caller learns by a clause alone, and no invariant can say it.
#[derive(Drop)]
pub struct Line<'a> {
    pub out: &'a mut [u8],
    pub at: usize,
}

impl<'a> Line<'a> {
    pub fn new(out: &'a mut [u8], at: usize) -> Line<'a>
        ensures lent { result.out.ghost_name ≡ out.entry.ghost_name }
        ensures text { written_in result ≡ written at out.old }
    {
        Line { out, at }
    }

    // Text, whole or not at all.
    pub fn put(&mut self, text: &[u8])
        ensures lent { self.new.out.ghost_name ≡ self.old.out.ghost_name }
        ensures text { written_in self.new ≡ put_text text.now (written_in self.old) }
    {
        self.at = match bytes::put(self.out, self.at, text) {
            Ok(()) => self.at + text.len(),
            Err(_) => LOST,
        };
    }

    // A number in decimal and the byte after it, both or neither.
    pub fn number(&mut self, x: u64, end: u8)
        ensures lent { self.new.out.ghost_name ≡ self.old.out.ghost_name }
        ensures text { written_in self.new ≡ put_text (number_of end x) (written_in self.old) }
    {
        let mut digits = [0u8; 20];
        let k = io::decimal(x, &mut digits);
        if !pick::ends_by(self.at, k + 1, self.out.len()) {
            self.at = LOST;
            return;
        }
        // never refused: the test above has seen that it fits
        let _ = bytes::put(self.out, self.at, &digits[..k]);
        self.out[self.at + k] = end;
        self.at += k + 1;
    }

    // A number in decimal at the right of a column, after at most twenty blanks; one that is wider takes the room that it
    // needs.
    pub fn right(&mut self, x: u64, width: usize)
        ensures lent { self.new.out.ghost_name ≡ self.old.out.ghost_name }
        ensures text { written_in self.new ≡ puts (right_of width x) (written_in self.old) }
    {
        let mut digits = [0u8; 20];
        let k = io::decimal(x, &mut digits);
        self.blanks(width.saturating_sub(k));
        self.put(&digits[..k]);
    }

    // At most twenty blanks.
    fn blanks(&mut self, k: usize)
        ensures lent { self.new.out.ghost_name ≡ self.old.out.ghost_name }
        ensures text { written_in self.new ≡ put_text (blanks_of k) (written_in self.old) }
    {
        self.put(&[b' '; 20][..k.min(20)]);
    }

    // The last digits of a number in hexadecimal, at most sixteen.
    pub fn hex(&mut self, x: u64, digits: usize)
        ensures lent { self.new.out.ghost_name ≡ self.old.out.ghost_name }
        ensures text { written_in self.new ≡ put_text (hex_of (min digits 16) x) (written_in self.old) }
    {
        let wanted = digits.min(16);
        let mut all = [0u8; 16];
        // more than are wanted where x has more, and one where none is
        let k = io::hex(x, wanted, &mut all);
        self.put(&all[k - wanted..k]);
    }
}
