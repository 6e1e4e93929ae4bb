// The lines of a dump, each put into a lent buffer.
#![tactic(auto, unfolding(text::specs::Text::puts, text::specs::Text::words, crate::specs::Lines::mark_text, crate::specs::Lines::flag_texts))]

ghost use Rattle.std.specs.Prelude.{◌≡◌, [], ◌∷◌, ◌++◌, ◌+◌, cond, ◌&&◌, ◌-◌, ltb, eqb, length};
ghost use Rattle.text.specs.Text.{words, right_of, hex_of, put_text, puts};
ghost use Rattle.text.specs.Line.{written_in};
ghost use Rattle.dump.specs.Lines.{mark_text, flag_texts, slot_texts, whole_of, missing_texts, bad_texts, only_line, ring_line};

use crate::{BadHeader, Header, Names};
use desc::Descriptor;
use text::Line;

// What a slot is in a round.
fn mark(line: &mut Line<'_>, flags: u16, wrap: bool)
    ensures lent { line.new.out.ghost_name ≡ line.old.out.ghost_name }
    ensures text { written_in line.new ≡ put_text (mark_text flags wrap) (written_in line.old) }
{
    if desc::is_avail(flags, wrap) {
        line.put(b"  available");
    } else if desc::is_used(flags, wrap) {
        line.put(b"  used     ");
    } else {
        line.put(b"  -        ");
    }
}

fn named(line: &mut Line<'_>, is_set: bool, name: &[u8])
    ensures lent { line.new.out.ghost_name ≡ line.old.out.ghost_name }
    ensures text { written_in line.new ≡ put_text (cond is_set name.now []) (written_in line.old) }
{
    line.put(if is_set { name } else { b"" });
}

fn unnamed(line: &mut Line<'_>, bits: u16)
    ensures lent { line.new.out.ghost_name ≡ line.old.out.ghost_name }
    ensures text { written_in line.new
        ≡ puts (cond (eqb bits 0) [] (words " 0x" ∷ hex_of 4 bits ∷ [])) (written_in line.old) }
{
    if bits != 0 {
        line.put(b" 0x");
        line.hex(bits as u64, 4);
    }
}

fn flags(line: &mut Line<'_>, flags: u16, f: Names)
    ensures lent { line.new.out.ghost_name ≡ line.old.out.ghost_name }
    ensures text { written_in line.new ≡ puts (flag_texts flags f) (written_in line.old) }
{
    named(line, f.next, b" NEXT");
    named(line, f.write, b" WRITE");
    named(line, f.indirect, b" INDIRECT");
    named(line, f.avail, b" AVAIL");
    named(line, f.used, b" USED");
    named(line, flags == 0, b" -");
    unnamed(line, f.unnamed);
}

// Index, address, length and ID.
fn numbers(line: &mut Line<'_>, i: u16, d: Descriptor)
    ensures lent { line.new.out.ghost_name ≡ line.old.out.ghost_name }
    ensures text { written_in line.new
        ≡ puts (right_of 5 i ++ (words "  " ∷ hex_of 16 d.addr ∷ (right_of 12 d.len ++ right_of 7 d.id))) (written_in line.old) }
{
    line.right(i as u64, 5);
    line.put(b"  ");
    line.hex(d.addr, 16);
    line.right(d.len as u64, 12);
    line.right(d.id as u64, 7);
}

#[tactic(auto, using(crate::proofs::Lines::slot_line), unfolding(text::specs::Text::words))]
fn slot(line: &mut Line<'_>, i: u16, d: Descriptor)
    ensures lent { line.new.out.ghost_name ≡ line.old.out.ghost_name }
    ensures text { written_in line.new ≡ puts (slot_texts i d) (written_in line.old) }
{
    numbers(line, i, d);
    mark(line, d.flags, true);
    mark(line, d.flags, false);
    line.put(b" ");
    flags(line, d.flags, crate::flag_names(d.flags));
    line.put(b"\n");
}

fn missing(line: &mut Line<'_>, i: u16, size: u16)
    ensures lent { line.new.out.ghost_name ≡ line.old.out.ghost_name }
    ensures text { written_in line.new ≡ puts (missing_texts i size) (written_in line.old) }
{
    line.put(b"not whole in the bytes: slot ");
    line.right(i as u64, 0);
    line.put(b" and all behind it, of ");
    line.right(size as u64, 0);
    line.put(b"\n");
}

// How many of the slots are whole in so many bytes.
#[tactic(auto, unfolding(crate::specs::Lines::whole_of))]
fn whole(size: u16, bytes: usize) -> u16
    ensures { result ≡ whole_of size bytes }
{
    (bytes / 16).min(size as usize) as u16
}

// What is wrong with bytes that have no header of a ring: line 0, and no other.
pub fn of_none(line: &mut Line<'_>, bad: BadHeader, k: u16)
    ensures lent { line.new.out.ghost_name ≡ line.old.out.ghost_name }
    ensures text { written_in line.new ≡ puts (only_line (bad_texts bad) k) (written_in line.old) }
{
    if k != 0 {
        return;
    }
    match bad {
        BadHeader::NoHeader => {
            line.put(b"bad input: fewer than the six bytes of a size and a table's offset\n");
        }
        BadHeader::BadSize(n) => {
            line.put(b"bad input: the size is ");
            line.right(n as u64, 0);
            line.put(b", not 1 to 2048\n");
        }
        BadHeader::TableOutside(n) => {
            line.put(b"bad input: the table begins at ");
            line.right(n as u64, 0);
            line.put(b", behind the end of the bytes\n");
        }
    }
}

// Line k of a ring.
pub fn of_ring(line: &mut Line<'_>, input: &[u8], ring: Header, k: u16)
    ensures lent { line.new.out.ghost_name ≡ line.old.out.ghost_name }
    ensures text { written_in line.new ≡ puts (ring_line input.now (6 + ring.table) ring.size k) (written_in line.old) }
{
    if k == 0 {
        line.put(b" slot           address      length     id  round 1    round 0    flags\n");
        return;
    }
    let i = k - 1;
    match window::slot_at(input, 6 + ring.table as usize, ring.size, i) {
        Some(d) => slot(line, i, d),
        None => behind(line, input, ring, i),
    }
}

// The first slot that is not whole has a line for all of them.
fn behind(line: &mut Line<'_>, input: &[u8], ring: Header, i: u16)
    ensures lent { line.new.out.ghost_name ≡ line.old.out.ghost_name }
    ensures text { written_in line.new
        ≡ puts (cond (eqb i (whole_of ring.size (length input.now - (6 + ring.table))) && ltb i ring.size)
        (missing_texts i ring.size) []) (written_in line.old) }
{
    let bytes = input.len().saturating_sub(6 + ring.table as usize);
    if i == whole(ring.size, bytes) && i < ring.size {
        missing(line, i, ring.size);
    }
}
