// What makes a record bad, whatever the ring's state: its op, its counts, its flags and the places that it names.
// A record that is passed over is held to the same. An op is the format's byte: an enum of some sixty names would be no
// plainer than docs/TRACE.md's table, which these arms are.
ghost use Rattle.std.specs.Prelude.{◌≡◌, ltb, get_or};
ghost use Rattle.base.specs.Bytes.{word_at};
ghost use Rattle.format.specs.Form.{row_of, bad_flags, bad_counts, bad_places, is_past, list_bytes, length_of};

use crate::input;
use base::bytes::Word;

// The largest n, m and k.
const COUNT: u16 = 4096;

// Entries of each lent table.
pub const ENTRIES: u16 = 2048;

// How many bytes the record at the start of s takes, its op included; none where it is bad. Whether so many are there
// is the caller's to ask: past the end of s zeros are read.
#[tactic(auto, unfolding(crate::specs::Form::length_of))]
pub fn length(s: &[u8], region: usize) -> Option<usize>
    ensures { result ≡ length_of s.now region }
{
    let n = fixed(op(s))?;
    if flags_are_bad(s) || counts_are_bad(s) || places_are_bad(s, region) {
        return None;
    }
    Some(usize::from(n) + list(s) as usize)
}

// The bytes of the op and the fields of fixed width; none for an op that is not there.
#[tactic(auto, unfolding(crate::specs::Form::fixed_of, crate::specs::Form::rows))]
fn fixed(op: u8) -> Option<u8>
    ensures { result ≡ row_of op }
{
    match op {
        5..=9 | 11 | 12 | 14 | 15 | 33 | 36..=39 | 42 | 43 | 45 | 46 => Some(1),
        40 => Some(2),
        105 => Some(3),
        10 | 13 | 41 | 44 | 101 => Some(4),
        3 | 4 | 72 | 104 => Some(5),
        68 | 73 | 96 => Some(6),
        34 | 35 | 64 | 65 | 102 => Some(7),
        97 | 103 => Some(8),
        66 | 67 | 70 => Some(10),
        108..=111 => Some(11),
        71 | 98 | 107 => Some(13),
        1 | 2 => Some(14),
        106 => Some(17),
        99 | 100 => Some(18),
        69 => Some(25),
        74 | 75 => Some(27),
        _ => None,
    }
}

fn op(s: &[u8]) -> u8
    ensures { result ≡ get_or s.now 0 0 }
{
    input::byte(s, 0)
}

// The bytes of the list that ends a record.
#[tactic(auto, unfolding(crate::specs::Form::list_bytes, crate::specs::Form::fields_of, crate::specs::Form::rows))]
fn list(s: &[u8]) -> u32
    ensures { result ≡ list_bytes (get_or s.now 0 0) s.now }
{
    match op(s) {
        3 | 4 => 12 * u32::from(u16::read(s, 1)),
        71 => 8 * u32::from(u16::read(s, 1)) + 4 * u32::from(u16::read(s, 3)),
        41 => 2 * u32::from(u16::read(s, 2)),
        64 => u32::from(u16::read(s, 5)),
        _ => 0,
    }
}

#[tactic(auto, unfolding(crate::specs::Form::bad_flags, crate::specs::Form::fields_of, crate::specs::Form::rows))]
fn flags_are_bad(s: &[u8]) -> bool
    ensures { result ≡ bad_flags (get_or s.now 0 0) s.now }
{
    match op(s) {
        1 | 2 => is_no_flag(s, 13),
        10 | 13 | 44 | 101 => is_no_flag(s, 3),
        70 => is_no_flag(s, 4) || is_no_flag(s, 7),
        96 | 97 => is_no_flag(s, 5),
        98 => is_no_flag(s, 9) || is_no_flag(s, 12),
        99 | 100 => is_no_flag(s, 17),
        103 => is_no_flag(s, 7),
        _ => false,
    }
}

fn is_no_flag(s: &[u8], k: usize) -> bool
    ensures { result ≡ ltb 1 (get_or s.now k 0) }
{
    1 < input::byte(s, k)
}

#[tactic(auto, unfolding(crate::specs::Form::bad_counts, crate::specs::Form::fields_of, crate::specs::Form::rows))]
fn counts_are_bad(s: &[u8]) -> bool
    ensures { result ≡ bad_counts (get_or s.now 0 0) s.now }
{
    match op(s) {
        3 | 4 | 108..=111 => is_no_count(s, 1),
        71 | 107 => is_no_count(s, 1) || is_no_count(s, 3),
        41 => is_no_count(s, 2),
        72 => is_no_count(s, 3),
        73 => is_no_count(s, 4),
        64 | 65 => is_no_count(s, 5),
        _ => false,
    }
}

fn is_no_count(s: &[u8], k: usize) -> bool
    ensures { result ≡ ltb 4096 (word_at s.now k 2) }
{
    COUNT < u16::read(s, k)
}

// Past the region or a table, or a field or a table that is not there.
#[tactic(auto, unfolding(crate::specs::Form::bad_places))]
fn places_are_bad(s: &[u8], region: usize) -> bool
    ensures { result ≡ bad_places (get_or s.now 0 0) s.now region }
{
    let which = input::byte(s, 1);
    let n = usize::from(ENTRIES);
    match op(s) {
        64 | 65 => is_past(u32::read(s, 1), u16::read(s, 5), region),
        66 => 10 < which,
        67 => 9 < which,
        68 => 2 < which || ENTRIES <= u16::read(s, 2),
        72 => is_past(u32::from(u16::read(s, 1)), u16::read(s, 3), n),
        73 => 2 < which || is_past(u32::from(u16::read(s, 2)), u16::read(s, 4), n),
        _ => false,
    }
}

fn is_past(start: u32, k: u16, length: usize) -> bool
    ensures { result ≡ is_past start k length }
{
    length < (start as usize) + usize::from(k)
}
