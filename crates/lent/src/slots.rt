// Descriptors as bytes, slots of lent bytes, and the table.
use crate::seen::{byte, outcome};
use desc::{DescTable, Descriptor};
use say::bit;

// A descriptor each of whose bytes is its place and one.
fn counting() -> Descriptor {
    Descriptor::new(578437695752307201, 202050057, 3597, 4111)
}

fn encoded(place: usize, want: u64) {
    let b = counting().encode();
    say::case(b"encode", byte(&b, place), want);
}

// 1 where all four fields come back.
fn back(addr: u64, len: u32, id: u16, flags: u16, want: u64) {
    let d = Descriptor {
        addr,
        len,
        id,
        flags,
    };
    let b = Descriptor::new(addr, len, id, flags).encode();
    say::case(b"decode", bit(Descriptor::decode(b) == d), want);
}

// Thirty-three lent bytes, each 7: what a store at a place leaves at another.
fn stored(at: usize, look: usize, want: u64) {
    let mut ring = [7u8; 33];
    let r = desc::store(&mut ring, at, counting().encode());
    say::case(b"store", outcome(r, byte(&ring, look)), want);
}

fn loaded(at: usize, want: u64) {
    let ring = [255u8; 33];
    let d = Descriptor::decode(desc::load(&ring, at));
    say::case(b"load", d.addr, want);
}

fn cleared(base: usize, len: usize, look: usize, want: u64) {
    let mut ring = [7u8; 33];
    let r = DescTable::from_raw_parts(base, len).clear(&mut ring);
    say::case(b"clear", outcome(r, byte(&ring, look)), want);
}

// The slot's place, or 777.
fn placed(base: usize, len: usize, idx: u16, want: u64) {
    let place = DescTable::from_raw_parts(base, len).desc_addr(idx);
    say::case(b"desc_addr", place.unwrap_or(777) as u64, want);
}

// What a table says of itself.
fn described(base: usize, len: usize, empty: u64) {
    let t = DescTable::from_raw_parts(base, len);
    say::case(b"len", t.len() as u64, len as u64);
    say::case(b"base_addr", t.base_addr() as u64, base as u64);
    say::case(b"is_empty", bit(t.is_empty()), empty);
    say::case(b"default_len", DescTable::default_len() as u64, 256);
}

// Sixteen bytes, the lowest first in each field; and back, at the edges of every width.
pub fn encodings() {
    encoded(0, 1);
    encoded(1, 2);
    encoded(2, 3);
    encoded(3, 4);
    encoded(4, 5);
    encoded(5, 6);
    encoded(6, 7);
    encoded(7, 8);
    encoded(8, 9);
    encoded(9, 10);
    encoded(10, 11);
    encoded(11, 12);
    encoded(12, 13);
    encoded(13, 14);
    encoded(14, 15);
    encoded(15, 16);
    back(0, 0, 0, 0, 1);
    back(1, 1, 1, 1, 1);
    back(18446744073709551615, 0, 0, 0, 1);
    back(0, 4294967295, 0, 0, 1);
    back(0, 0, 65535, 0, 1);
    back(0, 0, 0, 65535, 1);
    back(18446744073709551615, 4294967295, 65535, 65535, 1);
}

// Slots that are whole in the lent bytes, and slots that are not.
pub fn places() {
    stored(0, 15, 16);
    stored(0, 16, 7);
    stored(17, 32, 16);
    stored(17, 16, 7);
    stored(18, 18, 8007);
    stored(18446744073709551615, 0, 8007);
    loaded(17, 18446744073709551615);
    loaded(18, 0);
    loaded(18446744073709551615, 0);
}

// Where a slot is; a table cleared, or refused with nothing changed.
pub fn tables() {
    described(16, 8, 0);
    described(0, 0, 1);
    placed(16, 8, 0, 16);
    placed(16, 8, 7, 128);
    placed(16, 8, 8, 777);
    placed(16, 8, 65535, 777);
    placed(18446744073709551600, 2, 0, 18446744073709551600);
    placed(18446744073709551600, 2, 1, 777);
    placed(0, 0, 0, 777);
    cleared(16, 1, 31, 0);
    cleared(16, 1, 32, 7);
    cleared(16, 1, 15, 7);
    cleared(33, 0, 32, 7);
    cleared(16, 2, 16, 8007);
    cleared(0, 18446744073709551615, 0, 8007);
    cleared(18446744073709551615, 1, 0, 8007);
}
