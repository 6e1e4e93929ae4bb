// The flags of a slot, each alone and all at once.
use desc::Descriptor;
use say::bit;

// is_avail and is_used in round true, the same in round false, then NEXT, WRITE and INDIRECT, as seven digits.
fn tested(flags: u16, want: u64) {
    let d = Descriptor::new(0, 0, 0, flags);
    let a = 1000000 * bit(d.is_avail(true)) + 100000 * bit(d.is_used(true));
    let b = 10000 * bit(d.is_avail(false)) + 1000 * bit(d.is_used(false));
    let c = 100 * bit(d.is_next()) + 10 * bit(d.is_writable()) + bit(d.is_indirect());
    say::case(b"tests", a + b + c, want);
}

fn avail(flags: u16, wrap: bool, want: u64) {
    let d = Descriptor::new(0, 0, 0, flags).mark_avail(wrap);
    say::case(b"mark_avail", u64::from(d.flags), want);
}

fn used(flags: u16, wrap: bool, want: u64) {
    let d = Descriptor::new(0, 0, 0, flags).mark_used(wrap);
    say::case(b"mark_used", u64::from(d.flags), want);
}

fn read(flags: u16, want: u64) {
    let d = Descriptor::new(0, 0, 0, flags);
    say::case(b"flags", u64::from(d.flags()), want);
}

// Every bit alone, then all, and all but the five.
pub fn tests() {
    tested(0, 1000);
    tested(1, 1100);
    tested(2, 1010);
    tested(4, 1001);
    tested(8, 1000);
    tested(16, 1000);
    tested(32, 1000);
    tested(64, 1000);
    tested(128, 1000000);
    tested(256, 1000);
    tested(512, 1000);
    tested(1024, 1000);
    tested(2048, 1000);
    tested(4096, 1000);
    tested(8192, 1000);
    tested(16384, 1000);
    tested(32768, 10000);
    tested(32896, 100000);
    tested(65535, 100111);
    tested(32632, 1000);
}

// Marks keep every other bit; reading ignores all but the five.
pub fn others() {
    avail(65535, true, 32767);
    avail(65535, false, 65407);
    avail(0, true, 128);
    avail(0, false, 32768);
    used(65535, true, 65535);
    used(65535, false, 32639);
    used(0, true, 32896);
    used(0, false, 0);
    read(65535, 32903);
    read(32632, 0);
}
