// The geometry: sizes, places, overlaps and ends.
use base::RingError;
use layout::Layout;
use say::{bit, refusal};

fn opened(l: Result<Layout, RingError>) -> u64 {
    match l {
        Ok(_) => 0,
        Err(e) => refusal(e.number(), 0),
    }
}

// A table at 0, then the driver's event and the device's.
fn sized(size: u16, bytes: usize, want: u64) {
    let end = 16 * usize::from(size);
    let l = Layout::new(size, 0, end, end + 4, bytes);
    say::case(b"size", opened(l), want);
}

// Four slots over 96 bytes.
fn placed(table: usize, driver: usize, device: usize, want: u64) {
    let l = Layout::new(4, table, driver, device, 96);
    say::case(b"areas", opened(l), want);
}

// A stored geometry of four slots: 10 if no opening would have taken it, 1 if so many bytes are too few.
fn stored(table: usize, driver: usize, device: usize, bytes: usize, want: u64) {
    let l = Layout {
        table,
        driver,
        device,
        size: 4,
    };
    say::case(
        b"stored",
        10 * bit(l.is_bad()) + bit(l.is_outside(bytes)),
        want,
    );
}

// Size 0: 6. Size 32,768: opened. 32,769: 6.
pub fn sizes() {
    sized(0, 1048576, 6000);
    sized(1, 24, 0);
    sized(1, 23, 6000);
    sized(3, 56, 0);
    sized(32768, 524296, 0);
    sized(32768, 524295, 6000);
    sized(32769, 1048576, 6000);
    sized(65535, 2097152, 6000);
}

// Multiples, ends of the lent bytes, every pair of areas, and offsets near the largest number.
pub fn edges() {
    placed(16, 0, 4, 0);
    placed(8, 80, 84, 6000);
    placed(16, 2, 8, 6000);
    placed(16, 0, 6, 6000);
    placed(0, 60, 64, 6000);
    placed(0, 64, 60, 6000);
    placed(16, 12, 8, 0);
    placed(16, 4, 4, 6000);
    placed(32, 0, 4, 0);
    placed(48, 0, 4, 6000);
    placed(0, 92, 64, 0);
    placed(0, 96, 64, 6000);
    placed(0, 64, 96, 6000);
    placed(0, 64, 18446744073709551612, 6000);
    placed(18446744073709551600, 0, 4, 6000);
    stored(0, 64, 68, 72, 0);
    stored(0, 64, 68, 71, 1);
    stored(0, 18446744073709551612, 64, 18446744073709551615, 1);
    stored(18446744073709551600, 0, 4, 18446744073709551615, 1);
    stored(0, 60, 64, 72, 10);
}
