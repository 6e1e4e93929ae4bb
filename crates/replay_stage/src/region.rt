// The region's first bytes, from the trace's seed.

// The first n bytes. Seed 0 stays 0, so it gives zeros.
pub fn sow(region: &mut [u8], n: usize, seed: u32) {
    let mut x = seed;
    for byte in region.iter_mut().take(n) {
        x = next(x);
        *byte = (x / 256 % 256) as u8;
    }
}

fn next(x: u32) -> u32 {
    (u64::from(x) * 16807 % 2147483647) as u32
}
