// A dump of a ring's region, slot by slot, for people. Standard input: the ring's size (16 bits) and where its table begins
// in the region (32 bits), both little-endian, and then the region's bytes. What each line says is the library's.
#![tactic(auto)]

const STDOUT_FILENO: i32 = 1;

fn main() {
    // A buffer of fixed size and how much of it was read: programs have no heap.
    let mut input = io::large_buffer();
    let n = io::read_full(0, &mut input);
    if n == input.len() {
        io::write_all(STDOUT_FILENO, b"bad input: more than 65,535 bytes\n");
    } else {
        show(&input[..n]);
    }
}

// A heading, 2,048 slots and a line for those that are not whole are the most that there are. No line is lost: none has
// more than 160 bytes, so each is whole in the buffer (`line_shown` in dump/proofs/Short.antt).
fn show(input: &[u8]) {
    let mut text = [0u8; 192];
    // Lines are asked for by number.
    for k in 0..2050 {
        let Some(n) = dump::line_of(input, k, &mut text) else {
            return;
        };
        io::write_all(STDOUT_FILENO, &text[..n]);
    }
}
