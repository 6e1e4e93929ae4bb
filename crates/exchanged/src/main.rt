// The exchanges of Linux's driver and QEMU's device (see oracle/captured), with the port's consumer in QEMU's place: over the bytes
// that Linux wrote it polls and completes as QEMU did. A line is what it answered and, behind ", QEMU", what QEMU had instead.
//
// Standard input: 1 to 170 records of 24 bytes: an op, a slot, an ID of two bytes, a length of four, sixteen bytes; numbers are
// little-endian, and what an op does not name is zero. What is none is answered with the line `bad`.
//   S  a ring of as many slots as `slot` says, all bytes zero; the first three of the sixteen are its name
//   L  Linux wrote the sixteen into the slot            D  Linux wrote the first four into the driver's event area
//   P  QEMU popped
//   U  QEMU pushed the ID and the length, and the slot became the sixteen
//   Y, N  the same, and QEMU was asked whether it notifies: yes, no
//   A, O  QEMU turned notifications on, off, and the device's event area became the first four
#![tactic(auto)]

mod device;
mod memory;
mod record;
mod tell;

use device::Device;
use record::Record;

fn main() {
    // A buffer of fixed size and how much of it was read: programs have no heap.
    let mut input = io::buffer();
    let n = io::read_full(0, &mut input);
    let input = &input[..n];
    if say::are_records(input, record::SIZE, b"SLDPUYNAO") {
        run(input);
    } else {
        say::words(b"bad\n");
    }
}

fn run(input: &[u8]) {
    let mut device = Device::closed();
    for r in input.chunks(record::SIZE) {
        // `main` has looked at the letters
        if let Ok(r) = Record::read(r) {
            device.step(r);
        }
    }
}
