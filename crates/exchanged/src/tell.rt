// What is written, in the captures' own words.
use base::RingError;
use consumer::PolledChain;
use say::{either, number, words};

pub fn refused(e: RingError) {
    number(b"refused ", u64::from(e.number()));
    words(b"\n");
}

// "P4A (size 4)", the size as the ring itself says it.
pub fn opened(name: &[u8], size: Result<u16, RingError>) {
    words(name);
    match size {
        Ok(n) => {
            number(b" (size ", u64::from(n));
            words(b")\n");
        }
        Err(e) => refused(e),
    }
}

// A chain and its elements: address, length, and r or w.
pub fn popped(chain: PolledChain, addrs: &[u64], lens: &[u32]) {
    number(b"pop id ", u64::from(chain.id));
    number(b" n ", u64::from(chain.count));
    number(b" readable ", u64::from(chain.readable));
    let elements = addrs.iter().zip(lens.iter()).take(usize::from(chain.count));
    for (k, (addr, len)) in elements.enumerate() {
        number(b" ", *addr);
        number(b" ", u64::from(*len));
        either(k < usize::from(chain.readable), b" r", b" w");
    }
    words(b"\n");
}

// Before what a push answered.
pub fn pushing(id: u16, len: u32) {
    number(b"push ", u64::from(id));
    number(b" ", u64::from(len));
    words(b" => ");
}

pub fn notified(ours: bool, theirs: bool) {
    either(ours, b"notify 1", b"notify 0");
    if ours != theirs {
        either(theirs, b", QEMU notify 1", b", QEMU notify 0");
    }
    words(b"\n");
}
