// Four single submissions over four slots, and what is asked of the full ring.
use base::RingError;
use producer::RingProducer;

pub fn four() -> Result<(), RingError> {
    let mut ring = [0u8; 72];
    let mut ids = [0u16; 4];
    let mut counts = [0u16; 4];
    let p = RingProducer::new(crate::laid(4), &ring, &mut ids, &mut counts)?;
    let p = one(p, b"first submission", &mut ring, &ids, &mut counts);
    let p = one(p, b"second submission", &mut ring, &ids, &mut counts);
    let p = one(p, b"third submission", &mut ring, &ids, &mut counts);
    let p = one(p, b"fourth submission", &mut ring, &ids, &mut counts);
    tell::case(p.len(), b"next_id");
    tell::id(p.next_id(&ids, &counts));
    say::words(b"\n");
    one(p, b"fifth submission", &mut ring, &ids, &mut counts);
    Ok(())
}

// One element submitted: the record is handed on, after a refusal too.
fn one(
    p: RingProducer,
    name: &[u8],
    ring: &mut [u8],
    ids: &[u16],
    counts: &mut [u16],
) -> RingProducer {
    tell::case(p.len(), name);
    let (p, id) = p.submit_one(ring, ids, counts, 4096, 16, false);
    tell::id(id);
    tell::cursor(p.avail_cursor());
    p
}
