// A completion for an ID already completed, seen from both ends.
use base::RingError;
use consumer::RingConsumer;
use producer::RingProducer;

pub fn completed() -> Result<(), RingError> {
    let mut ring = [0u8; 72];
    let mut ids = [0u16; 4];
    let mut taken = [0u16; 4];
    // one element, whose ID is all that is in flight
    let p = RingProducer::new(crate::laid(4), &ring, &mut ids, &mut taken)?;
    let (p, id) = p.submit_one(&mut ring, &ids, &mut taken, 4096, 16, false);
    take(id?, &mut ring)?;
    // the completion, and then the same used slot once more where the producer looks next
    let p = poll(
        p,
        b"producer polls a completion",
        &ring,
        &mut ids,
        &mut taken,
    );
    let slot = desc::load(&ring, 0);
    desc::store(&mut ring, 16, slot)?;
    poll(p, b"producer polls it again", &ring, &mut ids, &mut taken);
    Ok(())
}

// A consumer polls it, and completes that ID twice.
fn take(id: u16, ring: &mut [u8]) -> Result<(), RingError> {
    let mut held = [0u16; 4];
    let c = RingConsumer::new(crate::laid(4), ring, &mut held)?;
    let (c, chain) = c.poll_available(ring, &mut held, &mut [0; 4], &mut [0; 4]);
    chain?;
    let c = complete(c, id, b"consumer completes an ID", ring, &mut held);
    complete(c, id, b"consumer completes it again", ring, &mut held);
    Ok(())
}

fn complete(
    c: RingConsumer,
    id: u16,
    name: &[u8],
    ring: &mut [u8],
    held: &mut [u16],
) -> RingConsumer {
    tell::case(c.len(), name);
    let (c, answer) = c.submit_used(ring, held, id, 5);
    tell::done(answer);
    tell::cursor(c.used_cursor());
    c
}

fn poll(
    p: RingProducer,
    name: &[u8],
    ring: &[u8],
    ids: &mut [u16],
    taken: &mut [u16],
) -> RingProducer {
    tell::case(p.len(), name);
    let (p, used) = p.poll_used(ring, ids, taken);
    tell::id(used.map(|u| u.id));
    tell::cursor(p.used_cursor());
    p
}
