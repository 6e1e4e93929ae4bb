// Notifications: asked for, turned on and off, and armed.
use format::input;
use lines::answer::Answer;
use lines::{answer, asked};
use producer::RingProducer;

pub fn answer(p: RingProducer, op: u8, record: &[u8], ring: &mut [u8]) -> (RingProducer, Answer) {
    let at = input::cursor(record, 1);
    let (p, r) = match op {
        10 => return (p, asked::value(p.should_notify_since(ring, at))),
        11 => p.disable_used_notifications(ring),
        12 => p.enable_used_notifications(ring),
        13 => p.enable_used_notifications_desc(ring, at.head, at.wrap),
        _ => p.enable_used_notifications_for_next(ring),
    };
    (p, r.and(answer::done()))
}
