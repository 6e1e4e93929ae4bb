// Notifications turned on and off and armed; and a look at what waits, which is lent no more than they are.
use consumer::RingConsumer;
use format::input;
use lines::answer::Answer;
use lines::{answer, asked};

pub fn answer(c: RingConsumer, op: u8, record: &[u8], ring: &mut [u8]) -> (RingConsumer, Answer) {
    let at = input::cursor(record, 1);
    let (c, r) = match op {
        36 => return (c, asked::value(c.peek_available(ring))),
        42 => c.disable_avail_notifications(ring),
        43 => c.enable_avail_notifications(ring),
        44 => c.enable_avail_notifications_desc(ring, at.head, at.wrap),
        _ => c.enable_avail_notifications_for_next(ring),
    };
    (c, r.and(answer::done()))
}
