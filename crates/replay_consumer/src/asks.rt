// What is asked of the consumer's record. (As of the producer's: a trait of the six questions, with its two impls, would be
// longer than both.)
use consumer::RingConsumer;
use lines::answer::Answer;
use lines::{answer, asked};

pub fn answer(c: RingConsumer, op: u8) -> Answer {
    match op {
        37 => answer::four(
            asked::value(c.num_free()),
            asked::value(c.num_inflight()),
            asked::value(c.is_full()),
            asked::value(c.len()),
        ),
        38 => asked::cursor(c.avail_cursor()),
        _ => asked::cursor(c.used_cursor()),
    }
}
