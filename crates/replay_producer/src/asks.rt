// What is asked of the producer's record.
use lines::answer::Answer;
use lines::{answer, asked};
use producer::RingProducer;

pub fn answer(p: RingProducer, op: u8) -> Answer {
    match op {
        7 => answer::four(
            asked::value(p.num_free()),
            asked::value(p.num_inflight()),
            asked::value(p.is_full()),
            asked::value(p.len()),
        ),
        8 => asked::cursor(p.avail_cursor()),
        _ => asked::cursor(p.used_cursor()),
    }
}
