// The calls that have no ring: cursors, the notify test, descriptors, event areas.
ghost use Rattle.std.specs.Prelude.{◌≡◌};

use base::RingError;
use base::bytes::Word;
use cursor::RingCursor;
use desc::{DescTable, Descriptor};
use event::EventSuppression;
use format::input;
use lines::answer::{Answer, Values};
use lines::{asked, output};
use text::Line;

// The ops 96 to 106, the format's bytes (docs/TRACE.md): a line from the op to the last value.
pub fn answer(op: u8, record: &[u8], table: Result<DescTable, RingError>, line: &mut Line<'_>)
    ensures { line.new.out.ghost_name ≡ line.old.out.ghost_name }
{
    match op {
        99 | 100 => encode(op, record, line),
        _ => output::answer(line, op, called(op, record, table)),
    }
}

fn called(op: u8, record: &[u8], table: Result<DescTable, RingError>) -> Answer {
    match op {
        96 => moved(input::cursor(record, 3).advance(u16::read(record, 1))),
        97 => moved(input::cursor(record, 3).advance_by(
            u16::read(record, 1),
            u16::read(record, 6),
        )),
        98 => told(record),
        101 => Ok(tests(record)),
        102 => Ok(words(input::event(record).set_flags(u16::read(record, 5)))),
        103 => Ok(desc_event(record)),
        104 => Ok(event_read(record)),
        105 => desc_addr(record, table),
        _ => Ok(decode(record)),
    }
}

// The cursor that is left.
fn moved(a: (RingCursor, Result<(), RingError>)) -> Answer {
    let (c, r) = a;
    asked::cursor(r.and(Ok(c)))
}

fn told(record: &[u8]) -> Answer {
    let size = u16::read(record, 5);
    let old = input::cursor(record, 7);
    let new = input::cursor(record, 10);
    asked::value(notify::should_notify(input::event(record), size, old, new))
}

// Sixteen bytes: more than an answer's values.
fn encode(op: u8, record: &[u8], line: &mut Line<'_>)
    ensures { line.new.out.ghost_name ≡ line.old.out.ghost_name }
{
    let d = Descriptor::new(
        u64::read(record, 1),
        u32::read(record, 9),
        u16::read(record, 13),
        u16::read(record, 15),
    );
    let wrap = input::bit(record, 17);
    let d = if op == 99 {
        d.mark_avail(wrap)
    } else {
        d.mark_used(wrap)
    };
    output::start(line, op, 0);
    output::values(line, &d.encode());
}

fn tests(record: &[u8]) -> Values {
    let wrap = input::bit(record, 3);
    let d = Descriptor::new(0, 0, 0, u16::read(record, 1));
    Values::of([
        d.is_avail(wrap).into(),
        d.is_used(wrap).into(),
        d.is_next().into(),
        d.is_writable().into(),
        d.is_indirect().into(),
    ])
}

fn words(e: EventSuppression) -> Values {
    Values::of([e.off_wrap.into(), e.flags.into()])
}

fn desc_event(record: &[u8]) -> Values {
    let c = input::cursor(record, 5);
    words(input::event(record).set_desc_event(c.head, c.wrap))
}

fn event_read(record: &[u8]) -> Values {
    let e = input::event(record);
    Values::of([
        e.desc_event_off().into(),
        e.desc_event_wrap().into(),
        e.flags().into(),
    ])
}

// 1 and the place, or twice 0 where there is none.
fn desc_addr(record: &[u8], table: Result<DescTable, RingError>) -> Answer {
    let place = table?.desc_addr(u16::read(record, 1));
    Ok(Values::of(place.map_or([0, 0], |at| [1, at as u64])))
}

fn decode(record: &[u8]) -> Values {
    let d = Descriptor::decode(input::slot(record));
    Values::of([d.addr, d.len.into(), d.id.into(), d.flags.into()])
}
