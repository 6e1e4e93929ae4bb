// QEMU's calls, made of the port's consumer.
use crate::record::{Op, Record};
use crate::{memory, tell};
use base::RingError;
use consumer::RingConsumer;
use cursor::RingCursor;
use layout::Layout;

// `ring` is what the port has before it. `twin` is what Linux and QEMU had in memory, and the two are equal between records.
#[derive(Drop)]
pub struct Device {
    end: RingConsumer,
    ring: [u8; 264],
    twin: [u8; 264],
    counts: [u16; 16],
}

impl Device {
    // Before the first record there is no ring: whatever is asked of this one is refused with 7.
    pub fn closed() -> Device {
        let layout = Layout {
            table: 0,
            driver: 0,
            device: 0,
            size: 0,
        };
        let end = RingConsumer {
            layout,
            avail: RingCursor::new(),
            used: RingCursor::new(),
            inflight: 0,
            shadow: event::ENABLE,
        };
        Device {
            end,
            ring: [0; 264],
            twin: [0; 264],
            counts: [0; 16],
        }
    }

    pub fn step(&mut self, r: Record) {
        match r.op {
            Op::Start => self.start(r),
            Op::Slot | Op::Driver => self.given(r),
            Op::Pop => self.pop(),
            Op::Push => self.push(r),
            Op::PushNotify => self.push_and_ask(r, true),
            Op::PushSilent => self.push_and_ask(r, false),
            Op::On => self.turn_on(r),
            Op::Off => self.turn_off(r),
        }
    }

    // A ring of zero bytes: the table at 0, then the driver's event area and the device's.
    fn start(&mut self, r: Record) {
        self.ring = [0; 264];
        self.twin = [0; 264];
        let driver = 16 * usize::from(r.slot);
        let layout = Layout {
            table: 0,
            driver,
            device: driver + 4,
            size: r.slot.into(),
        };
        match RingConsumer::new(layout, &self.ring, &mut self.counts) {
            Ok(c) => {
                self.end = c;
                tell::opened(&r.bytes[..3], c.len());
            }
            Err(e) => tell::refused(e),
        }
    }

    // What Linux wrote. A place outside the bytes is refused, and nothing was written there.
    fn given(&mut self, r: Record) {
        let l = self.end.layout;
        let _ = memory::put(&mut self.ring, l, r);
        let _ = memory::put(&mut self.twin, l, r);
    }

    // QEMU's none is the port's refusal 3; any other refusal is one.
    fn pop(&mut self) {
        let mut addrs = [0u64; 16];
        let mut lens = [0u32; 16];
        let c = self.end;
        let (c, chain) = c.poll_available(&self.ring, &mut self.counts, &mut addrs, &mut lens);
        self.end = c;
        match chain {
            Ok(chain) => tell::popped(chain, &addrs, &lens),
            Err(RingError::WouldBlock) => say::words(b"none\n"),
            Err(e) => tell::refused(e),
        }
    }

    fn push(&mut self, r: Record) {
        tell::pushing(r.id, r.len);
        let c = self.end;
        let (c, answer) = c.submit_used(&mut self.ring, &mut self.counts, r.id, r.len);
        self.answered(c, answer, r);
    }

    fn push_and_ask(&mut self, r: Record, theirs: bool) {
        tell::pushing(r.id, r.len);
        let c = self.end;
        let (c, notify) = c.submit_used_with_notify(&mut self.ring, &mut self.counts, r.id, r.len);
        self.answered(c, notify.map(|_| ()), r);
        if let Ok(ours) = notify {
            tell::notified(ours, theirs);
        }
    }

    // QEMU turns them on at the slot that it pops next.
    fn turn_on(&mut self, r: Record) {
        say::words(b"notif on => ");
        let (c, answer) = self.end.enable_avail_notifications_for_next(&mut self.ring);
        self.answered(c, answer, r);
    }

    fn turn_off(&mut self, r: Record) {
        say::words(b"notif off => ");
        let (c, answer) = self.end.disable_avail_notifications(&mut self.ring);
        self.answered(c, answer, r);
    }

    fn answered(&mut self, c: RingConsumer, answer: Result<(), RingError>, r: Record) {
        self.end = c;
        match answer {
            Ok(()) => self.compare(r),
            Err(e) => tell::refused(e),
        }
    }

    // What the port's call changed, then what QEMU has instead. From here on QEMU's bytes stand, so that what Linux writes later
    // stands over the true ones.
    fn compare(&mut self, r: Record) {
        let l = self.end.layout;
        say::words(b"ok |");
        memory::places(l, &self.ring, &self.twin);
        // a place outside is refused and changes nothing
        let _ = memory::put(&mut self.twin, l, r);
        if self.ring != self.twin {
            say::words(b", QEMU");
            memory::places(l, &self.twin, &self.ring);
        }
        say::words(b"\n");
        self.ring = self.twin;
    }
}
