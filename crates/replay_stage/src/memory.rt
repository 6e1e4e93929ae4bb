// What a trace lends to the ring's two ends, and its checkpoint registers. The sizes are the trace format's.
ghost use Rattle.std.specs.Prelude.{◌≡◌, take};

use consumer::Checkpoint;
use cursor::RingCursor;

// A checkpoint register as a trace starts.
pub const AT_START: Checkpoint = Checkpoint {
    avail: RingCursor {
        head: 0,
        wrap: true,
    },
    used: RingCursor {
        head: 0,
        wrap: true,
    },
    inflight: 0,
};

// Entries of which the ends are lent the first so many: all that there are, where the number is larger. (An array and a
// number: there is no heap, a later record can lend more again, and the looks and the hash see all entries.)
#[derive(Drop)]
pub struct Store<T, const N: usize> {
    pub all: [T; N],
    pub lent: usize,
}

impl<T, const N: usize> Store<T, N> {
    pub fn lent(&self) -> &[T]
        ensures { result.now ≡ take self.now.lent self.now.all }
    {
        self.all.split_at(self.lent.min(N)).0
    }

    // What is left once the loan ends is not said: tried, and rattle has no proof of it where part of an array is lent. Where a
    // caller has to know that the number stays, it lends the entries alone, by `first_mut`.
    pub fn lent_mut(&mut self) -> &mut [T]
        ensures { result.now ≡ take self.old.lent self.old.all }
    {
        let n = self.lent.min(N);
        self.all.split_at_mut(n).0
    }
}

// The first n entries, or all that there are, to write. Of the entries alone: a caller who lends these, and not their store,
// still knows that the number beside them stays.
pub fn first_mut<T>(s: &mut [T], n: usize) -> &mut [T]
    ensures { result.now ≡ take n s.old }
{
    let n = n.min(s.len());
    s.split_at_mut(n).0
}

#[derive(Drop)]
pub struct Memory {
    pub region: Store<u8, 65536>,
    // How long the trace's region is: a number beside the most that the format allows, since there is no heap.
    pub length: usize,
    pub ids: Store<u16, 2048>,
    // The producer's counts, and the consumer's.
    pub taken: Store<u16, 2048>,
    pub held: Store<u16, 2048>,
    // The poll outputs.
    pub addrs: Store<u64, 2048>,
    pub lens: Store<u32, 2048>,
    pub registers: [Checkpoint; 256],
}
