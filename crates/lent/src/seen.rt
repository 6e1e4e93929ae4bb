// What a case sees of a call: a byte that it left, and its answer beside that.
ghost use Rattle.std.specs.Prelude.{◌≤◌};

use base::RingError;

// A byte of a slice; 999 past its end.
pub fn byte(s: &[u8], i: usize) -> u64
    ensures { result ≤ 999 }
{
    s.get(i).map_or(999, |&b| u64::from(b))
}

pub fn outcome(r: Result<(), RingError>, seen: u64) -> u64 {
    match r {
        Ok(()) => seen,
        Err(e) => say::refusal(e.number(), seen),
    }
}
