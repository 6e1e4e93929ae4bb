// What the programs print: words, numbers, and cases with what they should give; and whether what they read is records.
// They write at once and not by `print!`: that would hand the runtime to every row of every table of cases, and is no plainer.
#![tactic(auto)]

ghost use Rattle.std.specs.Prelude.{◌≡◌, ◌+◌, ◌*◌, ◌%◌, ◌≤◌, if◌then◌else◌};

const STDOUT_FILENO: i32 = 1;

pub fn words(w: &[u8]) {
    io::write_all(STDOUT_FILENO, w);
}

pub fn number(before: &[u8], n: u64) {
    words(before);
    io::print_decimal(STDOUT_FILENO, n);
}

pub fn hex(b: u8) {
    io::print_hex(STDOUT_FILENO, u64::from(b), 2);
}

pub fn either(b: bool, yes: &[u8], no: &[u8]) {
    words(if b { yes } else { no });
}

// A case is told in a line: the call, what it gave and, where it is not so, what it should.
pub fn case(name: &[u8], got: u64, want: u64) {
    let ok = got == want;
    either(ok, b"ok ", b"DIFFERS ");
    words(name);
    number(b" ", got);
    if !ok {
        number(b", not ", want);
    }
    words(b"\n");
}

// A yes as 1 and a no as 0. The bound is said too: sums of such digits need it.
pub fn bit(b: bool) -> u64
    ensures value { result ≡ (if b then 1 else 0) }
    ensures upper_bound { result ≤ 1 }
{
    u64::from(b)
}

// A refusal as 1,000 for each number, and what is seen beside it. It stays over numbers: over `RingError` its promise would say
// less, since there are nine of those.
pub fn refusal(number: u8, seen: u64) -> u64
    ensures { result ≡ (1000 * number + seen) % 18446744073709551616 }
{
    (1000 * u64::from(number)).wrapping_add(seen)
}

// Is it one record or more, each of so many bytes and with one of these letters first?
pub fn are_records(s: &[u8], width: usize, letters: &[u8]) -> bool {
    if width == 0 || s.is_empty() || s.len() % width != 0 {
        return false;
    }
    s.chunks(width)
        .all(|r| r.first().is_some_and(|b| letters.contains(b)))
}
