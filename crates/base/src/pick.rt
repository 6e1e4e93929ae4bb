// Total reads and choices: no caller has anything to show.
ghost use Rattle.std.specs.Prelude.{◌≡◌, cond, leb, get_or, set, ◌+◌};

pub fn pick<T: Copy>(b: bool, x: T, y: T) -> T
    ensures { result ≡ cond b x y }
{
    if b { x } else { y }
}

// n places from a end by the place `end`: the one comparison of areas, with no sum that could wrap.
pub fn ends_by(a: usize, n: usize, end: usize) -> bool
    ensures { result ≡ leb (a + n) end }
{
    a.checked_add(n).is_some_and(|last| last <= end)
}

// What stands at a place, and `or` past the end.
pub fn at<T: Copy>(s: &[T], i: usize, or: T) -> T
    ensures { result ≡ get_or s.now i or }
{
    s.get(i).copied().unwrap_or(or)
}

// A value at a place; nothing past the end.
pub fn set<T: Copy>(s: &mut [T], i: usize, x: T)
    ensures { s.new ≡ set s.old i x }
{
    if i < s.len() {
        s[i] = x;
    }
}
