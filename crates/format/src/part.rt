// Parts of lent slices. Each is total: where a part would pass the end, it is what there is.
ghost use Rattle.std.specs.Prelude.{◌≡◌};
ghost use Rattle.std.specs.Mem.{type_size};
ghost use Rattle.base.specs.Part.{slice};
ghost use Rattle.format.specs.Part.{first_of, from_of, between_of};

pub fn first<T>(s: &[T], n: usize) -> &[T]
    ensures { slice result.ref_ptr result.now ≡ first_of (type_size T.row) n (slice s.entry.ref_ptr s.now) }
{
    &s[..n.min(s.len())]
}

pub fn from<T>(s: &[T], n: usize) -> &[T]
    ensures { slice result.ref_ptr result.now ≡ from_of (type_size T.row) n (slice s.entry.ref_ptr s.now) }
{
    &s[n.min(s.len())..]
}

// From a place up to another.
#[tactic(auto, unfolding(crate::specs::Part::between_of))]
pub fn between<T>(s: &[T], from: usize, to: usize) -> &[T]
    ensures { slice result.ref_ptr result.now ≡ between_of (type_size T.row) «from» to (slice s.entry.ref_ptr s.now) }
{
    if to < from || s.len() < to {
        return &s[s.len()..];
    }
    &s[from..to]
}
