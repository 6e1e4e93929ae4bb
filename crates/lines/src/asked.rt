// What is asked of a record, as a line's answer. Both ends are asked alike.
ghost use Rattle.std.specs.Prelude.{◌≡◌, [], ◌∷◌};
ghost use Rattle.cursor.specs.Cursor as cursors;
ghost use Rattle.lines.specs.Line.{line_by};

use crate::answer::{Answer, Number, Values};
use base::RingError;
use cursor::RingCursor;

// A number, or a yes or no.
pub fn value<V: Number>(a: Result<V, RingError>) -> Answer
    ensures { result ≡ line_by (λ x. V.value x ∷ []) a }
{
    Ok(Values::of([a?.into()]))
}

pub fn cursor(a: Result<RingCursor, RingError>) -> Answer
    ensures { result ≡ line_by cursors.values_of a }
{
    let c = a?;
    Ok(Values::of([c.head.into(), c.wrap.into()]))
}
