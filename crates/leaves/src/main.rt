// The leaves on plain numbers: the cases of document 01 that are run, and the edges of every width. Each row has a call's numbers and,
// last, what it should give: that number is the paper's, worked out by hand, and not taken from a run.
#![tactic(auto)]

mod areas;
mod cursors;
mod marks;
mod notifies;

fn main() {
    numbers();
    cursors::steps();
    cursors::moves();
    cursors::refusals();
    cursors::in_place();
    marks::tests();
    marks::others();
    areas::sizes();
    areas::edges();
    notifies::flags();
    notifies::refusals();
}

// A number of the table, given its name and asked for its number again.
fn numbered(n: u8, want: u64) {
    let e = base::RingError::numbered(n);
    say::case(b"numbered", u64::from(e.number()), want);
}

// The nine refusals; a number that the table has not is taken for 9.
fn numbers() {
    for n in 1..10 {
        numbered(n, u64::from(n));
    }
    numbered(0, 9);
    numbered(10, 9);
    numbered(255, 9);
}
