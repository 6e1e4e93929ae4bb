// The leaves over lent bytes and slices, at the edges of every width and of what is lent. Each row has a call's numbers and,
// last, what it should give: that number is the paper's, worked out by hand, and not taken from a run.
#![tactic(auto)]

mod chains;
mod events;
mod seen;
mod slots;

fn main() {
    slots::encodings();
    slots::places();
    slots::tables();
    events::words();
    events::places();
    chains::checks();
    chains::parts();
}
