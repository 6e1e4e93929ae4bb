// Document 01's "Slots worth checking" that are not marked D, on the real ends. Its stdout was written from the paper's words
// before the program was; every number behind a colon is a call's answer.
#![tactic(auto)]

mod chains;
mod ids;
mod openings;
mod twice;

use layout::Layout;

// The table at 0, and after it the driver's event area and the device's.
fn laid(size: u16) -> Layout {
    let end = 16 * usize::from(size);
    Layout {
        table: 0,
        driver: end,
        device: end + 4,
        size,
    }
}

fn main() {
    tell::missing(chains::lone(desc::NEXT, b"head with NEXT"));
    tell::missing(chains::lone(0, b"head without NEXT"));
    tell::missing(chains::four());
    tell::missing(ids::four());
    openings::sizes();
    tell::missing(twice::completed());
}
