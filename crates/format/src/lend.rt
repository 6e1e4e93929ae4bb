// How much of what there is the ends are lent.
ghost use Rattle.std.specs.Prelude.{◌≡◌};
ghost use Rattle.format.specs.Lend.{whole_of, lent_of};

use crate::form;
use base::bytes::Word;

#[derive(Clone, Copy, PartialEq, Eq)]
pub struct Lent {
    pub bytes: usize,
    pub ids: usize,
    pub taken: usize,
    pub held: usize,
    pub addrs: usize,
    pub lens: usize,
}

// All of a region of so many bytes, and all of every table and output.
#[tactic(auto, unfolding(crate::specs::Lend::whole_of))]
pub fn whole(region: usize) -> Lent
    ensures { result ≡ whole_of region }
{
    let n = usize::from(form::ENTRIES);
    Lent {
        bytes: region,
        ids: n,
        taken: n,
        held: n,
        addrs: n,
        lens: n,
    }
}

// What a record says; of the region no more than there is. The others are cut to their slices where they are lent.
#[tactic(auto, unfolding(crate::specs::Lend::lent_of))]
pub fn read(record: &[u8], region: usize) -> Lent
    ensures { result ≡ lent_of «record».now region }
{
    Lent {
        bytes: region.min(u32::read(record, 1) as usize),
        ids: u32::read(record, 5) as usize,
        taken: u32::read(record, 9) as usize,
        held: u32::read(record, 13) as usize,
        addrs: u32::read(record, 17) as usize,
        lens: u32::read(record, 21) as usize,
    }
}
