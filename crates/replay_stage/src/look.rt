// The records that only look: at the region's bytes, at the outputs, at a table's entries.
ghost use Rattle.std.specs.Prelude.{◌≡◌};

use crate::memory::Memory;
use base::bytes::Word;
use format::{input, part};
use lines::output;
use text::Line;

pub fn bytes(record: &[u8], memory: &Memory, line: &mut Line<'_>)
    ensures { line.new.out.ghost_name ≡ line.old.out.ghost_name }
{
    let from = u32::read(record, 1) as usize;
    let k = usize::from(u16::read(record, 5));
    output::start(line, 65, 0);
    output::values(line, part::first(part::from(&memory.region.all, from), k));
}

pub fn outputs(record: &[u8], memory: &Memory, line: &mut Line<'_>)
    ensures { line.new.out.ghost_name ≡ line.old.out.ghost_name }
{
    let from = usize::from(u16::read(record, 1));
    let k = usize::from(u16::read(record, 3));
    let addrs = part::first(part::from(&memory.addrs.all, from), k);
    output::start(line, 72, 0);
    output::pairs(line, addrs, part::from(&memory.lens.all, from));
}

pub fn table(record: &[u8], memory: &Memory, line: &mut Line<'_>)
    ensures { line.new.out.ghost_name ≡ line.old.out.ghost_name }
{
    output::start(line, 73, 0);
    // The tables' numbers are the format's (docs/TRACE.md).
    match input::byte(record, 1) {
        0 => entries(record, &memory.ids.all, line),
        1 => entries(record, &memory.taken.all, line),
        _ => entries(record, &memory.held.all, line),
    }
}

fn entries(record: &[u8], table: &[u16], line: &mut Line<'_>)
    ensures { line.new.out.ghost_name ≡ line.old.out.ghost_name }
{
    let from = usize::from(u16::read(record, 2));
    let k = usize::from(u16::read(record, 4));
    output::values(line, part::first(part::from(table, from), k));
}
