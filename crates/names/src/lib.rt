// Lists of names (02, Ask 14), "label as unsigned 16-bit, low byte first, then length byte, name": the name for a label as a part of its list. Nothing is copied.
#![tactic(auto)]

ghost use Rattle.std.specs.Prelude.{◌≡◌, ◌≤◌, length};
ghost use Rattle.paper.specs.Names.{whole_names, name_part, of_two, shown_part};
ghost use Rattle.names.specs.Parts.{IsPart};
ghost use Rattle.names.specs.Walking.{end_in};

use map_file::{byte_at, u16_at};

// Where the entry at i ends; none where the list ends inside it.
fn entry_end(list: &[u8], i: usize) -> Option<usize>
    requires { i ≤ length list.now }
    ensures { result ≡ end_in list.now i }
{
    let end = i + 3 + byte_at(list, i + 2) as usize;
    if end <= list.len() { Some(end) } else { None }
}

// The name for a label in one list: "taken as that very part of its list, and nothing where the list lacks the label".
pub fn entry<'a>(list: &'a [u8], label: u16) -> &'a [u8]
    ensures { IsPart list.entry result (name_part list.now label) }
{
    let mut i = 0;
    while let Some(end) = entry_end(list, i) {
        if u16_at(list, i) == label {
            return &list[i + 3..end];
        }
        i = end;
    }
    &list[..0]
}

// "the zone's name, or the block's name where the zone label is 0".
pub fn name<'a>(zones: &'a [u8], blocks: &'a [u8], zone: u16, block: u16) -> &'a [u8]
    ensures { IsPart (of_two zone zones.entry blocks.entry) result (shown_part zones.now blocks.now zone block) }
{
    if zone == 0 {
        entry(blocks, block)
    } else {
        entry(zones, zone)
    }
}

// Whether a list ends where an entry ends, and not "inside an entry".
pub fn whole(list: &[u8]) -> bool
    ensures { result ≡ whole_names list.now }
{
    let mut i = 0;
    while let Some(end) = entry_end(list, i) {
        i = end;
    }
    i == list.len()
}
