// Overlays, listed and written.
use crate::words::Order;
use console::{Input, Place, Sentence};
use limits::LISTING;
use lists::Listed;
use map_file::Refusal;
use overlay_maps::EMPTY;
use std::io::{Eprint, Print, Result};
use std::rt::Files;
use tables::Answer;

// As many bytes as the longest overlay file has, and more.
const ROOM: usize = 65536;

// The overlay file of a name.
pub fn list(rt: &(impl Files + AllocGlobal + Print), name: &[u8]) -> Result<()> {
    let file = Input::load(rt, name)?;
    let mut out = [0u8; LISTING];
    let listed = lists::from_file::list(&file.bytes, &mut out);
    let length = listed.length;
    rt.write_all(&out[..length])?;
    explain(rt, listed.answer)?;
    file.say_missing(rt)
}

// The edges of the overlay file of a name.
pub fn edges(rt: &(impl Files + AllocGlobal + Print), name: &[u8]) -> Result<()> {
    let file = Input::load(rt, name)?;
    let answer = console::say_edges(rt, &file.bytes)?;
    explain(rt, answer)?;
    file.say_missing(rt)
}

// A refusal in a sentence, under its line.
fn explain(rt: &impl Print, answer: Answer) -> Result<()> {
    match answer {
        Ok(_) => Ok(()),
        Err(r) => rt.println(Sentence(r)),
    }
}

// The map files of an overlay that is asked for. `melts` stays a switch: the user's word sets it, and two closures in its place would be no plainer than the two methods that ask it.
#[derive(Drop)]
struct Sheet<'a> {
    melts: bool,
    zones: Input<'a>,
    blocks: Input<'a>,
    bed: Option<Input<'a>>,
}

impl<'a> Sheet<'a> {
    fn load<R: Files + AllocGlobal>(rt: &R, order: Order<'a>) -> Result<Self> {
        let zones = Input::load_map(rt, order.zones)?;
        let blocks = Input::load_map(rt, order.blocks)?;
        let bed = match order.bed {
            Some(name) => Some(Input::load_map(rt, name)?),
            None => None,
        };
        Ok(Sheet {
            melts: order.melts,
            zones,
            blocks,
            bed,
        })
    }

    // "The two-map overlay is the one with an empty third map"
    fn bed(&self) -> &[u8] {
        match &self.bed {
            Some(bed) => &bed.bytes,
            None => &EMPTY,
        }
    }

    // The file of a map by its number.
    fn map(&self, number: u16) -> Option<&Input<'a>> {
        match number {
            1 => Some(&self.zones),
            2 => Some(&self.blocks),
            _ => self.bed.as_ref(),
        }
    }

    // The listing of the overlay, or of what is left of it when it is melted.
    fn list(&self, out: &mut [u8; LISTING]) -> Listed {
        if self.melts {
            lists::melted::list(&self.zones.bytes, &self.blocks.bytes, self.bed(), out)
        } else {
            lists::from_maps::list(&self.zones.bytes, &self.blocks.bytes, self.bed(), out)
        }
    }

    // The overlay file of the one or of the other.
    fn file(&self, out: &mut [u8]) -> std::result::Result<usize, Refusal> {
        if self.melts {
            lists::melted::file(&self.zones.bytes, &self.blocks.bytes, self.bed(), out)
        } else {
            lists::from_maps::file(&self.zones.bytes, &self.blocks.bytes, self.bed(), out)
        }
    }

    // A refusal in a sentence, under its line: of 5, 6, 8 or 9 the name of the map, and where it is in that file.
    fn explain(&self, rt: &impl Print, r: Refusal) -> Result<()> {
        if let Some(file) = self.map(r.map) {
            if let Some(place) = Place::new(&file.bytes, r) {
                file.say_name(rt)?;
                return rt.println(place);
            }
        }
        rt.println(Sentence(r))
    }

    fn say_list(&self, rt: &impl Print) -> Result<()> {
        let mut out = [0u8; LISTING];
        let listed = self.list(&mut out);
        rt.write_all(out.get(..listed.length).unwrap_or(&out))?;
        match listed.answer {
            Ok(_) => Ok(()),
            Err(r) => self.explain(rt, r),
        }
    }

    // Nothing is written where the overlay is refused.
    fn save(&self, rt: &(impl Files + Eprint), name: &[u8]) -> Result<()> {
        let mut file = [0u8; ROOM];
        match self.file(&mut file) {
            Ok(n) => console::save(rt, name, file.get(..n).unwrap_or(&file)),
            Err(_) => Ok(()),
        }
    }

    // The names of files which cannot be opened, under the refusal.
    fn say_missing(&self, rt: &impl Print) -> Result<()> {
        self.zones.say_missing(rt)?;
        self.blocks.say_missing(rt)?;
        match &self.bed {
            Some(bed) => bed.say_missing(rt),
            None => Ok(()),
        }
    }
}

// The overlay that is asked for, listed, and written where that is asked for.
pub fn lay(rt: &(impl Files + AllocGlobal + Print + Eprint), order: Order) -> Result<()> {
    let sheet = Sheet::load(rt, order)?;
    sheet.say_list(rt)?;
    if let Some(name) = order.out {
        sheet.save(rt, name)?;
    }
    sheet.say_missing(rt)
}
