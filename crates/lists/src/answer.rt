// The text of an answer: the listing of the counts and the face table, or the line of a refusal.
ghost use Rattle.paper.specs.Limits.{maps};
ghost use Rattle.paper.specs.Listing.{listing_by};
ghost use Rattle.tables.specs.Values.{answer_of};
ghost use Rattle.text.specs.Lines.{Line, faces_only};
ghost use Rattle.lists.specs.Listed.{Roomy};

use limits::LISTING;
use tables::Answer;

// What is put into a text: its length, and the answer that it tells.
#[derive(Clone, Copy)]
pub struct Listed {
    pub length: usize,
    pub answer: Answer,
}

// Puts the text of an answer at the start of a lent text, and answers its length.
pub fn put(answer: Answer, faces: &[u16], out: &mut [u8; LISTING]) -> usize
    requires { Roomy (answer_of answer) }
    ensures { Line 85504 (listing_by maps (faces_only faces.now) (answer_of answer)) out.old out.new result }
{
    match answer {
        Ok(c) => text::listing(c.vertices, c.edges, c.faces, faces, out),
        Err(r) => text::refused_listing(r.number, r.map, r.place, out),
    }
}
