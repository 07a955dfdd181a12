// The stored fields of an overlay file. A byte past the end counts as 0, and so does a source or label that the layout does not store.
ghost use Rattle.std.specs.Prelude.{◌≡◌, ◌≤◌, ◌<◌, ◌^◌};
ghost use Rattle.paper.specs.Bytes.{u16};
ghost use Rattle.paper.specs.Limits.{overlay_vertices, overlay_edges, overlay_faces};
ghost use Rattle.paper.specs.Ovfile.{layouts, layout_of, edges_at, faces_at};
ghost use Rattle.paper.specs.Reader.{counts_in, edge_field, face_field, stored_origin, stored_follower, stored_face, stored_source, stored_label};
ghost use Rattle.tables.specs.Values.{counts_of};
ghost use Rattle.ovfile.specs.Values.{layout_from};
ghost use Rattle.ovfile.specs.Known.{Known};
ghost use Rattle.ovfile_read.specs.Starts.{FacesFrom};

use map_file::u16_at;
use ovfile::{Layout, field_at};
use tables::Counts;

// A file of right form, in the layout of the version that it names: its counts, and where its edges and its faces start.
#[derive(Clone, Copy)]
pub struct Stored<'a> {
    pub file: &'a [u8],
    pub layout: Layout,
    pub counts: Counts,
    pub(crate) edges: usize,
    pub(crate) faces: usize,
    pub ghost bytes_named: { layout.coordinate ≡ (layout_of layouts (u16 file.now 3)).coordinate },
    pub ghost maps_named: { layout.maps ≡ (layout_of layouts (u16 file.now 3)).maps },
    pub ghost vertices_counted: { counts.vertices ≡ (counts_in file.now).vertices },
    pub ghost edges_counted: { counts.edges ≡ (counts_in file.now).edges },
    pub ghost faces_counted: { counts.faces ≡ (counts_in file.now).faces },
    pub ghost few_vertices: { counts.vertices ≤ overlay_vertices },
    pub ghost few_edges: { counts.edges ≤ overlay_edges },
    pub ghost few_faces: { counts.faces ≤ overlay_faces },
    pub ghost edges_start: { edges ≡ edges_at (layout_from layout) (counts_in file.now) },
    pub ghost faces_start: { faces ≡ faces_at (layout_from layout) (counts_in file.now) },
}

// Of a file of any bytes: the layout of the version that it names.
pub fn layout_in(file: &[u8]) -> Layout
    ensures { (layout_from result ≡ layout_of layouts (u16 file.now 3)) × Known (layout_from result) }
{
    Layout::of(u16_at(file, 3))
}

// The counts that it states.
pub fn counts(file: &[u8]) -> Counts
    ensures { counts_of result ≡ counts_in file.now }
{
    Counts {
        vertices: u16_at(file, 5),
        edges: u16_at(file, 7),
        faces: u16_at(file, 9),
    }
}

// Where its faces start in a layout.
pub fn faces_start(layout: Layout, file: &[u8]) -> usize
    requires { Known (layout_from layout) }
    ensures { FacesFrom (layout_from layout) file.now result }
{
    layout.faces_at(counts(file))
}

fn wide(x: u8) -> u16
    ensures { (result ≡ x) × (result < 256) }
{
    x as u16
}

// The 16-bit number at a place, both of its bytes by one test.
pub fn field(file: &[u8], at: usize) -> u16
    requires { at < 2 ^ 60 }
    ensures { result ≡ u16 file.now at }
{
    if at + 1 < file.len() {
        return wide(file[at]) + 256 * wide(file[at + 1]);
    }
    u16_at(file, at)
}

// Of a file of any bytes, the label of face f in map i + 1, or 0, where the faces start.
pub fn label(layout: Layout, file: &[u8], start: usize, f: u32, i: u32) -> u16
    requires { FacesFrom (layout_from layout) file.now start }
    ensures { result ≡ stored_label (layout_from layout) file.now f i }
{
    if i < layout.maps as u32 {
        field(file, field_at(start, layout.face_size(), f, i))
    } else {
        0
    }
}

impl Stored<'_> {
    // The 16-bit number j of edge k.
    pub fn edge_field(&self, k: u32, j: u32) -> u16
        ensures { result ≡ edge_field (layout_from self.now.layout) self.now.file.now k j }
    {
        field(
            self.file,
            field_at(self.edges, self.layout.edge_size(), k, j),
        )
    }

    // The 16-bit number j of face f.
    pub fn face_field(&self, f: u32, j: u32) -> u16
        ensures { result ≡ face_field (layout_from self.now.layout) self.now.file.now f j }
    {
        field(
            self.file,
            field_at(self.faces, self.layout.face_size(), f, j),
        )
    }

    pub fn origin(&self, h: u32) -> u16
        ensures { result ≡ stored_origin (layout_from self.now.layout) self.now.file.now h }
    {
        self.edge_field(h / 2, h % 2)
    }

    pub fn follower(&self, h: u32) -> u16
        ensures { result ≡ stored_follower (layout_from self.now.layout) self.now.file.now h }
    {
        self.edge_field(h / 2, 2 + self.layout.maps as u32 + h % 2)
    }

    pub fn face(&self, h: u32) -> u16
        ensures { result ≡ stored_face (layout_from self.now.layout) self.now.file.now h }
    {
        self.edge_field(h / 2, 4 + self.layout.maps as u32 + h % 2)
    }

    // The source of edge k in map i + 1, or 0.
    pub fn source(&self, k: u32, i: u32) -> u16
        ensures { result ≡ stored_source (layout_from self.now.layout) self.now.file.now k i }
    {
        if i < self.layout.maps as u32 {
            self.edge_field(k, 2 + i)
        } else {
            0
        }
    }

    // The label of face f in map i + 1, or 0.
    pub fn label(&self, f: u32, i: u32) -> u16
        ensures { result ≡ stored_label (layout_from self.now.layout) self.now.file.now f i }
    {
        if i < self.layout.maps as u32 {
            self.face_field(f, i)
        } else {
            0
        }
    }
}
