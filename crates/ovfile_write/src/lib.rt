// The overlay file's writer (01, "Overlay file"): it "takes any counts and tables", of any lengths and contents, and a buffer of any length.
#![tactic(auto)]

mod vertices; // refusal 5
mod edges; // refusal 21
mod bytes; // the bytes of the file
mod writer; // the writer

pub use writer::write;
