// The operations for C (include/bonnetewe.h): functions on numbers and slices. A slice is a pointer and then a length; an answer is one number of 64 bits.
#![tactic(auto)]

mod answer; // an answer as one number
mod met; // how two edges meet as one number, and the point
mod record; // an edge record as two numbers
mod height; // the height of tide from and as numbers
mod calls; // the operations
mod ways; // the overlay, the way to collect the vertices chosen
mod yearly; // the year in three steps
mod sounded; // soundings by cell
