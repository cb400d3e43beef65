// The index: built and checked in linear time, with no memory but the lent tables.
#![tactic(auto)]

mod compare; // compare.rt: the one pass of the check
mod judged; // judged.rt: a register that a build and a check let pass
mod sort; // sort.rt: the counting sort of the build
mod touched; // touched.rt: the tiles that a rectangle touches
mod whole; // whole.rt: a build and a check, judged and then done

pub use touched::Tiles;
pub use whole::{build, check};
