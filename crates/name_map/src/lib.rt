//! An ordered map from names to the numbers of nodes. A contract sees it as the list of its names,
//! in byte order, each with its number. A look-up and a change cost the logarithm of the map; a
//! listing takes one step for each name up to its last.
#![tactic(auto)]

mod map;

pub use map::NameMap;
