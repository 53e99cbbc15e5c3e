//! Values under keys whose numbers are drawn in order, each once: a key that outlives its value finds nothing. Such
//! values with a count of their names, which go with the last name. And values at the numbers from 0 to 255, of which
//! the lowest free one is found at once, as a process's descriptors are.
#![tactic(auto)]

pub mod descriptions;
pub mod marks;
pub mod places;
pub mod registry;
pub mod table;

pub use descriptions::{Descriptions, Named};
pub use marks::Marks;
pub use places::Places;
pub use registry::{InsertFault, Key, Registry};
pub use table::FdTable;
