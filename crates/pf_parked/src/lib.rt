//! The calls in which processes wait: at most one for each process, with all that a later attempt at it needs.
#![tactic(auto)]

pub mod call;
pub mod table;
pub mod unfinished;

pub use call::Call;
pub use table::ParkedTable;
pub use unfinished::UnfinishedWrite;
