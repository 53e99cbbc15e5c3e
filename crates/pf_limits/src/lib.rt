//! What limits the pages of a namespace's pipes: how many of them each user is charged with, and whether it may have
//! more (pipe(7), "/proc files").
#![tactic(auto)]

pub mod laws;
pub mod user_pages;

pub use pf_base::LimitFault;
pub use user_pages::UserPages;
