//! Frames on loan: a depot of free frames, the loans of each namespace, and the door over both; and a depot that
//! namespaces on threads of their own share behind a lock.
#![tactic(auto)]

pub mod allotment;
pub mod book;
pub mod depot;
pub mod door;
pub mod leaving;
pub mod lender;
pub mod loans;
pub mod shared;
pub mod stock;
pub mod stocked;

pub use allotment::Allotment;
pub use book::DepotBook;
pub use depot::Depot;
pub use door::LoanDoor;
pub use leaving::Leaving;
pub use lender::Lender;
pub use loans::Loans;
pub use pf_frame::PoolFault;
pub use shared::SharedDepot;
pub use stock::Stock;
pub use stocked::StockedDepot;
