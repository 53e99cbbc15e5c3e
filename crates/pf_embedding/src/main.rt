//! What docs/EMBEDDING.md shows, as a program: a process of a tenant that makes a pipe, a read that waits, and a tenant
//! that comes and goes. It prints what they are told.
#![tactic(auto)]

mod alone;
mod guest;
mod pool;
mod trouble;
mod waits;

use crate::trouble::Trouble;

fn main(rt: HostRuntime) -> Result<(), Trouble> {
    let alloc = rt.alloc();
    println!(rt; "{:?}", alone::hello(alloc)?)?;
    let (parked, early, next, told) = waits::waits(alloc)?;
    println!(rt; "{parked:?}")?;
    println!(rt; "{early} {next:?}")?;
    println!(rt; "{told:?}")?;
    println!(rt; "{:?}", guest::job(alloc)?)?;
    Ok(())
}
