use crate::tenant::Tenant;
use pf_depot::Depot;
use std::alloc::Allocator;

/// What a hub is made of.
///
/// The frames are values: a free one lies in the depot, and any other at a place of its owner's loans. A window of a
/// namespace's pipe names a frame by its place there.
#[derive(Drop)]
pub struct HubParts<'a, A: Allocator> {
    /// The frames that nobody holds.
    pub depot: &'a Depot,
    /// The namespaces by number: the frames that each holds, and its own state. Nothing where one is retired.
    pub tenants: &'a [Option<Tenant<A>>],
}
