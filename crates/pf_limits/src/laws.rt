//! What the counters count. These functions compute nothing: their contracts are the laws.

ghost use Rattle.pf_limits.specs.Sums.{CountersAreSums};

/// Counters that are charged with each new pipe and by how much one grows, and refunded each pipe that goes and by how
/// much one shrinks, are the sums over the namespace's pipes: of the capacities of those that a user owns, and of all.
pub fn counters_are_sums()
    ensures { CountersAreSums }
{}
