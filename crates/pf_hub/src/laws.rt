//! Laws of what a hub promises. These functions compute nothing: their contracts are the laws.

ghost use Rattle.pf_hub.specs.Isolation.{TwoWorlds, MemoryMatters};

/// Two worlds: whatever the other namespaces do, a namespace that begins at its opening state with the same limits, and
/// makes the same steps, is told the same, if no step of its own met want of memory in either world.
pub fn two_worlds()
    ensures { TwoWorlds }
{}

/// Memory matters: where want of memory is not ruled out, two worlds are not always told the same.
pub fn memory_matters()
    ensures { MemoryMatters }
{}
