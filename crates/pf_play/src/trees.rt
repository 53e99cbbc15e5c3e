//! Heaps for the files of a script's names, and runs whose files stand in them. No function here takes memory for a
//! heap, so each is one that it was given.

ghost use Rattle.std.specs.Prelude.{◌≡◌, ℕ, map, Option, Some, None, IfOk};
ghost use Rattle.std.specs.List.{All};
ghost use Rattle.linked_list_allocator.specs.Heap.{heap_size};
ghost use Rattle.linked_list_allocator.specs.Region.{block_size};
ghost use Rattle.pf_hub.specs.Tenants.{house_of};
ghost use Rattle.pf_play.specs.Trees.{AreTheirs, HasTold};
ghost use Rattle.pf_script.specs.Script.{Draft};

use crate::answered::Answered;
use linked_list_allocator::{Heap, LocalHeap};
use pf_hub::Hub;
use std::alloc::{AllocError, Allocator, Global};

/// A heap for the files of one name.
#[derive(Drop)]
pub struct TreeHeap {
    heap: LocalHeap,
    bytes: usize,
}

impl TreeHeap {
    /// This heap, to be lent.
    pub fn of(heap: Heap) -> TreeHeap
        ensures { result.bytes ≡ heap_size heap }
    {
        let bytes = heap.size();
        TreeHeap {
            heap: LocalHeap::from(heap),
            bytes,
        }
    }

    /// It as an allocator.
    pub fn allocator(&self) -> &LocalHeap
        ensures { result.now ≡ self.now.heap }
    {
        &self.heap
    }
}

/// These heaps as allocators, each at its place.
pub fn allocators(alloc: Global, heaps: &[TreeHeap]) -> Result<Vec<&LocalHeap>, AllocError>
    ensures { IfOk result (λ trees. map (λ t. t.now) trees.items ≡ map (λ h. h.heap) heaps.now) }
{
    let mut trees = Vec::with_capacity(alloc, heaps.len())?;
    for place in 0..heaps.len() {
        trees.push_reserved(heaps[place].allocator());
    }
    Ok(trees)
}

/// A run at its end: its answers, the hub that told them, and the number that each name has there.
#[derive(Drop)]
pub struct Ended<A: Allocator> {
    pub hub: Hub<A>,
    pub numbers: Vec<Option<u32>>,
    pub answered: Answered,
}

/// The answers of a run, whose hub is gone.
#[derive(Drop)]
pub struct Played {
    pub answered: Answered,
    // How many bytes the heap of each name had; nothing where all files stood in the global allocator's memory.
    heaps: Option<u32>,
}

/// A run with all files in the global allocator's memory.
pub fn in_global(ended: Ended<Global>) -> Played
    requires { (script : Draft) × (only : Option ℕ)
        × HasTold script only ended.answered ended.numbers.items (house_of ended.hub.world) }
    ensures answered { result.answered ≡ ended.answered }
    ensures heaps { result.heaps ≡ None }
{
    let Ended {
        answered,
        hub: _hub,
        numbers: _numbers,
    } = ended;
    Played {
        answered,
        heaps: None,
    }
}

/// A run with the files of each name in the heap at its place, of so many bytes.
pub fn in_heaps<'a>(
    ended: Ended<&'a LocalHeap>,
    trees: &[&'a LocalHeap],
    heaps: &'a [TreeHeap],
    bytes: u32,
) -> Played
    requires told { (script : Draft) × (only : Option ℕ)
        × HasTold script only ended.answered ended.numbers.items (house_of ended.hub.world) }
    requires theirs { AreTheirs trees.now ended.numbers.items ended.hub }
    requires own { map (λ t. t.now) trees.now ≡ map (λ h. h.heap) heaps.now }
    requires bytes { All (λ h. h.bytes ≡ block_size bytes) heaps.now }
    ensures answered { result.answered ≡ ended.entry.answered }
    ensures heaps { result.heaps ≡ Some bytes }
{
    let _ = trees;
    let _ = heaps;
    let Ended {
        answered,
        hub: _hub,
        numbers: _numbers,
    } = ended;
    Played {
        answered,
        heaps: Some(bytes),
    }
}
