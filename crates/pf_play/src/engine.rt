ghost use Rattle.std.specs.Prelude.{false, ◌≡◌, ◌+◌, ◌<◌, ◌≤◌, ◌⊎◌, ◌++◌, ℕ, List, [], ◌∷◌, length, map, take, slice_get, Option, Some, None, IfOk};
ghost use Rattle.std.specs.Prelude.{not, nat_eq, slice_index_or, if◌then◌else◌};
ghost use Rattle.std.specs.List.{All, list_any};
ghost use Rattle.std.specs.Vec.{vec_capacity};
ghost use Rattle.std.specs.declared.alloc.Global.{Global};
ghost use Rattle.std.specs.declared.vec.Vec.{Vec};
ghost use Rattle.linked_list_allocator.specs.Region.{block_size};
ghost use Rattle.pf_script.specs.declared.line.Line.TheVariants as lines;
ghost use Rattle.pf_script.specs.declared.told.Told.{Told};
ghost use Rattle.pf_base.specs.Limits.{Limits};
ghost use Rattle.pf_machine.specs.Houses.{House, Stepping, Admitting, Retiring};
ghost use Rattle.pf_machine.specs.Numbered.{at};
ghost use Rattle.pf_hub.specs.Opening.{new_hub, new_allocators, limits_of, allocators_of, first_fault};
ghost use Rattle.pf_hub.specs.Tenants.{house_of};
ghost use Rattle.pf_script.specs.Places.{lines_of};
ghost use Rattle.pf_script.specs.Sound.{given};
ghost use Rattle.pf_play.specs.Answered.{IsRun, HaveRoom};
ghost use Rattle.pf_play.specs.Filled.{AreFilled};
ghost use Rattle.pf_play.specs.Houses.{said_of, lone_limits, opening_limits};
ghost use Rattle.pf_play.specs.Numbers.{IsNamed, Follows, numbers_from};
ghost use Rattle.pf_play.specs.Played.{IsChosen, comes_and_goes, is_step};
ghost use Rattle.pf_play.specs.Plays.{nomem_of};
ghost use Rattle.pf_play.specs.Trees.{AreTheirs, HasTold};

use crate::answered::Answered;
use crate::trees::{Ended, Played, TreeHeap, allocators, in_global, in_heaps};
use linked_list_allocator::Heap;
use pf_base::{Config, EventAnswer, RetireFault, Step};
use pf_frame::{Frame, PoolFault};
use pf_hub::Hub;
use pf_script::{Line, Script, Told};
use std::alloc::{AllocError, Allocator, Global};

/// The fewest bytes that the command line takes for a heap of a namespace's files.
pub const LEAST_TREE_HEAP: u32 = 1_024;

/// The most bytes that it takes for one.
pub const MOST_TREE_HEAP: u32 = 16_777_216;

/// How a script is run.
#[derive(Debug, Clone, Copy)]
pub struct Options<'a> {
    /// The name of the one namespace whose lines are run and whose section is written; all of them where it is `None`.
    pub only: Option<&'a str>,
    /// How many bytes each namespace has for its files, directories and names, in a heap of its own: any number, though
    /// the command line takes those from `LEAST_TREE_HEAP` to `MOST_TREE_HEAP` alone. Where it is `None`, the files
    /// stand in the global allocator's memory. Where a heap is full, a step that makes a file is told of want of
    /// memory, and no other namespace is touched by that.
    pub tree_heap: Option<u32>,
    /// The byte that every frame holds at the start. No text depends on it.
    pub fill: u8,
}

/// So many frames that hold this byte throughout.
pub fn frames_of(alloc: Global, count: u32, fill: u8) -> Result<Vec<Frame>, AllocError>
    ensures count { IfOk result (λ frames. length frames.items ≡ count) }
    ensures filled { IfOk result (λ frames. AreFilled fill frames.items) }
{
    let mut frames = Vec::with_capacity(alloc, count as usize)?;
    for _ in 0..count {
        frames.push_reserved(Frame::filled(alloc, fill)?);
    }
    Ok(frames)
}

/// A heap of this many bytes, up to the next multiple of sixteen.
fn heap_of(alloc: Global, bytes: u32) -> Result<TreeHeap, AllocError>
    ensures { IfOk result (λ heap. heap.bytes ≡ block_size bytes) }
{
    Ok(TreeHeap::of(Heap::new(alloc, bytes as usize)?))
}

/// So many heaps of this many bytes each.
fn heaps_of(alloc: Global, count: usize, bytes: u32) -> Result<Vec<TreeHeap>, AllocError>
    ensures count { IfOk result (λ heaps. length heaps.items ≡ count) }
    ensures bytes { IfOk result (λ heaps. All (λ heap. heap.bytes ≡ block_size bytes) heaps.items) }
{
    let mut heaps = Vec::with_capacity(alloc, count)?;
    for _ in 0..count {
        heaps.push_reserved(heap_of(alloc, bytes)?);
    }
    Ok(heaps)
}

/// Limits, each with the allocator for its namespace's files: the one at its place.
pub fn with_trees<A: Copy>(
    alloc: Global,
    limits: &[Config],
    trees: &[A],
) -> Result<Vec<(Config, A)>, AllocError>
    requires { length limits.now ≤ length trees.now }
    ensures limits { IfOk result (λ configs. limits_of configs.items ≡ limits.now) }
    ensures trees { IfOk result (λ configs. allocators_of configs.items ≡ take (length limits.now) trees.now) }
{
    let mut configs = Vec::with_capacity(alloc, limits.len())?;
    for place in 0..limits.len() {
        configs.push_reserved((limits[place], trees[place]));
    }
    Ok(configs)
}

/// A hub of these limits over these frames, which are enough for them: nothing but want of memory stops it.
fn hub_of<A: Allocator + Clone>(
    alloc: Global,
    configs: Vec<(Config, A)>,
    frames: Vec<Frame>,
) -> Result<Hub<A>, AllocError>
    requires { first_fault (length frames.items) (limits_of configs.items) ≡ None }
    ensures opened { IfOk result
        (λ hub. hub.world ≡ new_hub (limits_of configs.items) (length frames.items)) }
    ensures allocators { IfOk result (λ hub. hub.allocators ≡ new_allocators configs.items) }
{
    match Hub::new(alloc, frames, configs) {
        Ok(hub) => Ok(hub),
        Err(PoolFault::NoMemory) => Err(AllocError),
        Err(_) => unreachable!(),
    }
}

/// The numbers that a hub gives to those that it opens with, and room for those of all names.
fn first_numbers(alloc: Global, opening: usize, most: usize) -> Result<Vec<Option<u32>>, AllocError>
    requires within { opening ≤ most }
    requires few { most ≤ 64 }
    ensures numbers { IfOk result (λ numbers. numbers.items ≡ numbers_from 0 opening) }
    ensures room { IfOk result (λ numbers. most ≤ vec_capacity numbers) }
{
    let mut numbers = Vec::with_capacity(alloc, most)?;
    for number in 0..opening {
        numbers.push_reserved(Some(number as u32));
    }
    Ok(numbers)
}

/// The number that the name at this place has, if it has one.
fn number_of(numbers: &[Option<u32>], place: u32) -> Option<u32>
    ensures { result ≡ at numbers.now place }
{
    match numbers.get(place as usize) {
        Some(number) => *number,
        None => None,
    }
}

/// A step of the namespace with this number, if one lives.
fn step_if_living<A: Allocator + Clone>(hub: &mut Hub<A>, number: Option<u32>, step: &Step) -> Told
    ensures follows { (names : List (Option ℕ)) (named : House) (place : ℕ) →
        IsNamed names (house_of hub.old.world) named → at names place ≡ number →
        Follows names (house_of hub.new.world) named (Stepping place step.now) result }
    ensures allocators { hub.new.allocators ≡ hub.old.allocators }
    ensures trees { (trees : List A) (names : List (Option ℕ)) →
        AreTheirs trees names hub.old → AreTheirs trees names hub.new }
{
    match number {
        Some(ns) if hub.lives(ns) => Told::new(EventAnswer::Answer(hub.step(ns, step))),
        _ => Told::new(EventAnswer::Gone),
    }
}

/// Retires the namespace with this number, if one lives.
fn retire<A: Allocator + Clone>(hub: &mut Hub<A>, number: Option<u32>) -> EventAnswer
    ensures follows { (names : List (Option ℕ)) (named : House) (place : ℕ) →
        IsNamed names (house_of hub.old.world) named → at names place ≡ number →
        Follows names (house_of hub.new.world) named (Retiring place) result }
    ensures trees { (trees : List A) (names : List (Option ℕ)) →
        AreTheirs trees names hub.old → AreTheirs trees names hub.new }
{
    let Some(ns) = number else {
        return EventAnswer::NotRetired(RetireFault::NoSuchNamespace);
    };
    match hub.retire(ns) {
        Ok(()) => EventAnswer::Retired,
        Err(fault) => EventAnswer::NotRetired(fault),
    }
}

/// Admits the namespace of the next name, and keeps the number that the hub gives it. A name that isn't admitted keeps its
/// place among the names, without a number.
fn admit<A: Allocator + Clone>(
    hub: &mut Hub<A>,
    numbers: &mut Vec<Option<u32>>,
    config: Config,
    tree: A,
) -> EventAnswer
    requires room { length numbers.old.items < vec_capacity numbers.old }
    requires few { length numbers.old.items < 64 }
    ensures follows { (named : House) → IsNamed numbers.old.items (house_of hub.old.world) named →
        Follows numbers.new.items (house_of hub.new.world) named (Admitting config) result }
    ensures number { length numbers.new.items ≡ length numbers.old.items + 1 }
    ensures room { vec_capacity numbers.new ≡ vec_capacity numbers.old }
    ensures tree { (hub.new.allocators ≡ hub.old.allocators ++ Some tree ∷ []) ⊎ (hub.new.allocators ≡ hub.old.allocators) }
    ensures trees { (trees : List A) → AreTheirs trees numbers.old.items hub.old →
        slice_get trees (length numbers.old.items) ≡ Some tree → AreTheirs trees numbers.new.items hub.new }
{
    let place = numbers.len() as u32;
    match hub.admit(config, tree) {
        Ok(number) => {
            numbers.push_reserved(Some(number));
            EventAnswer::Admitted(place)
        }
        Err(fault) => {
            numbers.push_reserved(None);
            EventAnswer::NotAdmitted(fault)
        }
    }
}

/// Does what a line of the script says. `ns` is its name's place in the script, and `place` among the names that are run;
/// `tree` is the name's allocator.
#[inline(always)]
fn tell<A: Allocator + Clone>(
    hub: &mut Hub<A>,
    numbers: &mut Vec<Option<u32>>,
    script: &Script,
    ns: u32,
    place: u32,
    line: &Line,
    tree: A,
) -> Told
    requires exists { ns < length script.now.spaces }
    requires room { given (length numbers.old.items) line.now ≤ vec_capacity numbers.old }
    requires few { given (length numbers.old.items) line.now ≤ 64 }
    ensures follows { (limits : Limits) (named : House) →
        slice_get (map (λ s. s.1) script.now.spaces) ns ≡ Some limits →
        IsNamed numbers.old.items (house_of hub.old.world) named →
        Follows numbers.new.items (house_of hub.new.world) named (said_of limits place line.now) result }
    ensures number { length numbers.new.items ≡ given (length numbers.old.items) line.now }
    ensures room { vec_capacity numbers.new ≡ vec_capacity numbers.old }
    ensures trees { (trees : List A) → AreTheirs trees numbers.old.items hub.old →
        (line.now ≡ lines.Admit → slice_get trees (length numbers.old.items) ≡ Some tree) →
        AreTheirs trees numbers.new.items hub.new }
{
    match line {
        Line::Step(step) => step_if_living(hub, number_of(numbers, place), step),
        Line::Admit => Told::new(admit(hub, numbers, script.config(ns as usize), tree)),
        Line::Retire => Told::new(retire(hub, number_of(numbers, place))),
    }
}

/// Room for the answers to the lines of each name.
fn no_answers(alloc: Global, script: &Script) -> Result<Vec<Vec<Told>>, AllocError>
    ensures many { IfOk result (λ own. length own.items ≡ length script.now.spaces) }
    ensures none { IfOk result (λ own. All (λ v. v.items ≡ []) own.items) }
    ensures room { IfOk result (λ own. HaveRoom script.now own.items) }
{
    let mut own = Vec::with_capacity(alloc, script.count_spaces())?;
    for ns in 0..script.count_spaces() {
        own.push_reserved(Vec::with_capacity(alloc, script.places(ns).len())?);
    }
    Ok(own)
}

/// Puts an answer behind those to the lines of the name at this place, where there is room.
fn keep(own: &mut Vec<Vec<Told>>, ns: usize, answer: Told)
    requires exists { ns < length own.old.items }
    requires room { (d : Vec Told Global) →
        length (slice_index_or own.old.items ns d).items < vec_capacity (slice_index_or own.old.items ns d) }
    ensures many { length own.new.items ≡ length own.old.items }
    ensures kept { (n : ℕ) (d : Vec Told Global) → n < length own.old.items →
        (slice_index_or own.new.items n d).items ≡ (if nat_eq ns n
        then (slice_index_or own.old.items n d).items ++ answer ∷ []
        else (slice_index_or own.old.items n d).items) }
    ensures room { (n : ℕ) (d : Vec Told Global) → n < length own.old.items →
        vec_capacity (slice_index_or own.new.items n d) ≡ vec_capacity (slice_index_or own.old.items n d) }
{
    own[ns].push_reserved(answer);
}

/// What the hub of all names opens with: the limits of the space lines, each with the allocator at its place.
fn first_configs<A: Allocator + Copy>(
    alloc: Global,
    script: &Script,
    trees: &[A],
) -> Result<Vec<(Config, A)>, AllocError>
    requires { length trees.now ≡ length script.now.spaces }
    ensures limits { IfOk result (λ configs. limits_of configs.items ≡ opening_limits script.now) }
    ensures own { IfOk result (λ configs. (n : ℕ) (tree : A) →
        slice_get (allocators_of configs.items) n ≡ Some tree → slice_get trees.now n ≡ Some tree) }
    ensures fits { IfOk result (λ configs. first_fault script.now.frames (limits_of configs.items) ≡ None) }
{
    let limits = script.configs(alloc)?;
    with_trees(alloc, limits.as_slice(), trees)
}

/// The hub of all names over these frames, as it opens.
fn first_hub<A: Allocator + Copy>(
    alloc: Global,
    script: &Script,
    trees: &[A],
    frames: Vec<Frame>,
) -> Result<Hub<A>, AllocError>
    requires frames { length frames.items ≡ script.now.frames }
    requires trees { length trees.now ≡ length script.now.spaces }
    ensures opened { IfOk result (λ hub. hub.world ≡ new_hub (opening_limits script.now) script.now.frames) }
    ensures theirs { IfOk result (λ hub. AreTheirs trees.now (numbers_from 0 (length (opening_limits script.now))) hub) }
{
    let configs = first_configs(alloc, script, trees)?;
    hub_of(alloc, configs, frames)
}

/// Runs all of a script's lines on a hub as it opens, and puts each answer with those to its name's lines.
#[inline(always)]
fn play_lines<A: Allocator + Copy>(
    script: &Script,
    trees: &[A],
    hub: &mut Hub<A>,
    numbers: &mut Vec<Option<u32>>,
    own: &mut Vec<Vec<Told>>,
)
    requires few { length script.now.spaces ≤ 64 }
    requires opening { script.now.opening ≤ length script.now.spaces }
    requires trees { length trees.now ≡ length script.now.spaces }
    requires opened { hub.old.world ≡ new_hub (opening_limits script.now) script.now.frames }
    requires numbers { numbers.old.items ≡ numbers_from 0 (length (opening_limits script.now)) }
    requires names { length script.now.spaces ≤ vec_capacity numbers.old }
    requires many { length own.old.items ≡ length script.now.spaces }
    requires none { All (λ v. v.items ≡ []) own.old.items }
    requires room { HaveRoom script.now own.old.items }
    requires theirs { AreTheirs trees.now numbers.old.items hub.old }
    ensures run { IsRun script.now None (Answered.All own.new) }
    ensures told { HasTold script.now None (Answered.All own.new) numbers.new.items (house_of hub.new.world) }
    ensures theirs { AreTheirs trees.now numbers.new.items hub.new }
{
    let lines = script.steps();
    for event in lines {
        let ns = event.0;
        let tree = trees[ns as usize];
        let answer = tell(hub, numbers, script, ns, ns, &event.1, tree);
        keep(own, ns as usize, answer);
    }
}

/// Runs all of a script's lines over these frames, whatever they hold. Each namespace's files stand in memory of the
/// allocator at its place.
fn play_all<A: Allocator + Copy>(
    alloc: Global,
    script: &Script,
    trees: &[A],
    frames: Vec<Frame>,
) -> Result<Ended<A>, AllocError>
    requires frames { length frames.items ≡ script.now.frames }
    requires trees { length trees.now ≡ length script.now.spaces }
    ensures run { IfOk result (λ ended. IsRun script.now None ended.answered) }
    ensures told { IfOk result (λ ended. HasTold script.now None ended.answered ended.numbers.items
        (house_of ended.hub.world)) }
    ensures trees { IfOk result (λ ended. AreTheirs trees.now ended.numbers.items ended.hub) }
{
    let mut numbers = first_numbers(alloc, script.opening(), script.count_spaces())?;
    let mut own = no_answers(alloc, script)?;
    let mut hub = first_hub(alloc, script, trees, frames)?;
    play_lines(script, trees, &mut hub, &mut numbers, &mut own);
    let answered = Answered::All(own);
    Ok(Ended {
        hub,
        numbers,
        answered,
    })
}

/// Runs all of a script's lines, with all files in the global allocator's memory.
fn play_all_in_global(
    alloc: Global,
    script: &Script,
    frames: Vec<Frame>,
) -> Result<Played, AllocError>
    requires { length frames.items ≡ script.now.frames }
    ensures run { IfOk result (λ played. IsRun script.now None played.answered) }
    ensures heaps { IfOk result (λ played. played.heaps ≡ None) }
{
    let trees = Vec::from_elem(alloc, alloc, script.count_spaces())?;
    let ended = play_all(alloc, script, trees.as_slice(), frames)?;
    Ok(in_global(ended))
}

/// Runs all of a script's lines, with the files of each name in a heap of its own, of this many bytes.
fn play_all_in_heaps(
    alloc: Global,
    script: &Script,
    bytes: u32,
    frames: Vec<Frame>,
) -> Result<Played, AllocError>
    requires { length frames.items ≡ script.now.frames }
    ensures run { IfOk result (λ played. IsRun script.now None played.answered) }
    ensures heaps { IfOk result (λ played. played.heaps ≡ Some bytes) }
{
    let heaps = heaps_of(alloc, script.count_spaces(), bytes)?;
    let trees = allocators(alloc, heaps.as_slice())?;
    let ended = play_all(alloc, script, trees.as_slice(), frames)?;
    Ok(in_heaps(ended, trees.as_slice(), heaps.as_slice(), bytes))
}

/// What the hub of one name alone opens with, over all of the script's frames: the name is there from the start where it
/// has a space line.
fn lone_configs<A: Allocator + Copy>(
    alloc: Global,
    script: &Script,
    ns: u32,
    tree: A,
) -> Result<Vec<(Config, A)>, AllocError>
    requires { ns < length script.now.spaces }
    ensures limits { IfOk result (λ configs. limits_of configs.items ≡ lone_limits script.now ns) }
    ensures allocators { IfOk result (λ configs. allocators_of configs.items ≡ map (λ _. tree) (limits_of configs.items)) }
    ensures fits { IfOk result (λ configs. first_fault script.now.frames (limits_of configs.items) ≡ None) }
    ensures few { IfOk result (λ configs. length configs.items ≤ 1) }
{
    let config = script.config(ns as usize);
    let opening = script.opening();
    let mut configs = Vec::with_capacity(alloc, 1)?;
    if (ns as usize) < opening {
        configs.push_reserved((config, tree));
        Ok(configs)
    } else {
        Ok(configs)
    }
}

/// The hub of one name alone over these frames, as it opens.
fn lone_hub<A: Allocator + Copy>(
    alloc: Global,
    script: &Script,
    ns: u32,
    trees: &[A],
    frames: Vec<Frame>,
) -> Result<Hub<A>, AllocError>
    requires frames { length frames.items ≡ script.now.frames }
    requires exists { ns < length script.now.spaces }
    requires one { length trees.now ≡ 1 }
    ensures opened { IfOk result (λ hub. hub.world ≡ new_hub (lone_limits script.now ns) script.now.frames) }
    ensures theirs { IfOk result (λ hub. AreTheirs trees.now (numbers_from 0 (length (lone_limits script.now ns))) hub) }
    ensures few { length (lone_limits script.now ns) ≤ 1 }
{
    let configs = lone_configs(alloc, script, ns, trees[0])?;
    hub_of(alloc, configs, frames)
}

/// Runs the lines of one name alone on a hub as it opens for it, and puts each answer behind those before it.
#[inline(always)]
fn play_lines_alone<A: Allocator + Copy>(
    script: &Script,
    ns: u32,
    trees: &[A],
    hub: &mut Hub<A>,
    numbers: &mut Vec<Option<u32>>,
    answers: &mut Vec<Told>,
)
    requires exists { ns < length script.now.spaces }
    requires one { length trees.now ≡ 1 }
    requires opened { hub.old.world ≡ new_hub (lone_limits script.now ns) script.now.frames }
    requires numbers { numbers.old.items ≡ numbers_from 0 (length (lone_limits script.now ns)) }
    requires names { 1 ≤ vec_capacity numbers.old }
    requires none { answers.old.items ≡ [] }
    requires room { length (lines_of script.now.steps ns) ≤ vec_capacity answers.old }
    requires theirs { AreTheirs trees.now numbers.old.items hub.old }
    ensures run { IsRun script.now (Some ns) (Answered.Alone ns answers.new) }
    ensures told { HasTold script.now (Some ns) (Answered.Alone ns answers.new) numbers.new.items
        (house_of hub.new.world) }
    ensures theirs { AreTheirs trees.now numbers.new.items hub.new }
{
    let tree = trees[0];
    let lines = script.steps();
    for event in lines {
        if event.0 == ns {
            let answer = tell(hub, numbers, script, ns, 0, &event.1, tree);
            answers.push_reserved(answer);
        }
    }
}

/// Runs the lines of one name alone over all of the script's frames, whatever they hold. Its files stand in memory of the
/// one allocator.
fn play_alone<A: Allocator + Copy>(
    alloc: Global,
    script: &Script,
    ns: u32,
    trees: &[A],
    frames: Vec<Frame>,
) -> Result<Ended<A>, AllocError>
    requires frames { length frames.items ≡ script.now.frames }
    requires exists { ns < length script.now.spaces }
    requires one { length trees.now ≡ 1 }
    ensures run { IfOk result (λ ended. IsRun script.now (Some ns) ended.answered) }
    ensures told { IfOk result (λ ended. HasTold script.now (Some ns) ended.answered ended.numbers.items
        (house_of ended.hub.world)) }
    ensures trees { IfOk result (λ ended. AreTheirs trees.now ended.numbers.items ended.hub) }
{
    let mut answers = Vec::with_capacity(alloc, script.places(ns as usize).len())?;
    let mut hub = lone_hub(alloc, script, ns, trees, frames)?;
    let Ok(mut numbers) = first_numbers(alloc, hub.namespaces(), 1) else {
        drop(hub);
        return Err(AllocError);
    };
    play_lines_alone(script, ns, trees, &mut hub, &mut numbers, &mut answers);
    let answered = Answered::Alone(ns, answers);
    Ok(Ended {
        hub,
        numbers,
        answered,
    })
}

/// Runs the lines of one name alone, with its files in the global allocator's memory.
fn play_alone_in_global(
    alloc: Global,
    script: &Script,
    ns: u32,
    frames: Vec<Frame>,
) -> Result<Played, AllocError>
    requires frames { length frames.items ≡ script.now.frames }
    requires exists { ns < length script.now.spaces }
    ensures run { IfOk result (λ played. IsRun script.now (Some ns) played.answered) }
    ensures heaps { IfOk result (λ played. played.heaps ≡ None) }
{
    let ended = play_alone(alloc, script, ns, &[alloc], frames)?;
    Ok(in_global(ended))
}

/// The same, with its files in a heap of this many bytes.
fn play_alone_in_heap(
    alloc: Global,
    script: &Script,
    ns: u32,
    bytes: u32,
    frames: Vec<Frame>,
) -> Result<Played, AllocError>
    requires frames { length frames.items ≡ script.now.frames }
    requires exists { ns < length script.now.spaces }
    ensures run { IfOk result (λ played. IsRun script.now (Some ns) played.answered) }
    ensures heaps { IfOk result (λ played. played.heaps ≡ Some bytes) }
{
    let heaps = [heap_of(alloc, bytes)?];
    let trees = [heaps[0].allocator()];
    let ended = play_alone(alloc, script, ns, &trees, frames)?;
    Ok(in_heaps(ended, &trees, &heaps, bytes))
}

/// Runs a script's lines over these frames, or those of one name alone: with the files of each namespace that is run
/// in a heap of its own, where its bytes are told, and else in the global allocator's memory.
pub fn play(
    alloc: Global,
    script: &Script,
    only: Option<u32>,
    tree_heap: Option<u32>,
    frames: Vec<Frame>,
) -> Result<Played, AllocError>
    requires frames { length frames.items ≡ script.now.frames }
    requires chosen { IsChosen script.now only }
    ensures run { IfOk result (λ played. IsRun script.now only played.answered) }
    ensures heaps { IfOk result (λ played. played.heaps ≡ tree_heap) }
{
    match (only, tree_heap) {
        (None, None) => play_all_in_global(alloc, script, frames),
        (None, Some(bytes)) => play_all_in_heaps(alloc, script, bytes, frames),
        (Some(ns), None) => play_alone_in_global(alloc, script, ns, frames),
        (Some(ns), Some(bytes)) => play_alone_in_heap(alloc, script, ns, bytes, frames),
    }
}

/// Whether a line of the script admits or retires a namespace.
pub fn comes_and_goes(script: &Script) -> bool
    ensures comes { result ≡ comes_and_goes script.now }
    ensures whole { result ≡ false → script.now.opening ≡ length script.now.spaces }
{
    let lines = script.steps();
    are_others(lines)
}

/// Whether one of these lines isn't a step.
fn are_others(lines: &[(u32, Line)]) -> bool
    ensures { result ≡ list_any (λ e. not (is_step e.1)) lines.now }
{
    lines.iter().any(|event| !matches!(event.1, Line::Step(_)))
}

/// How many of these answers say that memory was wanted.
pub fn count_nomem(answers: &[Told]) -> u64
    ensures { result ≡ nomem_of answers.now }
{
    let mut count: u64 = 0;
    for answer in answers {
        if answer.wants_memory() {
            count += 1;
        }
    }
    count
}
