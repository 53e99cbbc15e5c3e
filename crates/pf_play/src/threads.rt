//! A script's namespaces on threads of their own, over a depot that they share.

ghost use Rattle.std.specs.Prelude.{◌≡◌, ◌≤◌, ◌<◌, ℕ, false, [], ◌∷◌, ◌++◌, length, map, slice_index_or, Some, None, Ok, IfOk, IsOk};
ghost use Rattle.std.specs.List.{All};
ghost use Rattle.std.specs.declared.alloc.Global.{Global};
ghost use Rattle.std.specs.declared.vec.Vec.{Vec};
ghost use Rattle.pf_base.specs.declared.TheConstants.{MAX_FRAMES};
ghost use Rattle.pf_depot.specs.AllLoans.{reserved_of};
ghost use Rattle.pf_depot.specs.Blanks.{IsBlankOf};
ghost use Rattle.pf_hub.specs.Opening.{limits_of, first_fault};
ghost use Rattle.pf_play.specs.Answered.{IsRun};
ghost use Rattle.pf_play.specs.Played.{IsChosen, comes_and_goes};
ghost use Rattle.pf_play.specs.Workers.{IsOpened, IsPassed, IsPassedFor, IsRunFramed, IsWorked, AreWorked};
ghost use Rattle.pf_play.specs.Workers.{AreToldAlone};
ghost use Rattle.pf_script.specs.declared.told.Told.{Told};
ghost use Rattle.pf_worker.specs.Workers.{new_worker, new_workers};

use crate::answered::Answered;
use crate::turns::{Turns, TurnsOf};
use pf_base::{Config, EventAnswer, MAX_NAMESPACES};
use pf_depot::{Allotment, DepotBook};
use pf_frame::{Frame, PoolFault};
use pf_script::{Line, Script, Told};
use pf_worker::{Gate, Worker, open};
use std::alloc::{AllocError, Global};
use std::marker::Brand;
use std::sync::ledger::{Blank, Ledger};
use std::sync::{Mutex, Wait};
use std::thread;
use std::thread::{Promise, PromisedHandle, Scope, Threads};

/// Makes the steps of a worker's namespace in turn: the gate is told of each once the one before was answered, and of each
/// frame that they take. No lock is held meanwhile but the depot's, for one frame at a time.
fn make_steps<R: Wait, T: Turns, C: Ledger, H: Ledger>(
    rt: &R,
    alloc: Global,
    script: &Script,
    book: &Mutex<DepotBook<C, H>>,
    turns: &T,
    worker: &mut Worker<Global, C, H>,
) -> Result<Vec<Told>, AllocError>
    requires { IsOpened script.now worker.old }
    ensures { IfOk result (λ answers. IsWorked (T.passed turns.now) (T.framed turns.now)
        script.now worker.old.number answers.items) }
{
    let ns = worker.number();
    let steps = script.steps();
    let places = script.places(ns as usize);
    let mut answers = Vec::with_capacity(alloc, places.len())?;
    for at in places {
        let place = answers.len() as u64;
        turns.pass(ns, place);
        let Line::Step(step) = &steps[*at as usize].1 else {
            unreachable!()
        };
        let answer = turns.step(rt, book, place, worker, step);
        answers.push_reserved(Told::new(EventAnswer::Answer(answer)));
    }
    Ok(answers)
}

/// The same, after which the worker is let go.
fn work<R: Wait, G: Gate, C: Ledger, H: Ledger>(
    rt: &R,
    alloc: Global,
    script: &Script,
    book: &Mutex<DepotBook<C, H>>,
    gate: &G,
    worker: Worker<Global, C, H>,
) -> Result<Vec<Told>, AllocError>
    requires { IsOpened script.now worker }
    ensures { IfOk result (λ answers. IsWorked (G.passed gate.now) (G.framed gate.now)
        script.now worker.number answers.items) }
{
    let mut worker = worker;
    let turns = TurnsOf { gate };
    make_steps(rt, alloc, script, book, &turns, &mut worker)
}

/// What a thread ends with.
type Ended = Result<Vec<Told>, AllocError>;

/// What a thread promises: its namespace is told what the lone machine is, and the gate was told of each of its steps.
#[derive(Clone, Copy)]
struct PlaysAlone<'a, G: Gate> {
    script: &'a Script,
    gate: &'a G,
    ns: u32,
}

impl<'a, G: Gate> Promise<Ended> for PlaysAlone<'a, G> {
    ghost use Rattle.std.specs.Prelude.{IfOk};
    ghost use Rattle.pf_play.specs.Workers.{IsWorked};

    ghost kept_by = { λ p r. IfOk r (λ answers. IsWorked (G.passed p.gate.now) (G.framed p.gate.now)
        p.script.now p.ns answers.items) };
}

/// Starts a thread of this scope for a worker.
fn start<
    's,
    E,
    R: Threads + Wait + Sync,
    G: Gate + Sync,
    C: Ledger + Send + Sync,
    H: Ledger + Send + Sync,
>(
    rt: &'s R,
    alloc: Global,
    scope: &Scope<'s, E>,
    script: &'s Script,
    book: &'s Mutex<DepotBook<C, H>>,
    gate: &'s G,
    worker: Worker<Global, C, H>,
) -> Result<PromisedHandle<Ended, PlaysAlone<'s, G>>, AllocError>
    requires { IsOpened script.now worker }
    ensures { IfOk result (λ h. (h.promise.script.now ≡ script.entry.now) × (h.promise.gate.now ≡ gate.entry.now)
        × (h.promise.ns ≡ worker.number)) }
{
    let ns = worker.number();
    let child = scope.spawn_with(
        PlaysAlone { script, gate, ns },
        move || -> Ended
            requires { IsOpened script.now worker }
            ensures { IfOk result (λ answers. IsWorked (G.passed gate.entry.now) (G.framed gate.entry.now)
                script.entry.now worker.number answers.items) }
        { work(rt, alloc, script, book, gate, worker) },
    )?;
    Ok(child)
}

/// The answers of the workers so far, and then those of the next, where all of them came to their ends.
fn joined(
    before: Result<Vec<Vec<Told>>, AllocError>,
    last: Ended,
) -> Result<Vec<Vec<Told>>, AllocError>
    ensures { IfOk result (λ own. (front : Vec (Vec Told Global) Global) × (answers : Vec Told Global)
        × (before ≡ Ok front) × (last ≡ Ok answers) × (own.items ≡ front.items ++ answers ∷ [])) }
{
    let mut own = before?;
    own.push(last?)?;
    Ok(own)
}

/// Runs each worker on a thread of its own: all are started before one is waited for. Where one can't be started, the
/// others are waited for all the same.
fn work_each<
    's,
    E,
    R: Threads + Wait + Sync,
    G: Gate + Sync,
    C: Ledger + Send + Sync,
    H: Ledger + Send + Sync,
>(
    rt: &'s R,
    alloc: Global,
    scope: &Scope<'s, E>,
    script: &'s Script,
    book: &'s Mutex<DepotBook<C, H>>,
    gate: &'s G,
    workers: Vec<Worker<Global, C, H>>,
) -> Result<Vec<Vec<Told>>, AllocError>
    requires { All (IsOpened script.now) workers.items }
    ensures { IfOk result (λ own. AreWorked (G.passed gate.now) (G.framed gate.now)
        script.now workers.items (map (λ v. v.items) own.items)) }
{
    let mut workers = workers;
    let Some(worker) = workers.pop() else {
        drop(workers);
        return Ok(Vec::new(alloc));
    };
    let Ok(child) = start(rt, alloc, scope, script, book, gate, worker) else {
        drop(workers);
        return Err(AllocError);
    };
    let before = work_each(rt, alloc, scope, script, book, gate, workers);
    let last = child.join(rt);
    joined(before, last)
}

/// Runs each worker on a thread of its own, and waits for all.
fn work_all<
    R: Threads + Wait + Sync,
    G: Gate + Sync,
    C: Ledger + Send + Sync,
    H: Ledger + Send + Sync,
>(
    rt: &R,
    alloc: Global,
    script: &Script,
    book: &Mutex<DepotBook<C, H>>,
    gate: &G,
    workers: Vec<Worker<Global, C, H>>,
) -> Result<Vec<Vec<Told>>, AllocError>
    requires { All (IsOpened script.now) workers.items }
    ensures { IfOk result (λ own. AreWorked (G.passed gate.now) (G.framed gate.now)
        script.now workers.items (map (λ v. v.items) own.items)) }
{
    thread::scope(
        thread::scope_env(),
        rt,
        |scope| -> Result<Vec<Vec<Told>>, AllocError>
            requires { All (IsOpened script.now) workers.items }
            ensures { IfOk result (λ own. AreWorked (G.passed gate.entry.now) (G.framed gate.entry.now)
                script.entry.now workers.items (map (λ v. v.items) own.items)) }
        { work_each(rt, alloc, scope, script, book, gate, workers) },
    )
}

/// The same over a depot that is let go behind them.
fn work_over<
    R: Threads + Wait + Sync,
    G: Gate + Sync,
    C: Ledger + Send + Sync,
    H: Ledger + Send + Sync,
>(
    rt: &R,
    alloc: Global,
    script: &Script,
    book: DepotBook<C, H>,
    gate: &G,
    workers: Vec<Worker<Global, C, H>>,
) -> Result<Vec<Vec<Told>>, AllocError>
    requires { All (IsOpened script.now) workers.items }
    ensures { IfOk result (λ own. AreWorked (G.passed gate.now) (G.framed gate.now)
        script.now workers.items (map (λ v. v.items) own.items)) }
{
    let book = Mutex::new(book);
    work_all(rt, alloc, script, &book, gate, workers)
}

/// The answers of all namespaces, of each its own.
fn all_of(script: &Script, own: Vec<Vec<Told>>) -> Answered
    requires only { comes_and_goes script.now ≡ false }
    requires number { length own.items ≡ length script.now.spaces }
    requires alone { (n : ℕ) → n < length script.now.spaces
        → AreToldAlone script.now n (slice_index_or (map (λ v. v.items) own.items) n []) }
    ensures run { IsRun script.now None result }
    ensures all { result ≡ Answered.All own }
{
    // The namespace of each step is one of these.
    let _steps = script.steps();
    Answered::All(own)
}

/// Limits, each with an allocator for its namespace's files: the global one.
fn with_allocators(alloc: Global, limits: &[Config]) -> Result<Vec<(Config, Global)>, AllocError>
    ensures { IfOk result (λ configs. configs.items ≡ map (λ l. (l, alloc)) limits.now) }
{
    limits.iter().map(|config| (*config, alloc)).collect(alloc)
}

/// The limits of all of a script's namespaces, each with an allocator for its files.
fn all_configs(alloc: Global, script: &Script) -> Result<Vec<(Config, Global)>, AllocError>
    requires { script.now.opening ≡ length script.now.spaces }
    ensures configs { IfOk result
        (λ configs. configs.items ≡ map (λ l. (l, alloc)) (map (λ s. s.1) script.now.spaces)) }
    ensures fits { IfOk result (λ configs. first_fault script.now.frames (limits_of configs.items) ≡ None) }
{
    let limits = script.configs(alloc)?;
    with_allocators(alloc, limits.as_slice())
}

/// The depot over these frames, which are enough, and the workers of all of a script's namespaces.
fn all_workers<C: Ledger, H: Ledger>(
    alloc: Global,
    script: &Script,
    frames: Vec<Frame>,
    credits: Blank,
    held: Blank,
) -> Result<(DepotBook<C, H>, Vec<Worker<Global, C, H>>), AllocError>
    requires blanks { IsBlankOf C.name C.parts credits × IsBlankOf H.name H.parts held }
    requires whole { script.now.opening ≡ length script.now.spaces }
    requires frames { length frames.items ≡ script.now.frames }
    ensures { IfOk result
        (λ made. made.1.items ≡ new_workers (map (λ l. (l, alloc)) (map (λ s. s.1) script.now.spaces))) }
{
    let configs = all_configs(alloc, script)?;
    match open::<Global, C, H>(alloc, frames, configs, credits, held) {
        Ok(opened) => Ok(opened),
        Err(PoolFault::NoMemory) => Err(AllocError),
        Err(_) => unreachable!(),
    }
}

/// Runs all of a script's steps, each namespace's on a thread of its own, over these frames, whatever they hold.
fn play_all<
    R: Threads + Wait + Sync,
    G: Gate + Sync,
    C: Ledger + Send + Sync,
    H: Ledger + Send + Sync,
>(
    rt: &R,
    alloc: Global,
    script: &Script,
    frames: Vec<Frame>,
    gate: &G,
    credits: Blank,
    held: Blank,
) -> Result<Answered, AllocError>
    requires blanks { IsBlankOf C.name C.parts credits × IsBlankOf H.name H.parts held }
    requires only { comes_and_goes script.now ≡ false }
    requires whole { script.now.opening ≡ length script.now.spaces }
    requires frames { length frames.items ≡ script.now.frames }
    ensures played { IfOk result (IsRun script.now None) }
    ensures passed { IsOk result → IsPassedFor (G.passed gate.now) script.now None }
    ensures framed { IfOk result (IsRunFramed (G.framed gate.now) script.now None) }
{
    let (book, workers) = all_workers::<C, H>(alloc, script, frames, credits, held)?;
    let own = work_over(rt, alloc, script, book, gate, workers)?;
    Ok(all_of(script, own))
}

/// A depot of these frames with one reservation, which they are enough for, and what its namespace begins with.
fn lone_book<C: Ledger, H: Ledger>(
    alloc: Global,
    reserve: u32,
    frames: Vec<Frame>,
    credits: Blank,
    held: Blank,
) -> Result<(DepotBook<C, H>, Vec<Allotment<C, H>>), AllocError>
    requires blanks { IsBlankOf C.name C.parts credits × IsBlankOf H.name H.parts held }
    requires small { length frames.items ≤ MAX_FRAMES }
    requires fits { reserve ≤ length frames.items }
    ensures { IfOk result (λ made. map (λ a. reserved_of a.loans) made.1.items ≡ reserve ∷ []) }
{
    let reserves = vec![in alloc; reserve]?;
    match DepotBook::open(alloc, frames, reserves, credits, held) {
        Ok(opened) => Ok(opened),
        Err(PoolFault::NoMemory) => Err(AllocError),
        Err(_) => unreachable!(),
    }
}

/// The worker of the one namespace that these are dealt to.
fn worker_of<C: Ledger, H: Ledger>(
    alloc: Global,
    ns: u32,
    config: Config,
    allotments: Vec<Allotment<C, H>>,
) -> Result<Worker<Global, C, H>, AllocError>
    requires { map (λ a. reserved_of a.loans) allotments.items ≡ config.reserve ∷ [] }
    ensures { IfOk result (λ worker. worker ≡ new_worker ns (config, alloc)) }
{
    let mut allotments = allotments;
    let allotment = allotments.pop().unwrap();
    Worker::new(alloc, ns, config, alloc, allotment)
}

/// The worker of one namespace alone over these frames, which are enough for it.
fn lone_worker<C: Ledger, H: Ledger>(
    alloc: Global,
    ns: u32,
    config: Config,
    frames: Vec<Frame>,
    credits: Blank,
    held: Blank,
) -> Result<(DepotBook<C, H>, Worker<Global, C, H>), AllocError>
    requires blanks { IsBlankOf C.name C.parts credits × IsBlankOf H.name H.parts held }
    requires small { length frames.items ≤ MAX_FRAMES }
    requires fits { config.reserve ≤ length frames.items }
    ensures { IfOk result (λ made. made.1 ≡ new_worker ns (config, alloc)) }
{
    let (book, allotments) = lone_book::<C, H>(alloc, config.reserve(), frames, credits, held)?;
    let worker = worker_of(alloc, ns, config, allotments)?;
    Ok((book, worker))
}

/// Runs the steps of one namespace alone, on a thread of its own, over all of the script's frames, whatever they hold.
fn play_alone<
    R: Threads + Wait + Sync,
    G: Gate + Sync,
    C: Ledger + Send + Sync,
    H: Ledger + Send + Sync,
>(
    rt: &R,
    alloc: Global,
    script: &Script,
    ns: u32,
    frames: Vec<Frame>,
    gate: &G,
    credits: Blank,
    held: Blank,
) -> Result<Answered, AllocError>
    requires blanks { IsBlankOf C.name C.parts credits × IsBlankOf H.name H.parts held }
    requires only { comes_and_goes script.now ≡ false }
    requires whole { script.now.opening ≡ length script.now.spaces }
    requires frames { length frames.items ≡ script.now.frames }
    requires exists { ns < length script.now.spaces }
    ensures played { IfOk result (IsRun script.now (Some ns)) }
    ensures passed { IsOk result → IsPassed (G.passed gate.now) script.now ns }
    ensures framed { IfOk result (IsRunFramed (G.framed gate.now) script.now (Some ns)) }
{
    let config = script.config(ns as usize);
    let (book, worker) = lone_worker::<C, H>(alloc, ns, config, frames, credits, held)?;
    let Ok(workers) = vec![in alloc; worker] else {
        drop(book);
        return Err(AllocError);
    };
    let mut own = work_over(rt, alloc, script, book, gate, workers)?;
    let answers = own.pop().unwrap();
    drop(own);
    Ok(Answered::Alone(ns, answers))
}

/// The same for all steps, or for those of one namespace that is chosen.
fn play_for<
    R: Threads + Wait + Sync,
    G: Gate + Sync,
    C: Ledger + Send + Sync,
    H: Ledger + Send + Sync,
>(
    rt: &R,
    alloc: Global,
    script: &Script,
    only: Option<u32>,
    frames: Vec<Frame>,
    gate: &G,
    credits: Blank,
    held: Blank,
) -> Result<Answered, AllocError>
    requires blanks { IsBlankOf C.name C.parts credits × IsBlankOf H.name H.parts held }
    requires only { comes_and_goes script.now ≡ false }
    requires whole { script.now.opening ≡ length script.now.spaces }
    requires frames { length frames.items ≡ script.now.frames }
    requires chosen { IsChosen script.now only }
    ensures played { IfOk result (IsRun script.now only) }
    ensures passed { IsOk result → IsPassedFor (G.passed gate.now) script.now only }
    ensures framed { IfOk result (IsRunFramed (G.framed gate.now) script.now only) }
{
    match only {
        None => play_all::<R, G, C, H>(rt, alloc, script, frames, gate, credits, held),
        Some(ns) => play_alone::<R, G, C, H>(rt, alloc, script, ns, frames, gate, credits, held),
    }
}

/// Runs the steps of a script in which no namespace comes or goes over these frames, or those of one namespace alone: each
/// namespace's on a thread of its own. A thread that can't be started counts as want of memory.
pub fn play_threads<R: Threads + Wait + Sync, G: Gate + Sync>(
    rt: &R,
    alloc: Global,
    script: &Script,
    only: Option<u32>,
    frames: Vec<Frame>,
    gate: &G,
) -> Result<Answered, AllocError>
    requires only { comes_and_goes script.now ≡ false }
    requires whole { script.now.opening ≡ length script.now.spaces }
    requires frames { length frames.items ≡ script.now.frames }
    requires chosen { IsChosen script.now only }
    ensures played { IfOk result (IsRun script.now only) }
    ensures passed { IsOk result → IsPassedFor (G.passed gate.now) script.now only }
    ensures framed { IfOk result (IsRunFramed (G.framed gate.now) script.now only) }
{
    let most = MAX_NAMESPACES as u64;
    play_for::<R, G, Brand, Brand>(
        rt,
        alloc,
        script,
        only,
        frames,
        gate,
        Blank::new(most),
        Blank::new(most),
    )
}
