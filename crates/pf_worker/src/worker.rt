ghost use Rattle.std.specs.Prelude.{◌≡◌, ◌≤◌, length, map, sum, IfOk, MatchResult, None};
ghost use Rattle.pf_base.specs.declared.TheConstants.{MAX_NAMESPACES};
ghost use Rattle.pf_depot.specs.AllLoans.{reserved_of};
ghost use Rattle.pf_depot.specs.Blanks.{IsBlankOf};
ghost use Rattle.pf_depot.specs.Book.{opening_books};
ghost use Rattle.pf_frame.specs.Faults.{IsFault};
ghost use Rattle.pf_hub.specs.Opening.{limits_of, first_fault};
ghost use Rattle.pf_worker.specs.Workers.{new_workers};

use crate::gate::Gate;
use crate::gated::GatedDepot;
use crate::returns::{Returns, ToTheDepot};
use pf_base::{AdmitFault, Answer, Config, RetireFault, Step};
use pf_depot::{Allotment, DepotBook, Leaving, Loans, Stock};
use pf_frame::{Frame, PoolFault};
use pf_hub::{first_fault, reserves_of, step_over};
use pf_space::Placed;
use std::alloc::{AllocError, Allocator, Global};
use std::marker::Model;
use std::sync::ledger::{Blank, Ledger, Share};
use std::sync::{Mutex, Wait};

mod queries;
mod slices;

/// A namespace for a thread of its own: its space, its frames on loan, its shares of the ledgers of a depot that other
/// workers share, and a few frames of that depot in stock.
///
/// It has no lock and no transcript, so it can be stepped for ever. Its steps wait for nothing but the depot's lock, which
/// is held for one frame at a time, and only where the stock has none to give or no room for one that comes back.
///
/// The first workers come with the depot, by `open`. Later ones are admitted, for a job as it starts, and any of them is
/// retired once its job has ended. A worker that is dropped instead leaves its reservation and its frames taken for ever.
///
/// A contract sees its number, and its namespace as a hub's: the limits, the state of the lone machine that it is in, and
/// how many frames it holds; and the allocator whose memory its files stand in.
pub struct Worker<A: Allocator, C: Ledger, H: Ledger> {
    number: u32,
    placed: Placed<A>,
    loans: Loans,
    credits: Share<C>,
    held: Share<H>,
    stock: Stock,
}

// Written, and not derived: so a crate above calls it, and needn't prove once more how each part of a worker goes.
impl<A: Allocator, C: Ledger, H: Ledger> Drop for Worker<A, C, H> {
    fn drop(self) {
        let Worker {
            number: _,
            placed,
            loans,
            credits,
            held,
            stock,
        } = self;
        drop(placed);
        drop(loans);
        drop(credits);
        drop(held);
        drop(stock);
    }
}

impl<A: Allocator, C: Ledger, H: Ledger> Model for Worker<A, C, H> {
    ghost use Rattle.pf_worker.specs.Workers.{OneWorker, worker_of, IsKept};

    ghost Value = { OneWorker A };

    ghost view = { λ w. worker_of w.number w.placed w.loans };

    ghost invariant = { λ w. IsKept w.placed.space w.loans w.credits.amount w.held.amount w.stock w.credits.parts w.held.parts };
}

impl<A: Allocator + Clone, C: Ledger, H: Ledger> Worker<A, C, H> {
    ghost use Rattle.std.specs.Prelude.{ℕ, false, ◌<◌, OnOk};
    ghost use Rattle.pf_base.specs.declared.TheConstants.{MAX_NUMBERS};
    ghost use Rattle.pf_machine.specs.Machine.{Answers, may_want_memory};
    ghost use Rattle.pf_machine.specs.Events.{IsDone};
    ghost use Rattle.pf_machine.specs.Processes.{alive};
    ghost use Rattle.pf_machine.specs.State.{opening};
    ghost use Rattle.pf_depot.specs.Admission.{admit_fault, IsAdmitFault};
    ghost use Rattle.pf_depot.specs.Book.{Admits};
    ghost use Rattle.pf_hub.specs.Covered.{IsRising};
    ghost use Rattle.pf_worker.specs.Workers.{new_worker, IsRefusal};

    /// The worker of a namespace of these limits, at its opening state, with what it was dealt. Its files, and nothing else,
    /// stand in memory of the allocator `tree`.
    pub fn new(
        alloc: Global,
        number: u32,
        config: Config,
        tree: A,
        allotment: Allotment<C, H>,
    ) -> Result<Self, AllocError>
        requires reserved { reserved_of allotment.loans ≡ config.reserve }
        ensures { IfOk result (λ w. w ≡ new_worker number (config, tree)) }
    {
        let placed = Placed::new(alloc, tree, config)?;
        let stock = Stock::new(alloc)?;
        Ok(Worker::begun(number, placed, stock, allotment))
    }

    // The worker of a namespace at its opening state, with what it was dealt.
    fn begun(number: u32, placed: Placed<A>, stock: Stock, allotment: Allotment<C, H>) -> Self
        requires opening { placed.space.state ≡ opening }
        requires none { stock ≡ 0 }
        requires reserved { reserved_of allotment.loans ≡ placed.space.limits.reserve }
        ensures { result ≡ new_worker number (placed.space.limits, placed.allocator) }
    {
        let Allotment {
            loans,
            credits,
            held,
        } = allotment;
        Worker {
            number,
            placed,
            loans,
            credits,
            held,
            stock,
        }
    }

    /// The worker of one namespace more at a depot, of these limits, at its opening state. Its files, and nothing else,
    /// stand in memory of the allocator `tree`.
    ///
    /// Its number is the least that was never given there, and its reservation is of the frames that nobody has reserved.
    /// `TooManyNamespaces` where 64 live or 1,024 numbers are given; then `NoRoom` where the reservation is above these
    /// frames; and `NoMemory` in place of each. At a fault nothing has changed.
    ///
    /// It may wait for the depot's lock, which is held once. All memory but that of the loans is had before.
    pub fn admit<R: Wait>(
        rt: &R,
        alloc: Global,
        book: &Mutex<DepotBook<C, H>>,
        config: Config,
        tree: A,
    ) -> Result<Self, AdmitFault>
        ensures { MatchResult result
            (λ w. (w ≡ new_worker w.number (config, tree)) × (w.number < MAX_NUMBERS))
            (λ fault. IsRefusal config.reserve fault) }
    {
        let Ok(placed) = Placed::new(alloc, tree, config) else {
            return Err(AdmitFault::NoMemory);
        };
        let Ok(stock) = Stock::new(alloc) else {
            return Err(AdmitFault::NoMemory);
        };
        let mut book = book.lock(rt);
        Worker::admitted(&mut *book, config, placed, stock)
    }

    // What is done under the depot's lock.
    fn admitted(
        book: &mut DepotBook<C, H>,
        config: Config,
        placed: Placed<A>,
        stock: Stock,
    ) -> Result<Self, AdmitFault>
        requires opening { placed.space ≡ record { limits = config; state = opening } }
        requires none { stock ≡ 0 }
        ensures { MatchResult result
            (λ w. (admit_fault book.old.living book.old.given book.old.slack config.reserve ≡ None)
            × Admits book.old book.new config.reserve
            × (w ≡ new_worker book.old.given (config, placed.allocator)))
            (λ fault. (book.new ≡ book.old)
            × IsAdmitFault (admit_fault book.old.living book.old.given book.old.slack config.reserve) fault) }
    {
        let (number, allotment) = book.admit(config.reserve())?;
        Ok(Worker::begun(number, placed, stock, allotment))
    }

    /// Ends its namespace, which has no process: its files' memory is freed, the frames of its stock are free for others,
    /// its reservation is of nobody, and a place is free for a namespace more. Its number isn't given again.
    ///
    /// `Alive` exactly where a process lives, also where it waits in a call; then the worker is handed back as it was.
    ///
    /// It may wait for the depot's lock, which is held once, and takes no memory. The depot is the one that the worker's
    /// shares are of.
    pub fn retire<R: Wait>(
        self,
        rt: &R,
        book: &Mutex<DepotBook<C, H>>,
    ) -> Result<(), (Self, RetireFault)>
        ensures { MatchResult result
            (λ _. alive self.tenant.state ≡ 0)
            (λ e. (e.0 ≡ self) × (e.1 ≡ RetireFault.Alive (alive self.tenant.state))
            × (0 < alive self.tenant.state)) }
    {
        self.retire_by(rt, &ToTheDepot, book)
    }

    // The same by any way to the depot.
    fn retire_by<R: Wait, D: Returns>(
        self,
        rt: &R,
        way: &D,
        book: &Mutex<DepotBook<C, H>>,
    ) -> Result<(), (Self, RetireFault)>
        ensures retired { MatchResult result
            (λ _. alive self.tenant.state ≡ 0)
            (λ e. (e.0 ≡ self) × (e.1 ≡ RetireFault.Alive (alive self.tenant.state))
            × (0 < alive self.tenant.state)) }
        ensures returned { OnOk result ((stock : ℕ) × D.returned way.now self.number self.tenant.limits.reserve stock) }
    {
        let processes = self.placed.processes();
        if processes > 0 {
            return Err((self, RetireFault::Alive { processes }));
        }
        let Worker {
            number,
            placed,
            loans,
            credits,
            held,
            stock,
        } = self;
        // no other worker waits while the files go
        drop(placed);
        let leaving = Leaving::new(loans, credits, held, stock);
        way.give_back(rt, book, number, leaving);
        Ok(())
    }

    /// The number of its namespace.
    pub fn number(&self) -> u32
        ensures { result ≡ self.now.number }
    {
        self.number
    }

    /// How many frames its namespace holds.
    pub fn held(&self) -> u32
        ensures { result ≡ self.now.tenant.held }
    {
        self.loans.held()
    }

    /// One step of its namespace. It may wait for the depot's lock; a frame that the namespace has a credit for is there
    /// whatever the other workers do. The gate is told of each frame before it is taken: that is the way of a
    /// `GatedDepot`, and no clause of this step's.
    ///
    /// The depot is the one that the worker's shares are of.
    pub fn step<R: Wait, G: Gate>(
        &mut self,
        rt: &R,
        book: &Mutex<DepotBook<C, H>>,
        gate: &G,
        step: &Step,
    ) -> Answer
        ensures number { self.new.number ≡ self.old.number }
        ensures allocator { self.new.allocator ≡ self.old.allocator }
        ensures limits { self.new.tenant.limits ≡ self.old.tenant.limits }
        // its answer and its state are the lone machine's
        ensures answers { Answers self.old.tenant.limits result
            self.old.tenant.state step.now self.new.tenant.state }
        // want of memory changes nothing, and comes of no step that needs none
        ensures unchanged { result ≡ Answer.NoMemory → self.new ≡ self.old }
        ensures succeeds { may_want_memory self.old.tenant.limits self.old.tenant.state step.now ≡ false
            → IsDone result }
        ensures rising { IsRising self.new.tenant }
        // where it holds more frames than before, this gate was told of this namespace
        ensures framed { self.old.tenant.held < self.new.tenant.held → G.framed gate.now self.old.number }
    {
        let frames = self.loans.held();
        let mut depot = GatedDepot::holding(
            rt,
            gate,
            self.number,
            frames,
            book,
            &mut self.credits,
            &mut self.held,
            &mut self.stock,
        );
        step_over(&mut self.placed, &mut depot, &mut self.loans, step)
    }
}

// The workers of the namespaces of these limits, each with what it begins with.
fn workers_of<A: Allocator + Clone, C: Ledger, H: Ledger>(
    alloc: Global,
    configs: Vec<(Config, A)>,
    allotments: Vec<Allotment<C, H>>,
) -> Result<Vec<Worker<A, C, H>>, AllocError>
    requires few { length configs.items ≤ MAX_NAMESPACES }
    requires reserved { map (λ a. reserved_of a.loans) allotments.items ≡ map (λ e. e.0.reserve) configs.items }
    ensures { IfOk result (λ v. v.items ≡ new_workers configs.items) }
{
    let mut workers = Vec::with_capacity(alloc, configs.len())?;
    let mut allotments = allotments.into_iter();
    for (config, tree) in configs {
        let Some(allotment) = allotments.next() else {
            unreachable!()
        };
        let number = workers.len() as u32;
        let worker = Worker::new(alloc, number, config, tree, allotment)?;
        workers.push_reserved(worker);
    }
    Ok(workers)
}

/// A shared depot of these frames, and a worker for each of these limits: their numbers are their places. A namespace's
/// files, and nothing else, stand in memory of the allocator beside its limits.
///
/// Each ledger has a part for each namespace that there may be. The faults are those of `Hub::new`, in their order: the
/// frames and limits are tested before any memory is asked for.
pub fn open<A: Allocator + Clone, C: Ledger, H: Ledger>(
    alloc: Global,
    frames: Vec<Frame>,
    configs: Vec<(Config, A)>,
    credits: Blank,
    held: Blank,
) -> Result<(DepotBook<C, H>, Vec<Worker<A, C, H>>), PoolFault>
    requires blanks { IsBlankOf C.name C.parts credits × IsBlankOf H.name H.parts held }
    ensures { MatchResult result
        (λ made. (first_fault (length frames.items) (limits_of configs.items) ≡ None)
        × (made.0 ≡ opening_books (length frames.items) (sum (map (λ l. l.reserve) (limits_of configs.items)))
        (length configs.items))
        × (made.1.items ≡ new_workers configs.items))
        (λ fault. IsFault (first_fault (length frames.items) (limits_of configs.items)) fault) }
{
    if let Some(fault) = first_fault(frames.len(), &configs) {
        return Err(fault);
    }
    let Ok(reserves) = reserves_of(alloc, configs.as_slice()) else {
        return Err(PoolFault::NoMemory);
    };
    let (book, allotments) = DepotBook::open(alloc, frames, reserves, credits, held)?;
    match workers_of(alloc, configs, allotments) {
        Ok(workers) => Ok((book, workers)),
        Err(_) => Err(PoolFault::NoMemory),
    }
}
