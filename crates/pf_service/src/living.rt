ghost use Rattle.std.specs.Prelude.{◌≡◌, ◌+◌, ◌<◌};

use crate::logged::Logged;
use crate::retired::Retired;
use crate::spare::{ReplyRoom, Spare};
use crate::transcript::Transcript;
use pf_base::{Config, Reply, Step};
use pf_depot::{Allotment, DepotBook, Leaving, Stock};
use pf_space::Placed;
use pf_worker::{Gate, GatedDepot, Returns};
use std::alloc::{AllocError, Allocator, Global};
use std::sync::ledger::{Ledger, Share};
use std::sync::{Mutex, Wait};

/// A namespace that lives: the namespace with its transcript, its shares of the depot's two ledgers, and its stock of frames.
///
/// As that is all within its type, whoever takes the lock that it lies behind finds it so: a frame for each credit at the
/// depot, and a transcript that is the lone machine's.
#[derive(Drop)]
pub(crate) struct Living<A: Allocator, C: Ledger, H: Ledger> {
    logged: Logged<A>,
    credits: Share<C>,
    held: Share<H>,
    stock: Stock,
    // For the copy of a reply that a seat gets.
    spare: Spare,

    /// For each frame that the namespace may still take, one is in stock or there is a credit.
    pub ghost unspent: { credits.amount + stock + logged.held ≡ logged.limits.reserve },

    /// Its other share is what the namespace holds and what is in stock.
    pub ghost lent: { held.amount ≡ logged.held + stock },

    /// Both shares have a part of their ledger, so each can grow.
    pub ghost parts: { (0 < credits.parts) × (0 < held.parts) },
}

impl<A: Allocator + Clone, C: Ledger, H: Ledger> Living<A, C, H> {
    ghost use Rattle.std.specs.Prelude.{◌≤◌, ◌⊎◌, length, IfOk, OnErr};
    ghost use Rattle.pf_base.specs.declared.TheConstants.{PAGE_SIZE};
    ghost use Rattle.pf_machine.specs.State.{opening};
    ghost use Rattle.pf_machine.specs.Machine.{step_of};
    ghost use Rattle.pf_machine.specs.Replies.{reply_length};
    ghost use Rattle.pf_depot.specs.AllLoans.{reserved_of};
    ghost use Rattle.pf_service.specs.Log.{new_log, IsLogged};
    ghost use Rattle.pf_service.specs.Transcripts.{IsLone};
    ghost use Rattle.pf_service.specs.declared.TheConstants.{MAX_ENTRIES};

    /// A namespace at its opening state, with what it begins with at the depot, and nothing in stock. It takes no memory.
    ///
    /// Its loans have as many places as its limits reserve.
    pub(crate) fn new(
        alloc: Global,
        placed: Placed<A>,
        stock: Stock,
        config: Config,
        allotment: Allotment<C, H>,
    ) -> Self
        requires opening { placed.space ≡ record { limits = config; state = opening } }
        requires none { stock ≡ 0 }
        requires reserved { reserved_of allotment.loans ≡ config.reserve }
        ensures { result.logged ≡ new_log config placed.allocator }
    {
        let Allotment {
            loans,
            credits,
            held,
        } = allotment;
        Living {
            logged: Logged::over(alloc, placed, config, loans),
            credits,
            held,
            stock,
            spare: Spare::new(),
        }
    }

    /// The namespace, to look at.
    pub(crate) fn get_ref(&self) -> &Logged<A>
        ensures { result.now ≡ self.now.logged }
    {
        &self.logged
    }

    /// Memory for the copy of a reply of at most so many bytes, for one event: for just as many, or what was kept.
    pub(crate) fn take_room(&mut self, bound: usize) -> Result<ReplyRoom, AllocError>
        ensures room { IfOk result (λ room. bound ≤ room) }
        ensures size { IfOk result (λ room. (room ≡ bound) ⊎ (room ≤ PAGE_SIZE)) }
        ensures logged { self.new.logged ≡ self.old.logged }
    {
        self.spare.take(self.logged.alloc(), bound)
    }

    /// What is left of it is kept for the events that follow.
    pub(crate) fn keep_room(&mut self, left: ReplyRoom)
        ensures logged { self.new.logged ≡ self.old.logged }
    {
        self.spare.keep(left);
    }

    /// One event, of which the gate was told: the namespace, and the place where it will stand. The transcript isn't full,
    /// and the reply's vector is known to be no longer than `bound`. The gate is told of each frame before it is taken: that
    /// is the way of a `GatedDepot`, and no clause of this step's.
    pub(crate) fn log<R: Wait, G: Gate>(
        &mut self,
        rt: &R,
        gate: &G,
        book: &Mutex<DepotBook<C, H>>,
        ns: u32,
        step: &Step,
        bound: usize,
    ) -> Result<Reply, AllocError>
        requires passed { G.passed gate.now ns (length self.old.logged.transcript) }
        requires room { length self.old.logged.transcript < MAX_ENTRIES }
        requires covers { reply_length
            (step_of self.old.logged.limits self.old.logged.state step.now).reply ≤ bound }
        ensures logged { IfOk result (IsLogged self.old.logged self.new.logged step.now) }
        ensures unchanged { OnErr result (self.new.logged ≡ self.old.logged) }
        // where it holds more frames than before, this gate was told of this namespace
        ensures framed { self.old.logged.held < self.new.logged.held → G.framed gate.now ns }
    {
        let Living {
            logged,
            credits,
            held,
            stock,
            spare: _,
        } = self;
        let frames = logged.held();
        let mut depot = GatedDepot::holding(rt, gate, ns, frames, book, credits, held, stock);
        logged.log(&mut depot, step, bound)
    }

    /// Gives what the namespace of this number has at the depot back, and keeps what it was asked and told. It holds no
    /// frame.
    ///
    /// The depot's lock is held once.
    pub(crate) fn retire<R: Wait, D: Returns>(
        self,
        rt: &R,
        way: &D,
        book: &Mutex<DepotBook<C, H>>,
        ns: u32,
    ) -> Retired
        requires none { self.logged.held ≡ 0 }
        ensures kept { result ≡ record { limits = self.logged.limits; entries = self.logged.transcript } }
        ensures returned { D.returned way.now ns self.logged.limits.reserve self.stock }
    {
        let Living {
            logged,
            credits,
            held,
            stock,
            spare,
        } = self;
        drop(spare);
        let (transcript, loans) = logged.into_parts();
        let leaving = Leaving::new(loans, credits, held, stock);
        way.give_back(rt, book, ns, leaving);
        Retired::new(transcript)
    }

    /// Gives up the namespace, its frames and its shares, and keeps what it was asked and told.
    pub(crate) fn into_transcript(self) -> Transcript
        ensures limits { result.limits ≡ self.logged.limits }
        ensures entries { result.entries ≡ self.logged.transcript }
        ensures alone { IsLone result }
    {
        let Living {
            logged,
            credits,
            held,
            stock,
            spare,
        } = self;
        drop(credits);
        drop(held);
        drop(stock);
        drop(spare);
        let (transcript, loans) = logged.into_parts();
        drop(loans);
        transcript
    }
}
