use crate::MAX_ENTRIES;
use crate::fault::ServiceFault;
use crate::retired::Retired;
use crate::spare::Spare;
use crate::transcript::Transcript;
use pf_base::{Answer, Config, Errno, Readiness, Reply, Step};
use pf_depot::{Lender, Loans};
use pf_hub::step_over;
use pf_space::Placed;
use std::alloc::{AllocError, Allocator, Global};
use std::marker::Model;

/// A namespace with its frames on loan and its transcript.
///
/// Whenever nobody is inside one of its calls, the replies of the transcript are the lone machine's on its steps, and the
/// namespace, over its frames, stands at that run's end.
#[derive(Drop)]
pub struct Logged<A: Allocator> {
    alloc: Global,
    placed: Placed<A>,
    loans: Loans,
    transcript: Transcript,
    // For the copy of a reply that the transcript gets.
    spare: Spare,
}

impl<A: Allocator> Model for Logged<A> {
    ghost use Rattle.pf_service.specs.Log.{Log, log_of, IsLog};

    ghost Value = { Log A };

    ghost view = { λ l. log_of l.placed l.loans l.transcript };

    ghost invariant = { λ l. IsLog l.placed.space l.loans l.transcript };
}

impl<A: Allocator + Clone> Logged<A> {
    ghost use Rattle.std.specs.Prelude.{◌≡◌, ◌+◌, ◌<◌, ◌≤◌, ◌++◌, [], ◌∷◌, length, IfOk, IfErr, OnOk, OnErr};
    ghost use Rattle.pf_machine.specs.State.{opening};
    ghost use Rattle.pf_machine.specs.Processes.{alive};
    ghost use Rattle.pf_machine.specs.Runs.{run_of};
    ghost use Rattle.pf_machine.specs.Machine.{step_of, call_of};
    ghost use Rattle.pf_machine.specs.Queries.{can_go_on, readiness, IsNext};
    ghost use Rattle.pf_machine.specs.Replies.{reply_length, most_of, written_in};
    ghost use Rattle.pf_frame.specs.Live.{IsIdle};
    ghost use Rattle.pf_depot.specs.AllLoans.{held_of, reserved_of};
    ghost use Rattle.pf_depot.specs.Loans.{loans_live};
    ghost use Rattle.pf_service.specs.Log.{new_log, IsLogged};
    ghost use Rattle.pf_service.specs.Faults.{IsApplyFault};
    ghost use Rattle.pf_service.specs.Transcripts.{steps_in, replies_in, new_transcript, IsLone};
    ghost use Rattle.pf_service.specs.declared.TheConstants.{MAX_ENTRIES};

    /// A namespace at its opening state, of which nothing was asked yet. Its files, and nothing else, stand in memory of
    /// the allocator `tree`.
    ///
    /// The loans hold no frame, and as many places as the limits reserve. The fault is want of memory.
    pub fn new(alloc: Global, tree: A, config: Config, loans: Loans) -> Result<Self, ServiceFault>
        requires idle { IsIdle config.reserve (loans_live loans) }
        ensures opened { IfOk result (λ l. l ≡ new_log config tree) }
        ensures fault { IfErr result (λ e. e ≡ ServiceFault.NoMemory) }
    {
        let placed = Placed::new(alloc, tree, config)?;
        Ok(Logged::over(alloc, placed, config, loans))
    }

    /// The same over a namespace that was made before. It takes no memory.
    pub(crate) fn over(alloc: Global, placed: Placed<A>, config: Config, loans: Loans) -> Self
        requires opening { placed.space ≡ record { limits = config; state = opening } }
        requires idle { IsIdle config.reserve (loans_live loans) }
        ensures { result ≡ new_log config placed.allocator }
    {
        Logged {
            alloc,
            placed,
            loans,
            transcript: Transcript::new(alloc, config),
            spare: Spare::new(),
        }
    }

    /// What the namespace was asked and told. The replies are those of the lone machine on the steps, and the namespace
    /// stands at that run's end.
    pub fn entries(&self) -> &[(Step, Reply)]
        ensures entries { result.now ≡ self.now.transcript }
        ensures ran { run_of self.now.limits opening (steps_in result.now)
            ≡ record { state = self.now.state; replies = replies_in result.now } }
    {
        self.transcript.entries()
    }

    /// The place of the next event: how many there were. `TranscriptFull` where those are 1,000,000.
    pub fn place(&self) -> Result<u64, ServiceFault>
        ensures place { IfOk result (λ place. place ≡ length self.now.transcript) }
        ensures ran { run_of self.now.limits opening (steps_in self.now.transcript)
            ≡ record { state = self.now.state; replies = replies_in self.now.transcript } }
        ensures room { OnOk result (length self.now.transcript < MAX_ENTRIES) }
        ensures fault { IfErr result (λ e. (e ≡ ServiceFault.TranscriptFull)
            × (MAX_ENTRIES ≤ length self.now.transcript)) }
    {
        let place = self.entries().len();
        if place >= MAX_ENTRIES {
            return Err(ServiceFault::TranscriptFull);
        }
        Ok(place as u64)
    }

    /// Where its transcript's memory is.
    pub(crate) fn alloc(&self) -> Global {
        self.alloc
    }

    /// A number of bytes that the vector of the reply to a step is no longer than (`Space::reply_bound`).
    pub(crate) fn reply_bound(&self, step: &Step) -> usize
        ensures covers { reply_length (step_of self.now.limits self.now.state step.now).reply ≤ result }
        ensures most { result ≤ most_of step.now }
    {
        self.placed.reply_bound(step)
    }

    /// How many bytes of its write went in before a process waited; 0 where it waits in no write.
    pub(crate) fn parked_written(&self, pid: u32) -> u64
        ensures { result ≡ written_in (call_of self.now.state pid) }
    {
        self.placed.parked_written(pid)
    }

    /// How many frames the namespace holds.
    pub(crate) fn held(&self) -> u32
        ensures { result ≡ self.now.held }
    {
        self.loans.held()
    }

    /// How many processes live, also those that wait in a call. Where none does, the namespace holds no frame.
    pub fn processes(&self) -> u32
        ensures number { result ≡ alive self.now.state }
        ensures none { result ≡ 0 → self.now.held ≡ 0 }
    {
        self.placed.processes()
    }

    /// Whether the call in which a process waits comes further when it is tried again (`Space::can_go_on`).
    pub(crate) fn can_go_on(&self, pid: u32) -> bool
        ensures answer { result ≡ can_go_on self.now.limits self.now.state pid }
        ensures ran { run_of self.now.limits opening (steps_in self.now.transcript)
            ≡ record { state = self.now.state; replies = replies_in self.now.transcript } }
    {
        self.placed.can_go_on(pid)
    }

    /// The least pid above `after` whose process can go on, if there is one.
    pub(crate) fn next_to_go_on(&self, after: u32) -> Option<u32>
        ensures answer { IsNext self.now.limits self.now.state after result }
        ensures ran { run_of self.now.limits opening (steps_in self.now.transcript)
            ≡ record { state = self.now.state; replies = replies_in self.now.transcript } }
    {
        self.placed.next_to_go_on(after)
    }

    /// What the pipe is ready for that a process's descriptor names (`Space::readiness`).
    pub(crate) fn readiness(&self, pid: u32, fd: u32) -> Result<Readiness, Errno>
        ensures answer { result ≡ readiness self.now.state pid fd }
        ensures ran { run_of self.now.limits opening (steps_in self.now.transcript)
            ≡ record { state = self.now.state; replies = replies_in self.now.transcript } }
    {
        self.placed.readiness(pid, fd)
    }

    /// What a namespace of the same limits was asked and told of which nothing was asked yet. It takes no memory.
    pub(crate) fn nothing(&self) -> Retired
        ensures { result ≡ new_transcript self.now.limits }
    {
        Retired::new(Transcript::new(self.alloc, self.transcript.config()))
    }

    /// One event: the step is made, and stands at the end of the transcript with its reply.
    ///
    /// The lender has a frame for each credit of the namespace, and can take back all that the namespace holds. All memory
    /// that the event takes, for the transcript's place and the copies, is taken before the step is made.
    /// `TranscriptFull` comes exactly where the transcript has 1,000,000 entries, and else want of memory.
    pub fn apply<D: Lender>(&mut self, lender: &mut D, step: &Step) -> Result<Reply, ServiceFault>
        requires fact { D.fact lender.old }
        requires ready { self.old.limits.reserve ≤ D.ready lender.old + self.old.held }
        requires out { self.old.held ≤ D.out lender.old }
        ensures fact { D.fact lender.new }
        ensures rest { D.rest lender.new ≡ D.rest lender.old }
        ensures ready { D.ready lender.new + self.new.held ≡ D.ready lender.old + self.old.held }
        ensures out { D.out lender.new + self.old.held ≡ D.out lender.old + self.new.held }
        ensures limits { self.new.limits ≡ self.old.limits }
        ensures allocator { self.new.allocator ≡ self.old.allocator }
        ensures logged { IfOk result (λ r.
            self.new.transcript ≡ self.old.transcript ++ (step.now, r) ∷ []) }
        ensures told { IfOk result (λ r. record { state = self.new.state; reply = r }
            ≡ step_of self.old.limits self.old.state step.now) }
        ensures room { OnOk result (length self.old.transcript < MAX_ENTRIES) }
        ensures fault { IfErr result (IsApplyFault self.old.transcript) }
        ensures unchanged { OnErr result ((self.new ≡ self.old) × (lender.new ≡ lender.old)) }
    {
        self.place()?;
        let bound = self.reply_bound(step);
        Ok(self.log(lender, step, bound)?)
    }

    /// `apply`, where the transcript isn't full and the reply's vector is known to be no longer than `bound`.
    #[inline(always)]
    pub(crate) fn log<D: Lender>(
        &mut self,
        lender: &mut D,
        step: &Step,
        bound: usize,
    ) -> Result<Reply, AllocError>
        requires fact { D.fact lender.old }
        requires ready { self.old.limits.reserve ≤ D.ready lender.old + self.old.held }
        requires out { self.old.held ≤ D.out lender.old }
        requires room { length self.old.transcript < MAX_ENTRIES }
        requires covers { reply_length (step_of self.old.limits self.old.state step.now).reply ≤ bound }
        ensures fact { D.fact lender.new }
        ensures rest { D.rest lender.new ≡ D.rest lender.old }
        ensures ready { D.ready lender.new + self.new.held ≡ D.ready lender.old + self.old.held }
        ensures out { D.out lender.new + self.old.held ≡ D.out lender.old + self.new.held }
        ensures logged { IfOk result (IsLogged self.old self.new step.now) }
        ensures unchanged { OnErr result ((self.new ≡ self.old) × (lender.new ≡ lender.old)) }
    {
        let entries = &mut self.transcript.entries;
        entries.reserve(1)?;
        let asked = step.copy(self.alloc)?;
        let Ok(mut room) = self.spare.take(self.alloc, bound) else {
            drop(asked);
            return Err(AllocError);
        };
        let Answer::Done(reply) = step_over(&mut self.placed, lender, &mut self.loans, step) else {
            drop(asked);
            drop(room);
            return Err(AllocError);
        };
        let told = room.copy(self.alloc, &reply);
        entries.push_reserved((asked, told));
        self.spare.keep(room);
        Ok(reply)
    }

    /// Gives up the namespace, and keeps what it was asked and told, and its frames.
    pub(crate) fn into_parts(self) -> (Transcript, Loans)
        ensures limits { result.0.limits ≡ self.limits }
        ensures entries { result.0.entries ≡ self.transcript }
        ensures alone { IsLone result.0 }
        ensures held { held_of result.1 ≡ self.held }
        ensures reserved { reserved_of result.1 ≡ self.limits.reserve }
    {
        let Logged {
            alloc: _,
            placed,
            loans,
            transcript,
            spare,
        } = self;
        drop(placed);
        drop(spare);
        (transcript, loans)
    }
}
