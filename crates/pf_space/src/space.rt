ghost use Rattle.std.specs.Prelude.{◌≡◌};

use pf_base::{Answer, Config, Crossing, Fault, Reply, Step};
use pf_frame::Frames;
use pf_tables::Tables;
use std::alloc::{AllocError, Allocator, Global};
use std::marker::Model;

mod bounds;
mod closes;
mod parked;
mod queries;
mod transfers;

/// One namespace: its processes, their descriptors, its pipes and its files.
///
/// A contract sees its limits and the lone machine's state, with a ring in each pipe in place of its queue. The
/// bytes stand in the frames of the door that each step is handed.
pub struct Space<A: Allocator> {
    alloc: Global,
    tables: Tables<A>,
}

// Written, and not derived: so a crate above calls it, and needn't prove once more how each part of the tables goes.
impl<A: Allocator> Drop for Space<A> {
    fn drop(self) {
        let Space { alloc: _, tables } = self;
        drop(tables);
    }
}

impl<A: Allocator> Model for Space<A> {
    ghost use Rattle.pf_tables.specs.Meaning.{Namespace};

    ghost Value = { Namespace };

    ghost view = { λ s. s.tables };
}

// What the tables told of a call. It is moved once, into the step's answer: where a call puts it there itself, the
// compiler keeps that answer in memory for a write and a read too.
#[inline(always)]
fn handed(told: Result<Reply, Fault>) -> Result<Reply, Fault>
    ensures { result ≡ told }
{
    match told {
        Ok(reply) => Ok(reply),
        Err(fault) => Err(fault),
    }
}

impl<A: Allocator + Clone> Space<A> {
    ghost use Rattle.std.specs.Prelude.{◌≡◌, ◌≢◌, ◌≤◌, Err, IfOk, false};
    ghost use Rattle.pf_machine.specs.State.{opening};
    ghost use Rattle.pf_machine.specs.Machine.{Answers, call, may_want_memory};
    ghost use Rattle.pf_machine.specs.Events.{IsDone};
    ghost use Rattle.pf_tables.specs.Meaning.{meaning, occupied, AreEmpty};
    ghost use Rattle.pf_tables.specs.Owns.{Owns};
    ghost use Rattle.pf_tables.specs.Told.{Told};
    ghost use Rattle.pf_tables.specs.Door.{Serves, HandsOn};

    /// A namespace at its opening state, with its files in memory of an allocator of their own. Nothing else stands
    /// there. No clause names this allocator: `Placed` is a namespace beside one that clauses name.
    pub fn new(alloc: Global, tree: A, config: Config) -> Result<Self, AllocError>
        ensures { IfOk result (λ s. s ≡ record { limits = config; state = opening }) }
    {
        let tables = Tables::new(alloc, tree, config)?;
        Ok(Space { alloc, tables })
    }

    /// One step: its answer and the state that it leaves are the lone machine's, or it is `NoMemory` and nothing has
    /// changed. The frames that it takes and gives back are those of its door.
    // It and `call` are inlined, so that what a transfer replies is put into the answer where it is made. What the
    // tables tell is moved there (`handed`).
    #[inline(always)]
    #[tactic(auto, using(crate::proofs::Steps::none_live))]
    pub fn step<F: Frames>(&mut self, door: &mut F, step: &Step) -> Answer
        requires door { Serves F.Frames door.old self.old }
        // The door is left as it is to be, and the live frames are those of this namespace.
        ensures door { HandsOn F.Frames door.old door.new }
        ensures owns { Owns (F.live door.new) self.new }

        // The step is the lone machine's, or want of memory, which has changed nothing.
        ensures limits { self.new.limits ≡ self.old.limits }
        ensures answers { Answers self.old.limits result (meaning (F.live door.old) self.old.state) step.now
            (meaning (F.live door.new) self.new.state) }
        ensures unchanged { result ≡ Answer.NoMemory → (self.new ≡ self.old) × (door.new ≡ door.old) }
        ensures succeeds { may_want_memory self.old.limits (meaning (F.live door.old) self.old.state) step.now
            ≡ false → IsDone result }

        // No more frames are live than slots in use, and none only where no pipe has a byte.
        ensures spread { (F.live door.new).held ≤ occupied self.new.state }
        ensures none { (F.live door.new).held ≡ 0 → AreEmpty (F.live door.new) self.new.state }
    {
        self.tables.settled();
        match self.call(door, step) {
            // By itself, or the compiler copies each answer as a whole at every call above.
            Ok(Reply::Num(number)) => Answer::Done(Reply::Num(number)),
            Ok(reply) => Answer::Done(reply),
            Err(Fault::Errno(errno)) => Answer::Done(Reply::Err(errno)),
            Err(Fault::NoMemory) => Answer::NoMemory,
        }
    }

    // The call of each kind of step: of those that move bytes, let something go or try a call again here, and of the
    // others in the tables.
    #[inline(always)]
    fn call<F: Frames>(&mut self, door: &mut F, step: &Step) -> Result<Reply, Fault>
        requires door { Serves F.Frames door.old self.old }
        ensures door { HandsOn F.Frames door.old door.new }
        ensures told { Told (F.live door.old) (F.live door.new) self.old self.new result
            (call self.old.limits (meaning (F.live door.old) self.old.state) step.now) }
        ensures unchanged { result ≡ Err Fault.NoMemory → (self.new ≡ self.old) × (door.new ≡ door.old) }
        ensures succeeds { may_want_memory self.old.limits (meaning (F.live door.old) self.old.state) step.now
            ≡ false → result ≢ Err Fault.NoMemory }
    {
        match step {
            Step::Read { pid, fd, n } => self.read(door, *pid, *fd, *n),
            Step::Write { pid, fd, payload } => {
                self.write(door, *pid, *fd, payload.as_slice(), Some(payload))
            }
            Step::Tee {
                pid,
                source,
                sink,
                n,
                nonblock,
            } => self.cross(
                door,
                Crossing::Tee,
                *pid,
                *source,
                *sink,
                *n,
                *nonblock,
                false,
            ),
            Step::Splice {
                pid,
                source,
                sink,
                n,
                nonblock,
            } => self.cross(
                door,
                Crossing::Splice,
                *pid,
                *source,
                *sink,
                *n,
                *nonblock,
                false,
            ),
            Step::Close { pid, fd } => self.close(door, *pid, *fd),
            Step::Exit { pid } => self.exit(door, *pid),
            Step::Resume { pid } => self.resume(door, *pid),
            _ => handed(self.tables.call(self.alloc, step)),
        }
    }
}
