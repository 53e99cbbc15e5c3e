ghost use Rattle.std.specs.Prelude.{ℕ};

/// What is told of a namespace's steps, and of each frame that they take: so that a test can hold it there.
///
/// That a gate was told is a fact which nobody but its own calls give: a contract over any gate can't see what the fact is.
/// So whoever asks for the fact, with a namespace and a place, asks for a call with these numbers. That there is no other
/// call no contract says, and a test with a gate that remembers.
pub trait Gate {
    /// This gate was told of a step of this namespace, at this place among the namespace's steps.
    ghost passed: { Self → ℕ → ℕ → Type 0 };

    /// This gate was told that this namespace takes a frame.
    ghost framed: { Self → ℕ → Type 0 };

    /// A step of a namespace is about to be made, at this place among its steps, counted from 0. In a service the lock
    /// that the namespace lies behind is held, and where memory is then wanted for it, the next one has the same place.
    /// Where each namespace has a thread of its own, no lock is held.
    fn pass(&self, ns: u32, place: u64)
        ensures { passed self.now ns place };

    /// A step of a namespace is about to take a frame: of its own stock, or of the depot that other namespaces share. The
    /// depot's lock isn't held.
    fn frame(&self, ns: u32)
        ensures { framed self.now ns };
}

/// The gate that returns at once.
#[derive(Clone, Copy, Debug, PartialEq, Eq)]
pub struct NoGate;

impl Gate for NoGate {
    ghost passed = { λ _ _ _. Unit {0} };

    ghost framed = { λ _ _. Unit {0} };

    fn pass(&self, ns: u32, place: u64) {
        let _ = (ns, place);
    }

    fn frame(&self, ns: u32) {
        let _ = ns;
    }
}
