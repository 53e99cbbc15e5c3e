//! A gate that holds two namespaces' steps, so that a replay ends only where both are run at once, and where neither
//! keeps the depot's lock between its steps; and one that counts the steps and frames of each namespace, also where one
//! is chosen, and looks at each step how many frames it was told of so far.

use crate::patience::Patience;
use crate::texts::{played, played_of};
use pf_play::Gate;
use std::sync::atomic::{AtomicU64, Ordering};
use std::test::Fail;

/// What the gate was told.
#[derive(Drop)]
struct Meeting {
    /// How many steps of the first namespace are held, or were.
    held: AtomicU64,
    /// How many writes of the second one were answered, each of which took a frame.
    written: AtomicU64,
    patience: Patience,
}

impl Meeting {
    fn new() -> Meeting {
        Meeting {
            held: AtomicU64::new(0),
            written: AtomicU64::new(0),
            patience: Patience::new(),
        }
    }

    /// Holds a step of the first namespace until the second has written so often.
    fn hold(&self, number: u64) {
        self.held.store(number, Ordering::SeqCst);
        self.patience.wait_for(&self.written, number);
    }
}

impl Gate for Meeting {
    ghost passed = { λ _ _ _. Unit {0} };

    ghost framed = { λ _ _. Unit {0} };

    fn pass(&self, ns: u32, place: u64) {
        match (ns, place) {
            (0, 0) => self.hold(1),
            (0, 3) => self.hold(2),
            (1, 0) => self.patience.wait_for(&self.held, 1),
            (1, 3) => {
                self.written.store(1, Ordering::SeqCst);
                self.patience.wait_for(&self.held, 2);
            }
            (1, 5) => self.written.store(2, Ordering::SeqCst),
            _ => {}
        }
    }

    fn frame(&self, ns: u32) {
        let _ = ns;
    }
}

const SCRIPT: &str = "pool 3
space red 1
space blue 2
red spawn 5 5 022
red pipe 1
red write 1 1 61
red read 1 0 1
blue spawn 5 5 022
blue pipe 1
blue write 1 1 62
blue pipe 1
blue write 1 3 63
blue read 1 0 1
";

const TEXT: &str = "== red
1: pid 1
2: fds 0 1
3: num 1
4: bytes 1 61
== blue
1: pid 1
2: fds 0 1
3: num 1
4: fds 2 3
5: num 1
6: bytes 1 62
";

/// The first namespace's first step is held until the second's first write was answered, and its last one, behind the
/// frame that it took, until the second's other write was, which is held for it: so no thread keeps the depot's lock
/// while its gate is told of a step.
#[test]
fn two_namespaces_at_once(rt: HostRuntime) -> Result<(), Fail> {
    let gate = Meeting::new();
    let (end, writer) = played(&rt, rt.alloc(), SCRIPT, TEXT, &gate);
    assert!(rt; end.is_ok());
    assert!(rt; writer.is_whole());
    assert!(rt; gate.patience.is_left());
    Ok(())
}

/// How many steps it was told of, and how many frames of each of two namespaces and of all.
#[derive(Drop)]
struct Frames {
    steps: AtomicU64,
    red: AtomicU64,
    blue: AtomicU64,
    all: AtomicU64,
    /// Not 0: at a step it had been told of fewer frames than the steps in front of that take, or of more.
    wrong: AtomicU64,
}

impl Frames {
    fn new() -> Frames {
        Frames {
            steps: AtomicU64::new(0),
            red: AtomicU64::new(0),
            blue: AtomicU64::new(0),
            all: AtomicU64::new(0),
            wrong: AtomicU64::new(0),
        }
    }

    /// Whether it was told of so many steps, and of so many frames of each namespace and no other.
    fn are(&self, steps: u64, red: u64, blue: u64) -> bool {
        self.steps.load(Ordering::SeqCst) == steps
            && self.red.load(Ordering::SeqCst) == red
            && self.blue.load(Ordering::SeqCst) == blue
            && self.all.load(Ordering::SeqCst) == red.wrapping_add(blue)
            && self.wrong.load(Ordering::SeqCst) == 0
    }
}

impl Gate for Frames {
    ghost passed = { λ _ _ _. Unit {0} };

    ghost framed = { λ _ _. Unit {0} };

    // The third step of each namespace is a write that takes frames, the first one's two at once, and none but its last
    // one takes another.
    fn pass(&self, ns: u32, place: u64) {
        self.steps.fetch_add(1, Ordering::SeqCst);
        let (frames, number) = if ns == 0 {
            (&self.red, 2)
        } else {
            (&self.blue, 1)
        };
        let taken = if place > 2 { number } else { 0 };
        if frames.load(Ordering::SeqCst) != taken {
            self.wrong.store(1, Ordering::SeqCst);
        }
    }

    fn frame(&self, ns: u32) {
        match ns {
            0 => self.red.fetch_add(1, Ordering::SeqCst),
            1 => self.blue.fetch_add(1, Ordering::SeqCst),
            _ => 0,
        };
        self.all.fetch_add(1, Ordering::SeqCst);
    }
}

const WRITES: &str = "pool 17
space red 16
space blue 1
red spawn 5 5 022
red pipe 1
red write 1 1 8192*61
red getsize 1 1
red write 1 1 62
blue spawn 5 5 022
blue pipe 1
blue write 1 1 7a
blue read 1 0 1
";

const WRITTEN: &str = "== red
1: pid 1
2: fds 0 1
3: num 8192
4: num 65536
5: num 1
== blue
1: pid 1
2: fds 0 1
3: num 1
4: bytes 1 7a
";

/// The first namespace takes three frames, two of them in one step, and the second one. The gate is told of each, and
/// between the step that takes it and the next one: of steps that are all made before it is told of any, it would be
/// told of the frames apart.
#[test]
fn a_gate_is_told_of_each_frame(rt: HostRuntime) -> Result<(), Fail> {
    let gate = Frames::new();
    let (end, writer) = played(&rt, rt.alloc(), WRITES, WRITTEN, &gate);
    assert!(rt; end.is_ok());
    assert!(rt; writer.is_whole());
    assert!(rt; gate.are(9, 3, 1));
    Ok(())
}

/// Scripts of which nothing is run, and the name that is chosen: a line is refused, one retires a namespace, and nobody
/// has the name.
const NOT_RUN: [(&str, Option<&str>); 3] = [
    ("pool 1\nspace red 1\nred spawn 5 5 022\nred jump\n", None),
    ("pool 1\nspace red 1\nred spawn 5 5 022\nretire red\n", None),
    ("pool 1\nspace red 1\nred spawn 5 5 022\n", Some("green")),
];

/// The gate is told nothing of these.
#[test]
fn a_gate_is_told_nothing_where_nothing_is_run(rt: HostRuntime) -> Result<(), Fail> {
    for (script, name) in NOT_RUN {
        let gate = Frames::new();
        let (end, writer) = played_of(&rt, rt.alloc(), script, "", name, &gate);
        assert!(rt; end.is_err() && writer.is_empty(), "{script}");
        assert!(rt; gate.are(0, 0, 0), "{script}");
    }
    Ok(())
}

const RED_WRITTEN: &str = "== red
1: pid 1
2: fds 0 1
3: num 8192
4: num 65536
5: num 1
";

const BLUE_WRITTEN: &str = "== blue
1: pid 1
2: fds 0 1
3: num 1
4: bytes 1 7a
";

/// Of a name that is chosen the gate is told of the same steps and frames, and of no other namespace's.
#[test]
fn a_gate_is_told_of_the_chosen_namespace_alone(rt: HostRuntime) -> Result<(), Fail> {
    let rows = [
        ("red", RED_WRITTEN, [5, 3, 0]),
        ("blue", BLUE_WRITTEN, [4, 0, 1]),
    ];
    for (name, text, [steps, red, blue]) in rows {
        let gate = Frames::new();
        let (end, writer) = played_of(&rt, rt.alloc(), WRITES, text, Some(name), &gate);
        assert!(rt; end.is_ok());
        assert!(rt; writer.is_whole());
        assert!(rt; gate.are(steps, red, blue), "{name}");
    }
    Ok(())
}
