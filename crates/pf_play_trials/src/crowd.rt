//! A gate that holds 63 namespaces at their first step until the 64th has been told its first answer, and that one
//! until all others are held: a replay ends only where each has a thread of its own.

use crate::patience::Patience;
use crate::texts::OPTIONS;
use pf_play::{Collected, Gate, MemoryBytes, ReplayFault, Replayed, replay_threads};
use std::alloc::{AllocError, Global};
use std::sync::Wait;
use std::sync::atomic::{AtomicU64, Ordering};
use std::test::Fail;
use std::thread::Threads;

/// The namespaces, of which the last isn't held.
const NAMESPACES: u32 = 64;

const LAST: u32 = 63;

/// What the gate was told.
#[derive(Drop)]
struct Held {
    /// How many namespaces are held, or were.
    others: AtomicU64,
    /// Not 0: the last namespace goes on to its second step, so its first was answered.
    answered: AtomicU64,
    patience: Patience,
}

impl Held {
    fn new() -> Held {
        Held {
            others: AtomicU64::new(0),
            answered: AtomicU64::new(0),
            patience: Patience::new(),
        }
    }
}

impl Gate for Held {
    ghost passed = { λ _ _ _. Unit {0} };

    ghost framed = { λ _ _. Unit {0} };

    fn pass(&self, ns: u32, place: u64) {
        match (ns == LAST, place) {
            (true, 0) => self.patience.wait_for(&self.others, u64::from(LAST)),
            (true, _) => self.answered.store(1, Ordering::SeqCst),
            (false, 0) => {
                self.others.fetch_add(1, Ordering::SeqCst);
                self.patience.wait_for(&self.answered, 1);
            }
            (false, _) => {}
        }
    }

    fn frame(&self, ns: u32) {
        let _ = ns;
    }
}

/// A script in which each namespace has a process with a pipe.
fn script(alloc: Global) -> Result<String, AllocError> {
    let mut script = format!(in alloc; "pool {NAMESPACES}\n")?;
    for ns in 0..NAMESPACES {
        script.push_str(format!(in alloc; "space n{ns} 1\n")?.as_str())?;
    }
    for ns in 0..NAMESPACES {
        script.push_str(format!(in alloc; "n{ns} spawn 5 5 022\nn{ns} pipe 1\n")?.as_str())?;
    }
    Ok(script)
}

/// Its text.
fn text(alloc: Global) -> Result<String, AllocError> {
    let mut text = String::new(alloc);
    for ns in 0..NAMESPACES {
        text.push_str(format!(in alloc; "== n{ns}\n1: pid 1\n2: fds 0 1\n")?.as_str())?;
    }
    Ok(text)
}

/// What a replay with this gate ends with.
fn played<T: Threads + Wait + Sync>(
    rt: &T,
    alloc: Global,
    writer: &mut Collected,
    script: &str,
    gate: &Held,
) -> Result<Replayed, ReplayFault> {
    let mut reader = MemoryBytes::new(script.as_bytes());
    replay_threads(rt, alloc, &mut reader, writer, &OPTIONS, gate)
}

#[test]
fn sixty_three_are_held_until_the_last_is_answered(rt: HostRuntime) -> Result<(), Fail> {
    let gate = Held::new();
    let (script, text) = (script(rt.alloc())?, text(rt.alloc())?);
    let mut writer = Collected::new(rt.alloc());
    let end = played(&rt, rt.alloc(), &mut writer, script.as_str(), &gate);
    assert!(rt; matches!(end, Ok(replayed) if replayed.nomem == 0));
    assert!(rt; writer.as_slice() == text.as_bytes());
    assert!(rt; gate.patience.is_left());
    assert_eq!(rt; gate.others.load(Ordering::SeqCst), u64::from(LAST));
    Ok(())
}
