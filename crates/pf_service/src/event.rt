ghost use Rattle.std.specs.Prelude.{◌≡◌, ◌↔◌, IsTrue};

use pf_base::{Reply, Step};

/// An event of a namespace, as a seat keeps it: the step that its caller gave, what the caller was told, and the place
/// of both in the namespace's transcript, counted from 0.
#[derive(Debug, Drop)]
pub struct Event {
    pub place: u64,
    pub step: Step,
    pub reply: Reply,
}

/// Whether an entry of a transcript is this event's step and reply.
pub(crate) fn is_same(entry: &(Step, Reply), event: &Event) -> bool
    ensures { IsTrue result ↔ (entry.now ≡ (event.now.step, event.now.reply)) }
{
    entry.0.is_same(&event.step) && entry.1.is_same(&event.reply)
}
