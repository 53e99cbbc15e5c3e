ghost use Rattle.std.specs.Prelude.{◌≡◌, []};
ghost use Rattle.pf_service.specs.Transcripts.{new_transcript};

use pf_base::{Config, Reply, Step};
use std::alloc::Global;
use std::marker::Model;

/// What a namespace was asked and told, in the order of its events, under its limits.
///
/// A contract sees the limits, and the list of the steps with their replies.
pub struct Transcript {
    config: Config,
    pub(crate) entries: Vec<(Step, Reply)>,
}

// Written, and not derived: so whoever lets it go calls this, and needn't prove once more how each part of it goes.
impl Drop for Transcript {
    fn drop(self) {
        let Transcript { config: _, entries } = self;
        drop(entries);
    }
}

impl Model for Transcript {
    ghost use Rattle.pf_service.specs.Transcripts.{OneTranscript};

    ghost Value = { OneTranscript };

    ghost view = { λ t. record { limits = t.config; entries = t.entries.items } };
}

impl Transcript {
    /// That of a namespace which was asked nothing yet, with no allocation.
    pub(crate) fn new(alloc: Global, config: Config) -> Self
        ensures { result ≡ new_transcript config }
    {
        Transcript {
            config,
            entries: Vec::new(alloc),
        }
    }

    /// The limits.
    pub fn config(&self) -> Config
        ensures { result ≡ self.now.limits }
    {
        self.config
    }

    /// The steps with their replies.
    pub fn entries(&self) -> &[(Step, Reply)]
        ensures { result.now ≡ self.now.entries }
    {
        self.entries.as_slice()
    }
}

/// The transcripts of all namespaces, by their numbers. A contract sees the list of them.
#[derive(Drop)]
pub struct Transcripts {
    each: Vec<Transcript>,
}

impl Model for Transcripts {
    ghost use Rattle.std.specs.Prelude.{List};
    ghost use Rattle.pf_service.specs.Transcripts.{OneTranscript};

    ghost Value = { List OneTranscript };

    ghost view = { λ t. t.each.items };
}

impl Transcripts {
    /// These transcripts, with no allocation.
    pub(crate) fn new(each: Vec<Transcript>) -> Self
        ensures { result ≡ each.items }
    {
        Transcripts { each }
    }

    /// The transcripts.
    pub fn as_slice(&self) -> &[Transcript]
        ensures { result.now ≡ self.now }
    {
        self.each.as_slice()
    }
}
