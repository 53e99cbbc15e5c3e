ghost use Rattle.std.specs.Prelude.{◌≡◌};
ghost use Rattle.pf_service.specs.Transcripts.{IsLone};

use crate::transcript::Transcript;
use std::marker::Model;

/// What stays of a namespace that is retired: its limits, and what it was asked and told, which is the lone machine's.
///
/// A contract sees it as the transcript.
#[derive(Drop)]
pub(crate) struct Retired {
    transcript: Transcript,
}

impl Model for Retired {
    ghost use Rattle.pf_service.specs.Transcripts.{OneTranscript, IsLone};

    ghost Value = { OneTranscript };

    ghost view = { λ r. r.transcript };

    ghost invariant = { λ r. IsLone r.transcript };
}

impl Retired {
    /// What a namespace that goes was asked and told.
    pub(crate) fn new(transcript: Transcript) -> Self
        requires alone { IsLone transcript }
        ensures { result ≡ transcript }
    {
        Retired { transcript }
    }

    /// What it was asked and told.
    pub(crate) fn into_transcript(self) -> Transcript
        ensures transcript { result ≡ self }
        ensures alone { IsLone result }
    {
        self.transcript
    }
}
