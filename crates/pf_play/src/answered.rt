//! What a run answers, in the form in which it is kept, counted and printed.

ghost use Rattle.std.specs.Prelude.{◌≡◌, ℕ, List, Option, length, map, OnOk, OnErr};
ghost use Rattle.pf_base.specs.declared.admission.EventAnswer.{EventAnswer};
ghost use Rattle.pf_script.specs.Ports.{IsWritten, IsCut};
ghost use Rattle.pf_script.specs.Text.{text};
ghost use Rattle.pf_play.specs.Answered.{Holds, AreAllApart};
ghost use Rattle.pf_play.specs.Plays.{nomem_of};

use crate::engine::count_nomem;
use pf_script::{Script, Sink, Told, WriteFault, print_apart, print_told};

/// The answers of a run.
#[derive(Debug, Drop)]
pub enum Answered {
    /// Those to the lines of all names. The ones to each name's lines stand side by side, as they are printed one after the
    /// other.
    All(Vec<Vec<Told>>),
    /// Those to the lines of the name with this number, which were run alone.
    Alone(u32, Vec<Told>),
}

/// How many lines a script has.
fn count_lines(script: &Script) -> u64
    ensures { result ≡ length script.now.steps }
{
    script.steps().len() as u64
}

/// How many answers to the lines of all names say that memory was wanted.
fn count_apart(script: &Script, own: &[Vec<Told>]) -> u64
    requires { (answers : List EventAnswer) × AreAllApart script.now answers (map (λ v. v.items) own.now) }
    ensures { (answers : List EventAnswer) → AreAllApart script.now answers (map (λ v. v.items) own.now) →
        result ≡ nomem_of answers }
{
    // Each line is one of these names', and no more are counted than there are lines.
    let _lines = script.steps();
    let _most = count_lines(script);
    let mut count: u64 = 0;
    for ns in 0..own.len() {
        count += count_nomem(own[ns].as_slice());
    }
    count
}

impl Answered {
    /// How many of these answers say that memory was wanted.
    pub fn count_nomem(&self, script: &Script) -> u64
        requires { (only : Option ℕ) × (answers : List EventAnswer) × Holds script.now self.now only answers }
        ensures { (only : Option ℕ) (answers : List EventAnswer) → Holds script.now self.now only answers →
            result ≡ nomem_of answers }
    {
        match self {
            Answered::All(own) => count_apart(script, own.as_slice()),
            Answered::Alone(_, own) => count_nomem(own.as_slice()),
        }
    }

    /// Prints their text.
    pub fn print<W: Sink>(&self, writer: &mut W, script: &Script) -> Result<(), WriteFault>
        requires { (only : Option ℕ) × (answers : List EventAnswer) × Holds script.now self.now only answers }
        ensures written { (only : Option ℕ) (answers : List EventAnswer) → Holds script.now self.now only answers →
            OnOk result (IsWritten (W.output writer.old) (W.output writer.new) (text script.now answers only)) }
        ensures cut { (only : Option ℕ) (answers : List EventAnswer) → Holds script.now self.now only answers →
            OnErr result (IsCut (W.output writer.old) (W.output writer.new) (text script.now answers only)) }
    {
        match self {
            Answered::All(own) => print_apart(writer, script, own.as_slice()),
            Answered::Alone(ns, own) => print_told(writer, script, own.as_slice(), Some(*ns)),
        }
    }
}
