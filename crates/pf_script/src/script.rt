ghost use Rattle.std.specs.Prelude.{◌≡◌, ◌≢◌, ◌≤◌, ◌<◌, map, take, length, slice_get, IfOk, OnOk, OnErr, IfSome, Some, None, Ok, Err, true, option_copied};
ghost use Rattle.pf_base.specs.declared.TheConstants.{MAX_FRAMES};
ghost use Rattle.pf_script.specs.Script as grammar;
ghost use Rattle.pf_script.specs.Script.{blank, place_of, reserved, number_or};
ghost use Rattle.pf_script.specs.Places.{places_of};
ghost use Rattle.pf_script.specs.Sound.{first_stray, AreGiven};
ghost use Rattle.pf_words.specs.Faults.{Gives, Moves};
ghost use Rattle.pf_words.specs.declared.fault.LineFault.TheVariants as faults;

use crate::line::Line;
use crate::steps::Steps;
use indexmap::IndexMap;
use pf_base::{Config, MAX_FRAMES, MAX_NAMESPACES, MAX_RESERVE};
use pf_words::{Cause, LineFault, cut_line, is_name_word, number_32, small_number, step_of};
use std::alloc::{AllocError, Global};
use std::marker::Model;

/// The longest line in bytes, its line feed not counted.
const LINE_LIMIT: usize = 2_200_000;

/// What a script says: its pool, its namespaces, and what its lines behind the space lines say, each with its
/// namespace's number, from 0.
#[derive(Debug, Drop)]
pub struct Script {
    frames: u32,
    // How many namespaces there are from the start.
    opening: u32,
    // Limits by name, in the order of their lines.
    spaces: IndexMap<Vec<u8>, Config>,
    steps: Steps,
}

impl Model for Script {
    ghost use Rattle.pf_script.specs.Script.{Draft};
    ghost use Rattle.pf_script.specs.Named.{named};
    ghost use Rattle.pf_script.specs.Sound.{IsSound};

    ghost Value = { Draft };

    ghost view = { λ s. record {
      frames = s.frames;
      opening = s.opening;
      spaces = named s.spaces.entries;
      steps = s.steps;
    } };

    ghost invariant = { λ s.
        IsSound (record {
          frames = s.frames;
          opening = s.opening;
          spaces = named s.spaces.entries;
          steps = s.steps;
        }) };
}

/// Whether a line is empty or begins with `#`.
fn is_skipped(text: &[u8]) -> bool
    ensures { result ≡ grammar.is_skipped text.now }
{
    match text {
        [] => true,
        [first, ..] => *first == b'#',
    }
}

/// A number of 32 bits, or this one where the word is left out.
fn number_or(n: u32, word: Option<&[u8]>) -> Result<u32, LineFault>
    ensures read { Gives result (number_or n (option_copied word.entry)) }
    ensures none { result ≢ Err faults.NoMemory }
{
    match word {
        None => Ok(n),
        Some(word) => number_32(word),
    }
}

#[tactic(auto, unfolding(crate::specs::Script::limits_with))]
fn limits_with(
    reserve: &[u8],
    soft: Option<&[u8]>,
    hard: Option<&[u8]>,
    max: Option<&[u8]>,
) -> Result<Config, LineFault>
    ensures limits { Gives result (grammar.limits_with reserve.now
        (option_copied soft.entry) (option_copied hard.entry) (option_copied max.entry)) }
    ensures none { result ≢ Err faults.NoMemory }
{
    let reserve = small_number(MAX_RESERVE, reserve)?;
    let soft = number_or(Config::DEFAULT_SOFT, soft)?;
    let hard = number_or(Config::DEFAULT_HARD, hard)?;
    let max = number_or(Config::DEFAULT_MAX, max)?;
    match Config::new(reserve, soft, hard, max) {
        Ok(config) => Ok(config),
        Err(_) => Err(LineFault::Refused(Cause::BadNumber)),
    }
}

impl Script {
    /// A script that says nothing.
    pub fn blank(alloc: Global) -> Result<Self, AllocError>
        ensures { IfOk result (λ s. s ≡ blank) }
    {
        let steps = Steps::new(alloc)?;
        Ok(Script {
            frames: 0,
            opening: 0,
            spaces: IndexMap::new(alloc),
            steps,
        })
    }

    /// The pool's frames, 0 where there is no pool line.
    pub fn frames(&self) -> u32
        ensures { result ≡ self.now.frames }
    {
        self.frames
    }

    /// How many namespaces there are from the start, one for each space line: they have the first numbers. Each other is
    /// admitted by a line.
    pub fn opening(&self) -> usize
        ensures opening { result ≡ self.now.opening }
        ensures most { result ≤ length self.now.spaces }
    {
        self.opening as usize
    }

    /// How many namespaces there are, those of the admit lines among them.
    pub fn count_spaces(&self) -> usize
        ensures count { result ≡ length self.now.spaces }
        ensures most { result ≤ 64 }
    {
        self.spaces.len()
    }

    /// The name of the namespace with this number. The numbers are in the order of the namespaces' lines.
    pub fn name(&self, place: usize) -> &[u8]
        requires { place < length self.now.spaces }
        ensures { slice_get (map (λ s. s.0) self.now.spaces) place ≡ Some result.now }
    {
        let (name, _) = self.spaces.get_index(place).unwrap();
        name.as_slice()
    }

    /// The limits of each namespace that is there from the start, in the order of their numbers. They reserve no more frames
    /// than the pool has.
    #[tactic(auto, using(crate::proofs::ScriptNames::first_limits))]
    pub fn configs(&self, alloc: Global) -> Result<Vec<Config>, AllocError>
        ensures limits { IfOk result
            (λ configs. configs.items ≡ map (λ s. s.1) (take self.now.opening self.now.spaces)) }
        ensures most { IfOk result (λ configs. length configs.items ≤ 64) }
        ensures small { self.now.frames ≤ MAX_FRAMES }
        ensures fits { reserved (take self.now.opening self.now.spaces) ≤ self.now.frames }
    {
        let mut configs: Vec<Config> = self.spaces.values().copied().collect(alloc)?;
        configs.truncate(self.opening as usize);
        Ok(configs)
    }

    /// What the lines behind the space lines say, each with its namespace's number. A line's namespace is there from the
    /// start, or an earlier line admits it; the line that admits it has the next number.
    pub fn steps(&self) -> &[(u32, Line)]
        ensures steps { result.now ≡ self.now.steps }
        ensures exist { first_stray (length self.now.spaces) result.now ≡ None }
        ensures known { AreGiven self.now.opening result.now (length self.now.spaces) }
    {
        self.steps.as_slice()
    }

    /// The places of one namespace's lines among all of these.
    pub fn places(&self, ns: usize) -> &[u32]
        requires { ns < length self.now.spaces }
        ensures { result.now ≡ places_of self.now.steps ns }
    {
        self.steps.places(ns)
    }

    /// The limits of the namespace with this number. One that is there from the start reserves no more frames than the
    /// pool has.
    pub fn config(&self, ns: usize) -> Config
        requires { ns < length self.now.spaces }
        ensures limits { slice_get (map (λ s. s.1) self.now.spaces) ns ≡ Some result }
        ensures small { self.now.frames ≤ MAX_FRAMES }
        ensures fits { ns < self.now.opening → result.reserve ≤ self.now.frames }
    {
        let (_, config) = self.spaces.get_index(ns).unwrap();
        *config
    }

    /// The sum of the reservations. They are all in the pool where no line follows the space lines yet.
    #[tactic(auto, using(crate::proofs::ScriptNames::reserved_is))]
    fn reserved_frames(&self) -> u64
        requires { reserved self.now.spaces ≤ self.now.frames }
        ensures sum { result ≡ reserved self.now.spaces }
        ensures most { result ≤ MAX_FRAMES }
    {
        self.spaces
            .values()
            .map(|config| u64::from(config.reserve()))
            .sum()
    }

    /// The number of the namespace with this name.
    #[tactic(auto, using(crate::proofs::ScriptNames::place_is))]
    pub fn place(&self, name: &[u8]) -> Option<u32>
        ensures place { result ≡ place_of name.now self.now.spaces }
        ensures within { IfSome result (λ place. place < length self.now.spaces) }
    {
        match self.spaces.get_index_of(name) {
            Some(place) => Some(place as u32),
            None => None,
        }
    }

    /// Whether the namespace with this number has this name.
    fn is_named(&self, place: u32, name: &[u8]) -> bool
        ensures place { result ≡ true → place_of name.now self.now.spaces ≡ Some place }
        ensures within { result ≡ true → place < length self.now.spaces }
    {
        match self.spaces.get_index(place as usize) {
            Some((own, _)) => own.as_slice() == name,
            None => false,
        }
    }

    /// The number of the last step's namespace, 0 where there is no step.
    fn last(&self) -> u32 {
        match self.steps.as_slice().last() {
            Some((ns, _)) => *ns,
            None => 0,
        }
    }

    /// The number of the namespace with this name. It is mostly that of the last step, or the next one.
    fn place_of_step(&self, name: &[u8]) -> Option<u32>
        ensures place { result ≡ place_of name.now self.now.spaces }
        ensures within { IfSome result (λ place. place < length self.now.spaces) }
    {
        let last = self.last();
        if self.is_named(last, name) {
            return Some(last);
        }
        let next = last.saturating_add(1);
        if self.is_named(next, name) {
            return Some(next);
        }
        self.place(name)
    }

    #[tactic(auto, unfolding(crate::specs::Script::pool_with))]
    fn pool_with(&mut self, frames: &[u8]) -> Result<(), LineFault>
        requires { self.old.frames ≡ 0 }
        ensures moves { Moves result self.new (grammar.pool_with self.old frames.now) }
        ensures unchanged { OnErr result (self.new ≡ self.old) }
        ensures none { result ≢ Err faults.NoMemory }
    {
        let frames = small_number(MAX_FRAMES as u32, frames)?;
        if frames == 0 {
            return Err(LineFault::Refused(Cause::BadNumber));
        }
        self.frames = frames;
        Ok(())
    }

    #[tactic(auto, unfolding(crate::specs::Script::pool_line))]
    fn pool_line(&mut self, words: &[&[u8]]) -> Result<(), LineFault>
        requires { self.old.frames ≡ 0 }
        ensures moves { Moves result self.new (grammar.pool_line self.old (map (λ w. w.now) words.now)) }
        ensures unchanged { OnErr result (self.new ≡ self.old) }
        ensures none { result ≢ Err faults.NoMemory }
    {
        match words {
            [frames] => self.pool_with(frames),
            _ => Err(LineFault::Refused(Cause::WrongWords)),
        }
    }

    #[tactic(auto, unfolding(crate::specs::Script::with_limits))]
    fn with_limits(&mut self, alloc: Global, name: &[u8], config: Config) -> Result<(), LineFault>
        requires none { length self.old.steps ≡ 0 }
        requires few { length self.old.spaces < 64 }
        requires fresh { place_of name.now self.old.spaces ≡ None }
        ensures moves { Moves result self.new (grammar.with_limits self.old name.now config) }
        ensures unchanged { OnErr result (self.new ≡ self.old) }
    {
        let sum = self.reserved_frames() + u64::from(config.reserve());
        if sum > u64::from(self.frames) {
            return Err(LineFault::Refused(Cause::ReservationsExceed {
                sum,
                frames: self.frames,
            }));
        }
        let opening = self.spaces.len() as u32 + 1;
        let name = Vec::from_slice(alloc, name)?;
        self.spaces.insert(name, config)?;
        self.opening = opening;
        Ok(())
    }

    /// The limits of a namespace more, whose name no other has.
    #[tactic(auto, unfolding(crate::specs::Script::fresh_limits))]
    fn fresh_limits(
        &self,
        name: &[u8],
        reserve: &[u8],
        soft: Option<&[u8]>,
        hard: Option<&[u8]>,
        max: Option<&[u8]>,
    ) -> Result<Config, LineFault>
        ensures limits { Gives result (grammar.fresh_limits self.now name.now reserve.now
            (option_copied soft.entry) (option_copied hard.entry) (option_copied max.entry)) }
        ensures few { OnOk result (length self.now.spaces < 64) }
        ensures fresh { OnOk result (place_of name.now self.now.spaces ≡ None) }
        ensures none { result ≢ Err faults.NoMemory }
    {
        if !is_name_word(name) {
            return Err(LineFault::Refused(Cause::BadName));
        }
        if self.place(name).is_some() {
            return Err(LineFault::Refused(Cause::NameTwice));
        }
        if self.spaces.len() >= MAX_NAMESPACES {
            return Err(LineFault::Refused(Cause::TooManyNamespaces));
        }
        limits_with(reserve, soft, hard, max)
    }

    #[tactic(auto, unfolding(crate::specs::Script::space_with))]
    fn space_with(
        &mut self,
        alloc: Global,
        name: &[u8],
        reserve: &[u8],
        soft: Option<&[u8]>,
        hard: Option<&[u8]>,
        max: Option<&[u8]>,
    ) -> Result<(), LineFault>
        requires { length self.old.steps ≡ 0 }
        ensures moves { Moves result self.new (grammar.space_with self.old name.now reserve.now
            (option_copied soft.entry) (option_copied hard.entry) (option_copied max.entry)) }
        ensures unchanged { OnErr result (self.new ≡ self.old) }
    {
        let config = self.fresh_limits(name, reserve, soft, hard, max)?;
        self.with_limits(alloc, name, config)
    }

    #[tactic(auto, unfolding(crate::specs::Script::space_words))]
    fn space_words(&mut self, alloc: Global, words: &[&[u8]]) -> Result<(), LineFault>
        requires { length self.old.steps ≡ 0 }
        ensures moves { Moves result self.new (grammar.space_words self.old (map (λ w. w.now) words.now)) }
        ensures unchanged { OnErr result (self.new ≡ self.old) }
    {
        match words {
            [name, reserve] => self.space_with(alloc, name, reserve, None, None, None),
            [name, reserve, soft] => self.space_with(alloc, name, reserve, Some(soft), None, None),
            [name, reserve, soft, hard] => {
                self.space_with(alloc, name, reserve, Some(soft), Some(hard), None)
            }
            [name, reserve, soft, hard, max] => {
                self.space_with(alloc, name, reserve, Some(soft), Some(hard), Some(max))
            }
            _ => Err(LineFault::Refused(Cause::WrongWords)),
        }
    }

    #[tactic(auto, unfolding(crate::specs::Script::space_line))]
    fn space_line(&mut self, alloc: Global, words: &[&[u8]]) -> Result<(), LineFault>
        ensures moves { Moves result self.new (grammar.space_line self.old (map (λ w. w.now) words.now)) }
        ensures unchanged { OnErr result (self.new ≡ self.old) }
    {
        if self.steps.as_slice().is_empty() {
            self.space_words(alloc, words)
        } else {
            Err(LineFault::Refused(Cause::LateSpace))
        }
    }

    /// Takes on a namespace that a line admits.
    fn admit(&mut self, alloc: Global, name: &[u8], config: Config) -> Result<(), LineFault>
        requires few { length self.old.spaces < 64 }
        requires fresh { place_of name.now self.old.spaces ≡ None }
        ensures moves { Moves result self.new (Ok (grammar.admitted self.old name.now config)) }
        ensures unchanged { OnErr result (self.new ≡ self.old) }
    {
        let place = self.spaces.len() as u32;
        let name = Vec::from_slice(alloc, name)?;
        self.spaces.reserve(1)?;
        self.steps.push(place, Line::Admit)?;
        // The map has room.
        self.spaces.insert(name, config).unwrap();
        Ok(())
    }

    #[tactic(auto, unfolding(crate::specs::Script::admit_with))]
    fn admit_with(
        &mut self,
        alloc: Global,
        name: &[u8],
        reserve: &[u8],
        soft: Option<&[u8]>,
        hard: Option<&[u8]>,
        max: Option<&[u8]>,
    ) -> Result<(), LineFault>
        ensures moves { Moves result self.new (grammar.admit_with self.old name.now reserve.now
            (option_copied soft.entry) (option_copied hard.entry) (option_copied max.entry)) }
        ensures unchanged { OnErr result (self.new ≡ self.old) }
    {
        let config = self.fresh_limits(name, reserve, soft, hard, max)?;
        self.admit(alloc, name, config)
    }

    #[tactic(auto, unfolding(crate::specs::Script::admit_line))]
    fn admit_line(&mut self, alloc: Global, words: &[&[u8]]) -> Result<(), LineFault>
        ensures moves { Moves result self.new (grammar.admit_line self.old (map (λ w. w.now) words.now)) }
        ensures unchanged { OnErr result (self.new ≡ self.old) }
    {
        match words {
            [name, reserve] => self.admit_with(alloc, name, reserve, None, None, None),
            [name, reserve, soft] => self.admit_with(alloc, name, reserve, Some(soft), None, None),
            [name, reserve, soft, hard] => {
                self.admit_with(alloc, name, reserve, Some(soft), Some(hard), None)
            }
            [name, reserve, soft, hard, max] => {
                self.admit_with(alloc, name, reserve, Some(soft), Some(hard), Some(max))
            }
            _ => Err(LineFault::Refused(Cause::WrongWords)),
        }
    }

    #[tactic(auto, unfolding(crate::specs::Script::retire_with))]
    fn retire_with(&mut self, name: &[u8]) -> Result<(), LineFault>
        ensures moves { Moves result self.new (grammar.retire_with self.old name.now) }
        ensures unchanged { OnErr result (self.new ≡ self.old) }
    {
        let Some(place) = self.place(name) else {
            return Err(LineFault::Refused(Cause::UnknownNamespace));
        };
        self.steps.push(place, Line::Retire)?;
        Ok(())
    }

    #[tactic(auto, unfolding(crate::specs::Script::retire_line))]
    fn retire_line(&mut self, words: &[&[u8]]) -> Result<(), LineFault>
        ensures moves { Moves result self.new (grammar.retire_line self.old (map (λ w. w.now) words.now)) }
        ensures unchanged { OnErr result (self.new ≡ self.old) }
    {
        match words {
            [name] => self.retire_with(name),
            _ => Err(LineFault::Refused(Cause::WrongWords)),
        }
    }

    #[tactic(auto, unfolding(crate::specs::Script::step_line))]
    fn step_line(&mut self, alloc: Global, name: &[u8], words: &[&[u8]]) -> Result<(), LineFault>
        ensures moves { Moves result self.new (grammar.step_line self.old name.now (map (λ w. w.now) words.now)) }
        ensures unchanged { OnErr result (self.new ≡ self.old) }
    {
        let Some(place) = self.place_of_step(name) else {
            return Err(LineFault::Refused(Cause::UnknownNamespace));
        };
        let step = step_of(alloc, words)?;
        self.steps.push(place, Line::Step(step))?;
        Ok(())
    }

    #[tactic(auto, unfolding(crate::specs::Script::first_word_line))]
    fn first_word_line(
        &mut self,
        alloc: Global,
        first: &[u8],
        words: &[&[u8]],
    ) -> Result<(), LineFault>
        ensures moves { Moves result self.new
            (grammar.first_word_line self.old first.now (map (λ w. w.now) words.now)) }
        ensures unchanged { OnErr result (self.new ≡ self.old) }
    {
        if first == b"pool".as_slice() {
            if self.frames == 0 {
                self.pool_line(words)
            } else {
                Err(LineFault::Refused(Cause::SecondPool))
            }
        } else if self.frames == 0 {
            Err(LineFault::Refused(Cause::NoPool))
        } else if first == b"space".as_slice() {
            self.space_line(alloc, words)
        } else if first == b"admit".as_slice() {
            self.admit_line(alloc, words)
        } else if first == b"retire".as_slice() {
            self.retire_line(words)
        } else {
            self.step_line(alloc, first, words)
        }
    }

    #[tactic(auto, unfolding(crate::specs::Script::words_line))]
    fn words_line(&mut self, alloc: Global, words: &[&[u8]]) -> Result<(), LineFault>
        ensures moves { Moves result self.new (grammar.words_line self.old (map (λ w. w.now) words.now)) }
        ensures unchanged { OnErr result (self.new ≡ self.old) }
    {
        match words {
            [] => Ok(()),
            [first, rest @ ..] => self.first_word_line(alloc, first, rest),
        }
    }

    /// Takes a line that a line feed ended. One that is refused, be it for want of memory, leaves the script as it was.
    /// `words` is where its words are put: what it had doesn't matter.
    #[tactic(auto, unfolding(crate::specs::Script::line_of))]
    pub fn line<'a>(
        &mut self,
        alloc: Global,
        words: &mut Vec<&'a [u8]>,
        text: &'a [u8],
    ) -> Result<(), LineFault>
        ensures moves { Moves result self.new (grammar.line_of self.old text.now) }
        ensures unchanged { OnErr result (self.new ≡ self.old) }
    {
        if text.len() > LINE_LIMIT {
            return Err(LineFault::Refused(Cause::TooLong));
        }
        if is_skipped(text) {
            return Ok(());
        }
        let full = cut_line(words, text)?;
        if !full {
            return Err(LineFault::Refused(Cause::BadSpacing));
        }
        self.words_line(alloc, words.as_slice())
    }

    /// Judges what stands behind the last line feed.
    #[tactic(auto, unfolding(crate::specs::Script::rest_of))]
    pub fn rest(&self, text: &[u8]) -> Result<(), LineFault>
        ensures moves { Moves result self.now (grammar.rest_of self.now text.now) }
        ensures none { result ≢ Err faults.NoMemory }
    {
        if text.is_empty() {
            Ok(())
        } else if text.len() > LINE_LIMIT {
            Err(LineFault::Refused(Cause::TooLong))
        } else {
            Err(LineFault::Refused(Cause::CutShort))
        }
    }
}
