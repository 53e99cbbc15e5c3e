ghost use Rattle.std.specs.Prelude.{◌≡◌, ◌≤◌};
ghost use Rattle.pf_base.specs.Limits.{config_of};
ghost use Rattle.pf_base.specs.declared.TheConstants.{MAX_RESERVE};

use crate::{LEAST_PIPE_MAX_SIZE, MAX_PIPE_MAX_SIZE, MAX_RESERVE};
use std::marker::Model;
use thiserror::Error;

/// A namespace's limits, in pages but for the last: how many frames it may hold, and the page limits of its
/// unprivileged users (pipe(7), "/proc files").
///
/// A contract sees the record of the four numbers. There is no other way to make one than `new`, so the
/// ranges that `new` tests hold of each.
#[derive(Clone, Copy, Debug, PartialEq, Eq)]
pub struct Config {
    reserve: u32,
    soft: u32,
    hard: u32,
    max: u32,
}

impl Model for Config {
    ghost use Rattle.std.specs.Prelude.{IsTrue};
    ghost use Rattle.pf_base.specs.Limits.{Limits, is_config};

    ghost Value = { Limits };

    ghost view = { λ c. record { reserve = c.reserve; soft = c.soft; hard = c.hard; max = c.max } };

    ghost invariant = { λ c. IsTrue (is_config c.reserve c.max) };

    ghost inverse = { λ l. record { reserve = l.reserve; soft = l.soft; hard = l.hard; max = l.max } };
}

/// Why four numbers are no `Config`.
#[derive(Clone, Copy, Debug, PartialEq, Eq, Error)]
pub enum ConfigFault {
    /// The reservation is above 65,536 frames.
    #[error("the reservation is above 65536 frames")]
    ReserveTooLarge,
    /// pipe-max-size is no power of two from 65,536 to 268,435,456.
    #[error("pipe-max-size is no power of two from 65536 to 268435456")]
    BadMax,
}

impl Config {
    /// pipe-user-pages-soft where nobody says otherwise, in pages.
    pub const DEFAULT_SOFT: u32 = 16_384;

    /// pipe-user-pages-hard where nobody says otherwise: 0 is no limit.
    pub const DEFAULT_HARD: u32 = 0;

    /// pipe-max-size where nobody says otherwise, in bytes.
    pub const DEFAULT_MAX: u32 = 1_048_576;

    /// The limits of a namespace: `reserve` frames, pipe-user-pages-soft and pipe-user-pages-hard in pages
    /// (0 is no limit), pipe-max-size in bytes.
    pub fn new(reserve: u32, soft: u32, hard: u32, max: u32) -> Result<Self, ConfigFault>
        ensures { result ≡ config_of reserve soft hard max }
    {
        if reserve > MAX_RESERVE {
            return Err(ConfigFault::ReserveTooLarge);
        }
        if !(max >= LEAST_PIPE_MAX_SIZE && max <= MAX_PIPE_MAX_SIZE && max.is_power_of_two()) {
            return Err(ConfigFault::BadMax);
        }
        Ok(Config {
            reserve,
            soft,
            hard,
            max,
        })
    }

    /// The reservation, in frames.
    pub fn reserve(self) -> u32
        ensures value { result ≡ self.reserve }
        ensures most { result ≤ MAX_RESERVE }
    {
        self.reserve
    }

    /// pipe-user-pages-soft, in pages: 0 is no limit.
    pub fn soft(self) -> u32
        ensures { result ≡ self.soft }
    {
        self.soft
    }

    /// pipe-user-pages-hard, in pages: 0 is no limit.
    pub fn hard(self) -> u32
        ensures { result ≡ self.hard }
    {
        self.hard
    }

    /// pipe-max-size, in bytes.
    pub fn max(self) -> u32
        ensures { result ≡ self.max }
    {
        self.max
    }
}
