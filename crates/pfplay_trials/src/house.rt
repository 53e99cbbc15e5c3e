use crate::trouble::Trouble;
use pf_base::EventAnswer;
use pf_hub::Hub;
use pf_play::frames_of;
use pf_script::{Line, Script};
use std::alloc::Global;

/// A hub of two namespaces, 0 and 1: a tenant, and a neighbour that makes the steps of a script of its own.
#[derive(Drop)]
pub(crate) struct House<'a> {
    hub: Hub<Global>,
    tenant: u32,
    neighbour: u32,
    /// The neighbour's lines, which are steps.
    load: &'a [(u32, Line)],
    /// How many of them were made.
    made: usize,
}

/// A hub of these scripts' namespaces, over frames that hold this byte throughout.
fn hub_of(alloc: Global, scripts: [&Script; 2], fill: u8) -> Result<Hub<Global>, Trouble> {
    let mut count = 0u32;
    let mut configs = Vec::new(alloc);
    for script in scripts {
        count = count.saturating_add(script.frames());
        for config in &script.configs(alloc)? {
            configs.push((*config, alloc))?;
        }
    }
    let frames = frames_of(alloc, count, fill)?;
    Hub::new(alloc, frames, configs).map_err(Trouble::NoHub)
}

impl<'a> House<'a> {
    /// A hub where the tenant comes first.
    pub(crate) fn before(
        alloc: Global,
        tenant: &Script,
        neighbour: &'a Script,
        fill: u8,
    ) -> Result<Self, Trouble> {
        Ok(House {
            hub: hub_of(alloc, [tenant, neighbour], fill)?,
            tenant: 0,
            neighbour: 1,
            load: neighbour.steps(),
            made: 0,
        })
    }

    /// A hub where the neighbour comes first.
    pub(crate) fn behind(
        alloc: Global,
        tenant: &Script,
        neighbour: &'a Script,
        fill: u8,
    ) -> Result<Self, Trouble> {
        Ok(House {
            hub: hub_of(alloc, [neighbour, tenant], fill)?,
            tenant: 1,
            neighbour: 0,
            load: neighbour.steps(),
            made: 0,
        })
    }

    /// A line's step, of the namespace with this number.
    fn step(&mut self, ns: u32, line: &Line) -> Result<EventAnswer, Trouble> {
        let Line::Step(step) = line else {
            return Err(Trouble::NoStep);
        };
        if !self.hub.lives(ns) {
            return Err(Trouble::NoNamespace);
        }
        Ok(EventAnswer::Answer(self.hub.step(ns, step)))
    }

    /// The neighbour's next step, if it has one left.
    fn step_of_neighbour(&mut self) -> Result<(), Trouble> {
        let (load, neighbour) = (self.load, self.neighbour);
        if let Some((_, line)) = load.get(self.made) {
            let _ = self.step(neighbour, line)?;
            self.made = self.made.saturating_add(1);
        }
        Ok(())
    }

    /// All steps of the neighbour. Then it begins anew.
    pub(crate) fn load_whole(&mut self) -> Result<(), Trouble> {
        for _ in 0..self.load.len() {
            self.step_of_neighbour()?;
        }
        self.made = 0;
        Ok(())
    }

    /// A step of the tenant, behind one of the neighbour's.
    pub(crate) fn tell(&mut self, line: &Line) -> Result<EventAnswer, Trouble> {
        self.step_of_neighbour()?;
        let tenant = self.tenant;
        self.step(tenant, line)
    }
}
