use crate::heard::Heard;
use ic_base::NoMemory;
use std::alloc::Global;

/// What was heard, where somebody listens. In a box, since mostly nobody does.
pub struct Ear {
    heard: Option<Box<Heard>>,
}

impl Drop for Ear {
    fn drop(self) {
        let Ear { heard: _heard } = self;
    }
}

impl Ear {
    /// Nobody listens.
    pub fn closed() -> Ear {
        Ear { heard: None }
    }

    /// Somebody listens, and nothing was said.
    pub fn open(alloc: Global) -> Result<Ear, NoMemory> {
        let heard = Box::new(alloc, Heard::new(alloc))?;
        Ok(Ear { heard: Some(heard) })
    }

    /// Whoever heard this goes on listening.
    pub fn of(heard: Box<Heard>) -> Ear {
        Ear { heard: Some(heard) }
    }

    /// What was heard, if somebody listens.
    pub fn into_heard(self) -> Option<Box<Heard>> {
        let Ear { heard } = self;
        heard
    }

    pub fn is_open(&self) -> bool {
        self.heard.is_some()
    }

    /// Gives what was heard, and goes on listening.
    pub fn drain(&mut self, alloc: Global) -> Heard {
        match &mut self.heard {
            None => Heard::new(alloc),
            Some(heard) => std::mem::replace(&mut **heard, Heard::new(alloc)),
        }
    }
}
