// The variables that moved since their last visit. Nothing is claimed of it.
use std::alloc::{AllocError, Global};

#[derive(Drop)]
pub(crate) struct Moved {
    flags: Vec<bool>,
    // At least those with a flag.
    list: Vec<usize>,
}

impl Moved {
    // All of so many variables.
    pub(crate) fn all(alloc: Global, count: usize) -> Result<Moved, AllocError> {
        let flags = vec![in alloc; true; count]?;
        let list = (0..count).collect(alloc)?;
        Ok(Moved { flags, list })
    }

    pub(crate) fn list(&self) -> &[usize] {
        &self.list
    }

    pub(crate) fn has(&self, variable: usize) -> bool {
        variable < self.flags.len() && self.flags[variable]
    }

    pub(crate) fn push(&mut self, variable: usize) -> Result<(), AllocError> {
        if variable < self.flags.len() && !self.flags[variable] {
            self.flags[variable] = true;
            self.list.push(variable)?;
        }
        Ok(())
    }

    // The list is empty for those that move from now on. The flags stay.
    pub(crate) fn clear_list(&mut self) {
        self.list.clear();
    }

    // A visit of the variable begins.
    pub(crate) fn remove(&mut self, variable: usize) {
        if variable < self.flags.len() {
            self.flags[variable] = false;
        }
    }
}
