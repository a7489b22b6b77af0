//! How long searches may still take, in steps, so that no answer hangs on the machine.

/// The steps that are left.
#[derive(Clone, Copy)]
pub struct Budget {
    left: u64,
}

impl Budget {
    /// So many steps.
    pub fn of(steps: u64) -> Budget {
        Budget { left: steps }
    }

    /// Takes steps; `false` where fewer are left, and then none is.
    pub fn spend(&mut self, steps: u64) -> bool {
        let has_room = self.left >= steps;
        self.left = self.left.saturating_sub(steps);
        has_room
    }

    /// Whether no step is left.
    pub fn is_spent(&self) -> bool {
        self.left == 0
    }

    /// Sets so many of the steps aside, or all where fewer are left.
    pub fn part(&mut self, steps: u64) -> Budget {
        let left = self.left.min(steps);
        self.left = self.left.saturating_sub(left);
        Budget { left }
    }

    /// Takes back what is left of a part.
    pub fn take_back(&mut self, part: Budget) {
        self.left = self.left.saturating_add(part.left);
    }
}
