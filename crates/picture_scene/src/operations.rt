/// Which operations stand at a location.
#[derive(Clone, Copy)]
pub enum Operations {
    /// None is known.
    None,
    /// The one of these two digits.
    One(u8),
    /// Several, since the program alters the word.
    Several,
}

impl Operations {
    /// These and one more.
    pub fn with(self, op: u8) -> Operations {
        match self {
            Operations::None => Operations::One(op),
            Operations::One(known) if known == op => self,
            Operations::One(_) | Operations::Several => Operations::Several,
        }
    }
}
