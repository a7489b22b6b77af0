//! What hops ask of what is open at the exit of a call, and how they leave it.

ghost use Rattle.std.specs.Prelude.{◌≡◌, List, IfSome, IsTrue, None};
ghost use Rattle.base_notes.specs.declared.notes.call.Call.{Call};
ghost use Rattle.machine_steps.specs.Calls as calling;
ghost use Rattle.machine_steps.specs.OpenIn.{between, number_of};
ghost use Rattle.ceiling_rounds.specs.Opening.{IsAsked, IsBoth, IsOfStep, Meets};

use base_words::Location;

/// What hops, one after the other, ask of what is open at the exit of a call when they begin, and
/// how they leave it.
#[derive(Clone, Copy)]
pub enum Opening {
    /// Nothing is asked, and it stays as it is.
    Kept,
    /// It is closed or opened, or both.
    Set {
        /// The way back that has to be open when they begin; `None` where nothing is asked.
        asks: Option<Location>,
        /// The way back that is open behind them; `None` where none is.
        leaves: Option<Location>,
    },
}

/// Whether what is open is the way back that is asked, if one is.
fn is_asked(asks: Option<Location>, way: Option<Location>) -> bool
    ensures { IsTrue result → IsAsked asks (number_of way) }
{
    let Some(asked) = asks else {
        return true;
    };
    match way {
        Some(back) => back.number == asked.number,
        None => false,
    }
}

impl Opening {
    /// What a step from the one location to the other asks of an exit, and how it leaves what is
    /// open there, by the way back with which it opens the exit, if it does.
    pub fn of_step(
        exit: Location,
        opened: Option<Location>,
        from: Location,
        onto: Location,
    ) -> Opening
        ensures { (calls : List Call)
            → number_of opened ≡ calling.opened_by calls (between from onto) exit.number
            → IsOfStep calls (between from onto) exit.number result }
    {
        if exit.number == from.number {
            return Opening::Set {
                asks: Some(onto),
                leaves: opened,
            };
        }
        match opened {
            Some(_) => Opening::Set {
                asks: None,
                leaves: opened,
            },
            None => Opening::Kept,
        }
    }

    /// This opening and then another; `None` where that asks what this one doesn't leave open.
    pub fn then(self, next: Opening) -> Option<Opening>
        ensures { IfSome result (IsBoth self next) }
    {
        let Opening::Set { asks, leaves } = self else {
            return Some(next);
        };
        match next {
            Opening::Kept => Some(self),
            Opening::Set {
                asks: asked,
                leaves: last,
            } if is_asked(asked, leaves) => Some(Opening::Set { asks, leaves: last }),
            Opening::Set { .. } => None,
        }
    }

    /// Whether the exit need not be open when they begin.
    pub fn asks_nothing(self) -> bool
        ensures { IsTrue result → Meets self None }
    {
        match self {
            Opening::Kept => true,
            Opening::Set { asks, .. } => asks.is_none(),
        }
    }
}
