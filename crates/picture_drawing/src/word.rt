use crate::ink::Ink;
use crate::scale::scaled;
use crate::svg::{Svg, draw, four, two};
use picture_scene::{Operations, Tallies, Tally, Walk};

/// From this shade on a word is so dark that its location is written in white.
const DARK: u64 = 5;

/// A word that is drawn.
#[derive(Clone, Copy)]
pub struct Word {
    /// Its location's number.
    pub number: u16,
    /// What the walk and the deck have to do with it.
    pub tally: Tally,
    /// How dark it is: 1 to 6, the more, the more of the word times it has; 0 where the walk
    /// doesn't execute it.
    shade: u64,
}

/// An s behind the name of what there is more than one of.
pub fn plural(count: u128) -> &'static str {
    if count == 1 { "" } else { "s" }
}

impl Word {
    /// The word of a location; `None` where none is drawn. The most word times are those of the
    /// word that has most.
    pub fn of(tallies: &Tallies, number: u16, most: u128) -> Option<Word> {
        let tally = tallies.at(number);
        if !tally.is_used() {
            return None;
        }
        let shade = if tally.visits > 0 {
            scaled(tally.time, most, 10).saturating_add(3) / 2
        } else {
            0
        };
        Some(Word {
            number,
            tally,
            shade,
        })
    }

    /// The colour of a label on this word, so that it can be read, as an attribute; none where it
    /// is that of all texts.
    pub fn label_ink(self) -> &'static str {
        if self.shade >= DARK {
            " fill='#ffffff'"
        } else {
            ""
        }
    }

    /// What the word is drawn in.
    fn ink(self) -> Ink {
        if self.tally.visits > 0 {
            Ink::Shade(self.shade)
        } else if self.tally.executed {
            Ink::Other
        } else if self.tally.data > 0 {
            Ink::Place
        } else {
            Ink::Rest
        }
    }

    /// Ends the element of the word, of which the shape is written: its colour, and its title.
    pub fn finish(self, svg: &mut Svg, walk: Walk) {
        let (ink, number) = (self.ink(), self.number);
        let (visits, time, data) = (self.tally.visits, self.tally.time, self.tally.data);
        draw!(svg: " " ink "><title>" (four(number)));
        if let (Operations::One(op), true) = (self.tally.operations, self.tally.executed) {
            draw!(svg: " " (two(op)));
        }
        draw!(svg: ": ");
        match ink {
            Ink::Other => draw!(svg: "executed by other walks"),
            Ink::Place => {
                let more = plural(data);
                draw!(svg: "data, sought " data " time" more);
            }
            Ink::Rest => {
                let noun = walk.noun();
                draw!(svg: "not sought by this " noun);
            }
            _ => {
                let (more_visits, more_time) = (plural(visits), plural(time));
                draw!(svg: visits " visit" more_visits ", ");
                draw!(svg: time " word time" more_time);
            }
        }
        draw!(svg: "</title></use>\n");
    }
}
