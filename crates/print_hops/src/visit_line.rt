//! The line of a visit.

ghost use Rattle.base_notes.specs.Entries.{entry_in};
ghost use Rattle.flow_walks.specs.Visited.{seen_visit};
ghost use Rattle.print_hops.specs.WalkText.{visit_line};

use crate::hop_text::put_hop;
use crate::line::Line;
use crate::moments::Moments;
use crate::moments_text::put_times;
use crate::timed_hop::TimedHop;
use base_devices::Output;
use base_notes::Times;
use flow_walks::Visit;
use print_lines::Sheet;

/// A visit with the timing table of its walk, whose drum has this angle at time 0.
#[derive(Drop)]
pub struct VisitLine<'a> {
    pub visit: &'a Visit,
    pub times: &'a Times,
    pub angle: u8,
}

impl Line for VisitLine<'_> {
    ghost text = { λ line. visit_line (entry_in line.times.now) line.angle
        (seen_visit line.visit.now) };

    fn put<O: Output>(&self, sheet: &mut Sheet, writer: &mut O) {
        let told = TimedHop::of(self.visit);
        let moments = Moments::of(&told, self.times, self.angle);
        put_hop(sheet, writer, &told, b" begun ", told.begun);
        put_times(sheet, writer, &moments, told.ended, b"\n");
    }
}
