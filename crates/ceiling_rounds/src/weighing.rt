//! What the pieces of a walk come to, the last of which is the whole.

ghost use Rattle.std.specs.Prelude.{◌≡◌, [], List, flat_map, IfOk, IfSome, IsTrue};
ghost use Rattle.flow_graph.specs.SettingOf.{setting};
ghost use Rattle.flow_graph.specs.Walk as walks;
ghost use Rattle.flow_walks.specs.Pieces.{repeated, spelled, spelled_at, spelled_behind};
ghost use Rattle.flow_walks.specs.Pieces.{spelled_by, PlacedHop};
ghost use Rattle.ceiling_rounds.specs.InRounds.{angle_of, lasting_of, often_of, pieces_of, passes_in};
ghost use Rattle.ceiling_rounds.specs.InRounds.{total_of, AreTold, IsInRoundsOf, SpellOut};
ghost use Rattle.ceiling_rounds.specs.Stretch.{span_of, AreStretches, ComeTo, IsFromStart};

use crate::changes::{are_within, passes_of};
use crate::in_rounds::InRounds;
use crate::openings;
use crate::order::Order;
use crate::piece_totals::PieceTotals;
use crate::setting::Setting;
use crate::stretch::Stretch;
use base_notes::Mark;
use base_words::REVOLUTION;
use flow_walks::{Piece, Rounds};
use std::alloc::{AllocError, Global};

/// The first of these pieces.
fn first_of<'a>(stretches: &'a [Stretch], pieces: &[usize]) -> Option<&'a Stretch> {
    let [first, ..] = pieces else {
        return None;
    };
    stretches.get(*first)
}

/// The walk without a hop: a row of none.
fn no_walk(alloc: Global, marks: &[Mark]) -> Result<InRounds, AllocError>
    ensures right { IfOk result (λ walk. (g : walks.Setting) → g.notes.marks ≡ marks.now
        → SpellOut g (angle_of walk) (pieces_of walk) (passes_in walk) (total_of walk)
        × AreTold g.times (pieces_of walk) (lasting_of walk) (often_of walk)) }
    ensures empty { IfOk result (λ walk. spelled (pieces_of walk) ≡ []) }
    ensures no_time { IfOk result (λ walk. total_of walk ≡ 0) }
{
    Ok(InRounds {
        angle: 0,
        pieces: vec![in alloc; Piece::Row(Vec::new(alloc))]?,
        passes: vec![in alloc; 0; marks.len()]?,
        total: 0,
        lasting: vec![in alloc; 0]?,
        often: vec![in alloc; 1]?,
    })
}

impl Setting<'_> {
    /// The walk without a hop, which takes no word time.
    pub fn without_hop(&self, alloc: Global) -> Result<InRounds, AllocError>
        ensures right { IfOk result
            (IsInRoundsOf self.now.deck.now self.now.times.now self.now.notes.now) }
        ensures empty { IfOk result (λ walk. spelled (pieces_of walk) ≡ []) }
        ensures no_time { IfOk result (λ walk. total_of walk ≡ 0) }
    {
        no_walk(alloc, self.notes.marks())
    }

    /// What pieces in a row come to; `None` where they don't follow one another.
    fn row(
        &self,
        alloc: Global,
        stretches: &[Stretch],
        pieces: &[usize],
    ) -> Result<Option<Stretch>, AllocError>
        ensures { IfOk result (λ made. IfSome made (λ whole. (before : List (List PlacedHop))
            → let g = setting self.now.deck.now self.now.times.now self.now.notes.now in
            AreStretches g before stretches.now
            → ComeTo g (flat_map (spelled_at before) pieces.now) (span_of whole))) }
    {
        let Some(first) = first_of(stretches, pieces) else {
            return Ok(None);
        };
        let mut whole = Stretch::none(alloc, self.notes, first.from, first.angle)?;
        for number in pieces {
            let Some(next) = stretches.get(*number) else {
                return Ok(None);
            };
            let Some(longer) = whole.then(alloc, next)? else {
                return Ok(None);
            };
            whole = longer;
        }
        Ok(Some(whole))
    }

    /// What rounds of a piece come to; `None` where there is no such piece, or it doesn't end where
    /// and as it begins.
    fn rounds(
        &self,
        alloc: Global,
        stretches: &[Stretch],
        rounds: Rounds,
    ) -> Result<Option<Stretch>, AllocError>
        ensures { IfOk result (λ made. IfSome made (λ all. (before : List (List PlacedHop))
            → let g = setting self.now.deck.now self.now.times.now self.now.notes.now in
            AreStretches g before stretches.now
            → ComeTo g (repeated rounds.times (spelled_at before rounds.piece)) (span_of all))) }
    {
        let Some(one) = stretches.get(rounds.piece) else {
            return Ok(None);
        };
        let Some(all) = one.rounds(alloc, rounds.times)? else {
            return Ok(None);
        };
        Ok(Some(all))
    }

    /// What a piece comes to, by what those before it do; `None` where it isn't a stretch of a
    /// walk.
    fn piece(
        &self,
        alloc: Global,
        stretches: &[Stretch],
        piece: &Piece,
    ) -> Result<Option<Stretch>, AllocError>
        ensures { IfOk result (λ made. IfSome made (λ stretch. (before : List (List PlacedHop))
            → let g = setting self.now.deck.now self.now.times.now self.now.notes.now in
            AreStretches g before stretches.now
            → ComeTo g (spelled_by before piece.now) (span_of stretch))) }
    {
        match piece {
            Piece::Hop(one) => Stretch::of_hop(alloc, self, *one),
            Piece::Row(pieces) => self.row(alloc, stretches, pieces),
            Piece::Rounds(rounds) => self.rounds(alloc, stretches, *rounds),
        }
    }

    /// What each of the pieces comes to; `None` where one isn't a stretch of a walk.
    fn stretches(&self, alloc: Global, pieces: &[Piece]) -> Result<Option<Vec<Stretch>>, AllocError>
        ensures { IfOk result (λ made. IfSome made (λ all. AreStretches
            (setting self.now.deck.now self.now.times.now self.now.notes.now)
            (spelled_behind [] pieces.now) all.items)) }
    {
        let mut stretches = Vec::new(alloc);
        for piece in pieces {
            let Some(stretch) = self.piece(alloc, &stretches, piece)? else {
                return Ok(None);
            };
            stretches.push(stretch)?;
        }
        Ok(Some(stretches))
    }

    /// Whether a stretch begins as a walk does, no count is ever above what its mark allows, and no
    /// exit has to be open at first.
    fn is_from_start(&self, whole: &Stretch) -> bool
        ensures { IsTrue result → IsFromStart
            (setting self.now.deck.now self.now.times.now self.now.notes.now) (span_of whole.now) }
    {
        let marks = self.notes.marks();
        if whole.from.number != self.deck.start().number || whole.angle >= REVOLUTION {
            return false;
        }
        if whole.changes.len() != marks.len() {
            return false;
        }
        are_within(marks, &whole.changes) && openings::ask_nothing(&whole.openings)
    }

    /// The walk that the pieces spell out, by these very pieces; `None` where they spell out none.
    pub fn weigh(&self, alloc: Global, pieces: Vec<Piece>) -> Result<Option<InRounds>, AllocError>
        ensures right { IfOk result (λ made. IfSome made
            (IsInRoundsOf self.now.deck.now self.now.times.now self.now.notes.now)) }
        ensures same { IfOk result (λ made. IfSome made (λ walk.
            pieces_of walk ≡ pieces.items)) }
    {
        let Some(stretches) = self.stretches(alloc, &pieces)? else {
            return Ok(None);
        };
        let Some(whole) = stretches.last() else {
            return Ok(None);
        };
        if !self.is_from_start(whole) || !Order::of(alloc, &pieces)?.are_in_order() {
            return Ok(None);
        }
        let Some(told) = PieceTotals::of(alloc, &pieces, &stretches)? else {
            return Ok(None);
        };
        Ok(Some(InRounds {
            angle: whole.angle,
            passes: passes_of(alloc, &whole.changes)?,
            total: whole.time,
            lasting: told.lasting,
            often: told.often,
            pieces,
        }))
    }
}
