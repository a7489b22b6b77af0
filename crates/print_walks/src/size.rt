//! How large an analysis is, and its lines.

ghost use Rattle.std.specs.Prelude.{◌≡◌, ◌+◌, ◌*◌, ◌≤◌, ◌++◌, codes, decimal, length, Contains};
ghost use Rattle.std.specs.Prelude.{IfOk};
ghost use Rattle.read_decks.specs.InDeck.{loads_in, start_in};
ghost use Rattle.flow_graph.specs.Flow.{deck_of, executed_in, notes_of};
ghost use Rattle.flow_graph.specs.Hops.{hops};
ghost use Rattle.print_walks.specs.SizeText.{hops_among, size_text};

use base_notes::Notes;
use base_words::Location;
use bound_scan::Analysis;
use flow_graph::{Flow, rediscover};
use itoa::Buffer;
use read_decks::Deck;
use std::alloc::{AllocError, Global};

/// How large an analysis is.
#[derive(Clone, Copy)]
pub struct Size {
    /// How many locations are executed.
    pub words: u64,
    /// How many hops these have in all.
    pub hops: u64,
    /// How many counts the marks can have.
    pub counts: u64,
    /// How many entries the table of worst times has.
    pub keys: u64,
}

/// How many hops an executed location has.
fn hops_at(flow: &Flow<'_>, location: Location) -> u64
    requires { Contains (executed_in flow.now) location.number }
    ensures count { result
        ≡ length (hops (loads_in (deck_of flow.now)) (notes_of flow.now) location.number) }
    ensures few { result ≤ 2560004 }
{
    // What `marks` promises of the notes: that they are sound.
    let _marks = flow.notes().marks();
    let mut count = 0;
    for _ in flow.hops(location) {
        count += 1;
    }
    count
}

/// How many hops all executed locations have.
fn hops_of(flow: &Flow<'_>) -> u64
    ensures { result ≡ hops_among (loads_in (deck_of flow.now)) (notes_of flow.now)
        (executed_in flow.now) }
{
    let mut sum = 0;
    for location in flow.executed() {
        sum += hops_at(flow, *location);
    }
    sum
}

/// A text with a named number behind it.
fn with_number(mut text: Vec<u8>, name: &[u8], number: u64) -> Result<Vec<u8>, AllocError>
    requires { length name.now ≤ 100 }
    ensures made { IfOk result (λ new. new.items ≡ text.items ++ name.now ++ decimal number) }
    ensures short { IfOk result (λ new. length new.items ≤ length text.items + 200) }
{
    let mut buffer = Buffer::new();
    text.extend_from_slice(name)?;
    text.extend_from_slice(buffer.format(number).as_bytes())?;
    Ok(text)
}

impl Size {
    ghost use Rattle.bound_scan.specs.AnalysisOf.{counts_in_all, rows_of};
    ghost use Rattle.flow_graph.specs.Flow.{AreFound};
    ghost use Rattle.std.specs.Prelude.{ℕ, List};
    ghost use Rattle.print_walks.specs.SizeOf.{IsSizeOf};

    /// How large the analysis of a deck under its notes is.
    ///
    /// # Errors
    ///
    /// [`AllocError`] where there is no memory.
    pub fn of(
        alloc: Global,
        deck: &Deck,
        notes: &Notes,
        analysis: &Analysis,
    ) -> Result<Size, AllocError>
        ensures { IfOk result (IsSizeOf (loads_in deck.now) notes.now (start_in deck.now)
            analysis.now) }
    {
        let flow = rediscover(alloc, deck, notes)?;
        Ok(Size {
            words: flow.executed().len() as u64,
            hops: hops_of(&flow),
            counts: analysis.counts() as u64,
            keys: analysis.table().len() as u64,
        })
    }

    /// Its lines.
    ///
    /// # Errors
    ///
    /// [`AllocError`] where there is no memory.
    pub fn text(&self, alloc: Global) -> Result<Vec<u8>, AllocError>
        ensures text { IfOk result (λ text.
            text.items ≡ size_text self.now.words self.now.hops self.now.counts self.now.keys) }
        ensures short { IfOk result (λ text. length text.items ≤ 1000) }
    {
        let text = with_number(Vec::new(alloc), b"words ", self.words)?;
        let text = with_number(text, b"\nhops ", self.hops)?;
        let text = with_number(text, b"\ncounts ", self.counts)?;
        let mut text = with_number(text, b"\nkeys ", self.keys)?;
        text.push(b'\n')?;
        Ok(text)
    }
}
