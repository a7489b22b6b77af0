mod gathering;

use base_devices::Output;
use base_notes::{Edge, Mark, Notes};
use base_words::Location;
use check_findings::{
    Finding, Lacking, UnchangedParts, altered_at, has_edge, is_executed, operations_outside,
    put_all,
};
use flow_acceptance::counts::product_of;
use flow_acceptance::fixed::Fixed;
use flow_graph::Flow;
use flow_graph::place::{is_listed, is_there};
use print_lines::Sheet;
use read_decks::Deck;
use std::alloc::{AllocError, Global};

/// The most that executed words times counts may be.
const PRODUCT_LIMIT: u128 = 4_000_000;

/// All that keeps a deck from having a bound under its notes, and the loose ends of both.
#[derive(Debug, Drop)]
pub struct Findings {
    all: Vec<Finding>,
    /// Whether marks are lacking, and the notes are long once they have them.
    long: bool,
}

impl Findings {
    ghost use Rattle.std.specs.Prelude.{◌≡◌, ◌++◌, [], ◌∷◌, ◌↔◌, ℕ, ◌+◌, ◌-◌, ◌<◌, ◌≤◌};
    ghost use Rattle.std.specs.Prelude.{map, flat_map, IsTrue, IfOk, OnOk};
    ghost use Rattle.std.specs.List.{list_all, range_with_len};
    ghost use Rattle.base_words.specs.Location.{IsLocation};
    ghost use Rattle.read_decks.specs.InDeck.{loads_in};
    ghost use Rattle.base_notes.specs.EdgeOf.{edge_of};
    ghost use Rattle.flow_graph.specs.Accepted as said;
    ghost use Rattle.flow_graph.specs.Executed.{AreAllNodes};
    ghost use Rattle.flow_graph.specs.Flow.{executed_in, nodes_of, of_flow};
    ghost use Rattle.print_lines.specs.Stands.{Passes};
    ghost use Rattle.check_findings.specs.FoundAt.{not_there, unfit, altering, too_many};
    ghost use Rattle.check_findings.specs.Finding.{may_be_meant};
    ghost use Rattle.check_findings.specs.FoundAt.{astray, missing, unused};
    ghost use Rattle.check_findings.specs.FoundAt.{unused_list_at};
    ghost use Rattle.check_findings.specs.Finding.{not_in_profile, alters};
    ghost use Rattle.check_findings.specs.FindingOf.{AreFixed, seen};
    ghost use Rattle.check_findings.specs.UnchangedParts.{kept_of};
    ghost use Rattle.check_findings.specs.Lacking.{check_text, words_altered};
    ghost use Rattle.check_findings.specs.LackingOf.{words_in};
    ghost use Rattle.check_deck.specs.FindingsOf.{found_in, is_long_in};

    /// None yet.
    fn none(alloc: Global) -> Findings
        ensures { found_in result ≡ [] }
    {
        Findings {
            all: Vec::new(alloc),
            long: false,
        }
    }

    /// Adds one.
    fn add(&mut self, finding: Finding) -> Result<(), AllocError>
        ensures { OnOk result (found_in self.new ≡ found_in self.old ++ seen finding ∷ []) }
    {
        self.all.push(finding)?;
        Ok(())
    }

    /// Adds that a location is neither loaded nor listed, if it is so.
    fn add_not_loaded(
        &mut self,
        deck: &Deck,
        notes: &Notes,
        location: Location,
    ) -> Result<(), AllocError>
        ensures { OnOk result (found_in self.new ≡ found_in self.old
            ++ not_there (loads_in deck.now) notes.now location.number) }
    {
        if is_there(deck, notes, location) {
            return Ok(());
        }
        self.add(Finding::NotLoaded(location))
    }

    /// Adds operations of a location that are outside the profile.
    fn add_operations(&mut self, location: Location, operations: &[u8]) -> Result<(), AllocError>
        ensures { OnOk result (found_in self.new ≡ found_in self.old
            ++ map (not_in_profile location.number) operations.now) }
    {
        for op in operations {
            self.add(Finding::NotInProfile(location, *op))?;
        }
        Ok(())
    }

    /// Adds words that the instructions of a location alter, each with what they keep of it.
    fn add_words(
        &mut self,
        flow: &Flow<'_>,
        writer: Location,
        words: &[Location],
    ) -> Result<(), AllocError>
        ensures { OnOk result (found_in self.new ≡ found_in self.old
            ++ map (λ word. alters writer.number word.number
            (kept_of (loads_in flow.now.deck.now) flow.now.notes.now writer.number
            word.number)) words.now) }
    {
        for word in words {
            self.add(Finding::Alters {
                writer,
                word: *word,
                kept: UnchangedParts::of(flow.deck(), flow.notes(), writer, *word),
            })?;
        }
        Ok(())
    }

    /// Adds what was found elsewhere.
    fn add_all(&mut self, findings: &[Finding]) -> Result<(), AllocError>
        ensures { OnOk result (found_in self.new ≡ found_in self.old ++ map seen findings.now) }
    {
        for finding in findings {
            self.add(*finding)?;
        }
        Ok(())
    }

    /// Adds what is wrong with a location by itself.
    fn add_unfit(
        &mut self,
        alloc: Global,
        flow: &Flow<'_>,
        location: Location,
    ) -> Result<(), AllocError>
        ensures { OnOk result (found_in self.new ≡ found_in self.old
            ++ unfit (loads_in flow.now.deck.now) flow.now.notes.now location.number) }
    {
        self.add_not_loaded(flow.deck(), flow.notes(), location)?;
        let operations = operations_outside(alloc, flow.deck(), flow.notes(), location)?;
        self.add_operations(location, &operations)
    }

    /// Adds the words that the instructions of a location alter.
    fn add_altering(
        &mut self,
        alloc: Global,
        flow: &Flow<'_>,
        fixed: &Fixed,
        location: Location,
    ) -> Result<(), AllocError>
        requires { AreFixed flow.now fixed.now }
        ensures { OnOk result (found_in self.new ≡ found_in self.old
            ++ altering (loads_in flow.now.deck.now) flow.now.notes.now (executed_in flow.now)
            location.number) }
    {
        let altered = altered_at(alloc, flow, fixed, location)?;
        self.add_words(flow, location, altered.locations())
    }

    /// Adds what is wrong with each executed location by itself.
    fn add_all_unfit(&mut self, alloc: Global, flow: &Flow<'_>) -> Result<(), AllocError>
        ensures { OnOk result (found_in self.new ≡ found_in self.old
            ++ flat_map (unfit (loads_in flow.now.deck.now) flow.now.notes.now)
            (executed_in flow.now)) }
    {
        for location in flow.executed() {
            self.add_unfit(alloc, flow, *location)?;
        }
        Ok(())
    }

    /// Adds the words that the instructions of each executed location alter.
    fn add_all_altering(
        &mut self,
        alloc: Global,
        flow: &Flow<'_>,
        fixed: &Fixed,
    ) -> Result<(), AllocError>
        requires { AreFixed flow.now fixed.now }
        ensures { OnOk result (found_in self.new ≡ found_in self.old
            ++ flat_map (altering (loads_in flow.now.deck.now) flow.now.notes.now
            (executed_in flow.now)) (executed_in flow.now)) }
    {
        for location in flow.executed() {
            self.add_altering(alloc, flow, fixed, *location)?;
        }
        Ok(())
    }

    /// Adds that the analysis is too large, if it is, and if the notes are short.
    fn add_size(&mut self, flow: &Flow<'_>) -> Result<(), AllocError>
        ensures { OnOk result (found_in self.new ≡ found_in self.old ++ too_many flow.now.notes.now
            (said.product_of (executed_in flow.now) flow.now.notes.now.marks)) }
    {
        if !flow.notes().is_short() {
            return Ok(());
        }
        let product = product_of(flow.executed().len(), flow.notes().marks());
        if product <= PRODUCT_LIMIT {
            return Ok(());
        }
        self.add(Finding::TooLarge(product))
    }

    /// Adds that a mark stands on an edge that the flow graph doesn't have, if it is so.
    fn add_missing(&mut self, alloc: Global, flow: &Flow<'_>, edge: Edge) -> Result<(), AllocError>
        requires { of_flow AreAllNodes flow.now (nodes_of flow.now) }
        ensures { OnOk result (found_in self.new ≡ found_in self.old
            ++ missing (loads_in flow.now.deck.now) flow.now.notes.now (nodes_of flow.now)
            (edge_of edge)) }
    {
        if has_edge(alloc, flow, edge.from, edge.onto)? {
            return Ok(());
        }
        self.add(Finding::UnusedMark(edge))
    }

    /// Adds those of some edges of a mark that the flow graph doesn't have.
    fn add_all_missing(
        &mut self,
        alloc: Global,
        flow: &Flow<'_>,
        edges: &[Edge],
    ) -> Result<(), AllocError>
        requires { of_flow AreAllNodes flow.now (nodes_of flow.now) }
        ensures { OnOk result (found_in self.new ≡ found_in self.old
            ++ flat_map (missing (loads_in flow.now.deck.now) flow.now.notes.now
            (nodes_of flow.now)) (map edge_of edges.now)) }
    {
        for edge in edges {
            self.add_missing(alloc, flow, *edge)?;
        }
        Ok(())
    }

    /// Adds those edges of a mark that the flow graph doesn't have.
    fn add_astray(&mut self, alloc: Global, flow: &Flow<'_>, mark: &Mark) -> Result<(), AllocError>
        requires { of_flow AreAllNodes flow.now (nodes_of flow.now) }
        ensures { OnOk result (found_in self.new ≡ found_in self.old
            ++ astray (loads_in flow.now.deck.now) flow.now.notes.now (nodes_of flow.now)
            mark.now) }
    {
        self.add_missing(alloc, flow, mark.first())?;
        self.add_all_missing(alloc, flow, mark.others.all())
    }

    /// Adds each edge of a mark that the flow graph doesn't have.
    fn add_all_astray(&mut self, alloc: Global, flow: &Flow<'_>) -> Result<(), AllocError>
        requires { of_flow AreAllNodes flow.now (nodes_of flow.now) }
        ensures { OnOk result (found_in self.new ≡ found_in self.old
            ++ flat_map (astray (loads_in flow.now.deck.now) flow.now.notes.now
            (nodes_of flow.now)) flow.now.notes.now.marks) }
    {
        for mark in flow.notes().marks() {
            self.add_astray(alloc, flow, mark)?;
        }
        Ok(())
    }

    /// Adds that a location which isn't executed has a list, if it is so.
    fn add_unused_list(&mut self, flow: &Flow<'_>, location: Location) -> Result<(), AllocError>
        ensures { OnOk result (found_in self.new ≡ found_in self.old
            ++ unused_list_at flow.now.notes.now (executed_in flow.now) location.number) }
    {
        if !is_listed(flow.notes(), location) {
            return Ok(());
        }
        if is_executed(flow, location) {
            return Ok(());
        }
        self.add(Finding::UnusedList(location))
    }

    /// Adds each of these locations, from a number on and below another one, that has a list and
    /// isn't executed.
    fn add_all_unused_lists(
        &mut self,
        flow: &Flow<'_>,
        from: u16,
        below: u16,
    ) -> Result<(), AllocError>
        requires locations { (n : ℕ) → from ≤ n → n < below → IsLocation n }
        ensures { OnOk result (found_in self.new ≡ found_in self.old
            ++ flat_map (unused_list_at flow.now.notes.now (executed_in flow.now))
            (range_with_len from (below - from))) }
    {
        for number in from..below {
            let Some(location) = Location::new(number) else {
                unreachable!()
            };
            self.add_unused_list(flow, location)?;
        }
        Ok(())
    }

    /// Adds the marks and the lists that nothing comes to.
    fn add_unused(&mut self, alloc: Global, flow: &Flow<'_>) -> Result<(), AllocError>
        requires { of_flow AreAllNodes flow.now (nodes_of flow.now) }
        ensures { OnOk result (found_in self.new ≡ found_in self.old
            ++ unused (loads_in flow.now.deck.now) flow.now.notes.now (executed_in flow.now)
            (nodes_of flow.now)) }
    {
        self.add_all_astray(alloc, flow)?;
        self.add_all_unused_lists(flow, 0, Location::DRUM)?;
        self.add_all_unused_lists(flow, 8000, 8004)
    }

    /// The words that lack a list, by what was found.
    ///
    /// # Errors
    ///
    /// [`AllocError`] where there is no memory.
    pub fn lacking(&self, alloc: Global) -> Result<Lacking, AllocError>
        ensures { IfOk result (λ lacking. words_in lacking ≡ words_altered (found_in self.now)) }
    {
        Lacking::of(alloc, &self.all)
    }

    /// Puts what was found, a line each, and then the notes that are lacking, as TOML: a mark for
    /// each edge that closes a loop, or for several that share it, with the number of the mark
    /// inside which it stands, behind a line that says so where these make long notes; and a list
    /// for each word that is altered. What is lacking has to be that of what was found. It takes no
    /// memory.
    #[tactic(auto, using(print_lines::proofs::Passing::passing))]
    pub fn put<O: Output>(&self, sheet: &mut Sheet, writer: &mut O, lacking: &Lacking)
        requires { words_in lacking.now ≡ words_altered (found_in self.now) }
        ensures { Passes (O.device writer.old) sheet.old (O.device writer.new) sheet.new
            (check_text (is_long_in self.now) (found_in self.now)) }
    {
        put_all(sheet, writer, self.as_slice(), self.long, lacking);
    }

    /// Whether nothing was found at all.
    pub fn is_empty(&self) -> bool
        ensures { IsTrue result ↔ (found_in self.now ≡ []) }
    {
        self.all.is_empty()
    }

    /// Whether all that was found may be meant as it is: words alone that nothing comes to, and
    /// marks that don't say inside which other one they stand.
    pub fn may_be_meant(&self) -> bool
        ensures { result ≡ list_all may_be_meant (found_in self.now) }
    {
        Finding::may_all_be_meant(&self.all)
    }

    /// What was found, in order.
    pub fn as_slice(&self) -> &[Finding]
        ensures { map seen result.now ≡ found_in self.now }
    {
        &self.all
    }
}
