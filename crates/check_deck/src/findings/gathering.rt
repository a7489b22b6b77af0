//! How all that is found is gathered, one kind behind the other.

ghost use Rattle.std.specs.Prelude.{◌≡◌, ◌++◌, ℕ, List, flat_map, IfErr, IfOk, OnOk};
ghost use Rattle.read_decks.specs.InDeck.{loads_in, start_in};
ghost use Rattle.flow_graph.specs.Accepted as said;
ghost use Rattle.flow_graph.specs.Executed.{AreAllNodes};
ghost use Rattle.flow_graph.specs.Flow.{executed_in, nodes_of, of_flow, AreFound};
ghost use Rattle.flow_graph.specs.Refused.{IsDiscoveryRefusal};
ghost use Rattle.flow_loops.specs.Loops.{AreClosing};
ghost use Rattle.check_findings.specs.FoundAt.{unfit, altering, too_many};
ghost use Rattle.check_findings.specs.Finding as found;
ghost use Rattle.check_findings.specs.Lacking.{are_long as said_long};
ghost use Rattle.check_deck.specs.Findings.{AreFindings, AreLooseEnds};
ghost use Rattle.check_deck.specs.FindingsOf.{found_in, is_long_in};
ghost use Rattle.check_deck.specs.Insides.{AreLoops};

use crate::findings::Findings;
use crate::loops::unmarked_loops;
use crate::unsaid::unsaid_marks;
use base_notes::Notes;
use check_findings::{are_long, idle_words, unused_calls};
use flow_acceptance::fixed::Fixed;
use flow_graph::{Flow, Refusal, discover};
use read_decks::Deck;
use std::alloc::{AllocError, Global};

impl Findings {
    /// Adds what is wrong with each executed location by itself, then what the instructions of
    /// each alter, and then the size.
    fn add_of_locations(&mut self, alloc: Global, flow: &Flow<'_>) -> Result<(), AllocError>
        ensures { OnOk result (found_in self.new ≡ found_in self.old
            ++ (flat_map (unfit (loads_in flow.now.deck.now) flow.now.notes.now)
            (executed_in flow.now)
            ++ flat_map (altering (loads_in flow.now.deck.now) flow.now.notes.now
            (executed_in flow.now)) (executed_in flow.now)
            ++ too_many flow.now.notes.now
            (said.product_of (executed_in flow.now) flow.now.notes.now.marks))) }
    {
        let fixed = Fixed::of(alloc, flow.executed(), flow.notes())?;
        self.add_all_unfit(alloc, flow)?;
        self.add_all_altering(alloc, flow, &fixed)?;
        self.add_size(flow)?;
        Ok(())
    }

    /// Adds the loops that lack a mark.
    fn add_loops(&mut self, alloc: Global, flow: &Flow<'_>) -> Result<(), AllocError>
        requires nodes { of_flow AreAllNodes flow.now (nodes_of flow.now) }
        requires found { of_flow AreFound flow.now (executed_in flow.now) }
        ensures { OnOk result ((loops : List found.Finding) × (edges : List (ℕ × ℕ))
            × of_flow AreClosing flow.now edges
            × of_flow AreLoops flow.now (nodes_of flow.now) edges loops
            × (found_in self.new ≡ found_in self.old ++ loops)) }
    {
        let loops = unmarked_loops(alloc, flow)?;
        self.add_all(&loops)?;
        Ok(())
    }

    /// Adds the loose ends.
    fn add_loose_ends(&mut self, alloc: Global, flow: &Flow<'_>) -> Result<(), AllocError>
        requires { of_flow AreAllNodes flow.now (nodes_of flow.now) }
        ensures { OnOk result ((loose : List found.Finding)
            × of_flow AreLooseEnds flow.now (executed_in flow.now) (nodes_of flow.now) loose
            × (found_in self.new ≡ found_in self.old ++ loose)) }
    {
        self.add_unused(alloc, flow)?;
        let calls = unused_calls(alloc, flow)?;
        self.add_all(&calls)?;
        let idle = idle_words(alloc, flow)?;
        self.add_all(&idle)?;
        let unsaid = unsaid_marks(alloc, flow)?;
        self.add_all(&unsaid)?;
        Ok(())
    }

    /// All that keeps the deck from having a bound under these notes, and the loose ends of both:
    /// first what is wrong with each executed location by itself, in the order of discovery,
    /// then what the instructions of each alter, then the size, where the notes are short, and then
    /// the edges that close loops, those first whose loop stands inside the fewest others (in any
    /// order, where they and the marks' edges are more than 64); and last the loose ends: the
    /// marks' edges, the lists and the calls that are unused, each edge and each call in order and
    /// each list by its location, the words that nothing comes to, by their locations, and the
    /// marks that don't say inside which other one they stand.
    ///
    /// # Errors
    ///
    /// [`Refusal::TooMany`] where the flow graph has more than 65,536 nodes; [`Refusal::Memory`]
    /// where there is no memory.
    pub fn of(alloc: Global, deck: &Deck, notes: &Notes) -> Result<Findings, Refusal>
        ensures found { IfOk result (λ findings. AreFindings (loads_in deck.now) notes.now
            (start_in deck.now) (found_in findings)) }
        ensures long { IfOk result (λ findings. is_long_in findings
            ≡ said_long notes.now (found_in findings)) }
        ensures refused { IfErr result (IsDiscoveryRefusal (loads_in deck.now) notes.now
            (start_in deck.now)) }
    {
        let flow = discover(alloc, deck, notes)?;
        let mut findings = Findings::none(alloc);
        findings.add_of_locations(alloc, &flow)?;
        findings.add_loops(alloc, &flow)?;
        findings.add_loose_ends(alloc, &flow)?;
        findings.long = are_long(notes, &findings.all);
        Ok(findings)
    }
}
