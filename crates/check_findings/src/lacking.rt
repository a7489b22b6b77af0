use crate::finding::Finding;
use crate::unchanged_parts::UnchangedParts;
use base_words::Location;
use flow_graph::location_set::LocationSet;
use std::alloc::{AllocError, Global};

/// A word that lacks a list, with what all of its writers keep of it.
#[derive(Clone, Copy, Debug)]
pub(crate) struct Lack {
    pub(crate) word: Location,
    pub(crate) kept: UnchangedParts,
}

/// The words that lack a list: those that are altered, each once, in the order in which they were
/// found; each with as much of its own instruction as all of its writers keep.
#[derive(Debug, Drop)]
pub struct Lacking {
    pub(crate) words: Vec<Lack>,
}

impl Lacking {
    ghost use Rattle.std.specs.Prelude.{◌≡◌, ◌++◌, [], ◌∷◌, ℕ, List, map, IfOk, OnOk};
    ghost use Rattle.flow_graph.specs.Found.{places_of};
    ghost use Rattle.check_findings.specs.Finding as said;
    ghost use Rattle.check_findings.specs.Finding.{alters};
    ghost use Rattle.check_findings.specs.FindingOf.{seen};
    ghost use Rattle.check_findings.specs.Lacking.{words_altered};
    ghost use Rattle.check_findings.specs.LackingOf.{pair_of, words_in};

    /// The words that lack a list, by what was found.
    ///
    /// # Errors
    ///
    /// [`AllocError`] where there is no memory.
    pub fn of(alloc: Global, findings: &[Finding]) -> Result<Lacking, AllocError>
        ensures { IfOk result (λ lacking. words_in lacking
            ≡ words_altered (map seen findings.now)) }
    {
        let mut places = LocationSet::none(alloc);
        let mut words = Vec::new(alloc);
        for finding in findings {
            Lacking::add(&mut places, &mut words, finding)?;
        }
        Ok(Lacking { words })
    }

    /// Adds the word that a finding says is altered, with what is kept of it; of one that is there,
    /// what this writer keeps too stays. The words have these indices.
    fn add(
        places: &mut LocationSet,
        words: &mut Vec<Lack>,
        finding: &Finding,
    ) -> Result<(), AllocError>
        requires same { places_of places.old ≡ map (λ lack. lack.word.number) words.old.items }
        ensures same { OnOk result (places_of places.new
            ≡ map (λ lack. lack.word.number) words.new.items) }
        ensures added { (before : List said.Finding)
            → map pair_of words.old.items ≡ words_altered before
            → OnOk result (map pair_of words.new.items
            ≡ words_altered (before ++ seen finding.now ∷ [])) }
    {
        match *finding {
            Finding::Alters { word, kept, .. } => Lacking::add_word(places, words, word, kept),
            _ => Ok(()),
        }
    }

    /// Adds a word, with what a writer keeps of it.
    fn add_word(
        places: &mut LocationSet,
        words: &mut Vec<Lack>,
        word: Location,
        kept: UnchangedParts,
    ) -> Result<(), AllocError>
        requires same { places_of places.old ≡ map (λ lack. lack.word.number) words.old.items }
        ensures same { OnOk result (places_of places.new
            ≡ map (λ lack. lack.word.number) words.new.items) }
        ensures added { (before : List said.Finding) (writer : ℕ)
            → map pair_of words.old.items ≡ words_altered before
            → OnOk result (map pair_of words.new.items
            ≡ words_altered (before ++ alters writer word.number kept ∷ [])) }
    {
        if let Some(index) = places.index_of(word) {
            let left = words[index].kept.meet(kept);
            words[index] = Lack { word, kept: left };
            return Ok(());
        }
        places.add(word)?;
        words.push(Lack { word, kept })?;
        Ok(())
    }
}
