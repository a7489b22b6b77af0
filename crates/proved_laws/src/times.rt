//! Laws of the definitions of `base_notes`.

ghost use Rattle.std.specs.Prelude.{◌≡◌, ℕ, ◌⊎◌, ◌↔◌, map, Option, Any, Contains, IsSomeAnd};
ghost use Rattle.std.specs.List.Sorted.{IsStrictlyIncreasing};
ghost use Rattle.base_words.specs.declared.instruction.Instruction.{Instruction};
ghost use Rattle.base_words.specs.declared.word.Word.{Word};
ghost use Rattle.base_words.specs.Instruction.{instruction_of};
ghost use Rattle.base_notes.specs.declared.notes.pattern.Pattern.{Pattern};
ghost use Rattle.base_notes.specs.Allowed.{Notes, allowed, matching, patterns_of, Matches};

/// The instructions that are listed for a pattern are those that match it, each once, D ascending.
/// So what is allowed at a location is what the deck loads there, and what matches a pattern of its
/// list.
pub fn listed_is_what_matches()
    ensures listed { (pattern : Pattern) (ins : Instruction) →
        (Contains (matching pattern) ins ↔ Matches pattern ins) }
    ensures once { (pattern : Pattern)
        → IsStrictlyIncreasing (map (λ ins. ins.d) (matching pattern)) }
    ensures allowed { (loads : ℕ → Option Word) (notes : Notes) (location : ℕ) (ins : Instruction)
        → Contains (allowed loads notes location) ins
        ↔ (IsSomeAnd (loads location) (λ word. instruction_of word ≡ ins)
        ⊎ IsSomeAnd (patterns_of notes location) (Any (λ pattern. Matches pattern ins))) }
{}
