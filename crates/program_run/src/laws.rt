//! Laws of the definitions, each the contract of a function that does nothing.

ghost use Rattle.std.specs.Prelude.{◌≡◌, ◌≢◌, ◌⊎◌, ℕ, List, [], ◌∷◌, Option, Some, codes};
ghost use Rattle.clap.specs.Words.{Text, fault_of};
ghost use Rattle.program_command.specs.Line.{drum650};
ghost use Rattle.program_command.specs.declared.refused.Refused.{Refused};
ghost use Rattle.print_lines.specs.declared.fault.Fault.{Fault};
ghost use Rattle.print_lines.specs.declared.part.Part.TheVariants as part;
ghost use Rattle.print_lines.specs.declared.status.Status.TheVariants.{Done};
ghost use Rattle.print_lines.specs.FaultStatus.{status_after};
ghost use Rattle.read_documents.specs.Asked.{named};
ghost use Rattle.read_documents.specs.Files.{AreTold, FilesTold, Contents};
ghost use Rattle.print_lines.specs.Reply.{Reply, bound_reply, fault_reply};
ghost use Rattle.program_run.specs.BoundOfFiles.{AreNames, IsBoundOfFiles, IsBoundOfJoined};
ghost use Rattle.program_run.specs.Words.{Answers, AreRefused, refused_reply};

use program_command::laws::each_line_is_taken;

/// With the names of three files, `bound` is answered by the line of their bound, the worst of what
/// they hold, or by a fault's.
pub fn bound_is_of_the_files()
    ensures { (deck times notes : Text) (input : Option (List ℕ)) (files : FilesTold)
        (failures : ℕ) (reply : Reply) (held : Contents) → AreNames (deck ∷ times ∷ notes ∷ [])
        → AreTold files held (named deck times notes)
        → Answers (codes "bound" ∷ deck ∷ times ∷ notes ∷ []) input files failures reply
        → ((bound : ℕ) × IsBoundOfFiles (held part.Deck) (held part.Times) (held part.Notes) bound
        × (reply ≡ bound_reply bound))
        ⊎ ((fault : Fault) × (reply ≡ fault_reply fault)) }
{
    each_line_is_taken();
}

/// Words in which `clap` finds a fault are answered by why they are refused, and by nothing else:
/// by help, by what is wrong with them, or by the line that memory has run out.
pub fn faulty_words_are_refused()
    ensures { (words : List Text) (input : Option (List ℕ))
        (files : FilesTold) (failures : ℕ) (reply : Reply) → words ≢ []
        → fault_of drum650 words ≢ [] → Answers words input files failures reply
        → (refused : Refused) × AreRefused words refused × (reply ≡ refused_reply refused) }
{}

/// With no words, the reply is the line of the bound of the joined form, or a fault's.
pub fn bound_is_of_the_input()
    ensures { (bytes : List ℕ) (files : FilesTold) (failures : ℕ) (reply : Reply)
        → Answers [] (Some bytes) files failures reply
        → ((bound : ℕ) × IsBoundOfJoined bytes bound × (reply ≡ bound_reply bound))
        ⊎ ((fault : Fault) × (reply ≡ fault_reply fault)) }
{}

/// After no fault's line does the program end as after a result that is done.
pub fn no_fault_is_done()
    ensures { (fault : Fault) → status_after fault ≢ Done }
{}
