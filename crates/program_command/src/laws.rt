//! Laws of the definitions, each the contract of a function that does nothing.

ghost use Rattle.std.specs.Prelude.{◌≡◌, ◌∷◌, [], All, Contains, List, Some, codes, true};
ghost use Rattle.clap.specs.Words.{Text, fault_of, takes};
ghost use Rattle.program_command.specs.Line.{NamesFilesOf, drum650, said_by_words, said_of, verbs};

use clap::error::ErrorKind;

/// Each command's name, with a word for each of its files, or for each that has to be named, is a
/// line that is taken, if no word begins with a hyphen. It says that command, with the words as its
/// files in their order.
pub fn each_line_is_taken()
    ensures taken { All (λ verb. (words : List Text) → NamesFilesOf verb words
        → takes drum650 (verb.name ∷ words) ≡ true) verbs }
    ensures said { All (λ verb. (words : List Text) → NamesFilesOf verb words
        → said_by_words (verb.name ∷ words) ≡ Some (verb.name, said_of verb.files words)) verbs }
{}

/// Help is shown of the program and of each command, by `--help` and by `-h`.
pub fn help_is_shown()
    ensures whole { fault_of drum650 (codes "--help" ∷ []) ≡ ErrorKind.DisplayHelp ∷ [] }
    ensures short { fault_of drum650 (codes "-h" ∷ []) ≡ ErrorKind.DisplayHelp ∷ [] }
    ensures each { All (λ verb. fault_of drum650 (verb.name ∷ codes "--help" ∷ [])
        ≡ ErrorKind.DisplayHelp ∷ []) verbs }
    ensures each_short { All (λ verb. fault_of drum650 (verb.name ∷ codes "-h" ∷ [])
        ≡ ErrorKind.DisplayHelp ∷ []) verbs }
{}

/// No words are no line, and there are no words `help` and `--version`.
pub fn no_other_words()
    ensures none { fault_of drum650 [] ≡ ErrorKind.MissingSubcommand ∷ [] }
    ensures version { fault_of drum650 (codes "--version" ∷ []) ≡ ErrorKind.UnknownArgument ∷ [] }
    ensures help { Contains (fault_of drum650 (codes "help" ∷ [])) ErrorKind.InvalidSubcommand }
{}
