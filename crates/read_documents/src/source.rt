ghost use Rattle.std.specs.Prelude.{◌≡◌, ◌+◌, ◌^◌, ◌≤◌, ℕ, List, [], ◌∷◌, Option, IfSome};
ghost use Rattle.std.specs.Prelude.{option_map};
ghost use Rattle.read_documents.specs.Asked.{Asked, AsksFor, reading, returned, sought};
ghost use Rattle.read_documents.specs.Files.{FilesTold, IsFetched, behind};

use base_devices::Input;

/// What opens files by their names. A text that it gave is given back, so that no reading of it
/// that failed is passed over: a text can't be dropped.
pub trait Source {
    /// A file's text.
    type Text: Input;

    /// What is told of the file of a name, where this number of files are sought before it:
    /// nothing, that it can't be opened, or its bytes.
    ghost files: { Self → FilesTold };

    /// How many reads failed of the texts that it was given back.
    ghost failed: { Self → ℕ };

    /// What was asked of it so far, one thing after the other, where it tells.
    ghost asked: { Self → Option (List Asked) };

    /// Opens the file of this name; `None` where it can't be opened, whatever the cause.
    fn fetch(&mut self, name: &str) -> Option<Self::Text>
        ensures behind { files self.new ≡ behind (files self.old) }
        ensures counted { failed self.new ≡ failed self.old }
        ensures bytes { IsFetched (files self.old 0 name.now) (option_map Self.Text.unread result) }
        ensures asked { AsksFor (asked self.old) (asked self.new)
            (λ more. more ≡ sought name.now ∷ []) }
        ensures calls { IfSome result (λ text. Self.Text.called text ≡ 0) }
        ensures failures { IfSome result (λ text. Self.Text.failed text ≡ 0) }
        ensures given { IfSome result (λ text. Self.Text.given text ≡ 0) }
        ensures ended { IfSome result (λ text. Self.Text.ended text ≡ 0) }
        ensures idle { IfSome result (λ text. Self.Text.idle text ≡ 0) };

    /// How many reads failed of the texts that it was given back.
    fn failures(&self) -> u64
        ensures { result ≡ failed self.now };

    /// Takes a text back, and counts the reads of it that failed.
    fn close(&mut self, text: Self::Text)
        requires { failed self.old + Self.Text.failed text ≤ 2 ^ 63 }
        ensures stays { files self.new ≡ files self.old }
        ensures counted { failed self.new ≡ failed self.old + Self.Text.failed text }
        ensures asked { AsksFor (asked self.old) (asked self.new) (λ more. more ≡ returned (reading
            (Self.Text.called text) (Self.Text.failed text) (Self.Text.ended text)
            (Self.Text.given text) (Self.Text.idle text)) ∷ []) };
}
