/// A text, and the name of the file that holds it.
#[derive(Clone, Copy, Debug)]
pub struct NamedText<'a> {
    /// The file's name.
    pub name: &'a str,
    /// The text.
    pub bytes: &'a [u8],
}
