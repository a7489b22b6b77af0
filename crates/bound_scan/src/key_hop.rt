//! Which hop of which key.

/// A hop of a key, by its number among those of the key's location, from 0.
#[derive(Clone, Copy)]
pub struct KeyHop {
    pub key: u32,
    pub number: u32,
}
