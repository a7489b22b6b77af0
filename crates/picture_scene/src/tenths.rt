/// A number of tenths, written with one decimal place.
#[derive(Clone, Copy)]
pub struct Tenths {
    pub count: u128,
}
