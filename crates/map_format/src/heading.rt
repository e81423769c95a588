/// How many station and leg records a map has.
#[derive(Clone, Copy, Debug, PartialEq, Eq)]
pub struct Heading {
    pub stations: u8,
    pub legs: u16,
}
