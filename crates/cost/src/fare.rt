// What routes cost in points and in seconds.

/// What a route takes from a points card, and how long it takes. Fewer points come first, and at equal points fewer
/// seconds.
#[derive(Clone, Copy, Debug, PartialEq, Eq, PartialOrd, Ord, Default)]
pub struct Fare {
    pub points: u32,
    pub seconds: u32,
}
