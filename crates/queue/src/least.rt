// What comes out of a queue.

/// An entry that came out, and the place in the row where it stood until then.
#[derive(Clone, Copy)]
pub struct Least<E> {
    pub entry: E,
    pub place: usize,
}
