// The changes that a version can undergo.

#[derive(Clone, Copy)]
pub enum Change<T> {
    /// In front.
    Push(T),
    /// Behind.
    Inject(T),
    /// The first.
    Pop,
    /// The last.
    Eject,
}
