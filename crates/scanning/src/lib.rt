// What a scanner of a text finds, as a type. There is no function here: see specs/.
#![tactic(auto)]

// What a scanner found, and the place where it goes on.
#[derive(Clone, Copy)]
pub struct Scanned<T> {
    pub value: T,
    pub next: usize,
}
