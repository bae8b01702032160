use crate::Text;

/// A pair of texts: what one thing is called, and what it is to be called.
#[derive(Drop)]
pub struct Pair {
    pub from: Text,
    pub to: Text,
}
