use crate::serial::Serial;

/// One entry of a journal: the number of the caller, what it asked, and the reply that it was told.
///
/// It has no bound on its types, so that values of it may cross into threads; write `Happened<S>`.
#[derive(Drop)]
pub struct HappenedOf<A, R> {
    pub who: u32,
    pub ask: A,
    pub reply: R,
}

/// An entry of the journal of a `Turn<S>`.
pub type Happened<S> = HappenedOf<<S as Serial>::Ask, <S as Serial>::Reply>;
