/// What was seen of rows at which someone looks beforehand, so that their memory is at hand when their neighbours are handed
/// out. Nothing can be asked of it, so that a meter counts each neighbour that is had. Whoever looks keeps it, since a
/// compiler may leave out a look whose outcome goes nowhere.
#[derive(Clone, Copy)]
pub struct Glance {
    seen: u32,
}

impl Glance {
    /// Nothing as yet.
    pub fn none() -> Glance {
        Glance { seen: 0 }
    }

    /// This and the other end of a neighbour.
    #[inline(always)]
    pub(crate) fn with(self, end: u32) -> Glance {
        Glance {
            seen: self.seen ^ end,
        }
    }
}
