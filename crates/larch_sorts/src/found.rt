use larch_sorts_signature::Reading;

/// The sides of an equation.
pub(crate) struct Sides {
    pub(crate) left: Reading,
    pub(crate) right: Reading,
}

// By a call, so that a proof takes one apart in one place alone.
impl Drop for Sides {
    fn drop(self) {
        let Sides {
            left: _left,
            right: _right,
        } = self;
    }
}
