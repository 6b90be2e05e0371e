//! What calls came to.

/// How many calls went through, and what they read: by the sum one sees another order, too.
#[derive(Clone, Copy)]
pub struct Told {
    pub calls: u64,
    pub sum: u64,
}

impl Told {
    /// Of no call.
    pub const NONE: Told = Told { calls: 0, sum: 0 };

    /// With the call behind them, which read this number.
    pub fn then(self, number: u64) -> Told {
        Told {
            calls: self.calls.wrapping_add(1),
            sum: self.sum.wrapping_mul(31).wrapping_add(number),
        }
    }

    /// With those of another round, thread or map.
    pub fn and(self, others: Told) -> Told {
        Told {
            calls: self.calls.wrapping_add(others.calls),
            sum: self.sum.wrapping_add(others.sum),
        }
    }
}
