//! The lowest and the highest of some amounts.

/// The lowest and the highest of some amounts.
#[derive(Clone, Copy, Debug)]
pub(crate) struct Range {
    pub(crate) low: i128,
    pub(crate) high: i128,
}

impl Range {
    /// Returns the lowest and the highest of 0 and some amounts.
    pub(crate) fn with_zero(amounts: &[i128]) -> Self {
        Range::around(0, amounts)
    }

    /// Returns the lowest and the highest of some amounts.
    pub(crate) fn of(amounts: &[i128]) -> Self {
        match amounts.get(0) {
            Some(first) => Range::around(*first, amounts),
            None => Range::around(0, amounts),
        }
    }

    /// Returns the lowest and the highest of one amount and some others.
    fn around(amount: i128, others: &[i128]) -> Self {
        let mut range = Range {
            low: amount,
            high: amount,
        };
        for other in others {
            range.low = range.low.min(*other);
            range.high = range.high.max(*other);
        }
        range
    }

    /// Returns how far an amount is above the lowest, from 0 to this many pixels.
    pub(crate) fn up(self, amount: &i128, pixels: u8) -> u64 {
        let span = self.high.abs_diff(self.low).max(1);
        let gap = (*amount).abs_diff(self.low);
        let most = u128::from(pixels);
        (gap.saturating_mul(most) / span).min(most) as u64
    }
}
