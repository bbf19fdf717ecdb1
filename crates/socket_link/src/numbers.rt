// Sets of small numbers.

/// Numbers below 128.
#[derive(Clone, Copy, Debug, PartialEq, Eq)]
pub struct Numbers {
    bits: u128,
}

impl Numbers {
    /// No numbers.
    pub fn none() -> Numbers {
        Numbers { bits: 0 }
    }

    /// One number more, where it is below 128.
    pub fn insert(&mut self, number: u32) {
        self.bits |= bit(number);
    }

    pub(crate) fn remove(&mut self, number: u32) {
        self.bits &= !bit(number);
    }

    /// The least of the numbers that isn't below this one.
    pub fn first_from(&self, from: u32) -> Option<u32> {
        let rest = self.bits.checked_shr(from).unwrap_or(0);
        if rest == 0 {
            return None;
        }
        Some(from.saturating_add(rest.trailing_zeros()))
    }
}

// The set of this number alone; of none where it is too great.
fn bit(number: u32) -> u128 {
    1u128.checked_shl(number).unwrap_or(0)
}
