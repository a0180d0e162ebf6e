use crate::lists::read;
use crate::nets::Net;
use flow_cost::Cost;
use flow_graph::Name;
use flow_residual::State;

/// The bits of a slope, and of the first slack in whole units.
const SLOPE_BITS: u32 = 55;

/// How many phases may end too early, each of which begins again with a larger slack.
const RAISES: u32 = 12;

/// The largest power of 8 up to a number, at least 1.
fn power_of_8(most: i128) -> i128 {
    let mut power: i128 = 1;
    for _digit in 0..40 {
        if power > most.wrapping_shr(3) {
            return power;
        }
        power = power.saturating_mul(8);
    }
    power
}

impl Net {
    /// How much a group has too much or too little for each of its half arcs, twice, as potentials are kept.
    fn pressure(&self, group: u32) -> i128 {
        let (first, end) = self.places(group);
        let degree = end.saturating_sub(first).max(1) as u128;
        let excess = self.excess(group).unsigned_abs().min(1 << 80);
        ((excess / degree) as i128)
            .saturating_mul(2)
            .wrapping_shl(self.shift)
    }

    /// The slack of the first phase.
    fn first_slack(&self) -> i128 {
        let mut most: i128 = 1;
        for group in 0..self.groups {
            most = most.max(self.pressure(group));
        }
        let widest: i128 = 1 << SLOPE_BITS;
        power_of_8(most.saturating_mul(64).min(widest.wrapping_shl(self.shift)))
    }

    /// Phases with ever less slack, until labels show the flows least; false where they do not in time.
    pub(crate) fn scale<N: Name, A: Name, C: Cost>(&mut self, s: &State<N, A, C>) -> bool {
        let limit = self.size().saturating_mul(8_000);
        let unit = self.scaled(1);
        let mut epsilon = self.first_slack();
        let mut far = epsilon.saturating_mul(1 << 16);
        let mut raises: u32 = 0;
        for _phase in 0..200 {
            if self.looks > limit {
                return false;
            }
            if self.refine(s, epsilon, far) {
                self.forgive();
                let last = epsilon <= 1;
                if epsilon <= unit && self.show_least(if last { 50 } else { 4 }) {
                    return true;
                }
                if last {
                    return false;
                }
                epsilon = epsilon.wrapping_shr(3).max(1);
            } else {
                raises = raises.saturating_add(1);
                if raises > RAISES {
                    return false;
                }
                epsilon = epsilon.saturating_mul(64);
                far = far.max(epsilon.saturating_mul(1 << 12));
            }
        }
        false
    }
}
