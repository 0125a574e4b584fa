//! Fractions.

/// A fraction of naturals, as an elasticity is one. Who makes it sees to its lowest terms.
#[derive(Clone, Copy, Debug, PartialEq, Eq)]
pub struct Ratio {
    /// The numerator.
    pub num: u64,
    /// The denominator, which is not 0.
    pub den: u64,
}
