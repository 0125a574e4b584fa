//! The number that limits an ideal.

/// Each minimal generator of an ideal lies in absolute value below this number, and so does each given one.
pub const IDEAL_GENERATOR_LIMIT: i64 = 1_099_511_627_776;
