//! The numbers that limit a table, and what it is used for. Each has its one home here: conditions, definitions and
//! proofs name it.

/// The greatest multiplicity of a table.
pub const MULTIPLICITY_LIMIT: u64 = 4_194_304;

/// Each minimal generator lies below this number, and so does each given generator.
pub const GENERATOR_LIMIT: u64 = 1_099_511_627_776;

/// No entry of the Apery list of a table passes this number: an entry is a sum of fewer generators than there are
/// classes.
pub const APERY_ENTRY_LIMIT: u64 = MULTIPLICITY_LIMIT * GENERATOR_LIMIT;

/// The greatest modulus of an Apery list that is asked for. A table itself goes by the multiplicity.
pub const APERY_MODULUS_LIMIT: u64 = 1_048_576;

/// The greatest span of a semigroup whose members, gaps, decompositions or closures are listed.
pub const SPAN_LIMIT: u64 = 33_554_432;

/// The greatest number of minimal generators of a semigroup whose factorizations are listed.
pub const NARROW_GENERATORS: u64 = 64;

/// The greatest product of the multiplicity and the number of minimal generators of such a semigroup.
pub const NARROW_PRODUCT: u64 = 1_048_576;

/// The greatest number that is given as a fundamental gap.
pub const FUNDAMENTAL_GAP_LIMIT: u64 = 16_777_216;

/// The greatest modulus of a modular or proportionally modular semigroup.
pub const MODULUS_LIMIT: u64 = 16_777_216;
