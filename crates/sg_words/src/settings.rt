//! What words are read to.

ghost use Rattle.std.specs.Prelude.{◌≡◌};
ghost use Rattle.sg_words.specs.declared.settings.WordsFault.TheVariants.{Memory};

use std::alloc::AllocError;

/// What accepted words ask for.
#[derive(Clone, Copy, Debug, PartialEq, Eq)]
pub struct Settings<'a> {
    /// How many items an affine command may count, from 1 to 1,000,000.
    pub budget: u64,
    /// How many answers each memo keeps, from 0 to 64.
    pub cache: u64,
    /// Whether the counts of the memos are told at the end.
    pub stats: bool,
    /// Whether the run goes on behind a refused statement.
    pub keep_going: bool,
    /// The number of statements of the drill, or none where no drill is named.
    pub drill: Option<u64>,
    /// The file to read, or none for standard input.
    pub file: Option<&'a str>,
}

/// Why words give no settings.
#[derive(Clone, Copy, Debug, PartialEq, Eq)]
pub enum WordsFault {
    /// The words break a rule.
    Usage,
    /// Memory was wanting.
    Memory,
}

impl From<AllocError> for WordsFault {
    ghost from_gives = { λ _ fault. fault ≡ Memory };

    fn from(_error: AllocError) -> WordsFault {
        WordsFault::Memory
    }
}
