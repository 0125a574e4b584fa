//! The entry of a class in which no member is known, and the spread of the entries.

ghost use Rattle.sg_tables.specs.Spread.{IsSpread};

/// The entry of a residue class in which no member is known yet.
pub const UNREACHED: u64 = u64::MAX;

/// The spread of the entries: by how much the greatest exceeds the least but entry 0.
pub fn spread(table: &[u64]) -> u64
    ensures { IsSpread table.now result }
{
    let mut least = UNREACHED;
    let mut greatest = 0;
    for (class, entry) in table.iter().enumerate() {
        if class > 0 && *entry < least {
            least = *entry;
        }
        if *entry > greatest {
            greatest = *entry;
        }
    }
    greatest.saturating_sub(least)
}
