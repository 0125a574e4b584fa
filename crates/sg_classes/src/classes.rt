//! Entries of residue classes.

ghost use Rattle.std.specs.Prelude.{◌<◌, length, IsTrue, ◌↔◌};
ghost use Rattle.sg_classes.specs.Classes.{IsAboveEntry, IsLoweredBy};

/// Whether a number is at least the entry of its residue class.
pub fn is_above_entry(table: &[u64], n: u64) -> bool
    requires { 0 < length table.now }
    ensures { IsTrue result ↔ IsAboveEntry table.now n }
{
    table[(n % table.len() as u64) as usize] <= n
}

/// Lowers the entry of the class of each listed number to that number, where it is greater.
pub fn lower_all(table: &mut [u64], list: &[u64])
    requires { 0 < length table.old }
    ensures { IsLoweredBy list.now table.old table.new (length list.now) }
{
    for place in 0..list.len() {
        let class = (list[place] % table.len() as u64) as usize;
        table[class] = table[class].min(list[place]);
    }
}
