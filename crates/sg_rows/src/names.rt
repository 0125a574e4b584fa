//! Tables of names.

ghost use Rattle.std.specs.Prelude.{◌≡◌, map};
ghost use Rattle.std.specs.Map.{lookup};
ghost use Rattle.std.specs.Str.{bytes_eq};
ghost use Rattle.sg_rows.specs.Names.{entry_of};

/// A name and the command that it stands for.
pub struct Named<C>(pub &'static [u8], pub C);

/// The command of the first entry with this name.
pub fn find<C: Copy>(entries: &[Named<C>], name: &[u8]) -> Option<C>
    ensures { result ≡ lookup (bytes_eq name.now) (map entry_of entries.now) }
{
    for entry in entries {
        if name == entry.0 {
            return Some(entry.1);
        }
    }
    None
}
