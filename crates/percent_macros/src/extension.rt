//! The extension of a name.
ghost use Rattle.std.specs.Prelude.{◌≡◌};
ghost use Rattle.percent_macros.specs.Extensions.{name_parts};

use text_scan::split_at_last_mark;

/// A name's stem, and its extension without the dot: what stands behind the last dot that isn't its first
/// byte. A name without such a dot is all stem.
pub fn name_parts(name: &str) -> (&str, &str)
    ensures stem { result.0.now ≡ (name_parts name.now).stem }
    ensures extension { result.1.now ≡ (name_parts name.now).extension }
{
    let Some((stem, extension)) = split_at_last_mark(name, '.') else {
        return (name, "");
    };
    if stem.is_empty() {
        return (name, "");
    }
    (stem, extension)
}
