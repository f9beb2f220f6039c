//! A kind and a mode in ten letters.
ghost use Rattle.std.specs.Prelude.{◌≡◌};
ghost use Rattle.mc_text.specs.Permissions.{kind_letter, has, letter, last_letter, perm_text};

use crate::kind::Kind;

/// The kind, and then the permissions of the owner, the group and others, three letters each. Bits of the
/// mode above `0o7777` don't show.
pub fn perm_text(kind: Kind, mode: u16) -> [u8; 10]
    ensures { result ≡ perm_text kind mode }
{
    [
        kind_letter(kind),
        letter(mode, 0o400, b'r'),
        letter(mode, 0o200, b'w'),
        last_letter(mode, 0o100, 0o4000, b's', b'S'),
        letter(mode, 0o040, b'r'),
        letter(mode, 0o020, b'w'),
        last_letter(mode, 0o010, 0o2000, b's', b'S'),
        letter(mode, 0o004, b'r'),
        letter(mode, 0o002, b'w'),
        last_letter(mode, 0o001, 0o1000, b't', b'T'),
    ]
}

fn kind_letter(kind: Kind) -> u8
    ensures { result ≡ kind_letter kind }
{
    match kind {
        Kind::File => b'-',
        Kind::Folder => b'd',
        Kind::Link => b'l',
        Kind::Other => b'?',
    }
}

/// A letter where the bit is set.
fn letter(mode: u16, bit: u16, shown: u8) -> u8
    ensures { result ≡ letter mode bit shown }
{
    if has(mode, bit) { shown } else { b'-' }
}

/// The letter of the right to execute. Where the special bit is set it is the small or the
/// large letter of that bit.
fn last_letter(mode: u16, bit: u16, special: u16, small: u8, large: u8) -> u8
    ensures { result ≡ last_letter mode bit special small large }
{
    match (has(mode, special), has(mode, bit)) {
        (true, true) => small,
        (true, false) => large,
        (false, _) => letter(mode, bit, b'x'),
    }
}

/// Whether a bit of the mode is set.
fn has(mode: u16, bit: u16) -> bool
    ensures { result ≡ has mode bit }
{
    mode & bit != 0
}
