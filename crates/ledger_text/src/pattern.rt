//! Names by a pattern.
ghost use Rattle.std.specs.Prelude.{◌≡◌, ◌≤◌, ◌<◌, ◌+◌, ◌==◌, ◌&&◌, ◌||◌, IsTrue, ◌↔◌, ℕ, length, false};
ghost use Rattle.std.specs.Prelude.{slice_index, slice_index_or};
ghost use Rattle.ledger_text.specs.Pattern.{IsMatch};

/// The most letters of a link's name.
pub const MAX_NAME: usize = 32;

/// A table of a name's places, the place after its last letter among them.
const PLACES: usize = 33;

/// Which places a pattern that begins with this letter matches from, by those that the rest of it does.
fn before_letter(letter: u8, name: &[u8], from: &mut [bool])
    requires name { length name.now ≤ 32 }
    requires from { length from.old ≡ 33 }
    ensures last { slice_index_or from.new (length name.now) false ≡ false }
    ensures others { (i : ℕ) → i < length name.now → slice_index_or from.new i false
        ≡ ((slice_index name.now i == letter) && slice_index_or from.old (i + 1) false) }
{
    for i in 0..name.len() {
        from[i] = name[i] == letter && from[i + 1];
    }
    from[name.len()] = false;
}

/// Which places a pattern that begins with a star matches from, by those that the rest of it does.
fn before_star(name: &[u8], from: &mut [bool])
    requires name { length name.now ≤ 32 }
    requires from { length from.old ≡ 33 }
    ensures last { slice_index_or from.new (length name.now) false
        ≡ slice_index_or from.old (length name.now) false }
    ensures others { (i : ℕ) → i < length name.now → slice_index_or from.new i false
        ≡ (slice_index_or from.old i false || slice_index_or from.new (i + 1) false) }
{
    for i in (0..name.len()).rev() {
        from[i] = from[i] || from[i + 1];
    }
}

/// Is there a text for each star of the pattern such that it is the name? No memory is taken, and the time
/// is that of the pattern's length times the name's.
pub fn matches(pattern: &[u8], name: &[u8]) -> bool
    requires { length name.now ≤ MAX_NAME }
    ensures { IsTrue result ↔ IsMatch pattern.now name.now }
{
    let mut from = [false; PLACES];
    from[name.len()] = true;
    for at in (0..pattern.len()).rev() {
        if pattern[at] == b'*' {
            before_star(name, &mut from);
        } else {
            before_letter(pattern[at], name, &mut from);
        }
    }
    from[0]
}
