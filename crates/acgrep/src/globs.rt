//! Globs: which names a pattern of names fits.
//!
//! `*` stands for any bytes, `?` for one, and a set in brackets for one of its bytes, or behind `!` or `^` for one that is none of
//! them. A backslash makes the byte behind it stand for itself. A bracket that nothing closes stands for itself too.

ghost use Rattle.std.specs.Prelude.{◌≡◌, ◌≤◌, IfSome, length};
ghost use Rattle.acgrep.specs.Globs.{any_suffix, base_name, begins_part, closing, fits, front_fits, has_behind, has_in_brackets, has_in_set, in_item, is_range, item_len, negation, operand_fits, own_len, part_len, stands_for, value_at};

/// What a name comes to where it is read along a glob, up to the first star.
#[derive(Clone, Copy)]
enum Front<'a> {
    /// The glob fits the whole name, and has no star.
    Whole,
    /// It does not fit.
    No,
    /// It does as far as its first star. These are what stands behind that, and what is left of the name.
    Star(&'a [u8], &'a [u8]),
}

/// Whether a glob fits a name.
pub fn fits(glob: &[u8], name: &[u8]) -> bool
    ensures fits { result ≡ fits 0 glob.now name.now }
{
    match front_of(glob, name) {
        Front::Whole => true,
        Front::No => false,
        Front::Star(rest, left) => fits_some_suffix(rest, left),
    }
}

/// Whether a glob fits what is left of a name behind some of its bytes. Where it fits up to a star, the first place is as good as any.
fn fits_some_suffix(glob: &[u8], name: &[u8]) -> bool
    ensures fits { result ≡ any_suffix (fits 0 glob.now) name.now }
{
    let mut rest = glob;
    let mut left = name;
    while !left.is_empty() {
        match front_of(rest, left) {
            Front::Whole => return true,
            Front::No => left = &left[1..],
            Front::Star(behind, other) => {
                rest = behind;
                left = other;
            }
        }
    }
    // Stars alone fit an empty name.
    for byte in rest {
        if *byte != b'*' {
            return false;
        }
    }
    true
}

/// Reads a name along a glob, up to the first star.
fn front_of<'a>(glob: &'a [u8], name: &'a [u8]) -> Front<'a>
    ensures front { front_fits glob.now name.now result }
{
    let mut rest = glob;
    let mut left = name;
    while let Some((first, behind)) = rest.split_first() {
        if *first == b'*' {
            return Front::Star(behind, left);
        }
        let Some((byte, other)) = left.split_first() else {
            return Front::No;
        };
        if !stands_for(*first, behind, *byte) {
            return Front::No;
        }
        rest = &behind[part_len(*first, behind)..];
        left = other;
    }
    if left.is_empty() {
        Front::Whole
    } else {
        Front::No
    }
}

/// Whether the part of a glob that begins with this byte stands for a byte.
fn stands_for(first: u8, behind: &[u8], byte: u8) -> bool
    ensures stands { result ≡ stands_for first behind.now byte }
{
    match first {
        b'?' => true,
        b'[' => has_in_brackets(behind, byte),
        _ => value_at(first, behind) == byte,
    }
}

/// How many further bytes belong to the part that begins with this byte.
fn part_len(first: u8, behind: &[u8]) -> usize
    ensures len { result ≡ part_len first behind.now }
    ensures within { result ≤ length behind.now }
{
    if first != b'[' {
        return own_len(first, behind);
    }
    let before = negation(behind);
    match closing(&behind[before..]) {
        Some(count) => before + count,
        None => 0,
    }
}

/// Whether a set, of which this stands behind its bracket, has a byte.
fn has_in_brackets(behind: &[u8], byte: u8) -> bool
    ensures has { result ≡ has_in_brackets behind.now byte }
{
    let before = negation(behind);
    let items = &behind[before..];
    match closing(items) {
        Some(_) => has_in_set(items, byte) != (before == 1),
        None => byte == b'[',
    }
}

/// How many bytes negate a set.
fn negation(behind: &[u8]) -> usize
    ensures negation { result ≡ negation behind.now }
    ensures within { result ≤ length behind.now }
{
    match behind.split_first() {
        Some((first, _)) if *first == b'!' || *first == b'^' => 1,
        _ => 0,
    }
}

/// Up to where a set goes, with its closing bracket, if it has one. The first item may be such a bracket itself.
fn closing(items: &[u8]) -> Option<usize>
    ensures closing { result ≡ closing items.now }
    ensures within { IfSome result (λ count. count ≤ length items.now) }
{
    let Some((first, behind)) = items.split_first() else {
        return None;
    };
    let len = item_len(*first, behind);
    let mut passed = 1 + len;
    let mut rest = &behind[len..];
    while let Some((first, behind)) = rest.split_first() {
        if *first == b']' {
            return Some(passed + 1);
        }
        let len = item_len(*first, behind);
        passed += 1 + len;
        rest = &behind[len..];
    }
    None
}

/// Whether an item of a set has a byte, up to its closing bracket.
fn has_in_set(items: &[u8], byte: u8) -> bool
    ensures has { result ≡ has_in_set items.now byte }
{
    let Some((first, behind)) = items.split_first() else {
        return false;
    };
    if in_item(*first, behind, byte) {
        return true;
    }
    has_behind(&behind[item_len(*first, behind)..], byte)
}

/// Whether one of the items behind the first has it.
fn has_behind(items: &[u8], byte: u8) -> bool
    ensures has { result ≡ has_behind 0 items.now byte }
{
    let mut rest = items;
    while let Some((first, behind)) = rest.split_first() {
        if *first == b']' {
            return false;
        }
        if in_item(*first, behind, byte) {
            return true;
        }
        rest = &behind[item_len(*first, behind)..];
    }
    false
}

/// Whether an item that begins with this byte has another one: a range from its first to its last.
fn in_item(first: u8, behind: &[u8], byte: u8) -> bool
    ensures has { result ≡ in_item first behind.now byte }
{
    let low = value_at(first, behind);
    let rest = &behind[own_len(first, behind)..];
    if is_range(rest) {
        return low <= byte && byte <= value_at(rest[1], &rest[2..]);
    }
    byte == low
}

/// How many further bytes belong to such an item.
fn item_len(first: u8, behind: &[u8]) -> usize
    ensures len { result ≡ item_len first behind.now }
    ensures within { result ≤ length behind.now }
{
    let own = own_len(first, behind);
    let rest = &behind[own..];
    if is_range(rest) {
        return own + 2 + own_len(rest[1], &rest[2..]);
    }
    own
}

/// Whether a hyphen and the end of a range stand here.
fn is_range(behind: &[u8]) -> bool
    ensures range { result ≡ is_range behind.now }
{
    behind.len() > 1 && behind[0] == b'-' && behind[1] != b']'
}

/// How many further bytes belong to this byte: one behind a backslash.
fn own_len(first: u8, behind: &[u8]) -> usize
    ensures len { result ≡ own_len first behind.now }
    ensures within { result ≤ length behind.now }
{
    if first == b'\\' && !behind.is_empty() {
        return 1;
    }
    0
}

/// The byte that is meant: the one behind a backslash.
fn value_at(first: u8, behind: &[u8]) -> u8
    ensures value { result ≡ value_at first behind.now }
{
    if first == b'\\' && !behind.is_empty() {
        return behind[0];
    }
    first
}

/// Whether a glob fits an operand: the whole, or what stands behind a slash and does not begin with one.
pub fn operand_fits(glob: &[u8], name: &[u8]) -> bool
    ensures fits { result ≡ operand_fits glob.now name.now }
{
    if fits(glob, name) {
        return true;
    }
    let mut rest = name;
    while let Some((first, behind)) = rest.split_first() {
        if *first == b'/' && begins_part(behind) && fits(glob, behind) {
            return true;
        }
        rest = behind;
    }
    false
}

/// Whether no slash stands here.
fn begins_part(name: &[u8]) -> bool
    ensures part { result ≡ begins_part name.now }
{
    match name.split_first() {
        Some((first, _)) => *first != b'/',
        None => true,
    }
}

/// What stands behind the last slash of a name.
pub fn base_name(name: &[u8]) -> &[u8]
    ensures base { result.now ≡ base_name name.now name.now }
{
    let mut base = name;
    let mut rest = name;
    while let Some((first, behind)) = rest.split_first() {
        if *first == b'/' {
            base = behind;
        }
        rest = behind;
    }
    base
}
