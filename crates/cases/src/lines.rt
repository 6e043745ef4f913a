// The text of a file of cases: its lines and parts, the bytes that a part stands for, its words and its numbers.
ghost use Rattle.text.specs.Key.{begins_with};
ghost use Rattle.std.specs.Prelude.{Any, ◌≡◌, true, ◌+◌, ◌≤◌, ◌<◌, min, length, IfSome};

use text::Writer;

// The part of a text between two positions; an empty one where they do not stand in the text, the first before the second. The program `live` has the same
// line: it is one call of the library, and no crate below both has a public function for it.
pub(crate) fn part(s: &[u8], from: usize, to: usize) -> &[u8] {
    s.get(from..to).unwrap_or(&[])
}

// The position behind the first such byte from a position on, or the text's end.
pub(crate) fn behind(s: &[u8], at: usize, b: u8) -> usize
    ensures { (min (at + 1) (length s.now) ≤ result) × (result ≤ length s.now) }
{
    let Some(rest) = s.get(at..) else {
        return s.len();
    };
    match rest.iter().position(|c| *c == b) {
        Some(bytes) => at + bytes + 1,
        None => s.len(),
    }
}

// The part of a text between the line at a position and another position.
pub(crate) fn between(s: &[u8], line: usize, to: usize) -> &[u8] {
    part(s, behind(s, line, b'\n'), to)
}

// Where the given line stands from the line at a position on, or the text's end.
pub(crate) fn line_at(s: &[u8], from: usize, line: &[u8]) -> usize {
    let mut i = from;
    // The next position is the one behind the line that was compared.
    while i < s.len() {
        if text::begins_at(s, i, line) {
            return i;
        }
        i = behind(s, i, b'\n');
    }
    i
}

// What a table has beside the first of its words that a text begins with. With `find` it proves too, but this contract stays open at the return.
pub(crate) fn named<T: Copy>(s: &[u8], table: &[(&[u8], T)]) -> Option<T>
    ensures { IfSome result (λ m. Any (λ e. (begins_with e.0.now s.now ≡ true) × (e.1 ≡ m)) table.now) }
{
    for (word, meaning) in table {
        if text::begins_at(s, 0, word) {
            return Some(*meaning);
        }
    }
    None
}

// The value of a hexadecimal digit.
fn hex_digit(b: u8) -> Option<u8>
    ensures { IfSome result (λ d. d < 16) }
{
    match b {
        b'0'..=b'9' => Some(b - b'0'),
        b'a'..=b'f' => Some(b - b'a' + 10),
        _ => None,
    }
}

// The decimal number at a position, modulo 2 to the 32; 0 where there is none.
pub(crate) fn number(s: &[u8], at: usize) -> u32 {
    let mut v: u32 = 0;
    for b in part(s, at, s.len()) {
        let b'0'..=b'9' = *b else {
            return v;
        };
        v = v.wrapping_mul(10).wrapping_add((*b - b'0') as u32);
    }
    v
}

// Stores the numbers of a list from a position on, with a comma between two; how many, where there is room for them.
pub(crate) fn numbers(s: &[u8], from: usize, list: &mut [u32; 64]) -> Option<usize>
    ensures { IfSome result (λ n. n ≤ 64) }
{
    let mut at = from;
    for (i, place) in list.iter_mut().enumerate() {
        if s.len() <= at {
            return Some(i);
        }
        *place = number(s, at);
        at = behind(s, at, b',');
    }
    (s.len() <= at).then_some(64)
}

// What was read so far of an escape: nothing, a backslash, or its first digit too.
#[derive(Clone, Copy)]
enum Escape {
    Outside,
    Backslash,
    Digit(u8),
}

// What a byte makes of that, and the byte that is read where it ends one; nothing where the escape is wrong.
fn read_byte(escape: Escape, b: u8) -> Option<(Escape, Option<u8>)> {
    match (escape, b) {
        (Escape::Outside, b'\\') => Some((Escape::Backslash, None)),
        (Escape::Outside, _) => Some((Escape::Outside, Some(b))),
        (_, b'\n') => Some((Escape::Outside, None)),
        (Escape::Backslash, _) => Some((Escape::Digit(hex_digit(b)?), None)),
        (Escape::Digit(high), _) => Some((Escape::Outside, Some(high % 16 * 16 + hex_digit(b)?))),
    }
}

// The bytes that a part of a case stands for, written into a buffer, where it can be read and there is room. A backslash takes away the line's end behind it,
// and with two digits behind it stands for their byte.
pub(crate) fn decode<'a>(s: &[u8], out: &'a mut [u8; 16384]) -> Option<&'a [u8]> {
    let mut w = Writer::new(out);
    let mut escape = Escape::Outside;
    for b in s {
        let (next, byte) = read_byte(escape, *b)?;
        escape = next;
        if let Some(b) = byte {
            w.put_byte(b);
        }
    }
    let n = w.at;
    out.get(..n)
}
