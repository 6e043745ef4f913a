// The bytes of a card: keys, words and decimal numbers, compared or read at a position and written behind one another.
#![tactic(auto)]

ghost use Rattle.std.specs.Prelude.{◌≡◌, ◌≢◌, suc, true, ◌+◌, ◌*◌, ◌^◌, ◌≤◌, ◌<◌, [], ◌∷◌, length, get_or, drop};
ghost use Rattle.text.specs.Key.{begins_with};
ghost use Rattle.text.specs.Number.{is_digit, class_of, separator, field_at};
ghost use Rattle.text.specs.Decimal.{width, decimal, field};
ghost use Rattle.text.specs.Writer.{Writes};

// What a byte is to a reader of cards; the digits from 1 on with their value.
#[derive(Clone, Copy, PartialEq, Eq)]
enum ByteClass {
    Zero,
    Digit(u8),
    Comma,
    LineEnd,
    Other,
}

// The class of a byte. The classes are asked in the order in which they occur, a digit before a zero, so that no branch depends on the value of a weight:
// with an arm for each a large card took two fifths longer.
fn class_of(b: u8) -> ByteClass
    ensures { result ≡ class_of b }
{
    match b {
        b'0'..=b'9' => {
            if b == b'0' {
                ByteClass::Zero
            } else {
                ByteClass::Digit(b - b'0')
            }
        }
        _ => match b {
            b',' => ByteClass::Comma,
            b'\n' => ByteClass::LineEnd,
            _ => ByteClass::Other,
        },
    }
}

// Whether a byte is a digit, by its class.
fn is_digit(b: u8) -> bool
    ensures { result ≡ is_digit b }
{
    matches!(class_of(b), ByteClass::Zero | ByteClass::Digit(_))
}

// What stands behind a number.
fn separator_of(last: bool) -> u8
    ensures { result ≡ separator last }
{
    if last { b'\n' } else { b',' }
}

// Whether the separator stands at a position.
fn separated(s: &[u8], at: usize, last: bool) -> bool
    ensures { result ≡ begins_with (separator last ∷ []) (drop at s.now) }
{
    if s.len() <= at {
        return false;
    }
    match class_of(s[at]) {
        ByteClass::LineEnd => last,
        ByteClass::Comma => !last,
        _ => false,
    }
}

// The number that stands at a position, one to nine digits without a leading zero, with its separator: a line end behind the last of a line, else a comma.
// And the position behind both. Most weights of a net have one digit, so that is looked for first, and for a zero as for any other digit. Longer numbers have
// a function of their own, so that this one can stand at the place of the call: what it answers then needs no memory, and a large card takes half the time.
#[inline]
pub fn field_at(s: &[u8], at: usize, last: bool) -> Option<(u32, usize)>
    ensures { result ≡ field_at s.now at last }
{
    if s.len() <= at || !is_digit(s[at]) {
        return None;
    }
    if separated(s, at + 1, last) {
        return Some(((s[at] - b'0') as u32, at + 2));
    }
    match class_of(s[at]) {
        ByteClass::Zero => None,
        _ => number_from(s, at, last),
    }
}

// The number that begins with a digit other than 0.
#[inline(never)]
fn number_from(s: &[u8], at: usize, last: bool) -> Option<(u32, usize)>
    requires { (at < length s.now) × (is_digit (get_or s.now at 0) ≡ true) × (get_or s.now at 0 ≢ 48) }
    ensures { result ≡ field_at s.now at last }
{
    let mut v = (s[at] - b'0') as u32;
    // The position is counted, since it is answered.
    for i in at + 1..s.len() {
        if !is_digit(s[i]) {
            return if separated(s, i, last) {
                Some((v, i + 1))
            } else {
                None
            };
        }
        if i - at == 9 {
            return None;
        }
        v = v * 10 + (s[i] - b'0') as u32;
    }
    None
}

// Whether a key stands at a position.
pub fn begins_at(s: &[u8], at: usize, key: &[u8]) -> bool
    ensures { result ≡ begins_with key.now (drop at s.now) }
{
    if s.len() < at {
        return key.is_empty();
    }
    s[at..].starts_with(key)
}

// The k-th power of ten. A constant table would be copied to the stack at every look.
fn power(k: usize) -> u64
    requires { k ≤ 19 }
    ensures { result ≡ 10 ^ k }
{
    match k {
        0 => 1,
        1 => 10,
        2 => 100,
        3 => 1000,
        4 => 10000,
        5 => 100000,
        6 => 1000000,
        7 => 10000000,
        8 => 100000000,
        9 => 1000000000,
        10 => 10000000000,
        11 => 100000000000,
        12 => 1000000000000,
        13 => 10000000000000,
        14 => 100000000000000,
        15 => 1000000000000000,
        16 => 10000000000000000,
        17 => 100000000000000000,
        18 => 1000000000000000000,
        _ => 10000000000000000000,
    }
}

// How often a power of ten was subtracted from a number, and what is left of it.
#[derive(Clone, Copy)]
struct Subtracted {
    times: u8,
    left: u64,
}

// A power of ten subtracted from a number as often as it can be, nine times at most.
fn subtract(v: u64, p: u64) -> Subtracted
    requires { v < 10 * p }
    ensures { (v ≡ result.times * p + result.left) × (result.left < p) }
{
    let mut times: u8 = 0;
    let mut left = v;
    // How often is not known before: this is no loop over a range.
    while p <= left {
        left -= p;
        times += 1;
    }
    Subtracted { times, left }
}

// The same, of the k-th power. The powers of the numbers on cards, which have eight digits at most, have an arm each, so that the compiler knows what is
// subtracted.
fn digit_at(v: u64, k: usize) -> Subtracted
    requires { (k ≤ 19) × (v < 10 ^ suc k) }
    ensures { (v ≡ result.times * 10 ^ k + result.left) × (result.left < 10 ^ k) }
{
    match k {
        1 => subtract(v, power(1)),
        2 => subtract(v, power(2)),
        3 => subtract(v, power(3)),
        4 => subtract(v, power(4)),
        5 => subtract(v, power(5)),
        6 => subtract(v, power(6)),
        7 => subtract(v, power(7)),
        _ => subtract(v, power(k)),
    }
}

// The power of ten that the highest digit of a number counts.
fn highest(n: u64) -> usize
    ensures { suc result ≡ width 19 n }
{
    for k in 0..19 {
        if n < power(k + 1) {
            return k;
        }
    }
    19
}

// An output and the position of its next byte. The methods ask for no room: what does not fit is not written, and the position then stands one past the end
// and stays there.
#[derive(Drop)]
pub struct Writer<'a> {
    pub out: &'a mut [u8],
    pub at: usize,
}

impl<'a> Writer<'a> {
    // A writer at the front of an output.
    pub fn new(out: &'a mut [u8]) -> Writer<'a>
        ensures { (result.out.ghost_name ≡ out.entry.ghost_name) × (result.out.now ≡ out.old) × (result.at ≡ 0) }
    {
        Writer { out, at: 0 }
    }

    // A byte.
    pub fn put_byte(&mut self, b: u8)
        ensures { Writes self.old (b ∷ []) self.new }
    {
        let at = self.at;
        if at < self.out.len() {
            self.out[at] = b;
            self.at = at + 1;
        } else {
            self.at = self.out.len() + 1;
        }
    }

    // A text, copied where it fits.
    pub fn put_bytes(&mut self, text: &[u8])
        ensures { Writes self.old text.now self.new }
    {
        let at = self.at;
        if at <= self.out.len() && text.len() <= self.out.len() - at {
            self.out[at..at + text.len()].copy_from_slice(text);
            self.at = at + text.len();
            return;
        }
        for b in text {
            self.put_byte(*b);
        }
    }

    // A number, its highest digit first. One and two digits are written at the place of the call.
    #[inline]
    pub fn put_number(&mut self, n: u64)
        ensures { Writes self.old (decimal n) self.new }
    {
        match n {
            0..=9 => self.put_byte((48 + n) as u8),
            10..=99 => self.put_two(n),
            100..=999 => self.put_three(n),
            _ => self.put_digits(n),
        }
    }

    // A number of two digits, both at once where they fit.
    fn put_two(&mut self, n: u64)
        requires { (10 ≤ n) × (n < 100) }
        ensures { Writes self.old (decimal n) self.new }
    {
        let tens = subtract(n, 10);
        let start = self.at;
        if 2 <= self.out.len().saturating_sub(start) {
            self.out[start] = 48 + tens.times;
            self.out[start + 1] = (48 + tens.left) as u8;
            self.at = start + 2;
            return;
        }
        self.put_byte(48 + tens.times);
        self.put_byte((48 + tens.left) as u8);
    }

    // A number of three digits, as larger weights and tokens have.
    #[inline(never)]
    fn put_three(&mut self, n: u64)
        requires { (100 ≤ n) × (n < 1000) }
        ensures { Writes self.old (decimal n) self.new }
    {
        let hundreds = subtract(n, 100);
        let tens = subtract(hundreds.left, 10);
        self.put_byte(48 + hundreds.times);
        self.put_byte(48 + tens.times);
        self.put_byte((48 + tens.left) as u8);
    }

    // Any number: each digit is how often its power of ten can be subtracted from what the digits before it have left.
    #[inline(never)]
    fn put_digits(&mut self, n: u64)
        ensures { Writes self.old (decimal n) self.new }
    {
        let mut left = n;
        for k in (1..=highest(n)).rev() {
            let d = digit_at(left, k);
            self.put_byte(48 + d.times);
            left = d.left;
        }
        self.put_byte((48 + left) as u8);
    }

    // A number and its separator. Most weights of a net have one digit, so that is looked for first.
    pub fn put_field(&mut self, n: u64, last: bool)
        ensures { Writes self.old (field n last) self.new }
    {
        let at = self.at;
        if n < 10 && at < self.out.len() && 2 <= self.out.len() - at {
            self.out[at] = (48 + n) as u8;
            self.out[at + 1] = separator_of(last);
            self.at = at + 2;
            return;
        }
        self.put_number(n);
        self.put_byte(separator_of(last));
    }
}
