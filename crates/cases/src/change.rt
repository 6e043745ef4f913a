// Changes to a net, a run or an order that was read: lines `key.index=number` for one slot each.
use super::lines;
use super::parts::Operation;
use net::Net;
use reply::Refusal;
use run::{Order, Run};

// The keys: nine of a net, three of a run or an order, three of a run alone. `Sheet` is the net's, `CardSheet` that of the run or order. `has_key` and
// `change_net` name all of them; the last arm of another match is for all other keys, which are too many for it.
#[derive(Clone, Copy, PartialEq, Eq)]
enum Key {
    Sheet,
    Places,
    Transitions,
    Start,
    Earliest,
    Latest,
    Unbounded,
    Take,
    Give,
    CardSheet,
    Firings,
    Fire,
    Denominator,
    Wait,
    Rest,
}

const KEYS: [(&[u8], Key); 15] = [
    (b"sheet=", Key::Sheet),
    (b"places=", Key::Places),
    (b"transitions=", Key::Transitions),
    (b"start.", Key::Start),
    (b"earliest.", Key::Earliest),
    (b"latest.", Key::Latest),
    (b"unbounded.", Key::Unbounded),
    (b"take.", Key::Take),
    (b"give.", Key::Give),
    (b"cardsheet=", Key::CardSheet),
    (b"firings=", Key::Firings),
    (b"fire.", Key::Fire),
    (b"denominator=", Key::Denominator),
    (b"wait.", Key::Wait),
    (b"rest=", Key::Rest),
];

// What a case reads, and whether its cards are refused: a net, a run and an order of it, and another run, to rank the first with, which no line changes. The
// values are there whatever `read` says, since the lines of a case change them.
#[derive(Clone, Copy)]
pub struct Values {
    pub read: Result<(), Refusal>,
    pub net: Net,
    pub run: Run,
    pub order: Order,
    pub other: Run,
}

// A change: its key, up to two indices, and the number put there.
#[derive(Clone, Copy)]
struct Change {
    key: Key,
    first: usize,
    second: usize,
    value: u32,
}

// The change that a line makes, where it begins with a key.
fn change_of(line: &[u8]) -> Option<Change> {
    let key = lines::named(line, &KEYS)?;
    let first = lines::behind(line, 0, b'.');
    let second = lines::behind(line, first, b'.');
    Some(Change {
        key,
        first: lines::number(line, first) as usize,
        second: lines::number(line, second) as usize,
        value: lines::number(line, lines::behind(line, 0, b'=')),
    })
}

// Whether the values of an operation have a key.
fn has_key(operation: Operation, key: Key) -> bool {
    match key {
        Key::CardSheet | Key::Firings | Key::Fire => !operation.reads_net_alone(),
        Key::Denominator | Key::Wait | Key::Rest => {
            !operation.reads_net_alone() && !operation.reads_order()
        }
        Key::Sheet
        | Key::Places
        | Key::Transitions
        | Key::Start
        | Key::Earliest
        | Key::Latest
        | Key::Unbounded
        | Key::Take
        | Key::Give => true,
    }
}

// Whether a change's indices stand in the arrays that it names, and its number fits the slot. Those that make it take both modulo the lengths.
fn in_arrays(c: Change) -> bool {
    match c.key {
        Key::Start => c.first < 16 && c.value < 256,
        Key::Take | Key::Give => c.first < 32 && c.second < 16 && c.value < 256,
        Key::Earliest | Key::Latest | Key::Unbounded => c.first < 32,
        _ => c.first < 64,
    }
}

// Makes a change to a net.
fn change_net(n: &mut Net, c: Change) {
    let transition = c.first % 32;
    let place = c.second % 16;
    let tokens = (c.value % 256) as u8;
    match c.key {
        Key::Sheet => n.sheet = c.value,
        Key::Places => n.places = c.value as usize,
        Key::Transitions => n.transitions = c.value as usize,
        Key::Start => n.start[c.first % 16] = tokens,
        Key::Earliest => n.table[transition].earliest = c.value,
        Key::Latest => n.table[transition].latest = Some(c.value),
        Key::Unbounded => n.table[transition].latest = None,
        Key::Take => n.take[32 * place + transition] = tokens,
        Key::Give => n.give[16 * transition + place] = tokens,
        Key::CardSheet | Key::Firings | Key::Fire | Key::Denominator | Key::Wait | Key::Rest => {}
    }
}

// Makes a change to a run.
fn change_run(r: &mut Run, c: Change) {
    let i = c.first % 64;
    match c.key {
        Key::CardSheet => r.sheet = c.value,
        Key::Firings => r.count = c.value as usize,
        Key::Fire => r.firings[i].fire = c.value,
        Key::Denominator => r.denominator = c.value,
        Key::Wait => r.firings[i].wait = c.value,
        Key::Rest => r.rest = c.value,
        _ => {}
    }
}

// Makes a change to an order.
fn change_order(r: &mut Order, c: Change) {
    match c.key {
        Key::CardSheet => r.sheet = c.value,
        Key::Firings => r.count = c.value as usize,
        Key::Fire => r.fires[c.first % 64] = c.value,
        _ => {}
    }
}

// The values of an operation with the changes made that the lines name; 1 at 0, as no card is refused, where one cannot be made.
pub(crate) fn changed(values: Values, operation: Operation, s: &[u8]) -> Values {
    let mut v = values;
    let mut at: usize = 0;
    // The next position is the one behind the line that was read.
    while at < s.len() {
        let next = lines::behind(s, at, b'\n');
        match change_of(lines::part(s, at, next)) {
            Some(c) if has_key(operation, c.key) && in_arrays(c) => {
                change_net(&mut v.net, c);
                change_run(&mut v.run, c);
                change_order(&mut v.order, c);
            }
            _ => v.read = Err(Refusal::Malformed(0)),
        }
        at = next;
    }
    v
}
