// The net card: read, checked as a value, written.
#![tactic(auto)]

mod counts;

ghost use Rattle.std.specs.Prelude.{◌≡◌, true, cond, ◌++◌, ◌+◌, ◌*◌, ◌≤◌, ◌<◌, min, length, get_or, set, drop, replicate, leb};
ghost use Rattle.laws.specs.Arrays.{filled};
ghost use Rattle.laws.specs.Writing.{Puts};
ghost use Rattle.reply.specs.Respond.{Responded};
ghost use Rattle.text.specs.Key.{bytes};
ghost use Rattle.text.specs.Writer.{Writes};
ghost use Rattle.form.specs.Form.{keyed};
ghost use Rattle.form.specs.Line.{items, items_text};
ghost use Rattle.net.specs.Net.{latest, latest_checked, latest_text, weights, starts, rows, rows_of, body, counted_lines, net_card, net_text};
ghost use Rattle.net_card.specs.Code.{interval, found_in, stored_in, stored_as, behind_sheet, behind_counts, started, remainder_start};

use counts::{Heading, Slots};
use form::{Judge, Range};
use net::{NO_TRANSITION, Net, Transition};
use reply::Refusal;
use text::Writer;

// The upper bound against its range and the lower bound.
fn check_latest(latest: Option<u32>, earliest: u32, line: usize) -> Result<(), Refusal>
    ensures { result ≡ latest_checked earliest latest line }
{
    let Some(n) = latest else { return Ok(()) };
    Range(0, 1000).check(n as u64, line)?;
    if n < earliest {
        return Err(Refusal::LatestBelowEarliest(line));
    }
    Ok(())
}

// The upper bound that stands at a position, and the line's end.
fn latest_at(
    s: &[u8],
    at: usize,
    earliest: u32,
    line: usize,
) -> Result<(Option<u32>, usize), Refusal>
    ensures { result ≡ (latest earliest).read s.now at line }
{
    if text::begins_at(s, at, b"inf\n") {
        return Ok((None, at + 4));
    }
    let (n, next) = text::field_at(s, at, true).ok_or(Refusal::Malformed(line))?;
    check_latest(Some(n), earliest, line)?;
    Ok((Some(n), next))
}

// The line `latest`.
fn latest_line(
    s: &[u8],
    at: usize,
    earliest: u32,
    line: usize,
) -> Result<(Option<u32>, usize), Refusal>
    ensures { result ≡ (keyed (bytes "latest=") (latest earliest)).read s.now at line }
{
    if !text::begins_at(s, at, b"latest=") {
        return Err(Refusal::Malformed(line));
    }
    latest_at(s, at + 7, earliest, line)
}

// The lines `earliest` and `latest` of a transition.
fn interval_lines(s: &[u8], at: usize, line: usize) -> Result<(Transition, usize), Refusal>
    requires { line ≤ 1000 }
    ensures { result ≡ interval.read s.now at line }
{
    let (earliest, behind) = form::number_line(s, at, b"earliest=", Range(0, 1000), line)?;
    let (latest, next) = latest_line(s, behind, earliest, line + 1)?;
    Ok((Transition { earliest, latest }, next))
}

// Stores a number in a slot of an array if it fits a byte, and says whether it does.
fn store(table: &mut [u8; 512], slot: usize, value: u32) -> bool
    requires { slot < 512 }
    ensures { (result ≡ leb value 255) × (table.new ≡ cond (leb value 255) (set table.old slot value) table.old) }
{
    let Ok(weight) = u8::try_from(value) else {
        return false;
    };
    table[slot] = weight;
    true
}

// Reads numbers joined by commas and the line's end, and stores them; the form of the whole line comes before the ranges.
fn store_items(
    s: &[u8],
    at: usize,
    line: usize,
    table: &mut [u8; 512],
    to: Slots,
) -> Result<usize, Refusal>
    ensures { found_in result table.new ≡ stored_in to table.old ((items to.count 16 0 255).read s.now at line) }
{
    let mut narrow = true;
    let mut next = at;
    // The slots lie a step apart, so that the index is needed.
    for i in 0..to.count {
        let (value, behind) = text::field_at(s, next, i + 1 == to.count).ok_or(Refusal::Malformed(
            line,
        ))?;
        narrow &= store(table, to.first + to.step * i, value);
        next = behind;
    }
    if narrow {
        Ok(next)
    } else {
        Err(Refusal::OutOfRange(line))
    }
}

// A line with a key and a list of weights, which are stored.
fn weights_line(
    s: &[u8],
    at: usize,
    key: &[u8],
    line: usize,
    table: &mut [u8; 512],
    to: Slots,
) -> Result<usize, Refusal>
    ensures { found_in result table.new ≡
        stored_in to table.old ((keyed key.now (items to.count 16 0 255)).read s.now at line) }
{
    if !text::begins_at(s, at, key) {
        return Err(Refusal::Malformed(line));
    }
    store_items(s, at + key.len(), line, table, to)
}

// The lines `take` and `give` of transition t, which are stored in the arrays of a net.
fn weight_lines(
    s: &[u8],
    at: usize,
    line: usize,
    head: Heading,
    t: usize,
    take: &mut [u8; 512],
    give: &mut [u8; 512],
) -> Result<usize, Refusal>
    requires { (t < 32) × (line ≤ 1002) }
    ensures { found_in result (take.new, give.new) ≡
        stored_as head.places t take.old give.old ((weights head.places).read s.now at line) }
{
    let taken = Slots::taken(head.places, t);
    let given = Slots::given(head.places, t);
    let next = weights_line(s, at, b"take=", line, take, taken)?;
    weights_line(s, next, b"give=", line + 1, give, given)
}

// The lines `start`.
fn start_lines(s: &[u8], at: usize, head: Heading) -> Result<([u8; 16], usize), Refusal>
    ensures { result ≡ (starts head.places).read s.now at 4 }
{
    let mut start = [0u8; 16];
    let mut next = at;
    for (i, slot) in start[..head.places].iter_mut().enumerate() {
        let (tokens, behind) = form::number_line(s, next, b"start=", Range(0, 255), 4 + i)?;
        *slot = tokens as u8;
        next = behind;
    }
    Ok((start, next))
}

// The lines of all transitions, behind the tokens of the start.
fn table_lines(s: &[u8], at: usize, head: Heading, start: [u8; 16]) -> Result<(Net, usize), Refusal>
    ensures { result ≡ started head start ((rows head.places head.transitions).read s.now at (4 + head.places)) }
{
    let mut take = [0u8; 512];
    let mut give = [0u8; 512];
    let mut table = [NO_TRANSITION; 32];
    let mut next = at;
    for (t, slot) in table[..head.transitions].iter_mut().enumerate() {
        let line = 4 + head.places + 4 * t;
        let (interval, behind) = interval_lines(s, next, line)?;
        next = weight_lines(s, behind, line + 2, head, t, &mut take, &mut give)?;
        *slot = interval;
    }
    let net = Net {
        sheet: head.sheet,
        places: head.places,
        transitions: head.transitions,
        start,
        take,
        give,
        table,
    };
    Ok((net, next))
}

// The lines behind the two counts.
fn net_lines(s: &[u8], at: usize, head: Heading) -> Result<(Net, usize), Refusal>
    ensures { result ≡ behind_counts head ((body head.places head.transitions).read s.now at 4) }
{
    let (start, next) = start_lines(s, at, head)?;
    table_lines(s, next, head, start)
}

// The two counts and the lines that they ask for, behind the sheet.
fn counted_lines(s: &[u8], at: usize, sheet: u32) -> Result<(Net, usize), Refusal>
    ensures { result ≡ behind_sheet sheet (counted_lines.read s.now at 2) }
{
    let (places, at_transitions) = form::number_line(s, at, b"places=", Range(1, 16), 2)?;
    let (transitions, at_start) = form::number_line(
        s,
        at_transitions,
        b"transitions=",
        Range(1, 32),
        3,
    )?;
    let head = Heading {
        sheet,
        places: places as usize,
        transitions: transitions as usize,
    };
    net_lines(s, at_start, head)
}

// Reads the net card at the front of an input: the net, and the position behind the card.
pub fn read_net(s: &[u8]) -> Result<(Net, usize), Refusal>
    ensures { result ≡ net_card.read s.now 0 1 }
{
    let (sheet, next) = form::number_line(s, 0, b"sheet=", Range(0, 9999), 1)?;
    counted_lines(s, next, sheet)
}

// The unread remainder of an input behind what was read, as that part of the input.
pub fn remainder(s: &[u8], next: usize) -> &[u8]
    ensures { (result.now ≡ drop next s.now) × (result.ref_ptr.0 ≡ s.entry.ref_ptr.0)
        × (result.ref_ptr.1 ≡ s.entry.ref_ptr.1 + min next (length s.now)) }
{
    &s[next.min(s.len())..]
}

// The same behind what a reader says that it read: all of the input where it refused the card.
pub fn remainder_of(s: &[u8], read: Result<usize, Refusal>) -> &[u8]
    ensures { (result.now ≡ drop (remainder_start read) s.now) × (result.ref_ptr.0 ≡ s.entry.ref_ptr.0)
        × (result.ref_ptr.1 ≡ s.entry.ref_ptr.1 + min (remainder_start read) (length s.now)) }
{
    remainder(s, read.unwrap_or(0))
}

// A transition's interval, as its two lines would be checked.
fn check_interval(t: Transition, line: usize) -> Result<(), Refusal>
    requires { line ≤ 1000 }
    ensures { result ≡ interval.check t line }
{
    Range(0, 1000).check(t.earliest as u64, line)?;
    check_latest(t.latest, t.earliest, line + 1)
}

// Checks a net handed over as a value, as its card would be. Its tokens and weights are bytes, none of which is out of range.
pub fn check_net(net: Net) -> Result<(), Refusal>
    ensures { result ≡ net_card.check net 1 }
{
    Range(0, 9999).check(net.sheet as u64, 1)?;
    Range(1, 16).check(net.places as u64, 2)?;
    Range(1, 32).check(net.transitions as u64, 3)?;
    for (t, interval) in net.table[..net.transitions].iter().enumerate() {
        check_interval(*interval, 4 + net.places + 4 * t)?;
    }
    Ok(())
}

// The line `latest`. The writers ask for no room; that of a whole card shows it once, by the longest card.
fn put_latest_line(w: &mut Writer, latest: Option<u32>)
    ensures { Writes w.old (bytes "latest=" ++ latest_text latest) w.new }
{
    w.put_bytes(b"latest=");
    match latest {
        None => w.put_bytes(b"inf\n"),
        Some(n) => w.put_field(n as u64, true),
    }
}

// The two lines of a transition's interval.
fn put_interval(w: &mut Writer, t: Transition)
    ensures { Writes w.old (interval.text t) w.new }
{
    form::put_number_line(w, b"earliest=", t.earliest as u64);
    put_latest_line(w, t.latest);
}

// The two lines of a transition's weights.
fn put_weights(w: &mut Writer, take: &[u8], give: &[u8])
    ensures { Writes w.old ((bytes "take=" ++ items_text take.now) ++ (bytes "give=" ++ items_text give.now)) w.new }
{
    form::put_items_line(w, b"take=", take);
    form::put_items_line(w, b"give=", give);
}

// Sixteen weights of an array, from the first slot on, whatever the count.
fn row_of(table: &[u8; 512], from: Slots) -> [u8; 16]
    ensures { result ≡ filled (λ p. get_or table.now (from.first + from.step * p) 0) 16 (replicate 16 0) }
{
    let mut row = [0u8; 16];
    for (p, weight) in row.iter_mut().enumerate() {
        *weight = table[from.first + from.step * p];
    }
    row
}

// The lines of all transitions. That the counts are within the arrays is what the check of `write_net` found, and no part of a net as a type.
fn put_table(w: &mut Writer, net: Net)
    requires { (net.places ≤ 16) × (net.transitions ≤ 32) }
    ensures { Writes w.old ((rows net.places net.transitions).text (rows_of net)) w.new }
{
    for (t, interval) in net.table[..net.transitions].iter().enumerate() {
        let take = row_of(&net.take, Slots::taken(net.places, t));
        let give = row_of(&net.give, Slots::given(net.places, t));
        put_interval(w, *interval);
        put_weights(w, &take[..net.places], &give[..net.places]);
    }
}

// The lines `start`.
fn put_start(w: &mut Writer, start: &[u8])
    requires { length start.now ≤ 16 }
    ensures { Writes w.old ((starts (length start.now)).text start.now) w.new }
{
    for tokens in start {
        form::put_number_line(w, b"start=", *tokens as u64);
    }
}

// The lines of a net.
fn put_lines(w: &mut Writer, net: Net)
    requires { (net.places ≤ 16) × (net.transitions ≤ 32) }
    ensures { Writes w.old (net_card.text net) w.new }
{
    form::put_number_line(w, b"sheet=", net.sheet as u64);
    form::put_number_line(w, b"places=", net.places as u64);
    form::put_number_line(w, b"transitions=", net.transitions as u64);
    put_start(w, &net.start[..net.places]);
    put_table(w, net);
}

// The card of a net at the front of an output, and how many bytes it has, as `console::refusal_front` does.
fn put_net(out: &mut [u8], net: Net) -> usize
    requires { (net.places ≤ 16) × (net.transitions ≤ 32) }
    ensures { Puts out.old 0 (net_card.text net) result out.new }
{
    let mut w = Writer::new(out);
    put_lines(&mut w, net);
    w.at
}

// Writes the card of a net that passes its check. No card has more than 5,444 bytes.
pub fn write_net(net: Net, out: &mut [u8]) -> Result<usize, Refusal>
    ensures { Responded (net_text net) out.old result out.new }
{
    check_net(net)?;
    let mut card = [0u8; 5444];
    let n = put_net(&mut card, net);
    reply::respond(&card[..n], out)
}
