// Two nets joined on one drawing, over values and over the bytes of cards.
#![tactic(auto)]

ghost use Rattle.std.specs.Prelude.{◌≡◌, ◌++◌, map, ◌+◌, ◌*◌, ◌≤◌, ◌<◌, ◌^◌, [], length, get_or, set, drop, replicate};
ghost use Rattle.laws.specs.Arrays.{filled};
ghost use Rattle.laws.specs.Each.{Each};
ghost use Rattle.laws.specs.Slots.{first_of, pad_to};
ghost use Rattle.reply.specs.Respond.{Passed, Responded};
ghost use Rattle.form.specs.Form.{front, alone};
ghost use Rattle.form.specs.Code.{value_read};
ghost use Rattle.operations.specs.Operation.{once_read};
ghost use Rattle.net.specs.Net.{net_card};
ghost use Rattle.net_card.specs.Code.{spread};
ghost use Rattle.joining.specs.Pairs.{numbers_at, pairs};
ghost use Rattle.joining.specs.Joining.{equal_starts, own_places, weight_at};
ghost use Rattle.joining.specs.Joining.{net_and_pairs, join_of, join_values, join_cards};
ghost use Rattle.joining.specs.Layout.{Within};
ghost use Rattle.joining.specs.Code.{pairs_in, numbers_on, Seen, Named, Partnered, places_in, LaidOut, Added, JoinedBy, kept, pairs_read};

use net::{NO_TRANSITION, Net, Transition};
use reply::Refusal;
use std::array;
use std::marker::Model;

// The place of one of two nets that stands at each place of the joined net, if any does. Of the three arrays with a count (`Pairs` and the engine's `Queue` are
// the others) each has an invariant of its own, so that they are no one type.
#[derive(Drop)]
struct Layout {
    places: usize,
    source: [Option<usize>; 16],
}

impl Model for Layout {
    ghost use Rattle.std.specs.Prelude.{ℕ, List, Option, take};

    ghost Value = { List (Option ℕ) };

    ghost use Rattle.joining.specs.Layout.{IsLayout};

    ghost view = { λ a. take a.places a.source };

    ghost invariant = { IsLayout };
}

// The weights and intervals of transitions, as a net holds them.
#[derive(Drop)]
struct Rows {
    take: [u8; 512],
    give: [u8; 512],
    table: [Transition; 32],
}

// A list that was read: how many numbers it has, and the first 32 of them; there is no heap for more, and no two nets have more.
#[derive(Clone, Copy)]
struct Pairs {
    count: usize,
    list: [u32; 32],
}

// The places that pairs name on one side, which is an index into a pair, if each is a place and none is named twice; from the last pair to the first.
fn look_at(pairs: &[[u32; 2]], side: usize, places: usize) -> Option<[bool; 16]>
    requires two { side < 2 }
    requires few { places ≤ 16 }
    ensures { Seen places (numbers_on side pairs.now) result }
{
    let mut named = [false; 16];
    for pair in pairs.iter().rev() {
        let p = pair[side] as usize;
        if places <= p || named[p] {
            return None;
        }
        named[p] = true;
    }
    Some(named)
}

// Whether paired places start with as many tokens.
fn equal_starts(start: &[u8; 16], other: &[u8; 16], pairs: &[[u32; 2]]) -> bool
    requires { Each Named (pairs_in pairs.now) }
    ensures { result ≡ equal_starts start.now other.now (pairs_in pairs.now) }
{
    pairs
        .iter()
        .all(|pair| start[pair[0] as usize] == other[pair[1] as usize])
}

// The second net's places that are paired with those of the first, from the last pair to the first.
fn partners(pairs: &[[u32; 2]]) -> [Option<usize>; 16]
    requires { Each Named (pairs_in pairs.now) }
    ensures partners { Partnered (pairs_in pairs.now) result }
    ensures within { Within result }
{
    let mut source = [None; 16];
    for pair in pairs.iter().rev() {
        source[pair[0] as usize] = Some(pair[1] as usize);
    }
    source
}

// The places of the joined net: the first's, then the second's that no pair names. There is none where they are above 16.
fn lay_out(partners: [Option<usize>; 16], places: usize, named: &[bool]) -> Option<Layout>
    requires few { (places ≤ 16) × (length named.now ≤ 16) }
    requires within { Within partners }
    ensures { LaidOut partners places named.now result }
{
    let mut source = partners;
    let mut count = places;
    for (q, named) in named.iter().enumerate() {
        if !*named {
            if count == 16 {
                return None;
            }
            source[count] = Some(q);
            count += 1;
        }
    }
    Some(Layout {
        places: count,
        source,
    })
}

impl Layout {
    // The places of the first net, which keep their numbers.
    fn own(places: usize) -> Layout
        requires { places ≤ 16 }
        ensures { places_in result ≡ own_places places }
    {
        Layout {
            places,
            source: array::from_fn(|p| Some(p)),
        }
    }

    // Place by place.
    fn sources(&self) -> &[Option<usize>]
        ensures places { result.now ≡ self.now }
        ensures few { length self.now ≤ 16 }
        ensures within { Within self.now }
    {
        &self.source[..self.places]
    }
}

// The weights of a transition, a step apart in their array, stored at the places of the joined net, as far apart in another.
fn move_weights(
    from: &[u8; 512],
    first: usize,
    to: &mut [u8; 512],
    slot: usize,
    step: usize,
    sources: &[Option<usize>],
)
    requires origin { first + step * 15 < 512 }
    requires room { slot + step * 15 < 512 }
    requires few { length sources.now ≤ 16 }
    requires within { Within sources.now }
    ensures { to.new
        ≡ spread (map (weight_at (filled (λ p. get_or from.now (first + step * p) 0) 16 (replicate 16 0))) (places_in sources.now)) slot step to.old }
{
    for (p, source) in sources.iter().enumerate() {
        to[slot + step * p] = match source {
            Some(q) => from[first + step * *q],
            None => 0,
        };
    }
}

impl Rows {
    // The transitions of a net added behind so many, with their weights at the places of the joined net.
    fn add(&mut self, behind: usize, net: &Net, at: &Layout)
        requires { behind + net.now.transitions ≤ 32 }
        ensures { Added net.now at.now behind self.old self.new }
    {
        let sources = at.sources();
        // The number stands in three arrays; of a net that is lent it is not told how long its table is.
        for t in 0..net.transitions {
            move_weights(&net.take, t, &mut self.take, behind + t, 32, sources);
            move_weights(
                &net.give,
                16 * t,
                &mut self.give,
                16 * (behind + t),
                1,
                sources,
            );
            self.table[behind + t] = net.table[t];
        }
    }
}

// The tokens at the start: those of the second net at its places, and over them the first net's, which a pair leaves as they are.
fn joined_start(start: &[u8], other: &[u8; 16], at: &Layout) -> [u8; 16]
    requires { length start.now ≤ length at.now }
    ensures { result ≡ pad_to 16 0 (start.now ++ map (weight_at other.now) (drop (length start.now) (places_in at.now))) }
{
    let mut joined = [0u8; 16];
    for (p, source) in at.sources().iter().enumerate() {
        if let Some(q) = source {
            joined[p] = other[*q];
        }
    }
    joined[..start.len()].copy_from_slice(start);
    joined
}

// The joined net, from the places of the second net in it.
fn joined(a: &Net, b: &Net, at: &Layout) -> Net
    requires places { a.now.places ≤ length at.now }
    requires transitions { a.now.transitions + b.now.transitions ≤ 32 }
    ensures { JoinedBy a.now b.now at.now result }
{
    let places = at.sources().len();
    let mut rows = Rows {
        take: [0u8; 512],
        give: [0u8; 512],
        table: [NO_TRANSITION; 32],
    };
    rows.add(0, a, &Layout::own(a.places));
    rows.add(a.transitions, b, at);
    Net {
        sheet: a.sheet,
        places,
        transitions: a.transitions + b.transitions,
        start: joined_start(&a.start[..a.places], &b.start, at),
        take: rows.take,
        give: rows.give,
        table: rows.table,
    }
}

// Joins two nets that passed their checks, as the two functions for cards below require too: a struct of both nets would be made in each of them.
fn join_nets(a: &Net, b: &Net, list: &[u32], out: &mut [u8]) -> Result<usize, Refusal>
    requires first { net_card.check a.now 1 ≡ Passed }
    requires second { net_card.check b.now 1 ≡ Passed }
    ensures { Responded (join_of a.now b.now list.now) out.old result out.new }
{
    let (pairs, rest) = list.as_chunks::<2>();
    if !rest.is_empty() || look_at(pairs, 0, a.places).is_none() {
        return Err(Refusal::BadPairs);
    }
    let Some(named) = look_at(pairs, 1, b.places) else {
        return Err(Refusal::BadPairs);
    };
    if !equal_starts(&a.start, &b.start, pairs) {
        return Err(Refusal::UnequalStarts);
    }
    let Some(at) = lay_out(partners(pairs), a.places, &named[..b.places]) else {
        return Err(Refusal::TooLarge);
    };
    if a.transitions + b.transitions > 32 {
        return Err(Refusal::TooLarge);
    }
    net_card::write_net(joined(a, b, &at), out)
}

// Joins two nets by a list of place numbers, read two by two as pairs of a place of the first and one of the second, all handed over as values: the card of
// the joined net.
pub fn join(a: Net, b: Net, pairs: &[u32], out: &mut [u8]) -> Result<usize, Refusal>
    ensures { Responded (join_values a b pairs.now) out.old result out.new }
{
    net_card::check_net(a)?;
    net_card::check_net(b)?;
    join_nets(&a, &b, pairs, out)
}

impl Pairs {
    // No numbers.
    fn none() -> Pairs
        ensures { result ≡ kept [] }
    {
        Pairs {
            count: 0,
            list: [0u32; 32],
        }
    }

    // One more number, behind the others; there may be no slot for it.
    fn push(&mut self, number: u32)
        requires { self.old.count < 2 ^ 63 }
        ensures { self.new ≡ record { count = self.old.count + 1; list = set self.old.list self.old.count number } }
    {
        if self.count < 32 {
            self.list[self.count] = number;
        }
        self.count += 1;
    }
}

// The numbers from a position on, up to the line's end.
fn numbers_at(s: &[u8], at: usize) -> Result<(Pairs, usize), Refusal>
    ensures { result ≡ pairs_read (numbers_at (length s.now) s.now at 1) }
{
    let mut pairs = Pairs::none();
    let mut to = at;
    // The next position is the one behind the number that was read.
    while to < s.len() {
        if let Some((last, next)) = text::field_at(s, to, true) {
            pairs.push(last);
            return Ok((pairs, next));
        }
        let (number, next) = text::field_at(s, to, false).ok_or(Refusal::Malformed(1))?;
        pairs.push(number);
        to = next;
    }
    Err(Refusal::Malformed(1))
}

// The line `pairs`.
fn pairs_line(s: &[u8]) -> Result<(Pairs, usize), Refusal>
    ensures { result ≡ pairs_read (front pairs s.now) }
{
    if !text::begins_at(s, 0, b"pairs=") {
        return Err(Refusal::Malformed(1));
    }
    if text::begins_at(s, 6, b"none\n") {
        return Ok((Pairs::none(), 11));
    }
    numbers_at(s, 6)
}

// Reads the line `pairs`, behind which nothing may follow.
fn read_pairs(s: &[u8]) -> Result<Pairs, Refusal>
    ensures { result ≡ value_read (pairs_read (alone pairs s.now)) }
{
    let (pairs, next) = pairs_line(s)?;
    if next < s.len() {
        return Err(Refusal::Malformed(2));
    }
    Ok(pairs)
}

// Joins two nets by the line `pairs`, behind which nothing may follow.
fn join_by(a: Net, b: Net, s: &[u8], out: &mut [u8]) -> Result<usize, Refusal>
    requires { (net_card.check a 1 ≡ Passed) × (net_card.check b 1 ≡ Passed) }
    ensures { Responded (once_read (alone pairs s.now) (λ list. join_of a b list)) out.old result out.new }
{
    let pairs = read_pairs(s)?;
    if 32 < pairs.count {
        return Err(Refusal::BadPairs);
    }
    join_nets(&a, &b, &pairs.list[..pairs.count], out)
}

// Joins a net with the one whose card stands at the front of an input, by the line `pairs` behind it.
fn join_behind(a: Net, s: &[u8], out: &mut [u8]) -> Result<usize, Refusal>
    requires { net_card.check a 1 ≡ Passed }
    ensures { Responded (once_read (net_and_pairs s.now) (λ v. join_of a v.0 v.1)) out.old result out.new }
{
    let (b, next) = net_card::read_net(s)?;
    join_by(a, b, net_card::remainder(s, next), out)
}

// Joins two nets: a net card, right behind it the other's, and behind that the line `pairs`. `open_cards::open_cards` has two lines of this shape.
pub fn join_cards(input: &[u8], out: &mut [u8]) -> Result<usize, Refusal>
    ensures { Responded (join_cards input.now) out.old result out.new }
{
    let (a, next) = net_card::read_net(input)?;
    join_behind(a, net_card::remainder(input, next), out)
}
