// The causal process of a run: where the tokens that each firing takes are from.
ghost use Rattle.std.specs.Prelude.{◌≡◌, [], ◌∷◌, ◌++◌, map, ℕ, ◌+◌, ◌-◌, ◌≤◌, ◌<◌, List, length, get_or};
ghost use Rattle.reply.specs.Respond.{Passed};
ghost use Rattle.text.specs.Key.{bytes};
ghost use Rattle.text.specs.Decimal.{decimal};
ghost use Rattle.text.specs.Writer.{Writes};
ghost use Rattle.run.specs.Run.{firings_of, order_of};
ghost use Rattle.firing.specs.Semantics.{start_marking};
ghost use Rattle.firing.specs.Tokens.{tokens};
ghost use Rattle.causal.specs.Process.{oldest, items_of};
ghost use Rattle.causal.specs.Print.{item_text, list_text, event_text, process_text};
ghost use Rattle.engine.specs.Counts.{comma, list_end, queue_of, Took, event_in, TookAll, Gave, unset};

use net::Net;
use run::Run;
use std::array;
use std::marker::Model;
use text::Writer;

// The tokens of a place, the oldest first: how many remain of each producer's. Of the producers before `head` none has tokens left.
#[derive(Drop)]
struct Queue {
    counts: [u8; 65],
    producers: usize,
    head: usize,
}

impl Model for Queue {
    ghost use Rattle.std.specs.Prelude.{ℕ, List, take};

    ghost Value = { List ℕ };

    ghost use Rattle.engine.specs.Queue.{IsQueue};

    ghost view = { λ q. take q.producers q.counts };

    ghost invariant = { IsQueue };
}

// A line of items that is being written: whether it has no item yet, and whether tokens of the newest producer are among its items. The writer stays beside it:
// in it, it would be lent anew for each line.
#[derive(Clone, Copy)]
struct Line {
    first: bool,
    newest: bool,
}

// The comma before what is not the first of its line.
#[tactic(auto, using(text::proofs::Writing::writes_none))]
fn put_comma(w: &mut Writer, first: bool)
    ensures { Writes w.old (comma first) w.new }
{
    if !first {
        w.put_byte(b',');
    }
}

// A number and a dot behind it.
fn put_part(w: &mut Writer, n: u64)
    ensures { Writes w.old (decimal n ++ (46 ∷ [])) w.new }
{
    w.put_number(n);
    w.put_byte(b'.');
}

// An item, with a comma before it where it is not the first of its line.
fn put_item(w: &mut Writer, first: bool, place: usize, producer: usize, count: u8)
    ensures { Writes w.old (comma first ++ item_text (record { place = place; producer = producer; count = count })) w.new }
{
    put_comma(w, first);
    put_part(w, place as u64);
    put_part(w, producer as u64);
    w.put_number(count as u64);
}

// The end of a line; in an empty line the word `none` stands before it.
fn end_line(w: &mut Writer, first: bool)
    ensures { Writes w.old (list_end first) w.new }
{
    if first {
        w.put_bytes(b"none\n");
    } else {
        w.put_byte(b'\n');
    }
}

impl Queue {
    // Of no producer.
    fn new() -> Queue
        ensures { result ≡ [] }
    {
        Queue {
            counts: [0; 65],
            producers: 0,
            head: 0,
        }
    }

    // The tokens of a new producer arrive.
    fn give(&mut self, count: u8)
        requires { length self.old < 65 }
        ensures { self.new ≡ self.old ++ (count ∷ []) }
    {
        self.counts[self.producers] = count;
        self.producers += 1;
    }

    // Takes the oldest tokens, so many, and writes their items as those of a place; the line behind them.
    fn take_oldest(&mut self, w: &mut Writer, line: Line, place: usize, count: u8) -> Line
        ensures { Took w.old line place count self.old self.new w.new result }
    {
        let mut so_far = line;
        let mut need = count;
        // Over the numbers: i is the producer's and is written, and `head` is set to it.
        for i in self.head..self.producers {
            if need == 0 {
                break;
            }
            let taken = need.min(self.counts[i]);
            if taken != 0 {
                self.counts[i] -= taken;
                self.head = i;
                put_item(w, so_far.first, place, i, taken);
                so_far = Line {
                    first: false,
                    newest: so_far.newest | (i + 1 == self.producers),
                };
            }
            need -= taken;
        }
        so_far
    }
}

// Takes what a firing of t takes of each place and writes the items and the line's end. Whether it took tokens of the newest producer.
fn put_taken(w: &mut Writer, take: &[u8; 512], queues: &mut [Queue], t: usize) -> bool
    requires listed { t < 32 }
    requires few { length queues.old ≤ 16 }
    ensures { TookAll take.now t queues.old queues.new result
        × Writes w.old (list_text (map item_text (event_in take.now t queues.old).from)) w.new }
{
    let mut line = Line {
        first: true,
        newest: false,
    };
    for (p, queue) in queues.iter_mut().enumerate() {
        let need = take[32 * p + t];
        if need != 0 {
            line = queue.take_oldest(w, line, p, need);
        }
    }
    end_line(w, line.first);
    line.newest
}

// The lines of a firing of t: where the tokens that it takes are from. Whether it took tokens of the newest producer.
fn put_event(w: &mut Writer, take: &[u8; 512], queues: &mut [Queue], t: usize) -> bool
    requires listed { t < 32 }
    requires few { length queues.old ≤ 16 }
    ensures { TookAll take.now t queues.old queues.new result
        × Writes w.old (event_text (event_in take.now t queues.old)) w.new }
{
    form::put_number_line(w, b"fire=", t as u64);
    w.put_bytes(b"from=");
    put_taken(w, take, queues, t)
}

// The line `left`: all tokens are taken, of which no place has more than 255.
fn put_left(w: &mut Writer, queues: &mut [Queue])
    requires few { length queues.old ≤ 16 }
    requires small { (p : ℕ) → p < length queues.old → oldest 255 (queue_of queues.old p) ≡ queue_of queues.old p }
    ensures { Writes w.old
        (bytes "left=" ++ list_text (map item_text (items_of (queue_of queues.old) (length queues.old)))) w.new }
{
    let all = [255u8; 512];
    w.put_bytes(b"left=");
    put_taken(w, &all, queues, 0);
}

// Gives each place its weight: the tokens of a new producer.
fn give(queues: &mut [Queue], weights: &[u8])
    requires weighed { length queues.old ≤ length weights.now }
    requires room { (p : ℕ) → p < length queues.old → length (queue_of queues.old p) < 65 }
    ensures { Gave queues.old weights.now queues.new }
{
    for (p, queue) in queues.iter_mut().enumerate() {
        queue.give(weights[p]);
    }
}

// The line `free`: each i from 1 whose next firing took nothing of it. `linked` tells of firing i + 1 at i.
fn put_free(w: &mut Writer, linked: &[bool])
    ensures { Writes w.old (bytes "free=" ++ list_text (map decimal (unset linked.now 1 (length linked.now - 1)))) w.new }
{
    w.put_bytes(b"free=");
    let mut first = true;
    // Over the numbers: i is the firing's, counted from 1, and is written.
    for i in 1..linked.len() {
        if !linked[i] {
            put_comma(w, first);
            w.put_number(i as u64);
            first = false;
        }
    }
    end_line(w, first);
}

// The lines of the process of a run's firings. The tokens must allow the firings. The run stays a value: of a reference it is not told that it has 64 firings.
pub(crate) fn put_process_lines(w: &mut Writer, net: &Net, run: Run)
    requires { tokens net.now (order_of (firings_of run)) (start_marking net.now) 0 ≡ Passed }
    ensures { Writes w.old (process_text net.now (order_of (firings_of run))) w.new }
{
    let places = net.places.min(16);
    let count = run.count.min(64);
    let mut slots: [Queue; 16] = array::from_fn(|_| Queue::new());
    let queues = &mut slots[..places];
    let mut linked = [false; 64];
    give(&mut *queues, &net.start);
    for (i, firing) in run.firings[..count].iter().enumerate() {
        let t = firing.fire as usize;
        linked[i] = put_event(w, &net.take, &mut *queues, t);
        give(&mut *queues, &net.give[16 * t..]);
    }
    put_left(w, queues);
    put_free(w, &linked[..count]);
}
