// A case in the file: which operation it tries, and where its parts stand.
use super::lines;

// What a case tries. Those on values have a line `with` and changes behind what they read first, and those that read one card more a
// line `card` and that card behind the changes. They are a closed set, as the keys of a change are: what is done for each is a match. The last arm of
// such a match is for all other operations, which are too many for it.
#[derive(Clone, Copy)]
pub enum Operation {
    Replay,
    Round,
    Timetable,
    Process,
    Rank,
    Join,
    Open,
    Net,
    NetValue,
    Run,
    RunValue,
    Order,
    OrderValue,
    ReplayValue,
    RoundValue,
    TimetableValue,
    ProcessValue,
    RankValue,
    JoinValue,
    JoinOther,
    ReadRun,
    ReadOrder,
    OpenValue,
    LiveValue,
}

const OPERATIONS: [(&[u8], Operation); 24] = [
    (b"replay ", Operation::Replay),
    (b"round ", Operation::Round),
    (b"timetable ", Operation::Timetable),
    (b"process ", Operation::Process),
    (b"rank ", Operation::Rank),
    (b"join ", Operation::Join),
    (b"open ", Operation::Open),
    (b"net ", Operation::Net),
    (b"run ", Operation::Run),
    (b"order ", Operation::Order),
    (b"netvalue ", Operation::NetValue),
    (b"runvalue ", Operation::RunValue),
    (b"ordervalue ", Operation::OrderValue),
    (b"replayvalue ", Operation::ReplayValue),
    (b"roundvalue ", Operation::RoundValue),
    (b"timetablevalue ", Operation::TimetableValue),
    (b"processvalue ", Operation::ProcessValue),
    (b"rankvalue ", Operation::RankValue),
    (b"joinvalue ", Operation::JoinValue),
    (b"joinother ", Operation::JoinOther),
    (b"readrun ", Operation::ReadRun),
    (b"readorder ", Operation::ReadOrder),
    (b"openvalue ", Operation::OpenValue),
    (b"livevalue ", Operation::LiveValue),
];

impl Operation {
    // Whether the case has a line `with` and changes.
    fn has_changes(self) -> bool {
        !matches!(
            self,
            Operation::Replay
                | Operation::Round
                | Operation::Timetable
                | Operation::Process
                | Operation::Rank
                | Operation::Join
                | Operation::Open
                | Operation::Net
                | Operation::Run
                | Operation::Order
        )
    }

    // Whether the case has a line `card` and one card more, or the lines of an open run.
    fn has_card(self) -> bool {
        matches!(
            self,
            Operation::RankValue
                | Operation::JoinValue
                | Operation::JoinOther
                | Operation::ReadRun
                | Operation::ReadOrder
                | Operation::OpenValue
                | Operation::LiveValue
        )
    }

    // Whether it reads a net card first, and neither a run nor an order behind it.
    pub(crate) fn reads_net_alone(self) -> bool {
        matches!(
            self,
            Operation::Net
                | Operation::NetValue
                | Operation::JoinValue
                | Operation::JoinOther
                | Operation::ReadRun
                | Operation::ReadOrder
        )
    }

    // Whether it reads an order behind a net card.
    pub(crate) fn reads_order(self) -> bool {
        matches!(
            self,
            Operation::Order | Operation::OrderValue | Operation::TimetableValue
        )
    }
}

// A case: its operation, where it names one, the length of the output lent, and the positions of its second line and of the lines `with`, `card`, `expect`
// and `end`.
#[derive(Clone, Copy)]
pub struct Case {
    pub operation: Option<Operation>,
    pub size: usize,
    pub at: usize,
    pub with: usize,
    pub card: usize,
    pub expect: usize,
    pub end: usize,
}

// Where the line stands before an end, or that end where it is not wanted or not there.
fn line_before(s: &[u8], from: usize, line: &[u8], wanted: bool, end: usize) -> usize {
    if wanted {
        return lines::line_at(lines::part(s, 0, end), from, line);
    }
    end
}

// The case whose second line stands at a position.
pub(crate) fn case_at(s: &[u8], at: usize) -> Case {
    let operation = lines::named(lines::part(s, at, s.len()), &OPERATIONS);
    let expect = lines::line_at(s, at, b"expect\n");
    let changes = operation.is_some_and(|o| o.has_changes());
    let with = line_before(s, at, b"with\n", changes, expect);
    let card = operation.is_some_and(|o| o.has_card());
    Case {
        operation,
        size: lines::number(s, lines::behind(s, at, b' ')) as usize,
        at,
        with,
        card: line_before(s, with, b"card\n", card, expect),
        expect,
        end: lines::line_at(s, expect, b"end\n"),
    }
}
