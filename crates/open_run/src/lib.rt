// Runs that are entered step by step. No function: the types, what each step and call comes to, and the theorems of the request.
#![tactic(auto)]

use net::Net;
use reply::Refusal;
use run::Run;

// A run that is being entered: its net, the run of the steps so far as if it closed here (its rest is the sum of the waits since the last firing), and whether
// it goes on: a closed one keeps all else. Nothing is kept that its steps do not give.
#[derive(Clone, Copy)]
pub struct OpenRun {
    pub net: Net,
    pub run: Run,
    pub running: bool,
}

// What opening a run or a step of it says, and the record behind it, which counts beside a refusal too: it is then the one before the step.
#[derive(Clone, Copy)]
pub struct Entered {
    pub checked: Result<(), Refusal>,
    pub run: OpenRun,
}

// What closing a run tells its caller, and the record behind it, likewise.
#[derive(Clone, Copy)]
pub struct Closing {
    pub reply: Result<usize, Refusal>,
    pub run: OpenRun,
}
