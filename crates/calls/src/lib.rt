// What a call on the hub answers. The definitions of this crate are document 01's "Tickets" and "Refused" without words of a state: the checks, the calls as
// values, lists of them, and the plain machine.
#![tactic(auto)]

ghost use Rattle.std.specs.Prelude.{◌≡◌, Ok};
ghost use Rattle.calls.specs.Answer.{answer_of};

use checks::Refusal;

// What an accepted call gives, and a refused one its reason.
pub type Answer = Result<Accepted, Refusal>;

// An accepted call's answer: its ticket's run count, and what it was called for. One type for all calls, since a list of calls has one for its answers: which
// case a call gives is promised by the call (`of_open` and the like in specs/Answer.antt).
#[derive(Clone, Copy, Debug, PartialEq, Eq)]
pub enum Accepted {
    // An open: the ticket that it gives.
    Opened { ticket: u32, runs: u64 },
    // A feed, draw or close.
    Counted(u64),
    // A check: the verdict.
    Judged { passed: bool, runs: u64 },
    // The sum of all runs, of no ticket.
    Summed(u64),
}

impl Accepted {
    // The run count of the call's ticket; 0 for a sum, which is of none.
    pub fn runs(self) -> u64
        ensures { result ≡ (answer_of (Ok self)).runs }
    {
        match self {
            Accepted::Opened { runs, .. }
            | Accepted::Counted(runs)
            | Accepted::Judged { runs, .. } => runs,
            Accepted::Summed(_) => 0,
        }
    }
}
