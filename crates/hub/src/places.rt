// Where a ticket's record is. A place is an index: with the record taken by the search itself a feed took longer (docs/DECISIONS.md).
ghost use Rattle.std.specs.Prelude.{◌≡◌, ◌<◌, IfOk, IfSome};
ghost use Rattle.checks.specs.Refusals.{answer_number};
ghost use Rattle.calls.specs.Checks.{most_open};
ghost use Rattle.hub.specs.Hub.{place_of};
ghost use Rattle.hub.specs.Records.{found, ticket_refusal};

use super::Hub;
use checks::Refusal;

// The first place whose record has the ticket. A free place has ticket 0, the vacant record's.
pub fn find(hub: &Hub, ticket: u32) -> Option<usize>
    ensures found { result ≡ found ticket hub.now }
    ensures within { IfSome result (λ p. p < most_open) }
{
    hub.records
        .iter()
        .position(|record| record.ticket() == ticket)
}

// Checks 11 and 12, which every call on a ticket begins with.
#[tactic(auto, using(crate::proofs::Locating::found_is), unfolding(crate::specs::Records::ticket_refusal, calls::specs::Checks::ticket_checks, crate::specs::Hub::standing_of))]
pub fn locate(hub: &Hub, ticket: u32) -> Result<usize, Refusal>
    ensures number { answer_number result ≡ ticket_refusal ticket hub.now }
    ensures place { IfOk result (λ p. (p ≡ place_of ticket hub.now) × (p < most_open)) }
{
    if ticket == 0 || hub.issued < ticket {
        return Err(Refusal::NeverIssued);
    }
    find(hub, ticket).ok_or(Refusal::Closed)
}
