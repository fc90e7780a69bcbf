// The hub of the controller's main loop: one hub that stays in its memory and is lent, call after call. `feed` and `close` take it as a `&mut Hub`. `feed_often` holds
// a hub and lends it behind plain parameters: to its callers the hub goes in and comes out by value.
#![tactic(auto)]

ghost use Rattle.std.specs.Prelude.{◌≡◌, replicate};
ghost use Rattle.calls.specs.Call.{Feed, final};
ghost use Rattle.hub.specs.Hub.{on_hub};

use hub::Hub;
pub use hub::in_place::{close, feed};

// The same bytes fed so many times to a hub that is held here and lent round after round; `hub::feed_often` hands it on by value, and benchmarks compare the two.
// The answers are not kept.
pub fn feed_often(mut hub: Hub, ticket: u32, bytes: &[u8], times: usize) -> Hub
    ensures { result ≡ final on_hub hub (replicate times (Feed ticket bytes.now)) }
{
    for _ in 0..times {
        // What a feed answers is not kept.
        let _ = feed(&mut hub, ticket, bytes);
    }
    hub
}
