// Flows decided one after another by one policy, three bytes for each, in a lent place. Nothing is written before the room is tested.

#![tactic(auto)]

ghost use Rattle.std.specs.Prelude.{◌≡◌, map, ◌*◌, ◌/◌, ◌≤◌, ◌<◌, length};
ghost use Rattle.policy.specs.Policy.{under, decide, matching};
ghost use Rattle.deployment.specs.Values.{numbers_of};
ghost use Rattle.deployment.specs.Catalogue.{catalogue_of};
ghost use Rattle.deployment.specs.FieldValues.{filled, left_by};
ghost use Rattle.deployment.specs.Flows.{flows_of, decision_bytes, decisions_bytes};
ghost use Rattle.flows.specs.Flows.{flows_decided};
ghost use Rattle.flows.specs.Claims.{flow_at};

use decision::decided;
use deployment::{Refusal, Why};
use format::{four_at, store, two_at};
use policy::{Action, Decision, Flow};

// A flow's five numbers have 1, 4, 2, 4 and 2 bytes.
const FLOW_BYTES: usize = 13;

// An action has one byte, a place two.
const DECISION_BYTES: usize = 3;

// "A flow is five numbers": the k-th flow, counted from 0.
fn flow_at(flows: &[u8], k: usize) -> Flow
    requires { k < length flows.now / 13 }
    ensures { result ≡ flow_at k flows.now }
{
    let start = FLOW_BYTES * k;
    let value = &flows[start..start + FLOW_BYTES];
    Flow {
        protocol: value[0],
        source: four_at(value, 1),
        source_port: two_at(value, 5),
        destination: four_at(value, 7),
        destination_port: two_at(value, 11),
    }
}

// "The answer is the action and the place": one byte and two.
fn decision_bytes(d: Decision) -> [u8; 3]
    ensures { result ≡ decision_bytes d }
{
    // Kept: for `to_be_bytes` the place would first have to be cut to two bytes, which is no plainer.
    [
        d.action.into(),
        (d.place / 256 % 256) as u8,
        (d.place % 256) as u8,
    ]
}

// The decision of each flow, one after another, in the first bytes of the place.
fn put_decisions(
    rules: &[u8],
    skip: u8,
    policy: &[u8],
    default: Action,
    flows: &[u8],
    place: &mut [u8],
)
    requires { 3 * (length flows.now / 13) ≤ length place.old }
    ensures { place.new
        ≡ filled place.old
        (decisions_bytes
        (map (λ flow. decide (matching (catalogue_of skip rules.now) flow) (under default (numbers_of policy.now)))
        (flows_of flows.now))) }
{
    for k in 0..flows.len() / FLOW_BYTES {
        let flow = flow_at(flows, k);
        let bytes = decision_bytes(decided(rules, skip, policy, default, flow));
        store(place, DECISION_BYTES * k, &bytes);
    }
}

// Decides flows by a policy that passed its tests, a list and a default; `skip` bytes stand before each rule. 4 for flows not of 13 bytes
// each, and last 13.
pub fn decide_into(
    rules: &[u8],
    skip: u8,
    policy: &[u8],
    default: Action,
    flows: &[u8],
    place: &mut [u8],
) -> Result<usize, Refusal>
    ensures { left_by result place.new
        ≡ flows_decided
        (λ flow. decide (matching (catalogue_of skip rules.now) flow) (under default (numbers_of policy.now)))
        flows.now place.old }
{
    if flows.len() % FLOW_BYTES != 0 {
        return Err(Refusal {
            why: Why::Length,
            at: 0,
        });
    }
    let needed = DECISION_BYTES * (flows.len() / FLOW_BYTES);
    if place.len() < needed {
        return Err(Refusal {
            why: Why::Room,
            at: needed,
        });
    }
    put_decisions(rules, skip, policy, default, flows, place);
    Ok(needed)
}
