ghost use Rattle.std.specs.Prelude.{◌≡◌, find};
ghost use Rattle.rm_desk.specs.Lanes.{is_ready_at};
ghost use Rattle.rm_plain.specs.Policy.{policy};

use rm_desk::Desk;
use rm_types::Lane;

/// The first lane that is ready, in the policy's order.
pub(crate) fn first_ready(d: &Desk) -> Option<Lane>
    ensures { result ≡ find (is_ready_at d.now) policy }
{
    if d.ready(Lane::Main) {
        Some(Lane::Main)
    } else if d.ready(Lane::Sched) {
        Some(Lane::Sched)
    } else if d.ready(Lane::Client) {
        Some(Lane::Client)
    } else if d.ready(Lane::Master) {
        Some(Lane::Master)
    } else if d.ready(Lane::Node) {
        Some(Lane::Node)
    } else if d.ready(Lane::Clock) {
        Some(Lane::Clock)
    } else if d.ready(Lane::Hand) {
        Some(Lane::Hand)
    } else if d.ready(Lane::Write) {
        Some(Lane::Write)
    } else if d.ready(Lane::End) {
        Some(Lane::End)
    } else if d.ready(Lane::Begin) {
        Some(Lane::Begin)
    } else {
        None
    }
}
