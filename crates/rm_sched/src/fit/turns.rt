ghost use Rattle.std.specs.Prelude.{◌≡◌, ◌+◌, ◌<◌, ◌≤◌, ◌^◌, ◌++◌, IfOk, OnOk, IsTrue};
ghost use Rattle.std.specs.Prelude.{◌*◌};
ghost use Rattle.rm_types.specs.Passes.{fitting, times};
ghost use Rattle.rm_types.specs.Resources.{difference_of};
ghost use Rattle.rm_sched.specs.fit.Conditions.{is_some_size, are_some_sizes};
ghost use Rattle.rm_sched.specs.fit.Turns.{asks_by, turn_grants, turn_left, granted_from};

use rm_types::{
    AskLine, AttemptId, ContainerId, Duplicate, Grant, Items, NoMemory, Resource, Text, Turn,
};

/// Grants of each line of a turn as many as fit what is left, and says what is then left.
pub fn grant_turn(
    grants: &mut Items<Grant>,
    left: Resource,
    node: &Text,
    epoch: u32,
    turn: Turn,
    lines: &[AskLine],
) -> Result<Resource, NoMemory>
    requires sequence { turn.next_seq + left.vcores < 2 ^ 63 }
    requires sizes { IsTrue (are_some_sizes (asks_by lines.now)) }
    ensures grants { OnOk result (grants.new ≡ grants.old ++ turn_grants (record { node = node.now; epoch = epoch; attempt = turn.attempt }) left turn.next_seq (asks_by lines.now)) }
    ensures left { IfOk result (λ rest. rest ≡ turn_left left (asks_by lines.now)) }
{
    let mut left = left;
    let mut seq = turn.next_seq;
    'lines: for line in lines {
        let count = fitting(line.ask.count, line.ask.size, left);
        grant_some(grants, node, epoch, turn.attempt, line.ask.size, seq, count)?;
        left = rest(left, line.ask.size, count);
        seq += u64::from(count);
    }
    Ok(left)
}

/// The greatest number, up to a bound, of containers of a size that fit what is left.
fn fitting(count: u32, size: Resource, left: Resource) -> u32
    requires { IsTrue (is_some_size size) }
    ensures { result ≡ fitting count size left }
{
    count
        .min(left.memory_mb / size.memory_mb)
        .min(left.vcores / size.vcores)
}

/// What is left after so many of a size, which fit.
fn rest(left: Resource, size: Resource, count: u32) -> Resource
    requires memory { count * size.memory_mb ≤ left.memory_mb }
    requires cores { count * size.vcores ≤ left.vcores }
    ensures { result ≡ difference_of left (times count size) }
{
    Resource {
        memory_mb: left.memory_mb - count * size.memory_mb,
        vcores: left.vcores - count * size.vcores,
    }
}

/// Grants so many containers of a size, from a sequence on.
fn grant_some(
    grants: &mut Items<Grant>,
    node: &Text,
    epoch: u32,
    attempt: AttemptId,
    size: Resource,
    first: u64,
    count: u32,
) -> Result<(), NoMemory>
    requires { first + count < 2 ^ 64 }
    ensures { OnOk result (grants.new ≡ grants.old ++ granted_from (record { node = node.now; epoch = epoch; attempt = attempt }) size first count) }
{
    for seq in first..first + u64::from(count) {
        let id = ContainerId {
            attempt,
            epoch,
            seq,
        };
        let node = node.copy()?;
        grants.push(Grant { id, node, size })?;
    }
    Ok(())
}
