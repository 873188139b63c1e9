ghost use Rattle.std.specs.Prelude.{◌≡◌, ◌≤◌, ◌<◌, [], ◌∷◌, ◌++◌, map, IfOk, OnOk};
ghost use Rattle.rm_script.specs.Values.{IsToldScript};
ghost use Rattle.rm_soak.specs.Limits.{most_in_life, most_soaked};
ghost use Rattle.rm_soak.specs.Scripts.{app_messages, apps_in, crash_segment, soak_life, lives_of, messages_of, own_segment, soak_of, start_messages, work_messages};

use crate::limits::{FIRST_STAMP, MOST_IN_LIFE};
use crate::messages::{
    beat, client_asks, finish, first_ask, registration, second_ask, submission_of,
};
use rm_types::{
    AppId, AttemptId, ClientAsk, Close, Items, Life, MasterAsk, Message, NoMemory, Script, Segment,
};
use std::alloc::Global;

/// The script of a soak of so many applications, 1 to 1000.
///
/// `NoMemory` comes where no memory was found for it. Nothing is kept of it then.
pub fn soak_script(alloc: Global, number: u32) -> Result<Script, NoMemory>
    requires some { 1 ≤ number }
    requires few { number ≤ most_soaked }
    ensures script { IfOk result (λ script. script ≡ soak_of number) }

    // It is as the scripts that the reader of scripts gives.
    ensures told { IfOk result IsToldScript }
{
    let mut lives = Items::new(alloc);
    'lives: for life in 0..lives_of(number) {
        lives.push(life_of(alloc, number, life)?)?;
    }
    Ok(Script { lives })
}

/// How many lives so many applications are cut into.
fn lives_of(number: u32) -> u32
    requires { number ≤ most_soaked }
    ensures { result ≡ lives_of number }
{
    (number + (MOST_IN_LIFE - 1)) / MOST_IN_LIFE
}

/// How many of so many applications are in a life.
fn apps_in(number: u32, life: u32) -> u32
    requires { life < lives_of number }
    ensures { result ≡ apps_in number life }
{
    (number - MOST_IN_LIFE * life).min(MOST_IN_LIFE)
}

/// A life of a soak of so many applications.
fn life_of(alloc: Global, number: u32, life: u32) -> Result<Life, NoMemory>
    requires few { number ≤ most_soaked }
    requires among { life < lives_of number }
    ensures { IfOk result (λ told. told ≡ soak_life number life) }
{
    let mut segments = settled_in(alloc, FIRST_STAMP + u64::from(life), apps_in(number, life))?;
    if life + 1 != lives_of(number) {
        segments.push(crashed(alloc))?;
    }
    Ok(Life {
        stamp: FIRST_STAMP,
        segments,
    })
}

/// A crash right after what settled.
fn crashed(alloc: Global) -> Segment
    ensures { result ≡ crash_segment }
{
    Segment {
        messages: Items::new(alloc),
        close: Close::Crash { calls: 0, image: 0 },
    }
}

/// The segments of a life with the stamp and so many applications, without the one that crashes.
fn settled_in(alloc: Global, stamp: u64, apps: u32) -> Result<Items<Segment>, NoMemory>
    requires { apps ≤ most_in_life }
    ensures { IfOk result (λ segments. segments ≡ map own_segment (messages_of stamp apps)) }
{
    let mut segments = Items::new(alloc);
    push_settled(alloc, registration(alloc)?, &mut segments)?;
    'apps: for k in 1..apps + 1 {
        push_app(alloc, stamp, k, &mut segments)?;
    }
    Ok(segments)
}

/// Adds the segments of the k-th application of a life with the stamp.
fn push_app(
    alloc: Global,
    stamp: u64,
    k: u32,
    segments: &mut Items<Segment>,
) -> Result<(), NoMemory>
    requires first { 1 ≤ k }
    requires last { k ≤ most_in_life }
    ensures { OnOk result (segments.new ≡ segments.old ++ map own_segment (app_messages stamp k)) }
{
    push_start(alloc, stamp, k, segments)?;
    push_work(alloc, stamp, k, segments)?;
    Ok(())
}

/// Adds the segments from its submission until its master registers.
fn push_start(
    alloc: Global,
    stamp: u64,
    k: u32,
    segments: &mut Items<Segment>,
) -> Result<(), NoMemory>
    requires first { 1 ≤ k }
    requires last { k ≤ most_in_life }
    ensures { OnOk result (segments.new ≡ segments.old ++ map own_segment (start_messages stamp k)) }
{
    let id = AppId { stamp, number: k };
    let attempt = AttemptId { app: id, number: 1 };
    let first_beat = 3 * (k - 1);
    let submit = ClientAsk::Submit(id, submission_of(alloc, k)?);
    push_settled(alloc, client_asks(alloc, k, ClientAsk::New)?, segments)?;
    push_settled(alloc, client_asks(alloc, k, submit)?, segments)?;
    push_settled(alloc, beat(alloc, first_beat)?, segments)?;
    push_settled(alloc, beat(alloc, first_beat + 1)?, segments)?;
    push_settled(
        alloc,
        Message::Master(attempt, MasterAsk::Register),
        segments,
    )
}

/// Adds the segments from its master's first ask until its user is told of its end.
fn push_work(
    alloc: Global,
    stamp: u64,
    k: u32,
    segments: &mut Items<Segment>,
) -> Result<(), NoMemory>
    requires first { 1 ≤ k }
    requires last { k ≤ most_in_life }
    ensures { OnOk result (segments.new ≡ segments.old ++ map own_segment (work_messages stamp k)) }
{
    let id = AppId { stamp, number: k };
    let attempt = AttemptId { app: id, number: 1 };
    let last_beat = 3 * (k - 1) + 2;
    push_settled(alloc, Message::Master(attempt, first_ask(alloc)?), segments)?;
    push_settled(alloc, beat(alloc, last_beat)?, segments)?;
    push_settled(alloc, Message::Master(attempt, second_ask(alloc)), segments)?;
    push_settled(alloc, Message::Master(attempt, finish(alloc)?), segments)?;
    push_settled(
        alloc,
        client_asks(alloc, k, ClientAsk::Report(id))?,
        segments,
    )
}

/// Adds the message in a segment of its own, which settles.
fn push_settled(
    alloc: Global,
    message: Message,
    segments: &mut Items<Segment>,
) -> Result<(), NoMemory>
    ensures { OnOk result (segments.new ≡ segments.old ++ own_segment message ∷ []) }
{
    let mut messages = Items::new(alloc);
    messages.push(message)?;
    segments.push(Segment {
        messages,
        close: Close::Settle,
    })
}
