//! A run that is fed a segment at a time has the page of the whole script, over each of the examples of the folder `examples`.
ghost use Rattle.std.specs.Prelude.{◌≡◌, IfOk, false};
ghost use Rattle.rm_core.specs.Words.{stands};
ghost use Rattle.rm_desk.specs.Scripts.{AllLive, CanFollow, CanGoAlong};
ghost use Rattle.rm_invariant.specs.messages.Ranges.{KeepsLimits};
ghost use Rattle.rm_plain.specs.GrowingRuns.{IsGrowing};
ghost use Rattle.rm_queues.specs.Rules.{KeepsRules};

use crate::cases::{Case, device_of, ends, joined, plain};
use crate::example_tests::EXAMPLES;
use crate::job_tests::{FINISH, JOB, RESYNCED};
use rm_cluster::read_cluster;
use rm_disk::{Disk, Fuse};
use rm_lives::Run;
use rm_page::page;
use rm_plain::{BeginFail, GrowingRun};
use rm_script::read_script;
use rm_types::{Items, Life, MOST_SERVED, Outcome, Script, Segment, Settings};
use std::process::Abort;

/// The script of `examples/script.txt`.
const SCRIPT: &str = "\
start 1410901177871
client alice new
settle
client alice submit application_1410901177871_0001 queue=root.default name=job memory=1024 vcores=1 attempts=0
client alice report application_1410901177871_0001
settle
client alice report application_1410901177871_0001
settle
crash 0 0
start 1410901177871
settle
client alice report application_1410901177871_0001
settle
";

/// That of `examples/kept-containers.txt`.
const KEPT_CONTAINERS: &str = "\
start 1410901177871
node n1 register 1 memory=8192 vcores=8
node n2 register 1 memory=8192 vcores=8
client alice new
settle
client alice submit application_1410901177871_0001 queue=root.default name=job memory=1024 vcores=1 attempts=0 keep=yes
settle
node n1 beat 0
settle
node n1 beat 1
settle
master appattempt_1410901177871_0001_000001 register
master appattempt_1410901177871_0001_000001 allocate 0 ask=1:4:2048:2
settle
node n1 beat 2 running=container_1410901177871_0001_01_000001:1024:1
node n2 beat 0
settle
master appattempt_1410901177871_0001_000001 allocate 1
settle
node n1 beat 3 running=container_1410901177871_0001_01_000002:2048:2,container_1410901177871_0001_01_000003:2048:2,container_1410901177871_0001_01_000004:2048:2 done=container_1410901177871_0001_01_000001
settle
node n1 beat 4 running=container_1410901177871_0001_01_000002:2048:2,container_1410901177871_0001_01_000003:2048:2,container_1410901177871_0001_01_000004:2048:2
settle
node n1 beat 5 running=container_1410901177871_0001_01_000002:2048:2,container_1410901177871_0001_01_000003:2048:2,container_1410901177871_0001_01_000004:2048:2
settle
crash 0 0
start 1410901177871
node n1 register 2 memory=8192 vcores=8 running=container_1410901177871_0001_01_000002:2048:2,container_1410901177871_0001_01_000003:2048:2,container_1410901177871_0001_01_000004:2048:2,container_1410901177871_0001_02_000001:1024:1
node n2 register 2 memory=8192 vcores=8 running=container_1410901177871_0001_01_000005:2048:2
settle
master appattempt_1410901177871_0001_000002 register
settle
client alice report application_1410901177871_0001
settle
master appattempt_1410901177871_0001_000002 finish done
settle
client alice report application_1410901177871_0001
settle
";

/// The settings of a cluster file.
fn settings_of<R: Abort + AllocGlobal>(rt: &R, cluster: &str) -> Settings
    ensures queues { KeepsRules result }
    ensures limits { KeepsLimits result }
{
    read_cluster(rt.alloc(), cluster.as_bytes()).expect(rt, "settings")
}

/// The script of a text.
fn script_of<R: Abort + AllocGlobal>(rt: &R, text: &str) -> Script
    ensures { CanGoAlong result }
{
    read_script(rt.alloc(), text.as_bytes()).expect(rt, "a script")
}

/// Feeds a life its segments, one after the other.
fn feed_all<R: Abort, D: Disk>(
    rt: &R,
    run: GrowingRun<D>,
    segments: Items<Segment>,
) -> Result<GrowingRun<D>, Run<D>>
    requires growing { IsGrowing D.view run }
    requires segments { CanFollow segments }
    ensures { IfOk result (IsGrowing D.view) }
{
    let mut run = run;
    let mut left = segments.into_vec().into_iter();
    'segments: while let Some(segment) = left.next() {
        assert!(rt; run.stands());
        assert!(rt;
            u64::from(run.served()) + segment.messages.len() as u64 <= u64::from(MOST_SERVED)
        );
        run = run.feed(segment)?;
    }
    Ok(run)
}

/// Begins a life after the other, and feeds each its segments.
fn run_lives<R: Abort + AllocGlobal, D: Disk>(
    rt: &R,
    run: GrowingRun<D>,
    lives: Items<Life>,
) -> Run<D>
    requires growing { IsGrowing D.view run }
    requires lives { AllLive lives }
{
    let mut run = run;
    let mut left = lives.into_vec().into_iter();
    'lives: while let Some(life) = left.next() {
        assert!(rt; !run.stands());
        let begun = match run.begin(rt.alloc(), life.stamp) {
            Ok(begun) => begun,
            Err(BeginFail::Memory(run)) => return run.finish(),
            Err(BeginFail::Stopped(run)) => return run,
        };
        run = match feed_all(rt, begun, life.segments) {
            Ok(fed) => fed,
            Err(run) => return run,
        };
    }
    run.finish()
}

/// Checks that a script which is fed has the page that it has as a whole.
fn feeds_as_whole<R: Abort + AllocGlobal>(rt: &R, cluster: &str, parts: &[&str]) {
    let case = Case {
        cluster,
        ..plain(parts)
    };
    let left = ends(rt, &case, Outcome::Done);
    let disk = Fuse::new(rt.alloc(), device_of(rt, case.device));
    let run = GrowingRun::new(rt.alloc(), settings_of(rt, cluster), disk);
    let fed = run_lives(rt, run, script_of(rt, joined(rt, parts).as_str()).lives);
    assert!(rt; fed.ended.is_ok());
    let page = page(rt.alloc(), &fed.log, false).expect(rt, "memory");
    assert!(rt; page.as_slice() == left.page.as_bytes());
}

#[test]
fn a_run_that_is_fed_has_the_page_of_its_script(rt: HostRuntime) {
    for example in EXAMPLES.as_slice() {
        feeds_as_whole(&rt, example.cluster, &[example.script]);
    }
    feeds_as_whole(&rt, "{}\n", &[SCRIPT]);
    feeds_as_whole(&rt, "{}\n", &[KEPT_CONTAINERS]);
    feeds_as_whole(&rt, "{}\n", &[JOB, RESYNCED, FINISH]);
}
