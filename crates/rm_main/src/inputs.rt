ghost use Rattle.std.specs.Prelude.{◌≡◌, ◌≤◌, IfOk, IfErr, OnOk, Err, Some};
ghost use Rattle.rm_types.specs.Counts.{Rose};
ghost use Rattle.rm_queues.specs.Rules.{KeepsRules};
ghost use Rattle.rm_invariant.specs.messages.Ranges.{KeepsLimits};
ghost use Rattle.rm_desk.specs.Scripts.{CanGoAlong};
ghost use Rattle.std.specs.Option.{option_copied};
ghost use Rattle.rm_main.specs.Runs.{AreMoves, AreSettings, IsScriptOf};
ghost use Rattle.rm_main.specs.modes.RunReads.{ReadsAllFiles, ReadsBy};
ghost use Rattle.rm_outside.specs.Shelves.{WereRead};
ghost use Rattle.rm_main.specs.Inputs.{IsOneMore, IsUnread, StopsAtCluster, StopsAtScript, StopsEarly};

use rm_cluster::{ClusterError, read_cluster};
use rm_outside::{Shelf, ShelfError};
use rm_script::{ScriptError, read_script};
use rm_types::{Outcome, Script, Settings};
use std::alloc::Global;

/// Reads the settings of a file. A refusal is the outcome that it makes.
fn read_settings<F: Shelf>(alloc: Global, shelf: &mut F, name: &str) -> Result<Settings, Outcome>
    ensures read { IfOk result (λ settings. AreSettings (F.bytes_of shelf.old name.now) settings) }
    ensures queues { IfOk result KeepsRules }
    ensures limits { IfOk result KeepsLimits }
    ensures refused { IfErr result (StopsAtCluster (F.bytes_of shelf.old name.now)) }
    ensures told { F.bytes_of shelf.new ≡ F.bytes_of shelf.old }
    ensures one { F.reads name.now shelf.old shelf.new }
    ensures fault { result ≡ Err Outcome.ReadFault → Rose (F.faults shelf.old) (F.faults shelf.new) }
    ensures quiet { OnOk result (F.faults shelf.new ≡ F.faults shelf.old) }
{
    let bytes = match shelf.read(name) {
        Ok(bytes) => bytes,
        Err(ShelfError::Failed) => return Err(Outcome::ReadFault),
        Err(ShelfError::Memory) => return Err(Outcome::Memory),
    };
    match read_cluster(alloc, bytes.as_slice()) {
        Ok(settings) => Ok(settings),
        Err(ClusterError::Refused { place }) => Err(Outcome::ClusterRefused { place }),
        Err(ClusterError::Memory) => Err(Outcome::Memory),
    }
}

/// Reads the script of a file. A refusal is the outcome that it makes.
fn read_lives<F: Shelf>(alloc: Global, shelf: &mut F, name: &str) -> Result<Script, Outcome>
    ensures read { IfOk result (λ script. IsScriptOf (F.bytes_of shelf.old name.now) script) }
    ensures can_run { IfOk result CanGoAlong }
    ensures refused { IfErr result (StopsAtScript (F.bytes_of shelf.old name.now)) }
    ensures one { F.reads name.now shelf.old shelf.new }
    ensures told { F.bytes_of shelf.new ≡ F.bytes_of shelf.old }
    ensures fault { result ≡ Err Outcome.ReadFault → Rose (F.faults shelf.old) (F.faults shelf.new) }
    ensures quiet { OnOk result (F.faults shelf.new ≡ F.faults shelf.old) }
{
    let bytes = match shelf.read(name) {
        Ok(bytes) => bytes,
        Err(ShelfError::Failed) => return Err(Outcome::ReadFault),
        Err(ShelfError::Memory) => return Err(Outcome::Memory),
    };
    match read_script(alloc, bytes.as_slice()) {
        Ok(script) => Ok(script),
        Err(ScriptError::Refused { line }) => Err(Outcome::ScriptRefused { line }),
        Err(ScriptError::Memory) => Err(Outcome::Memory),
    }
}

/// Reads the schedule of a file, whatever its bytes are. A refusal is the outcome that it makes.
fn read_moves<F: Shelf>(shelf: &mut F, name: &str) -> Result<Vec<u8>, Outcome>
    ensures read { IfOk result (λ bytes. WereRead (F.bytes_of shelf.old name.now) bytes.items) }
    ensures refused { IfErr result IsUnread }
    ensures one { F.reads name.now shelf.old shelf.new }
    ensures fault { result ≡ Err Outcome.ReadFault → Rose (F.faults shelf.old) (F.faults shelf.new) }
{
    match shelf.read(name) {
        Ok(bytes) => Ok(bytes),
        Err(ShelfError::Failed) => Err(Outcome::ReadFault),
        Err(ShelfError::Memory) => Err(Outcome::Memory),
    }
}

/// The names of the files that a run is to read.
#[derive(Clone, Copy)]
pub struct Files<'a> {
    pub cluster: &'a str,
    pub script: &'a str,
    /// That of the schedule, where the moves are told.
    pub schedule: Option<&'a str>,
}

/// What a run is made from.
#[derive(Drop)]
pub struct Inputs {
    pub settings: Settings,
    pub script: Script,
    /// The bytes of the schedule; none where the moves aren't told.
    pub schedule: Vec<u8>,
}

/// Reads the schedule, if there is one.
fn read_schedule<F: Shelf>(
    alloc: Global,
    shelf: &mut F,
    schedule: Option<&str>,
) -> Result<Vec<u8>, Outcome>
    ensures read { IfOk result (λ bytes. AreMoves (F.bytes_of shelf.old) (option_copied schedule.entry) bytes.items) }
    ensures refused { IfErr result IsUnread }
    ensures one { IsOneMore F.reads (option_copied schedule.entry) shelf.old shelf.new }
    ensures fault { result ≡ Err Outcome.ReadFault → Rose (F.faults shelf.old) (F.faults shelf.new) }
{
    match schedule {
        Some(name) => read_moves(shelf, name),
        None => Ok(Vec::new(alloc)),
    }
}

/// Reads the settings, the script and the schedule of a run, in this order, and no other file. A refusal is the outcome that
/// it makes.
pub fn read_inputs<F: Shelf>(
    alloc: Global,
    shelf: &mut F,
    files: Files<'_>,
) -> Result<Inputs, Outcome>
    ensures settings { IfOk result (λ inputs. AreSettings (F.bytes_of shelf.old files.entry.cluster.now) inputs.settings) }
    ensures queues { IfOk result (λ inputs. KeepsRules inputs.settings) }
    ensures limits { IfOk result (λ inputs. KeepsLimits inputs.settings) }
    ensures script { IfOk result (λ inputs. IsScriptOf (F.bytes_of shelf.old files.entry.script.now) inputs.script) }
    ensures can_run { IfOk result (λ inputs. CanGoAlong inputs.script) }
    ensures schedule { IfOk result (λ inputs. AreMoves (F.bytes_of shelf.old) (option_copied files.entry.schedule) inputs.schedule.items) }
    ensures refused { IfErr result (StopsEarly (F.bytes_of shelf.old) files.entry.cluster.now files.entry.script.now) }
    ensures reads { OnOk result (ReadsAllFiles F.reads (F.bytes_of shelf.old) files.entry.cluster.now files.entry.script.now (option_copied files.entry.schedule) shelf.old shelf.new) }
    ensures read { IfErr result (λ outcome. ReadsBy F.reads (F.bytes_of shelf.old) files.entry.cluster.now files.entry.script.now (option_copied files.entry.schedule) outcome shelf.old shelf.new) }
    ensures fault { result ≡ Err Outcome.ReadFault → Rose (F.faults shelf.old) (F.faults shelf.new) }
{
    let settings = read_settings(alloc, shelf, files.cluster)?;
    let script = read_lives(alloc, shelf, files.script)?;
    let schedule = read_schedule(alloc, shelf, files.schedule)?;
    Ok(Inputs {
        settings,
        script,
        schedule,
    })
}
