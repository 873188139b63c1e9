ghost use Rattle.std.specs.Prelude.{◌≡◌, Some, None, IfSome, IfNone};
ghost use Rattle.clap.specs.Walk.{texts};
ghost use Rattle.rm_lines.specs.Numbers.{number_between};
ghost use Rattle.rm_soak.specs.Limits.{most_soaked};
ghost use Rattle.rm_types.specs.Ranges.{IsWithin};
ghost use Rattle.rm_words.specs.Words.{IsWithinSoak, asked, asked_by, asked_with, device_size, has_moves, mode_named, word_of};

use rm_formats::STORE_SIZE;
use rm_lines::number_in;
use rm_soak::MOST_SOAKED;

/// A mode, without what stands behind its word.
#[derive(Clone, Copy, Debug)]
pub enum ModeName {
    Plain,
    Threads,
    Replay,
    Soak,
    Store,
}

/// What stands behind the word of a mode.
#[derive(Clone, Copy, Debug, PartialEq, Eq)]
pub enum Operand {
    /// The name of a cluster file.
    Cluster,
    /// The name of a script.
    Script,
    /// The name of a schedule.
    Schedule,
    /// How many applications a soak has.
    Applications,
}

impl Operand {
    /// Its sign on the page of modes.
    pub fn sign(self) -> &'static str {
        match self {
            Operand::Cluster => "CLUSTER",
            Operand::Script => "SCRIPT",
            Operand::Schedule => "SCHEDULE",
            Operand::Applications => "N",
        }
    }

    /// What is lacking where it doesn't stand there.
    pub fn meaning(self) -> &'static str {
        match self {
            Operand::Cluster => "the name of a cluster file",
            Operand::Script => "the name of a script",
            Operand::Schedule => "the name of a schedule",
            Operand::Applications => "the number of its applications",
        }
    }
}

/// A row of the table of modes.
#[derive(Clone, Copy)]
pub struct ModeRow {
    /// The mode's word.
    pub word: &'static str,
    /// What stands behind it.
    pub operands: &'static [Operand],
    /// Whether it writes a page that may show moves.
    pub has_moves: bool,
    /// What it does, for the page of modes.
    pub purpose: &'static str,
}

/// All modes, in the order in which the page of modes lists them.
pub const MODES: [ModeName; 5] = [
    ModeName::Plain,
    ModeName::Threads,
    ModeName::Replay,
    ModeName::Soak,
    ModeName::Store,
];

impl ModeName {
    /// The mode's row in the table of modes.
    pub fn row(self) -> ModeRow
        ensures word { result.word.now ≡ word_of self }
        ensures moves { result.has_moves ≡ has_moves self }
    {
        match self {
            ModeName::Plain => ModeRow {
                word: "plain",
                operands: &[Operand::Cluster, Operand::Script],
                has_moves: true,
                purpose: "runs the script under the cluster file, and writes its page",
            },
            ModeName::Threads => ModeRow {
                word: "threads",
                operands: &[Operand::Cluster, Operand::Script],
                has_moves: true,
                purpose: "the same by seven workers in threads of their own",
            },
            ModeName::Replay => ModeRow {
                word: "replay",
                operands: &[Operand::Cluster, Operand::Script, Operand::Schedule],
                has_moves: true,
                purpose: "the same by the moves of a schedule",
            },
            ModeName::Soak => ModeRow {
                word: "soak",
                operands: &[Operand::Applications],
                has_moves: false,
                purpose: "runs a soak of N applications, 1 to 1000, and writes its line",
            },
            ModeName::Store => ModeRow {
                word: "store",
                operands: &[],
                has_moves: false,
                purpose: "writes what the store keeps",
            },
        }
    }

    /// The mode that a word names.
    pub fn of_word(word: &str) -> Option<ModeName>
        ensures { result ≡ mode_named word.now }
    {
        match word {
            "plain" => Some(ModeName::Plain),
            "threads" => Some(ModeName::Threads),
            "replay" => Some(ModeName::Replay),
            "soak" => Some(ModeName::Soak),
            "store" => Some(ModeName::Store),
            _ => None,
        }
    }
}

/// What the program is to do.
#[derive(Clone, Copy, Debug)]
pub enum Mode<'a> {
    /// Runs a script under a cluster file; these are the files' names.
    Plain {
        cluster: &'a str,
        script: &'a str,
    },
    /// The same by a schedule, which is in the file of this name.
    Replay {
        cluster: &'a str,
        script: &'a str,
        schedule: &'a str,
    },
    /// The same by workers in threads of their own, in whatever order these move.
    Threads {
        cluster: &'a str,
        script: &'a str,
    },
    /// Runs a soak of so many applications.
    Soak {
        number: u32,
    },
    /// Lists what the store keeps.
    Store,
}

/// A device that holds what lasts of calls.
#[derive(Clone, Copy)]
pub struct StoreDevice {
    /// The name of its file, in the folder in which the program runs.
    pub file: &'static str,
    /// How many bytes it has, in its file and in memory.
    pub size: u64,
}

/// The file of the store's device.
pub const STORE_FILE: &str = "rm.store";

/// The store's device.
const STORE: StoreDevice = StoreDevice {
    file: STORE_FILE,
    size: STORE_SIZE,
};

impl Mode<'_> {
    /// The mode's name.
    pub fn name(self) -> ModeName {
        match self {
            Mode::Plain { .. } => ModeName::Plain,
            Mode::Threads { .. } => ModeName::Threads,
            Mode::Replay { .. } => ModeName::Replay,
            Mode::Soak { .. } => ModeName::Soak,
            Mode::Store => ModeName::Store,
        }
    }

    /// The device over which its calls are made.
    pub fn device(self) -> StoreDevice
        ensures { result.size ≡ device_size (asked self.entry) }
    {
        match self {
            Mode::Plain { .. } => STORE,
            Mode::Threads { .. } => STORE,
            Mode::Replay { .. } => STORE,
            Mode::Soak { .. } => STORE,
            Mode::Store => STORE,
        }
    }
}

/// The number of applications that a word says a soak is to have.
fn soaked(number: &str) -> Option<u32>
    ensures read { result ≡ number_between 1 most_soaked number.now }
    ensures within { IfSome result (λ n. IsWithin 1 most_soaked n) }
{
    let number = number_in(number.as_bytes(), 1, u64::from(MOST_SOAKED))?;
    Some(number as u32)
}

/// What a mode asks for with these names behind its word.
fn mode_with<'a>(name: ModeName, names: &[&'a str]) -> Option<Mode<'a>>
    ensures some { IfSome result (λ mode. asked_with name (texts names.now) ≡ Some (asked mode)) }
    ensures within { IfSome result IsWithinSoak }
    ensures none { IfNone result (asked_with name (texts names.now) ≡ None) }
{
    match (name, names) {
        (ModeName::Plain, [cluster, script]) => Some(Mode::Plain { cluster, script }),
        (ModeName::Threads, [cluster, script]) => Some(Mode::Threads { cluster, script }),
        (ModeName::Replay, [cluster, script, schedule]) => Some(Mode::Replay {
            cluster,
            script,
            schedule,
        }),
        (ModeName::Soak, [number]) => {
            let number = soaked(number)?;
            Some(Mode::Soak { number })
        }
        (ModeName::Store, []) => Some(Mode::Store),
        _ => None,
    }
}

/// The mode that these names ask for, where `moves` says whether `--moves` stands among the words.
pub(crate) fn mode_by<'a>(names: &[&'a str], moves: bool) -> Option<Mode<'a>>
    ensures some { IfSome result (λ mode. asked_by moves (texts names.now) ≡ Some (asked mode)) }
    ensures within { IfSome result IsWithinSoak }
    ensures none { IfNone result (asked_by moves (texts names.now) ≡ None) }
{
    let [word, behind @ ..] = names else {
        return None;
    };
    let name = ModeName::of_word(word)?;
    if moves && !name.row().has_moves {
        return None;
    }
    mode_with(name, behind)
}
