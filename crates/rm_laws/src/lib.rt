//! What an operator may rely on: the laws of lawful logs. Each is a function with no body, whose contract is the law. It
//! asks that the log is lawful for the settings, the script and the opening list, and that no operation of the
//! opening list is stray, and nothing else; so it holds of each manager that the judge accepts, over all its lives.
//! `specs/Laws.antt` states the laws.
#![tactic(auto)]

ghost use Rattle.std.specs.Prelude.{◌≡◌, None};
ghost use Rattle.rm_types.specs.Records.{stray};
ghost use Rattle.rm_model.specs.Lawful.{Lawful};
ghost use Rattle.rm_laws.specs.Reductions.{WithoutKeep, WithoutRecovery};
ghost use Rattle.rm_laws.specs.Laws.{BookIsOfLog, CleansStrangers, EndsAreTold, EndsStay, GrantsDiffer, IdsDiffer, KeptStays, LivesDiffer, MissingFalls, NoneStray, RegisteredAreKept, ReleasedStay, RowsFit, ToldStays};

use rm_types::{Entry, Items, Op, Script, Settings};

/// What was saved stays saved: what is kept in a state is kept in each later one, in later lives too, in its order
/// and before what is kept since.
pub fn law_kept(settings: &Settings, script: &Script, opening: &Items<Op>, log: &Items<Entry>)
    requires lawful { Lawful settings.now script.now opening.now log.now }
    requires whole { stray opening.now ≡ None }
    ensures law { KeptStays opening.now log.now }
{}

/// No restart loses a job that a report told: after a report with a word past NEW_SAVING the application has a
/// record with the reported submission in every later state, in later lives too, until its Remove is kept or
/// lands.
pub fn law_told(settings: &Settings, script: &Script, opening: &Items<Op>, log: &Items<Entry>)
    requires lawful { Lawful settings.now script.now opening.now log.now }
    requires whole { stray opening.now ≡ None }
    ensures law { ToldStays opening.now log.now }
{}

/// An end that was told is not taken back or retold: after a report with a final word, a kill's `ended` or a
/// master's `finished`, each later report of the application has a final word, and all of them have the same one
/// and the same text, which are those of the report where a report told it; until its Remove is kept or lands.
pub fn law_ends(settings: &Settings, script: &Script, opening: &Items<Op>, log: &Items<Entry>)
    requires lawful { Lawful settings.now script.now opening.now log.now }
    requires whole { stray opening.now ≡ None }
    ensures law { EndsStay opening.now log.now }
{}

/// No container id is used twice: all containers that passes grant, in all lives, differ, and their epochs are
/// at least the opening list's next one.
pub fn law_grants(settings: &Settings, script: &Script, opening: &Items<Op>, log: &Items<Entry>)
    requires lawful { Lawful settings.now script.now opening.now log.now }
    requires whole { stray opening.now ≡ None }
    ensures law { GrantsDiffer opening.now log.now }
{}

/// No application id is given twice: all ids that `new` gave, in all lives, differ, and their stamps are above
/// the opening list's.
pub fn law_ids(settings: &Settings, script: &Script, opening: &Items<Op>, log: &Items<Entry>)
    requires lawful { Lawful settings.now script.now opening.now log.now }
    requires whole { stray opening.now ≡ None }
    ensures law { IdsDiffer opening.now log.now }
{}

/// No node is overbooked: in every state the sizes of what stands on a node add up to what it offers at most,
/// in memory and in cores.
pub fn law_fits(settings: &Settings, script: &Script, opening: &Items<Op>, log: &Items<Entry>)
    requires lawful { Lawful settings.now script.now opening.now log.now }
    requires whole { stray opening.now ≡ None }
    ensures law { RowsFit opening.now log.now }
{}

/// The manager thinks alive just what its page says: in every state the containers on a node are exactly those
/// that an absorption of it took or a pass of it granted in this life, and that nothing named as ended since; and
/// each container has one row at most, so that it stands on one node and counts once.
pub fn law_book(settings: &Settings, script: &Script, opening: &Items<Op>, log: &Items<Entry>)
    requires lawful { Lawful settings.now script.now opening.now log.now }
    requires whole { stray opening.now ≡ None }
    ensures law { BookIsOfLog opening.now log.now }
{}

/// The store can be read back at each moment: in every state no operation is stray, of those that are kept and
/// those that await after them.
pub fn law_store(settings: &Settings, script: &Script, opening: &Items<Op>, log: &Items<Entry>)
    requires lawful { Lawful settings.now script.now opening.now log.now }
    requires whole { stray opening.now ≡ None }
    ensures law { NoneStray opening.now log.now }
{}

/// A page tells its lives apart: the epochs and the stamps of the lives that opened rise from life to life, from
/// above the opening list's on, and in every state those of an open life are the recorded ones. A life that went
/// down before its Epoch was kept leaves its epoch to the next.
pub fn law_lives(settings: &Settings, script: &Script, opening: &Items<Op>, log: &Items<Entry>)
    requires lawful { Lawful settings.now script.now opening.now log.now }
    requires whole { stray opening.now ≡ None }
    ensures law { LivesDiffer opening.now log.now }
{}

/// A node is to clean strangers alone, and all of them: no container that it is to clean by the answer to a new
/// beat lives on it, before and after; each other one that a ready node's new beat reports as running is to be
/// cleaned; and a node that isn't ready, as after a restart until its report was absorbed, is to clean nothing
/// and to launch nothing. A repeated beat is answered as before, and of it this says nothing.
pub fn law_cleans(settings: &Settings, script: &Script, opening: &Items<Op>, log: &Items<Entry>)
    requires lawful { Lawful settings.now script.now opening.now log.now }
    requires whole { stray opening.now ≡ None }
    ensures law { CleansStrangers opening.now log.now }
{}

/// Only the master of a saved attempt registers: in every state the attempt of each master that registered in the life that
/// stands is kept, or its application was retired in this life.
pub fn law_registered(settings: &Settings, script: &Script, opening: &Items<Op>, log: &Items<Entry>)
    requires lawful { Lawful settings.now script.now opening.now log.now }
    requires whole { stray opening.now ≡ None }
    ensures law { RegisteredAreKept opening.now log.now }
{}

/// What was released stays released: where the cluster recovers ended containers, a container that an attempt
/// released before a node reported it is in no book of that life.
pub fn law_released(settings: &Settings, script: &Script, opening: &Items<Op>, log: &Items<Entry>)
    requires lawful { Lawful settings.now script.now opening.now log.now }
    requires whole { stray opening.now ≡ None }
    ensures law { ReleasedStay settings.now opening.now log.now }
{}

/// What ended is told: let a node's new beat name a container as done that is wanted and that is in the book on
/// the node or, where the cluster recovers ended containers, astray. Once what the node said is worked off, in the
/// same life and until the end of the application's last attempt is kept, that attempt was told of the
/// container's end, or its end waits for it, or another node runs the container, or the container was its
/// attempt's master, which is lost; and where the log settles next, it is one of the first three.
pub fn law_done(settings: &Settings, script: &Script, opening: &Items<Op>, log: &Items<Entry>)
    requires lawful { Lawful settings.now script.now opening.now log.now }
    requires whole { stray opening.now ≡ None }
    ensures law { EndsAreTold settings.now opening.now log.now }
{}

/// No container becomes missing inside a life: one that is in the book, has left it in this life, is of the life's own
/// epoch, whose attempt wasn't kept when the life began, or that isn't wanted, is not looked for again.
pub fn law_missing(settings: &Settings, script: &Script, opening: &Items<Op>, log: &Items<Entry>)
    requires lawful { Lawful settings.now script.now opening.now log.now }
    requires whole { stray opening.now ≡ None }
    ensures law { MissingFalls opening.now log.now }
{}

/// An application that doesn't keep gets what it got before there were kept containers, whatever log it is: its containers
/// are wanted while their attempt goes on and stale once that is over, nobody is told of an end after it, an attempt
/// has its own containers at its disposal alone, and it registers without any.
pub fn law_without_keep(opening: &Items<Op>, log: &Items<Entry>)
    ensures law { WithoutKeep opening.now log.now }
{}

/// Where the cluster doesn't recover ended containers, nothing is looked for outside the book, whatever log it is: no
/// container is astray or pending, a beat ends what it names of its own node's, an absorption takes what is wanted
/// and fits, and a master is told of its own attempt's grants.
pub fn law_without_recovery(settings: &Settings, opening: &Items<Op>, log: &Items<Entry>)
    ensures law { WithoutRecovery settings.now opening.now log.now }
{}
