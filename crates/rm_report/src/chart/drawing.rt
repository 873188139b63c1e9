ghost use Rattle.std.specs.Prelude.{◌≡◌, ℕ, Err};
ghost use Rattle.rm_page_reader.specs.Told.{IsNoPage};

use crate::chart::bars::Line;
use crate::chart::jobs::{Job, Phase};
use crate::chart::legend::draw_legend;
use crate::chart::nodes::draw_nodes;
use crate::chart::scenes::{Life, MOST_JOBS, Mark, Scene};
use crate::chart::svg::{Anchor, Frame, Svg, Tenths, width_of};
use rm_formats::ids::write_app;
use rm_page_reader::{PageError, read_page};
use rm_types::{AppId, NoMemory, StateWord};
use std::alloc::Global;

/// How wide the picture is.
pub(crate) const WIDTH: Tenths = 11_200;

/// Where the first line of the page is, and how wide all lines are.
pub(crate) const LEFT: Tenths = 960;

pub(crate) const SPAN: Tenths = 10_000;

/// Where texts at the left begin.
pub(crate) const MARGIN: Tenths = 120;

/// Where the columns of lives begin.
const TOP: Tenths = 480;

/// How many operations are drawn as disks; more are ticks.
const MOST_DISKS: usize = 80;

/// How wide a character is at most in a text of the common size, and in a small one.
const WIDE: Tenths = 70;

const NARROW: Tenths = 66;

/// The same of the word of an operation.
const SLIM: Tenths = 55;

/// A small text, with a rim, so that it can be read on what lies below it.
pub(crate) const SMALL: &[u8] =
    b"font-size=\"9.5\" fill=\"#222\" stroke=\"#fff\" stroke-width=\"2\" paint-order=\"stroke\"";

/// A picture of the run whose page this is, as an SVG. Each line of the page is a step to the right. The lives of the manager are
/// columns, and each crash is a line across. Below one another are the states of the first twelve jobs, the operations of the store,
/// and each node with a bar for each container; of more than sixty containers, it shows how many there are on each node. A tick across
/// a bar, or across the numbers of a node, says that a container is handed to a later attempt.
///
/// `NotAPage` comes only where the bytes are no page, and names the first line that is none of one; `Memory` may come of any bytes.
pub fn draw(alloc: Global, page: &[u8]) -> Result<Vec<u8>, PageError>
    ensures { (line : ℕ) → result ≡ Err (PageError.NotAPage line) → IsNoPage page.now }
{
    let page = read_page(alloc, page)?;
    let scene = Scene::of(alloc, page.entries())?;
    let svg = draw_scene(alloc, &scene)?;
    Ok(svg.into_bytes())
}

fn draw_scene(alloc: Global, scene: &Scene) -> Result<Svg, NoMemory> {
    let mut rows = Svg::new(alloc);
    let y = draw_jobs(alloc, &mut rows, scene, TOP + 240)?;
    let y = draw_store(&mut rows, scene, y)?;
    let bottom = draw_nodes(alloc, &mut rows, scene, y)?;
    let mut svg = Svg::new(alloc);
    put_head(&mut svg, scene, bottom.saturating_add(720))?;
    draw_lives(&mut svg, scene, bottom)?;
    svg.markup(rows.bytes())?;
    draw_crashes(&mut svg, scene, bottom)?;
    draw_legend(&mut svg, scene, bottom.saturating_add(120))?;
    svg.markup(b"</svg>\n")?;
    Ok(svg)
}

/// Where a line of the page is.
pub(crate) fn x_of(scene: &Scene, line: Line) -> Tenths {
    let lines = u64::from(scene.lines.max(1));
    let half_steps = u64::from(line).saturating_mul(2).saturating_sub(1);
    LEFT.saturating_add((half_steps.saturating_mul(SPAN / 2) / lines).min(SPAN))
}

/// The box between two lines of the page.
pub(crate) fn between(scene: &Scene, from: Line, to: Line, y: Tenths, height: Tenths) -> Frame {
    let x = x_of(scene, from);
    Frame {
        x,
        y,
        width: x_of(scene, to).saturating_sub(x).max(10),
        height,
    }
}

/// The picture's beginning: its size, its title, and what it shows, for those who can't see it.
fn put_head(svg: &mut Svg, scene: &Scene, height: Tenths) -> Result<(), NoMemory> {
    svg.markup(b"<svg xmlns=\"http://www.w3.org/2000/svg\" viewBox=\"0 0 ")?;
    svg.number(WIDTH / 10)?;
    svg.markup(b" ")?;
    svg.number(height.div_ceil(10))?;
    svg.markup(
        b"\" font-size=\"11\" role=\"img\" aria-labelledby=\"title description\">\n<title id=\"title\">",
    )?;
    put_title(svg, scene)?;
    svg.markup(b"</title>\n<desc id=\"description\">")?;
    put_description(svg, scene)?;
    svg.markup(b"</desc>\n")?;
    let whole = Frame {
        x: 0,
        y: 0,
        width: WIDTH,
        height,
    };
    svg.rectangle(whole, b"fill=\"#fff\"")?;
    svg.begin_label(
        MARGIN,
        260,
        Anchor::Start,
        b"font-size=\"15\" font-weight=\"bold\" fill=\"#111\"",
    )?;
    put_title(svg, scene)?;
    svg.end_label()
}

fn put_title(svg: &mut Svg, scene: &Scene) -> Result<(), NoMemory> {
    put_count(svg, scene.lives.len(), b"life", b"lives")?;
    svg.markup(b" of the manager: ")?;
    put_count(svg, scene.jobs.len(), b"job", b"jobs")?;
    svg.markup(b", ")?;
    put_count(svg, scene.bars.len(), b"container", b"containers")?;
    svg.markup(b" on ")?;
    put_count(svg, scene.nodes.len(), b"node", b"nodes")
}

/// A number of things, by the word for one or for several.
pub(crate) fn put_count(
    svg: &mut Svg,
    count: usize,
    one: &[u8],
    several: &[u8],
) -> Result<(), NoMemory> {
    svg.number(count)?;
    svg.markup(b" ")?;
    svg.markup(if count == 1 { one } else { several })
}

fn put_description(svg: &mut Svg, scene: &Scene) -> Result<(), NoMemory> {
    svg.markup(b"From left to right, a step for each of ")?;
    put_count(svg, scene.lines as usize, b"line", b"lines")?;
    svg.markup(b" of the page. ")?;
    put_count(svg, crashes_in(scene), b"life", b"lives")?;
    svg.markup(b" went down. ")?;
    put_count(svg, kept_in(scene), b"operation is", b"operations are")?;
    svg.markup(
        b" kept. A bar for each container goes from its grant or absorption to its ending; it is dashed where the container runs on through a crash and the new life hasn't heard of it.",
    )?;
    if scene.has_handings() {
        svg.markup(b" A tick across a bar says to which later attempt the container is handed.")?;
    }
    Ok(())
}

/// How many lives went down.
fn crashes_in(scene: &Scene) -> usize {
    let mut crashes: usize = 0;
    'lives: for life in scene.lives.as_slice() {
        crashes = crashes.saturating_add(usize::from(life.went_down));
    }
    crashes
}

/// How many operations are kept.
fn kept_in(scene: &Scene) -> usize {
    let mut kept: usize = 0;
    'marks: for mark in scene.marks.as_slice() {
        kept = kept.saturating_add(usize::from(mark.is_kept));
    }
    kept
}

/// The columns of the lives.
fn draw_lives(svg: &mut Svg, scene: &Scene, bottom: Tenths) -> Result<(), NoMemory> {
    let mut number: usize = 0;
    'lives: for life in scene.lives.as_slice() {
        number = number.saturating_add(1);
        let frame = between(scene, life.from, life.to, TOP, bottom.saturating_sub(TOP));
        svg.rectangle(
            frame,
            b"fill=\"#eef3f8\" stroke=\"#b8c4d0\" stroke-width=\"0.5\"",
        )?;
        if frame.width >= width_of(18, WIDE) {
            draw_life_name(svg, frame, number, life)?;
        }
    }
    Ok(())
}

fn draw_life_name(svg: &mut Svg, frame: Frame, number: usize, life: &Life) -> Result<(), NoMemory> {
    svg.begin_label(
        frame.x.saturating_add(60),
        frame.y.saturating_add(140),
        Anchor::Start,
        b"fill=\"#234\"",
    )?;
    svg.markup(b"life ")?;
    svg.number(number)?;
    svg.markup(b", epoch ")?;
    svg.number(life.epoch)?;
    svg.end_label()
}

/// A line across for each crash.
fn draw_crashes(svg: &mut Svg, scene: &Scene, bottom: Tenths) -> Result<(), NoMemory> {
    let mut free: Tenths = 0;
    'lives: for life in scene.lives.as_slice() {
        if life.went_down {
            let x = x_of(scene, life.to);
            svg.line(
                (x, TOP - 40),
                (x, bottom),
                b"stroke=\"#b3261e\" stroke-width=\"2\"",
            )?;
            if x.saturating_sub(width_of(3, WIDE)) >= free {
                free = x.saturating_add(width_of(4, WIDE));
                svg.label(
                    x,
                    TOP - 70,
                    Anchor::Middle,
                    b"fill=\"#b3261e\" font-weight=\"bold\"",
                    b"crash",
                )?;
            }
        }
    }
    Ok(())
}

/// A row with the states of each of the first jobs. The answer is where the next row begins.
fn draw_jobs(alloc: Global, svg: &mut Svg, scene: &Scene, top: Tenths) -> Result<Tenths, NoMemory> {
    let mut y = top;
    'jobs: for place in 0..scene.jobs.len().min(MOST_JOBS) {
        if let Some((id, job)) = scene.jobs.get_index(place) {
            draw_job(alloc, svg, scene, y, *id, job)?;
            y = y.saturating_add(220);
        }
    }
    let left = scene.jobs.len().saturating_sub(MOST_JOBS);
    if left > 0 {
        svg.begin_label(MARGIN, y.saturating_add(110), Anchor::Start, SMALL)?;
        svg.markup(b"and ")?;
        put_count(svg, left, b"more job", b"more jobs")?;
        svg.end_label()?;
        y = y.saturating_add(220);
    }
    Ok(y)
}

fn draw_job(
    alloc: Global,
    svg: &mut Svg,
    scene: &Scene,
    y: Tenths,
    id: AppId,
    job: &Job,
) -> Result<(), NoMemory> {
    let mut name = Vec::new(alloc);
    write_app(id, &mut name)?;
    svg.begin_label(
        MARGIN,
        y.saturating_add(120),
        Anchor::Start,
        b"fill=\"#234\"",
    )?;
    svg.markup(b"job ")?;
    svg.number(id.number)?;
    svg.end_label()?;
    'phases: for phase in job.phases.as_slice() {
        draw_phase(svg, scene, y, name.as_slice(), phase)?;
    }
    Ok(())
}

fn draw_phase(
    svg: &mut Svg,
    scene: &Scene,
    y: Tenths,
    name: &[u8],
    phase: &Phase,
) -> Result<(), NoMemory> {
    let frame = between(scene, phase.from, phase.to, y, 160);
    let word = state_word(phase.state);
    svg.named_rectangle(frame, state_style(phase.state), name)?;
    if frame.width < width_of(word.len(), NARROW) {
        return Ok(());
    }
    let style: &[u8] = if is_dark(phase.state) {
        b"font-size=\"9.5\" fill=\"#fff\""
    } else {
        b"font-size=\"9.5\" fill=\"#111\""
    };
    let middle = frame.x.saturating_add(frame.width / 2);
    svg.label(middle, y.saturating_add(115), Anchor::Middle, style, word)
}

/// The word of a job's state.
pub(crate) fn state_word(state: StateWord) -> &'static [u8] {
    match state {
        StateWord::New => b"NEW",
        StateWord::NewSaving => b"NEW_SAVING",
        StateWord::Submitted => b"SUBMITTED",
        StateWord::Accepted => b"ACCEPTED",
        StateWord::Running => b"RUNNING",
        StateWord::Finished => b"FINISHED",
        StateWord::Failed => b"FAILED",
        StateWord::Killed => b"KILLED",
    }
}

/// How a job's state is drawn: the further it is, the darker.
pub(crate) fn state_style(state: StateWord) -> &'static [u8] {
    match state {
        StateWord::New | StateWord::NewSaving =>
            b"fill=\"#fff\" stroke=\"#345\" stroke-width=\"0.5\"",
        StateWord::Submitted => b"fill=\"#d5dee7\" stroke=\"#345\" stroke-width=\"0.5\"",
        StateWord::Accepted => b"fill=\"#a9c1d9\" stroke=\"#345\" stroke-width=\"0.5\"",
        StateWord::Running => b"fill=\"#3f76ad\" stroke=\"#345\" stroke-width=\"0.5\"",
        StateWord::Finished | StateWord::Failed | StateWord::Killed => {
            b"fill=\"#172c44\" stroke=\"#345\" stroke-width=\"0.5\""
        }
    }
}

/// Whether a text on it has to be light.
fn is_dark(state: StateWord) -> bool {
    matches!(
        state,
        StateWord::Running | StateWord::Finished | StateWord::Failed | StateWord::Killed
    )
}

/// The row of the store: each operation where it is issued, and where it is kept. The answer is where the next row begins.
fn draw_store(svg: &mut Svg, scene: &Scene, top: Tenths) -> Result<Tenths, NoMemory> {
    let y = top.saturating_add(90);
    svg.label(
        MARGIN,
        y.saturating_add(40),
        Anchor::Start,
        b"fill=\"#234\"",
        b"store",
    )?;
    svg.line(
        (LEFT, y),
        (LEFT + SPAN, y),
        b"stroke=\"#89a\" stroke-width=\"0.7\"",
    )?;
    let are_disks = scene.marks.len() <= MOST_DISKS;
    let mut free: Tenths = 0;
    'marks: for mark in scene.marks.as_slice() {
        let x = x_of(scene, mark.line);
        if are_disks {
            draw_disk(svg, x, y, mark.is_kept)?;
        } else {
            draw_tick(svg, x, y, mark.is_kept)?;
        }
        if mark.is_kept && are_disks {
            free = draw_operation_name(svg, mark, x, y, free)?;
        }
    }
    Ok(y.saturating_add(270))
}

/// A disk for an operation: open where it is issued, full where it is kept.
pub(crate) fn draw_disk(
    svg: &mut Svg,
    x: Tenths,
    y: Tenths,
    is_kept: bool,
) -> Result<(), NoMemory> {
    if is_kept {
        svg.disk(x, y, 42, b"fill=\"#1d5c22\"")
    } else {
        svg.disk(
            x,
            y,
            38,
            b"fill=\"#fff\" stroke=\"#1d5c22\" stroke-width=\"1.5\"",
        )
    }
}

/// A tick for an operation: above the line where it is issued, below it where it is kept.
fn draw_tick(svg: &mut Svg, x: Tenths, y: Tenths, is_kept: bool) -> Result<(), NoMemory> {
    let end = if is_kept {
        y.saturating_add(70)
    } else {
        y.saturating_sub(70)
    };
    svg.line((x, y), (x, end), b"stroke=\"#1d5c22\" stroke-width=\"0.6\"")
}

/// Writes the word of an operation below it, where there is room behind the one before. The answer is where there is room next.
fn draw_operation_name(
    svg: &mut Svg,
    mark: &Mark,
    x: Tenths,
    y: Tenths,
    free: Tenths,
) -> Result<Tenths, NoMemory> {
    let half = width_of(mark.word.len(), SLIM) / 2;
    if x.saturating_sub(half) < free {
        return Ok(free);
    }
    svg.label(
        x,
        y.saturating_add(170),
        Anchor::Middle,
        b"font-size=\"9\" fill=\"#1d5c22\"",
        mark.word,
    )?;
    Ok(x.saturating_add(half).saturating_add(10))
}
