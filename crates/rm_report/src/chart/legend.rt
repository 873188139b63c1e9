use crate::chart::drawing::{LEFT, MARGIN, SPAN, draw_disk, state_style, state_word};
use crate::chart::nodes::{CONTAINER, MASTER, MOST_BARS, UNHEARD, draw_handing_tick};
use crate::chart::scenes::Scene;
use crate::chart::svg::{Anchor, Frame, Svg, Tenths, width_of};
use rm_types::{NoMemory, StateWord};

/// How wide a character of a legend is at most, also in capitals.
const WIDE: Tenths = 84;

/// The states that a job may be drawn in, from the lightest to the darkest; the last one stands for each final state.
const STATES: [StateWord; 5] = [
    StateWord::NewSaving,
    StateWord::Submitted,
    StateWord::Accepted,
    StateWord::Running,
    StateWord::Finished,
];

/// What the signs mean, in three rows.
pub(crate) fn draw_legend(svg: &mut Svg, scene: &Scene, top: Tenths) -> Result<(), NoMemory> {
    let x = draw_sample(svg, MARGIN, top, MASTER, b"a job's master")?;
    let x = draw_sample(svg, x, top, CONTAINER, b"another container")?;
    let x = draw_sample(
        svg,
        x,
        top,
        UNHEARD,
        b"it runs on, and the new life hasn't heard of it",
    )?;
    draw_operations(svg, x, top)?;
    draw_states(svg, top.saturating_add(200))?;
    draw_notes(svg, scene, top.saturating_add(400))
}

/// How an operation is drawn where it is issued, and where it is kept.
fn draw_operations(svg: &mut Svg, x: Tenths, y: Tenths) -> Result<(), NoMemory> {
    let x = draw_operation(svg, x, y, false, b"issued")?;
    draw_operation(svg, x, y, true, b"kept on the device")?;
    Ok(())
}

/// The states of a job.
fn draw_states(svg: &mut Svg, y: Tenths) -> Result<(), NoMemory> {
    let mut x = MARGIN;
    'states: for state in STATES {
        let word: &[u8] = if matches!(state, StateWord::Finished) {
            b"FINISHED, FAILED or KILLED"
        } else {
            state_word(state)
        };
        x = draw_sample(svg, x, y, state_style(state), word)?;
    }
    Ok(())
}

/// How to read the numbers, the steps, and the sign of a container that is handed over, where there is one.
fn draw_notes(svg: &mut Svg, scene: &Scene, y: Tenths) -> Result<(), NoMemory> {
    let numbers: &[u8] = if scene.bars.len() > MOST_BARS {
        b"a row is as high as the number before it"
    } else if scene.jobs.len() > 1 {
        b"numbers: application.attempt.container"
    } else {
        b"numbers: attempt.container"
    };
    let x = draw_text(svg, MARGIN, y, numbers)?;
    if scene.has_handings() {
        draw_handing_tick(
            svg,
            x.saturating_add(110),
            y.saturating_sub(20),
            y.saturating_add(140),
        )?;
        draw_text(svg, x.saturating_add(270), y, b"handed to a later attempt")?;
    }
    svg.label(
        LEFT + SPAN,
        y.saturating_add(100),
        Anchor::End,
        b"fill=\"#222\"",
        b"each step to the right is a line of the page",
    )
}

/// A box in a style, and what it means. The answer is where there is room behind it.
fn draw_sample(
    svg: &mut Svg,
    x: Tenths,
    y: Tenths,
    style: &[u8],
    text: &[u8],
) -> Result<Tenths, NoMemory> {
    let frame = Frame {
        x,
        y,
        width: 220,
        height: 120,
    };
    svg.rectangle(frame, style)?;
    draw_text(svg, x.saturating_add(270), y, text)
}

/// A disk, and what it means. The answer is where there is room behind it.
fn draw_operation(
    svg: &mut Svg,
    x: Tenths,
    y: Tenths,
    is_kept: bool,
    text: &[u8],
) -> Result<Tenths, NoMemory> {
    draw_disk(svg, x.saturating_add(40), y.saturating_add(60), is_kept)?;
    draw_text(svg, x.saturating_add(120), y, text)
}

fn draw_text(svg: &mut Svg, x: Tenths, y: Tenths, text: &[u8]) -> Result<Tenths, NoMemory> {
    svg.label(
        x,
        y.saturating_add(100),
        Anchor::Start,
        b"fill=\"#222\"",
        text,
    )?;
    Ok(
        x.saturating_add(width_of(text.len(), WIDE))
            .saturating_add(60),
    )
}
