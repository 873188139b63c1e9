use crate::chart::bars::{Bar, Handing, Stretch};
use crate::chart::drawing::{LEFT, MARGIN, SMALL, SPAN, between, put_count, x_of};
use crate::chart::scenes::Scene;
use crate::chart::svg::{Anchor, Frame, Svg, Tenths, width_of};
use itoa::Buffer;
use rm_formats::ids::write_container;
use rm_types::{ContainerId, NoMemory, Text};
use std::alloc::Global;

/// Of so many containers each has a bar of its own; of more, counts are drawn.
pub(crate) const MOST_BARS: usize = 60;

/// In how many stretches the page is counted, and how wide each is.
const COUNTS: usize = 250;

const COUNT_WIDTH: Tenths = SPAN / 250;

/// How high the counts of a node are.
const COUNT_HEIGHT: Tenths = 260;

/// How a master is drawn, a container of a job, and one that runs on and that the new life hasn't heard of.
pub(crate) const MASTER: &[u8] = b"fill=\"#5b3a12\" stroke=\"#2b1a05\" stroke-width=\"0.7\"";

pub(crate) const CONTAINER: &[u8] = b"fill=\"#cfe3c6\" stroke=\"#2f5230\" stroke-width=\"0.7\"";

pub(crate) const UNHEARD_MASTER: &[u8] =
    b"fill=\"#fff\" stroke=\"#2b1a05\" stroke-width=\"1.6\" stroke-dasharray=\"4 3\"";

pub(crate) const UNHEARD: &[u8] =
    b"fill=\"#fff\" stroke=\"#2f5230\" stroke-width=\"0.8\" stroke-dasharray=\"4 3\"";

/// How it is drawn that a container is handed over, and how it is said to which attempt, in so many letters at most.
const HANDING: &[u8] = b"stroke=\"#6a1b9a\" stroke-width=\"3\"";

const HANDING_NAME: &[u8] =
    b"font-size=\"9.5\" fill=\"#6a1b9a\" stroke=\"#fff\" stroke-width=\"2\" paint-order=\"stroke\"";

const HANDING_LETTERS: usize = 21;

/// The same as counts.
const COUNTED_MASTERS: &[u8] = b"fill=\"#5b3a12\"";

const COUNTED_OTHERS: &[u8] = b"fill=\"#b4d0a8\"";

const COUNTED_UNHEARD: &[u8] = b"fill=\"#fff\" stroke=\"#2f5230\" stroke-width=\"0.4\"";

/// How many containers there are in a stretch of the page: masters, others, and those of which the life hasn't heard.
#[derive(Clone, Copy)]
struct Count {
    masters: u32,
    others: u32,
    unheard: u32,
}

const NONE: Count = Count {
    masters: 0,
    others: 0,
    unheard: 0,
};

impl Count {
    fn total(self) -> u64 {
        u64::from(self.masters)
            .saturating_add(u64::from(self.others))
            .saturating_add(u64::from(self.unheard))
    }

    fn is_same(self, other: Count) -> bool {
        self.masters == other.masters
            && self.others == other.others
            && self.unheard == other.unheard
    }

    fn add(&mut self, is_master: bool, is_heard: bool) {
        if !is_heard {
            self.unheard = self.unheard.saturating_add(1);
        } else if is_master {
            self.masters = self.masters.saturating_add(1);
        } else {
            self.others = self.others.saturating_add(1);
        }
    }
}

/// A row for each node. The answer is where the rows end.
pub(crate) fn draw_nodes(
    alloc: Global,
    svg: &mut Svg,
    scene: &Scene,
    top: Tenths,
) -> Result<Tenths, NoMemory> {
    let by_node = bars_by_node(alloc, scene)?;
    let mut y = top;
    'nodes: for place in 0..scene.nodes.len() {
        let (Some((node, _)), Some(bars)) = (scene.nodes.get_index(place), by_node.get(place))
        else {
            continue 'nodes;
        };
        draw_node_name(svg, node, bars.len(), y)?;
        y = if scene.bars.len() <= MOST_BARS {
            draw_bars(alloc, svg, scene, bars.as_slice(), y.saturating_add(200))?
        } else {
            draw_counts(alloc, svg, scene, bars.as_slice(), y.saturating_add(200))?
        };
    }
    Ok(y)
}

/// The places of the containers on each node.
fn bars_by_node(alloc: Global, scene: &Scene) -> Result<Vec<Vec<usize>>, NoMemory> {
    let mut by_node = Vec::with_capacity(alloc, scene.nodes.len())?;
    'nodes: for _node in 0..scene.nodes.len() {
        by_node.push(Vec::new(alloc))?;
    }
    'bars: for place in 0..scene.bars.len() {
        if let Some((_, bar)) = scene.bars.get_index(place) {
            if let Some(places) = by_node.get_mut(bar.node) {
                places.push(place)?;
            }
        }
    }
    Ok(by_node)
}

/// The line above a node's row, with its name and how many containers were there.
fn draw_node_name(svg: &mut Svg, node: &Text, bars: usize, y: Tenths) -> Result<(), NoMemory> {
    svg.line(
        (MARGIN, y),
        (LEFT + SPAN, y),
        b"stroke=\"#89a\" stroke-width=\"0.5\"",
    )?;
    svg.begin_label(
        MARGIN,
        y.saturating_add(145),
        Anchor::Start,
        b"fill=\"#234\" stroke=\"#fff\" stroke-width=\"2\" paint-order=\"stroke\"",
    )?;
    svg.markup(b"node ")?;
    svg.text(node.bytes())?;
    svg.end_label()?;
    svg.begin_label(LEFT + SPAN - 200, y.saturating_add(145), Anchor::End, SMALL)?;
    put_count(svg, bars, b"container", b"containers")?;
    svg.end_label()
}

/// A bar for each container, one below the other. The answer is where they end.
fn draw_bars(
    alloc: Global,
    svg: &mut Svg,
    scene: &Scene,
    places: &[usize],
    top: Tenths,
) -> Result<Tenths, NoMemory> {
    let mut y = top;
    'places: for place in places {
        if let Some((id, bar)) = scene.bars.get_index(*place) {
            draw_bar(alloc, svg, scene, *id, bar, y)?;
            y = y.saturating_add(180);
        }
    }
    Ok(y.saturating_add(40))
}

fn draw_bar(
    alloc: Global,
    svg: &mut Svg,
    scene: &Scene,
    id: ContainerId,
    bar: &Bar,
    y: Tenths,
) -> Result<(), NoMemory> {
    let is_master = scene.masters.get(&id).is_some();
    let mut name = Vec::new(alloc);
    write_container(id, &mut name)?;
    'stretches: for stretch in bar.stretches.as_slice() {
        let frame = between(scene, stretch.from, stretch.to, y, 120);
        svg.named_rectangle(
            frame,
            bar_style(is_master, stretch.is_heard),
            name.as_slice(),
        )?;
    }
    'handings: for handing in bar.handings.as_slice() {
        draw_handing(svg, x_of(scene, handing.line), y, *handing)?;
    }
    if let Some(first) = bar.stretches.first() {
        draw_bar_name(svg, scene, id, is_master, first, y)?;
    }
    Ok(())
}

/// A tick across a container's bar where it is handed to a later attempt, and which attempt that is.
fn draw_handing(svg: &mut Svg, x: Tenths, y: Tenths, handing: Handing) -> Result<(), NoMemory> {
    draw_handing_tick(svg, x, y.saturating_sub(30), y.saturating_add(150))?;
    let end = x
        .saturating_add(40)
        .saturating_add(width_of(HANDING_LETTERS, 60));
    let (place, anchor) = if end <= LEFT + SPAN {
        (x.saturating_add(40), Anchor::Start)
    } else {
        (x.saturating_sub(40), Anchor::End)
    };
    svg.begin_label(place, y.saturating_add(98), anchor, HANDING_NAME)?;
    svg.markup(b"to attempt ")?;
    svg.number(handing.attempt)?;
    svg.end_label()
}

/// The tick alone, from one height to another.
pub(crate) fn draw_handing_tick(
    svg: &mut Svg,
    x: Tenths,
    from: Tenths,
    to: Tenths,
) -> Result<(), NoMemory> {
    svg.line((x, from), (x, to), HANDING)
}

fn bar_style(is_master: bool, is_heard: bool) -> &'static [u8] {
    match (is_master, is_heard) {
        (true, true) => MASTER,
        (true, false) => UNHEARD_MASTER,
        (false, true) => CONTAINER,
        (false, false) => UNHEARD,
    }
}

/// Writes the numbers of a container before its bar, where there is room: those of its application and its attempt, where there are
/// several jobs, and its own.
fn draw_bar_name(
    svg: &mut Svg,
    scene: &Scene,
    id: ContainerId,
    is_master: bool,
    first: &Stretch,
    y: Tenths,
) -> Result<(), NoMemory> {
    let x = x_of(scene, first.from).saturating_sub(40);
    let is_short = scene.jobs.len() <= 1;
    if x < name_width(id, is_master, is_short) {
        return Ok(());
    }
    svg.begin_label(x, y.saturating_add(98), Anchor::End, SMALL)?;
    if is_master {
        svg.markup(b"master ")?;
    }
    if !is_short {
        svg.number(id.attempt.app.number)?;
        svg.markup(b".")?;
    }
    svg.number(id.attempt.number)?;
    svg.markup(b".")?;
    svg.number(id.seq)?;
    svg.end_label()
}

/// How wide such a name is at most.
fn name_width(id: ContainerId, is_master: bool, is_short: bool) -> Tenths {
    let master = if is_master { 7 } else { 0 };
    let app = if is_short {
        0
    } else {
        digits(u64::from(id.attempt.app.number)).saturating_add(1)
    };
    let own = digits(u64::from(id.attempt.number)).saturating_add(digits(id.seq));
    width_of(
        own.saturating_add(app)
            .saturating_add(master)
            .saturating_add(2),
        60,
    )
}

fn digits(number: u64) -> usize {
    let mut buffer = Buffer::new();
    buffer.format(number).len()
}

/// How many containers there are on a node, along the page. The answer is where they end.
fn draw_counts(
    alloc: Global,
    svg: &mut Svg,
    scene: &Scene,
    places: &[usize],
    top: Tenths,
) -> Result<Tenths, NoMemory> {
    let counts = count_along(alloc, scene, places)?;
    let most = greatest_of(counts.as_slice());
    let base = top.saturating_add(COUNT_HEIGHT);
    let mut x = LEFT;
    let mut start = LEFT;
    let mut last = NONE;
    'counts: for count in counts.as_slice() {
        if !count.is_same(last) {
            draw_count(svg, start, x, base, last, most)?;
            start = x;
            last = *count;
        }
        x = x.saturating_add(COUNT_WIDTH);
    }
    draw_count(svg, start, x, base, last, most)?;
    draw_handings(svg, scene, places, top, base)?;
    svg.begin_label(
        LEFT.saturating_sub(40),
        top.saturating_add(100),
        Anchor::End,
        SMALL,
    )?;
    svg.number(most)?;
    svg.end_label()?;
    Ok(base.saturating_add(60))
}

/// A tick across the counts of a node wherever containers of it are handed over.
fn draw_handings(
    svg: &mut Svg,
    scene: &Scene,
    places: &[usize],
    top: Tenths,
    base: Tenths,
) -> Result<(), NoMemory> {
    let mut drawn = None;
    'places: for place in places {
        if let Some((_, bar)) = scene.bars.get_index(*place) {
            'handings: for handing in bar.handings.as_slice() {
                if drawn != Some(handing.line) {
                    draw_handing_tick(svg, x_of(scene, handing.line), top, base)?;
                    drawn = Some(handing.line);
                }
            }
        }
    }
    Ok(())
}

/// The greatest total of all counts.
fn greatest_of(counts: &[Count]) -> u64 {
    let mut most: u64 = 0;
    'counts: for count in counts {
        most = most.max(count.total());
    }
    most
}

/// How many of these containers there are in each stretch of the page.
fn count_along(alloc: Global, scene: &Scene, places: &[usize]) -> Result<Vec<Count>, NoMemory> {
    let mut counts = Vec::with_capacity(alloc, COUNTS)?;
    'counts: for _count in 0..COUNTS {
        counts.push(NONE)?;
    }
    'places: for place in places {
        if let Some((id, bar)) = scene.bars.get_index(*place) {
            let is_master = scene.masters.get(id).is_some();
            'stretches: for stretch in bar.stretches.as_slice() {
                add_stretch(&mut counts, scene, stretch, is_master);
            }
        }
    }
    Ok(counts)
}

fn add_stretch(counts: &mut Vec<Count>, scene: &Scene, stretch: &Stretch, is_master: bool) {
    let from = place_of(x_of(scene, stretch.from));
    let to = place_of(x_of(scene, stretch.to)).max(from.saturating_add(1));
    'counts: for place in from..to {
        if let Some(count) = counts.get_mut(place) {
            count.add(is_master, stretch.is_heard);
        }
    }
}

/// In which stretch of the page a place is.
fn place_of(x: Tenths) -> usize {
    (x.saturating_sub(LEFT) / COUNT_WIDTH) as usize
}

/// Draws a count from one place to another: masters at the bottom, others above them, and on top those of which the life hasn't
/// heard.
fn draw_count(
    svg: &mut Svg,
    from: Tenths,
    to: Tenths,
    base: Tenths,
    count: Count,
    most: u64,
) -> Result<(), NoMemory> {
    let masters = height_of(u64::from(count.masters), most);
    let others = height_of(u64::from(count.others), most);
    let unheard = height_of(u64::from(count.unheard), most);
    let width = to.saturating_sub(from);
    let y = draw_part(svg, from, base, width, masters, COUNTED_MASTERS)?;
    let y = draw_part(svg, from, y, width, others, COUNTED_OTHERS)?;
    draw_part(svg, from, y, width, unheard, COUNTED_UNHEARD)?;
    Ok(())
}

/// Draws a part of a count above a height. The answer is where it ends.
fn draw_part(
    svg: &mut Svg,
    x: Tenths,
    base: Tenths,
    width: Tenths,
    height: Tenths,
    style: &[u8],
) -> Result<Tenths, NoMemory> {
    let y = base.saturating_sub(height);
    if height > 0 {
        let frame = Frame {
            x,
            y,
            width,
            height,
        };
        svg.rectangle(frame, style)?;
    }
    Ok(y)
}

fn height_of(count: u64, most: u64) -> Tenths {
    count.saturating_mul(COUNT_HEIGHT) / most.max(1)
}
