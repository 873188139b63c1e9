//! What a picture has: a row for each node, and no more than a screen can show.
use crate::helpers::{append, has_text, repeated, wants_in};
use crate::pages::{KEPT, RUN};
use rm_page_reader::PageError;
use rm_report::chart::draw;
use std::process::Abort;

/// How many containers a large page grants, on two nodes.
const MANY: usize = 3_000;

/// How often a text stands in bytes.
fn count_of(bytes: &[u8], text: &[u8]) -> usize {
    let mut count: usize = 0;
    for place in 0..bytes.len() {
        if let Some(rest) = bytes.get(place..) {
            if rest.starts_with(text) {
                count = count.saturating_add(1);
            }
        }
    }
    count
}

/// A page that grants these containers, one after another.
fn page_of_many<R: Abort + AllocGlobal>(rt: &R) -> Vec<u8> {
    let mut page = Vec::new(rt.alloc());
    append(rt, &mut page, b"opened landed=0 epoch=0 stamp=7\n");
    for number in 1..MANY + 1 {
        let node = number % 2 + 1;
        let line = format!(in rt.alloc();
            "pass n{node} grants=[container_7_0001_01_{number:06}]\n"
        ).expect(rt, "memory");
        append(rt, &mut page, line.as_bytes());
    }
    append(rt, &mut page, b"down\n");
    page
}

#[test]
fn draws_a_run(rt: HostRuntime) {
    let picture = draw(rt.alloc(), RUN.as_bytes()).expect(&rt, "a page");
    let bytes = picture.as_slice();
    wants_in(
        &rt,
        "its beginning",
        bytes.starts_with(b"<svg xmlns=\"http://www.w3.org/2000/svg\" viewBox=\"0 0 1120 "),
    );
    wants_in(&rt, "its end", bytes.ends_with(b"</svg>\n"));
    for text in [
        "<title id=\"title\">2 lives of the manager: 1 job, 2 containers on 2 nodes</title>",
        ">node n1<",
        ">node n2<",
        ">1 container<",
        ">crash<",
        "life 2, epoch 1",
    ] {
        has_text(&rt, bytes, text);
    }
}

#[test]
fn draws_what_is_handed_over(rt: HostRuntime) {
    let picture = draw(rt.alloc(), KEPT.as_bytes()).expect(&rt, "a page");
    let bytes = picture.as_slice();
    has_text(&rt, bytes, ">to attempt 2<");
    has_text(&rt, bytes, ">handed to a later attempt<");
    let ticks = count_of(bytes, b"stroke=\"#6a1b9a\" stroke-width=\"3\"");
    wants_in(&rt, "two containers and the legend", ticks == 3);
    let other = draw(rt.alloc(), RUN.as_bytes()).expect(&rt, "a page");
    wants_in(
        &rt,
        "no other picture has it",
        count_of(other.as_slice(), b"attempt 2") == 0,
    );
}

#[test]
fn draws_counts_of_many(rt: HostRuntime) {
    let page = page_of_many(&rt);
    let picture = draw(rt.alloc(), page.as_slice()).expect(&rt, "a page");
    has_text(&rt, picture.as_slice(), ">1500 containers<");
    has_text(&rt, picture.as_slice(), ">node n2<");
    wants_in(&rt, "its size", picture.len() < 200_000);
}

#[test]
fn draws_pages_that_tell_no_run(rt: HostRuntime) {
    for page in [
        "",
        "settled\n",
        "soak 1 lives=1 served=10 grants=2 finished=1 kept=5\n",
        "kept epoch next=1 stamp=1\n",
    ] {
        let picture = draw(rt.alloc(), page.as_bytes()).expect(&rt, page);
        wants_in(&rt, page, picture.as_slice().ends_with(b"</svg>\n"));
    }
    let line = repeated(&rt, b"a", 1_000);
    let is_refused = matches!(
        draw(rt.alloc(), line.as_slice()),
        Err(PageError::NotAPage { line: 1 })
    );
    wants_in(&rt, "a foreign line", is_refused);
}
