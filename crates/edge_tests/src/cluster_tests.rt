//! What no clause says: that calls succeed, and what files are read as, by hand.
use crate::helpers::{append, bytes_of, chain, shows, wants, wants_in};
use rm_cluster::*;
use rm_types::Settings;
use std::alloc::Global;
use std::fmt::Display;
use std::process::Abort;

const DEFAULTS: &str =
    "Settings { max_attempts: 2, max_completed: 1000, max_apps: 10000, wait_ms: 10000, recover_ended_containers: false, acl_enable: false, admin_acl: Text { shared: Some([42]) }, greatest: Resource { memory_mb: 8192, vcores: 8 }, groups: Items { list: [] }, queues: Items { list: [QueueSpec { name: Text { shared: Some([114, 111, 111, 116]) }, submit: None, admin: None }, QueueSpec { name: Text { shared: Some([114, 111, 111, 116, 46, 100, 101, 102, 97, 117, 108, 116]) }, submit: None, admin: None }] } }";

/// The place at which the file is refused, or none where it is read; `u32::MAX` where there is no memory.
fn place_of(alloc: Global, file: &[u8]) -> Option<u32> {
    match read_cluster(alloc, file) {
        Ok(_settings) => None,
        Err(ClusterError::Refused { place }) => Some(place),
        Err(ClusterError::Memory) => Some(u32::MAX),
    }
}

/// The settings of a file that is read.
fn settings_of<R: Abort + AllocGlobal>(rt: &R, file: &[u8]) -> Settings {
    read_cluster(rt.alloc(), file).expect(rt, "the file is read")
}

/// The number whose rule has this place.
fn number_at(settings: &Settings, place: u32) -> u64 {
    match place {
        3 => u64::from(settings.max_attempts),
        4 => u64::from(settings.max_completed),
        5 => u64::from(settings.max_apps),
        6 => settings.wait_ms,
        9 => u64::from(settings.greatest.memory_mb),
        _ => u64::from(settings.greatest.vcores),
    }
}

/// Files with an empty object.
const EMPTY: [&str; 3] = ["{}", "{}\n", " {\r\n\t} "];

#[test]
fn an_empty_object_has_the_defaults(rt: HostRuntime) {
    for file in EMPTY.as_slice() {
        shows(&rt, &settings_of(&rt, file.as_bytes()), DEFAULTS);
    }
}

/// The place of a number's rule, its key, a number below its range, its least and its greatest number,
/// and one above its range.
const NUMBERS: [(u32, &str, &str, u64, u64, &str); 6] = [
    (3, "max_attempts", "0", 1, 100, "101"),
    (4, "max_completed", "-1", 0, 10_000, "10001"),
    (5, "max_apps", "0", 1, 100_000, "100001"),
    (6, "wait_ms", "-1", 0, 1_000_000_000, "1000000001"),
    (9, "max_memory_mb", "0", 1, 16_777_216, "16777217"),
    (10, "max_vcores", "0", 1, 256, "257"),
];

/// A file that gives a key this value.
fn file_of<R: Abort + AllocGlobal, V: Display + Drop>(rt: &R, key: &str, value: V) -> String {
    format!(in rt.alloc(); "{{\"{key}\": {value}}}").expect(rt, "memory")
}

/// Sees that a number within its range is taken.
fn takes<R: Abort + AllocGlobal>(rt: &R, place: u32, key: &str, number: u64) {
    let file = file_of(rt, key, number);
    let settings = settings_of(rt, file.as_bytes());
    wants_in(rt, key, number_at(&settings, place) == number);
}

/// Sees that a number out of its range is refused.
fn refuses<R: Abort + AllocGlobal>(rt: &R, place: u32, key: &str, number: &str) {
    let file = file_of(rt, key, number);
    see_place(rt, file.as_str(), place);
}

#[test]
fn each_number_has_its_range(rt: HostRuntime) {
    for (place, key, below, least, greatest, above) in NUMBERS.as_slice() {
        takes(&rt, *place, key, *least);
        takes(&rt, *place, key, *greatest);
        refuses(&rt, *place, key, below);
        refuses(&rt, *place, key, above);
    }
}

/// Files, and the places of the rules that they break.
const FILES: [(&str, u32); 50] = [
    ("", 1),
    ("{", 1),
    ("{}{}", 1),
    ("{\"wait_ms\":1,}", 1),
    ("[]", 2),
    ("null", 2),
    ("{\"max_attempt\":3}", 2),
    ("{\"\":3}", 2),
    ("{\"max_attempts\":\"3\"}", 3),
    ("{\"max_attempts\":null}", 3),
    ("{\"max_completed\":-0}", 4),
    ("{\"max_completed\":1e2}", 4),
    ("{\"max_apps\":-5}", 5),
    ("{\"wait_ms\":1.5}", 6),
    ("{\"wait_ms\":18446744073709551616}", 6),
    ("{\"acl_enable\":\"true\"}", 7),
    ("{\"acl_enable\":0}", 7),
    ("{\"admin_acl\":[]}", 8),
    ("{\"admin_acl\":\"a\\nb\"}", 8),
    ("{\"max_memory_mb\":true}", 9),
    ("{\"max_vcores\":{}}", 10),
    ("{\"groups\":[]}", 11),
    ("{\"groups\":{\"a b\":[]}}", 11),
    ("{\"groups\":{\"\":[]}}", 11),
    ("{\"groups\":{\"a:b\":[]}}", 11),
    ("{\"groups\":{\"ann\":\"staff\"}}", 11),
    ("{\"groups\":{\"ann\":[\"staff\",\"a/b\"]}}", 11),
    ("{\"groups\":{\"ann\":[\"staff\",1]}}", 11),
    ("{\"queues\":[]}", 12),
    ("{\"queues\":null}", 12),
    ("{\"queues\":{\"name\":\"root\"}}", 12),
    ("{\"queues\":[{}]}", 12),
    ("{\"queues\":[{\"name\":\"top\"}]}", 12),
    ("{\"queues\":[{\"name\":\"root\",\"lists\":1}]}", 12),
    ("{\"queues\":[{\"name\":\"root\",\"submit\":1}]}", 12),
    ("{\"queues\":[{\"name\":\"root\",\"admin\":\"a\\nb\"}]}", 12),
    ("{\"queues\":[{\"name\":\"root\"},{\"name\":\"root\"}]}", 12),
    (
        "{\"queues\":[{\"name\":\"root\"},{\"name\":\"root.a.b\"}]}",
        12,
    ),
    (
        "{\"queues\":[{\"name\":\"root.a\"},{\"name\":\"root\"}]}",
        12,
    ),
    (
        "{\"queues\":[{\"name\":\"root\"},{\"name\":\"root.\"}]}",
        12,
    ),
    (
        "{\"queues\":[{\"name\":\"root\"},{\"name\":\"rootA\"}]}",
        12,
    ),
    (
        "{\"queues\":[{\"name\":\"root\"},{\"name\":\"root.A\"}]}",
        12,
    ),
    ("{\"recover_ended_containers\":null}", 13),
    ("{\"recover_ended_containers\":\"true\"}", 13),
    ("{\"recover_ended_containers\":1}", 13),
    // Of several rules that are broken the first counts, wherever its key stands.
    (
        "{\"queues\":[],\"groups\":[],\"max_vcores\":0,\"wait_ms\":-1}",
        6,
    ),
    ("{\"acl_enable\":true,\"max_attempts\":0}", 3),
    ("{\"recover_ended_containers\":0,\"queues\":[]}", 12),
    ("{\"wait_ms\":-1,\"max_apps\":0}", 5),
    ("{\"max_attempts\":0,\"attempts\":1}", 2),
];

/// Files, and whether what ended while no manager stood is recovered by them. Of a key that stands twice the last value counts.
const RECOVERING: [(&str, bool); 5] = [
    ("{}", false),
    ("{\"recover_ended_containers\":false}", false),
    ("{\"recover_ended_containers\":true}", true),
    (
        "{\"recover_ended_containers\":true,\"recover_ended_containers\":false}",
        false,
    ),
    (
        "{\"recover_ended_containers\":null,\"recover_ended_containers\":true}",
        true,
    ),
];

/// Sees that the file sets that so.
fn see_recovering<R: Abort + AllocGlobal>(rt: &R, file: &str, is_set: bool) {
    let settings = settings_of(rt, file.as_bytes());
    wants_in(rt, file, settings.recover_ended_containers == is_set);
    wants_in(rt, file, !settings.acl_enable);
}

#[test]
fn ended_containers_are_recovered_where_the_key_is_true(rt: HostRuntime) {
    for (file, is_set) in RECOVERING {
        see_recovering(&rt, file, is_set);
    }
}

/// Sees that the file is refused at this place.
fn see_place<R: Abort + AllocGlobal>(rt: &R, file: &str, place: u32) {
    wants_in(
        rt,
        file,
        place_of(rt.alloc(), file.as_bytes()) == Some(place),
    );
}

#[test]
fn each_rule_has_its_place(rt: HostRuntime) {
    for (file, place) in FILES.as_slice() {
        see_place(&rt, file, *place);
    }
    let no_text = place_of(rt.alloc(), b"{\"admin_acl\":\"\xff\"}");
    wants(&rt, no_text == Some(1));
}

#[test]
fn each_key_sets_its_own_part(rt: HostRuntime) {
    // Members count in the order of their keys, and of a key that stands twice the last value counts.
    let file = b"{\"max_attempts\":3, \"max_completed\":4, \"max_apps\":5, \"wait_ms\":6,
        \"acl_enable\":false, \"admin_acl\":\"ann staff\", \"max_memory_mb\":9, \"max_vcores\":-1,
        \"groups\":{\"bob\":[], \"ann\":[\"staff\",\"ops-1\",\"staff\"]}, \"max\\u005fvcores\":10}";
    let settings = settings_of(&rt, file);
    for place in [3, 4, 5, 6, 9, 10] {
        wants(&rt, number_at(&settings, place) == u64::from(place));
    }
    wants(&rt, !settings.acl_enable);
    wants(&rt, settings.admin_acl.bytes() == b"ann staff".as_slice());
    wants(&rt, settings.queues.len() == 2);
    shows(
        &rt,
        &settings.groups,
        "Items { list: [UserGroups { user: Text { shared: Some([97, 110, 110]) }, groups: Items { list: [Text { shared: Some([115, 116, 97, 102, 102]) }, Text { shared: Some([111, 112, 115, 45, 49]) }, Text { shared: Some([115, 116, 97, 102, 102]) }] } }, UserGroups { user: Text { shared: Some([98, 111, 98]) }, groups: Items { list: [] } }] }",
    );
}

#[test]
fn queues_have_their_lists(rt: HostRuntime) {
    let file =
        b"{\"acl_enable\":true,\"queues\":[{\"name\":\"root\",\"submit\":\"dave\",\"admin\":\" \"},{\"admin\":\"*\",\"name\":\"root.b\"}]}";
    let settings = settings_of(&rt, file);
    wants(&rt, settings.acl_enable);
    shows(
        &rt,
        &settings.queues,
        "Items { list: [QueueSpec { name: Text { shared: Some([114, 111, 111, 116]) }, submit: Some(Text { shared: Some([100, 97, 118, 101]) }), admin: Some(Text { shared: Some([32]) }) }, QueueSpec { name: Text { shared: Some([114, 111, 111, 116, 46, 98]) }, submit: None, admin: Some(Text { shared: Some([42]) }) }] }",
    );
    let alloc = rt.alloc();
    wants(&rt, place_of(alloc, &chain(&rt, 8)).is_none());
    wants(&rt, place_of(alloc, &chain(&rt, 9)) == Some(12));
}

/// An empty object behind so many spaces.
fn spaced<R: Abort + AllocGlobal>(rt: &R, spaces: usize) -> Vec<u8> {
    let mut file = vec![in rt.alloc(); b' '; spaces].expect(rt, "memory");
    append(rt, &mut file, b"{}");
    file
}

/// An object with an administrators' list of so many letters.
fn listed<R: Abort + AllocGlobal>(rt: &R, letters: usize) -> Vec<u8> {
    let mut file = bytes_of(rt, b"{\"admin_acl\":\"");
    let list = vec![in rt.alloc(); b'a'; letters].expect(rt, "memory");
    append(rt, &mut file, &list);
    append(rt, &mut file, b"\"}");
    file
}

#[test]
fn lengths_have_their_limits(rt: HostRuntime) {
    let alloc = rt.alloc();
    wants(&rt, place_of(alloc, &spaced(&rt, 1_048_574)).is_none());
    wants(&rt, place_of(alloc, &spaced(&rt, 1_048_575)) == Some(1));
    wants(&rt, place_of(alloc, &listed(&rt, 512)).is_none());
    wants(&rt, place_of(alloc, &listed(&rt, 513)) == Some(8));
}
