// What a limit of a geometry asks for, and the numbers that break it.
use stair_conf::Job;
use std::alloc::Global;
use toml::{Table, Value};

// A longer `e` breaks limit 4, whose message has its length.
const MOST: usize = 32;

/// The numbers of a geometry as they were given.
#[derive(Clone, Copy, Debug, Drop)]
pub(crate) struct GivenNumbers {
    n: u64,
    m: u64,
    r: u64,
    stripes: u64,
    // How many entries e has, and the first ones.
    classes: usize,
    e: [u64; MOST],
    large: bool,
}

/// Returns the numbers of a geometry in a command line, or `None` if it has none.
pub(crate) fn numbers_of(job: &Job) -> Option<GivenNumbers> {
    match job {
        Job::OneStripe { n, m, r, e, .. } | Job::Plan { n, m, r, e } => Some(GivenNumbers {
            n: *n,
            m: *m,
            r: *r,
            stripes: 1,
            classes: e.as_slice().len(),
            e: first_of(e.as_slice()),
            large: false,
        }),
        _ => None,
    }
}

/// Returns the numbers of a geometry text, or `None` if one is missing.
pub(crate) fn numbers_in(alloc: Global, text: &[u8]) -> Option<GivenNumbers> {
    let text = str::from_utf8(text).ok()?;
    let table = toml::table_from_str(alloc, text).ok()?;
    let e = entries_at(alloc, &table)?;
    Some(GivenNumbers {
        n: number_at(&table, "n")?,
        m: number_at(&table, "m")?,
        r: number_at(&table, "r")?,
        stripes: number_at(&table, "stripes")?,
        classes: e.len(),
        e: first_of(e.as_slice()),
        large: says_large(&table),
    })
}

fn number_at(table: &Table, key: &str) -> Option<u64> {
    whole_number(table.get(key)?)
}

fn entries_at(alloc: Global, table: &Table) -> Option<Vec<u64>> {
    let values = table.get("e")?.as_array()?;
    let mut entries = Vec::new(alloc);
    for value in values {
        entries.push(whole_number(value)?).ok()?;
    }
    Some(entries)
}

fn whole_number(value: &Value) -> Option<u64> {
    u64::try_from(value.as_integer()?).ok()
}

fn says_large(table: &Table) -> bool {
    match table.get("large") {
        Some(value) => value.as_bool().unwrap_or(false),
        None => false,
    }
}

fn first_of(entries: &[u64]) -> [u64; MOST] {
    let mut first = [0; MOST];
    for (to, entry) in first.iter_mut().zip(entries) {
        *to = *entry;
    }
    first
}

/// Reports what this limit asks for, and the numbers that break it.
pub(crate) fn report_limit(rt: &HostRuntime, limit: u8, given: &GivenNumbers) {
    let GivenNumbers {
        n,
        m,
        r,
        stripes,
        classes,
        ..
    } = *given;
    let e = given.e.get(..classes).unwrap_or(&[]);
    let _ = match limit {
        1 => eprintln!(rt; "geometry: 3 <= n <= 32 is needed: n = {n}"),
        2 => eprintln!(rt; "geometry: m >= 1 is needed: m = {m}"),
        3 => eprintln!(rt; "geometry: n > 2m is needed: n = {n}, m = {m}"),
        4 => eprintln!(rt;
            "geometry: 1 to n-m entries of e are needed: n = {n}, m = {m}, entries of e = {classes}"
        ),
        5 => eprintln!(rt; "geometry: 1 <= r <= 32 is needed: r = {r}"),
        6 => eprintln!(rt;
            "geometry: entries of e from 1 to r are needed, none below the one before: r = {r}, e = {e:?}"
        ),
        7 => eprintln!(rt;
            "geometry: r(n-m) > sum(e) is needed: n = {n}, m = {m}, r = {r}, e = {e:?}"
        ),
        _ if given.large => eprintln!(rt;
            "geometry: stripes >= 1 and 3 + n*r + r*stripes <= 4294967295 are needed: n = {n}, r = {r}, stripes = {stripes}"
        ),
        _ => eprintln!(rt;
            "geometry: 1 <= stripes <= 65536 and n*r*stripes <= 4194304 are needed: n = {n}, r = {r}, stripes = {stripes}"
        ),
    };
}

/// Reports how to write a geometry text of an array with more stripes.
pub(crate) fn report_large(rt: &HostRuntime) {
    let _ = eprintln!(rt;
        "geometry: with `large = true` limit 8 is 3 + n*r + r*stripes <= 4294967295"
    );
}
