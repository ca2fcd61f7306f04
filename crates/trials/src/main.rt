// trials: reads trials from standard input, each a line that begins with % and then a trial sheet, and prints what is told of it: by the
// reader of sheets; and, where its form is right, by the search over the list of its values, by held searches into which its answers are
// entered in turn, by value and into one's own, and by a replay of the same answers in a mixture of both kinds. After them it prints what
// is told of searches that hold anything, and of a run of calls to a dispatcher.
#![tactic(auto)]

ghost use Rattle.std.specs.Prelude.{ℕ, ◌≤◌, ◌<◌, ◌≡◌, ◌≢◌, length, slice_index};
ghost use Rattle.rules.specs.Rules.{slots};

use forms::Entries;
use held::Search;
use rules::{Opening, Quote, Refusal, Report};
use std::io::{Print, Read, Stdout};

// The trials have no more bytes.
const ENOUGH: usize = 8192;

// ---- printing

// What cannot be written is left out: the gate compares what was.
fn write(to: Stdout, text: &[u8]) {
    let _ = to.write_all(text);
}

fn show(to: Stdout, what: &[u8], report: Report) {
    write(to, what);
    let mut out = [0u8; printing::LONGEST_RECORD];
    let n = printing::write_report(report, &mut out);
    write(to, &out[..n]);
}

fn show_number(to: Stdout, n: u32, end: u8) {
    let _ = print!(to; "{n}");
    write(to, &[end]);
}

fn show_quote(to: Stdout, quote: Result<Quote, Refusal>) {
    match quote {
        Ok(Quote { t, most }) => {
            write(to, b"quote ");
            show_number(to, t, b',');
            show_number(to, most, b'\n');
        }
        Err(Refusal { number, place }) => {
            write(to, b"no quote ");
            show_number(to, number, b',');
            show_number(to, place, b'\n');
        }
    }
}

// The byte after the number at a place: a row is a line.
fn end_after(i: usize) -> u8 {
    if i % replay::NUMBERS_EACH == replay::NUMBERS_EACH - 1 {
        b'\n'
    } else {
        b','
    }
}

fn show_rows(to: Stdout, rows: &[u32]) {
    for (i, n) in rows.iter().enumerate() {
        show_number(to, *n, end_after(i));
    }
}

// ---- calls

// A fresh search, and each answer entered in turn, by one kind of call.
fn step_through(to: Stdout, what: &[u8], kind: u8, opening: Opening, points: &[i32], values: &[i32])
    requires { length points.now ≡ length values.now }
{
    let begun = Search::fresh(opening);
    let mut search = begun.search;
    let opened = begun.report;
    show(to, what, opened);
    for i in 0..values.len() {
        let entered = calls::call(kind, search, points[i], values[i]);
        let report = entered.report;
        show(to, what, report);
        let next = entered.search;
        search = next;
    }
}

// The same answers in a mixture of calls; rows that are not written keep their nines.
fn run(to: Stdout, opening: Opening, points: &[i32], values: &[i32])
    requires { length values.now ≤ slots }
{
    let mut kinds = [1u8; rules::SLOTS];
    kinds[1] = 0;
    kinds[3] = 0;
    kinds[4] = 0;
    let mut rows = [9u32; rules::SLOTS * replay::NUMBERS_EACH];
    let told = replay::replay(opening, &kinds, points, values, &mut rows);
    let opened = told.opened;
    show(to, b"replay ", opened);
    let n = values.len();
    show_rows(to, &rows[..replay::NUMBERS_EACH * n]);
    let search = told.search;
    show(to, b"after it ", search.report());
}

fn call_all(to: Stdout, opening: Opening, points: &[i32], values: &[i32])
    requires { (length points.now ≡ length values.now) × (length values.now ≤ slots) }
{
    show_quote(to, search::quote(opening));
    show(to, b"list ", search::report_on(opening, values));
    step_through(to, b"value ", 0, opening, points, values);
    step_through(to, b"into ", 1, opening, points, values);
    run(to, opening, points, values);
}

// ---- trials

// The calls that a sheet of the right form stands for.
fn try_entries(to: Stdout, entries: Entries) {
    let n = entries.count as usize;
    let points = entries.points;
    let values = entries.values;
    if n <= rules::SLOTS {
        call_all(to, entries.opening, &points[..n], &values[..n]);
    }
}

fn try_sheet(to: Stdout, text: &[u8]) {
    let outcome = sheet::read_sheet(text);
    let report = outcome.report;
    show(to, b"sheet ", report);
    let entries = records::read_records(text);
    if entries.form.is_ok() {
        try_entries(to, entries);
    }
}

// The place of the first such byte from `from` on, or the text's length where there is none.
fn find(text: &[u8], from: usize, byte: u8) -> usize
    requires { from ≤ length text.now }
    ensures from { from ≤ result }
    ensures within { result ≤ length text.now }
    ensures before { (k : ℕ) → from ≤ k → k < result → slice_index text.now k ≢ byte }
    ensures found { result < length text.now → slice_index text.now result ≡ byte }
{
    for i in from..text.len() {
        if text[i] == byte {
            return i;
        }
    }
    text.len()
}

// A line, and the sheet after it.
fn try_one(to: Stdout, trial: &[u8]) {
    let line = find(trial, 0, b'\n');
    write(to, &trial[..line]);
    write(to, b"\n");
    if line < trial.len() {
        try_sheet(to, &trial[line + 1..]);
    }
}

// Each trial, from its % to the next.
fn try_each(to: Stdout, text: &[u8]) {
    let mut rest = text;
    while rest.len() > 0 {
        let n = find(rest, 1, b'%');
        try_one(to, &rest[..n]);
        rest = &rest[n..];
    }
}

// A search with a count and fives in all its slots: its report, and an answer offered to it.
fn try_junk(to: Stdout, count: u32) {
    let search = Search {
        opening: Opening {
            method: 1,
            first: 0,
            second: 100,
            tolerance: 1,
            share: 0,
        },
        count,
        slots: [5; rules::SLOTS],
    };
    show(to, b"held ", search.report());
    let entered = search.enter(100, -7);
    let report = entered.report;
    show(to, b"value ", report);
}

// Eleven calls to a dispatcher, by kind, dryer and numbers: openings for dryers 4, 1 and 2; an answer out of turn, one at another point, and
// one for dryer 1, which has the turn; openings for an unfinished search, with a share of 101, and for dryer 6; answers for dryers 2 and 4.
const KINDS: [u8; 11] = [0, 0, 0, 1, 1, 1, 0, 0, 0, 1, 1];

const DRYERS: [u32; 11] = [4, 1, 2, 4, 1, 1, 1, 0, 6, 2, 4];

const NUMBERS: [i32; 55] = [
    1, 0, 100, 1, 0, 1, 0, 100, 1, 0, 1, 0, 100, 1, 20, 0, 1, 0, 0, 0, 7, 1, 0, 0, 0, 0, 1, 0, 0,
    0, 1, 0, 100, 1, 0, 1, 0, 100, 1, 101, 1, 0, 100, 1, 0, 0, 1, 0, 0, 0, 0, 1, 0, 0, 0,
];

// The reports of these calls to a fresh dispatcher, as far as there is room for ten; then the last served, the six counts, and whose turn it is.
fn try_dispatcher(to: Stdout) {
    let kinds = KINDS;
    let dryers = DRYERS;
    let numbers = NUMBERS;
    let mut rows = [9u32; 10 * dispatch_runs::NUMBERS_EACH];
    let fresh = dispatch::fresh();
    let after = dispatch_runs::make_calls(fresh, &kinds, &dryers, &numbers, &mut rows);
    show_rows(to, &rows);
    let counts = after.counts;
    show_rows(
        to,
        &[
            after.last,
            counts[0],
            counts[1],
            counts[2],
            counts[3],
            counts[4],
            counts[5],
            dispatch_numbers::step_turn(after),
        ],
    );
}

// Reads until the buffer is full, the input ends or a read fails, and answers how many bytes were read.
fn read_full<R: Read>(from: &mut R, buf: &mut [u8]) -> usize
    ensures { result ≤ length buf.new }
{
    let mut done: usize = 0;
    while done < buf.len() {
        match from.read(&mut buf[done..]) {
            Ok(0) => return done,
            Ok(n) => done += n,
            Err(_) => return done,
        }
    }
    done
}

fn main(rt: HostRuntime) {
    let to = rt.stdout();
    let mut text = [0u8; ENOUGH];
    let n = read_full(&mut rt.stdin(), &mut text);
    try_each(to, &text[..n]);
    write(
        to,
        b"% slots that hold fives, by counts of one more than the slots, of all of them, 2 and 1\n",
    );
    try_junk(to, rules::SLOTS as u32 + 1);
    try_junk(to, rules::SLOTS as u32);
    try_junk(to, 2);
    try_junk(to, 1);
    write(
        to,
        b"% calls to a dispatcher, the last served, the counts and the turn\n",
    );
    try_dispatcher(to);
}
