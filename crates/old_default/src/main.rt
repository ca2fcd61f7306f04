// old_default: reads one old sheet from standard input, in which method 0 stood for M, and writes its clean sheet to standard output with method 1
// in place of 0, or for a sheet that was refused then the record of that refusal; nothing more. Where the input cannot be read, or the sheet
// cannot be written, it says so in words on standard error.
#![tactic(auto)]

use replies::Reply;

fn main(rt: HostRuntime) {
    let mut out = [0u8; clean_sheets::LONGEST_SHEET];
    programs::run(
        &mut rt.stdin(),
        &mut rt.stdout(),
        &mut rt.stderr(),
        Reply::ChangedSheet,
        &mut out,
        b"old_default: standard input cannot be read; give it a sheet, as in: old_default < old.csv\n",
        b"old_default: the sheet cannot be written to standard output\n",
    );
}
