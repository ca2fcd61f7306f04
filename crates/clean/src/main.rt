// clean: reads one trial sheet from standard input and writes its clean sheet to standard output, or for a refused sheet the record that
// zeroin writes; nothing more. Where the input cannot be read, or the sheet cannot be written, it says so in words on standard error.
#![tactic(auto)]

use replies::Reply;

fn main(rt: HostRuntime) {
    let mut out = [0u8; clean_sheets::LONGEST_SHEET];
    programs::run(
        &mut rt.stdin(),
        &mut rt.stdout(),
        &mut rt.stderr(),
        Reply::CleanSheet,
        &mut out,
        b"clean: standard input cannot be read; give it a sheet, as in: clean < sheet.csv\n",
        b"clean: the sheet cannot be written to standard output\n",
    );
}
