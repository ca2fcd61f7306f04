// zeroin: reads one trial sheet from standard input and writes one record to standard output, nothing more. Where the input cannot be
// read, or the record cannot be written, it says so in words on standard error.
#![tactic(auto)]

use replies::Reply;

fn main(rt: HostRuntime) {
    let mut out = [0u8; printing::LONGEST_RECORD];
    programs::run(
        &mut rt.stdin(),
        &mut rt.stdout(),
        &mut rt.stderr(),
        Reply::Record,
        &mut out,
        b"zeroin: standard input cannot be read; give it a sheet, as in: zeroin < sheet.csv\n",
        b"zeroin: the record cannot be written to standard output\n",
    );
}
