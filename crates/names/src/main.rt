// Makes a glossary block of the names on standard input, one a line, writes it to `names.glo`, reads it back and
// prints each label with its name and the size of the block. A bad list is told on standard error, and nothing is written.
#![tactic(auto)]

use anyhow::anyhow;
use name_list::{complaint, lines, listing, write_block};
use refusal::{Cause, Refusal};
use std::alloc::Global;
use std::fs;
use std::io::{Read, Write};
use std::process::ExitCode;

const FILE: &str = "names.glo";

// What the program tells of a refusal, where `?` alone would tell the reply and not the line of the list. A program's errors are text, as `anyhow` has
// it.
fn told(heap: Global, refusal: Refusal) -> anyhow::Error {
    match complaint(heap, refusal) {
        Ok(text) => anyhow!("{text}"),
        Err(_) => anyhow!("{}", Cause::NoMemory),
    }
}

// From the list to the file, and from the file to the listing.
fn run(rt: &HostRuntime) -> anyhow::Result<()> {
    let heap = rt.alloc();
    let mut text = Vec::new(heap);
    rt.stdin().read_to_end(&mut text)?;
    let names = lines(heap, &text)?;
    let block = write_block(heap, &names).map_err(|refusal| told(heap, refusal))?;
    fs::write(rt, FILE, &block)?;
    let stored = fs::read(rt, FILE)?;
    let shown = listing(heap, &stored).map_err(|refusal| told(heap, refusal))?;
    rt.stdout().write_all(&shown)?;
    Ok(())
}

fn main(rt: HostRuntime) -> ExitCode {
    match run(&rt) {
        Ok(()) => ExitCode::SUCCESS,
        Err(error) => {
            let _ = eprintln!(rt; "names: {error}");
            ExitCode::FAILURE
        }
    }
}
